//! Logical routers, their ports, routes, translations and neighbours.
ghost use Rattle.std.specs.Prelude.{◌≡◌, IfOk};
ghost use Rattle.nb_records.specs.Routers as spec;

use ovn_base::address::{Birth, Cidr, Ip4, Mac};
use ovn_base::list::List;
use ovn_base::memory::NoMemory;
use ovn_base::name::Name;

/// A logical router.
#[derive(Clone, Copy, PartialEq, Eq, Debug)]
pub struct Router {
    pub name: Name,
    pub birth: Birth,
    /// The chassis of a gateway router; it need not be there. A router without one is distributed.
    pub chassis: Option<Name>,
}

/// A port of a router.
#[derive(Clone, PartialEq, Eq, Debug, Drop)]
pub struct RouterPort {
    pub name: Name,
    pub birth: Birth,
    /// The name of the port's router.
    pub router: Name,
    pub mac: Mac,
    /// Its addresses, each with the length of its network's prefix.
    pub networks: List<Cidr>,
    /// The router port to which it is joined without a switch between.
    pub peer: Option<Name>,
}

/// A static route of a router.
#[derive(Clone, Copy, PartialEq, Eq, Debug)]
pub struct Route {
    pub name: Name,
    pub birth: Birth,
    pub router: Name,
    pub prefix: Cidr,
    pub nexthop: Ip4,
}

/// Which way a NAT row translates.
#[derive(Clone, Copy, PartialEq, Eq, Debug)]
pub enum NatKind {
    /// The source of what leaves.
    Snat,
    /// The destination of what comes.
    Dnat,
    /// Both.
    DnatAndSnat,
}

/// A translation of addresses at a router (a NAT row).
#[derive(Clone, Copy, PartialEq, Eq, Debug)]
pub struct Nat {
    pub name: Name,
    pub birth: Birth,
    pub router: Name,
    pub kind: NatKind,
    pub external_ip: Ip4,
    pub logical_ip: Cidr,
}

/// The Ethernet address of a neighbour of a router port.
#[derive(Clone, Copy, PartialEq, Eq, Debug)]
pub struct StaticMac {
    pub name: Name,
    pub birth: Birth,
    /// The name of the router port.
    pub port: Name,
    pub ip: Ip4,
    pub mac: Mac,
}

impl NatKind {
    /// Whether it translates the sources of what leaves.
    pub fn translates_sources(self) -> bool
        ensures { result ≡ spec.translates_sources self }
    {
        match self {
            NatKind::Snat | NatKind::DnatAndSnat => true,
            NatKind::Dnat => false,
        }
    }

    /// Whether it translates the destinations of what comes.
    pub fn translates_destinations(self) -> bool
        ensures { result ≡ spec.translates_destinations self }
    {
        match self {
            NatKind::Dnat | NatKind::DnatAndSnat => true,
            NatKind::Snat => false,
        }
    }
}

impl RouterPort {
    /// An equal port in memory of its own.
    pub fn copy(&self) -> Result<RouterPort, NoMemory>
        ensures { IfOk result (λ p. p ≡ self.now) }
    {
        Ok(RouterPort {
            name: self.name,
            birth: self.birth,
            router: self.router,
            mac: self.mac,
            networks: self.networks.copy()?,
            peer: self.peer,
        })
    }
}
