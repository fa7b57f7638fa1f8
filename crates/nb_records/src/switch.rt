//! Logical switches and their ports.
ghost use Rattle.std.specs.Prelude.{◌≡◌, IfOk};
ghost use Rattle.nb_records.specs.Switches.{is_virtual_kind};

use ovn_base::address::{Birth, Cidr, Ip4, Mac};
use ovn_base::list::List;
use ovn_base::memory::NoMemory;
use ovn_base::name::Name;

/// A logical switch.
#[derive(Clone, Copy, PartialEq, Eq, Debug)]
pub struct Switch {
    pub name: Name,
    pub birth: Birth,
}

/// What is behind a switch port.
#[derive(Clone, Copy, PartialEq, Eq, Debug)]
pub enum PortKind {
    /// A virtual machine or a container: a virtual port.
    Virtual,
    /// A router, by one of its ports.
    Router,
}

/// An entry of a switch port's addresses.
#[derive(Clone, PartialEq, Eq, Debug, Drop)]
pub enum PortAddress {
    /// An Ethernet address, with the IPv4 addresses that it answers for.
    Ether { mac: Mac, ips: List<Ip4> },
    /// The port also gets what goes to an address that no port of the switch has.
    Unknown,
    /// The Ethernet address of the router port behind the port.
    Router,
}

/// An entry of a switch port's security: an Ethernet address from which it may send, and the IPv4 addresses that go with it.
#[derive(Clone, PartialEq, Eq, Debug, Drop)]
pub struct SecurityEntry {
    pub mac: Mac,
    pub ips: List<Cidr>,
}

/// A port of a switch.
#[derive(Clone, PartialEq, Eq, Debug, Drop)]
pub struct SwitchPort {
    pub name: Name,
    pub birth: Birth,
    /// The name of the port's switch.
    pub switch: Name,
    pub kind: PortKind,
    /// The router port behind a port of kind `Router`.
    pub router_port: Option<Name>,
    pub addresses: List<PortAddress>,
    /// From and to which addresses the port may send and get; all, where the list is empty.
    pub port_security: List<SecurityEntry>,
    pub enabled: bool,
}

impl PortKind {
    /// Whether a virtual machine or a container is behind the port.
    pub fn is_virtual(self) -> bool
        ensures { result ≡ is_virtual_kind self }
    {
        match self {
            PortKind::Virtual => true,
            PortKind::Router => false,
        }
    }
}

impl PortAddress {
    /// An equal entry in memory of its own.
    pub fn copy(&self) -> Result<PortAddress, NoMemory>
        ensures { IfOk result (λ a. a ≡ self.now) }
    {
        match self {
            PortAddress::Ether { mac, ips } => Ok(PortAddress::Ether {
                mac: *mac,
                ips: ips.copy()?,
            }),
            PortAddress::Unknown => Ok(PortAddress::Unknown),
            PortAddress::Router => Ok(PortAddress::Router),
        }
    }
}

impl SecurityEntry {
    /// An equal entry in memory of its own.
    pub fn copy(&self) -> Result<SecurityEntry, NoMemory>
        ensures { IfOk result (λ e. e ≡ self.now) }
    {
        Ok(SecurityEntry {
            mac: self.mac,
            ips: self.ips.copy()?,
        })
    }
}

impl SwitchPort {
    /// An equal port in memory of its own.
    pub fn copy(&self) -> Result<SwitchPort, NoMemory>
        ensures { IfOk result (λ p. p ≡ self.now) }
    {
        Ok(SwitchPort {
            name: self.name,
            birth: self.birth,
            switch: self.switch,
            kind: self.kind,
            router_port: self.router_port,
            addresses: self.addresses.copy()?,
            port_security: self.port_security.copy()?,
            enabled: self.enabled,
        })
    }
}
