//! Load balancers.
ghost use Rattle.std.specs.Prelude.{◌≡◌, IfOk};

use ovn_base::address::{Backend, Birth};
use ovn_base::list::List;
use ovn_base::memory::NoMemory;
use ovn_base::name::Name;

/// The protocol of a balancer.
#[derive(Clone, Copy, PartialEq, Eq, Debug)]
pub enum BalancerProtocol {
    Tcp,
    Udp,
}

/// A virtual address of a balancer, with the backends over which it spreads new connections.
#[derive(Clone, PartialEq, Eq, Debug, Drop)]
pub struct Vip {
    /// The virtual address and its port.
    pub at: Backend,
    pub backends: List<Backend>,
}

/// A load balancer (ovn-nb(5), Load_Balancer).
#[derive(Clone, PartialEq, Eq, Debug, Drop)]
pub struct LoadBalancer {
    pub name: Name,
    pub birth: Birth,
    pub protocol: BalancerProtocol,
    /// In order of address and port, each once.
    pub vips: List<Vip>,
    /// The names of the switches that it serves.
    pub switches: List<Name>,
    /// The names of the routers that it serves.
    pub routers: List<Name>,
}

/// A backend of a balancer that is marked offline.
#[derive(Clone, Copy, PartialEq, Eq, PartialOrd, Ord, Debug)]
pub struct OfflineMark {
    pub balancer: Name,
    pub backend: Backend,
}

impl Vip {
    /// An equal virtual address in memory of its own.
    pub fn copy(&self) -> Result<Vip, NoMemory>
        ensures { IfOk result (λ v. v ≡ self.now) }
    {
        Ok(Vip {
            at: self.at,
            backends: self.backends.copy()?,
        })
    }
}

impl LoadBalancer {
    /// An equal balancer in memory of its own.
    pub fn copy(&self) -> Result<LoadBalancer, NoMemory>
        ensures { IfOk result (λ b. b ≡ self.now) }
    {
        Ok(LoadBalancer {
            name: self.name,
            birth: self.birth,
            protocol: self.protocol,
            vips: self.vips.copy()?,
            switches: self.switches.copy()?,
            routers: self.routers.copy()?,
        })
    }
}
