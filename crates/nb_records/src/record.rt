//! Records of any kind.
ghost use Rattle.std.specs.Prelude.{◌≡◌, IfOk};

use crate::balancer::LoadBalancer;
use crate::router::{Nat, Route, Router, RouterPort, StaticMac};
use crate::rule::{Acl, AddressSet, PortGroup};
use crate::switch::{Switch, SwitchPort};
use ovn_base::memory::NoMemory;

/// A record of any kind.
#[derive(Clone, PartialEq, Eq, Debug, Drop)]
pub enum Record {
    Switch(Switch),
    Router(Router),
    RouterPort(RouterPort),
    SwitchPort(SwitchPort),
    AddressSet(AddressSet),
    PortGroup(PortGroup),
    Acl(Acl),
    Route(Route),
    Nat(Nat),
    LoadBalancer(LoadBalancer),
    StaticMac(StaticMac),
}

impl Record {
    /// An equal record in memory of its own.
    pub fn copy(&self) -> Result<Record, NoMemory>
        ensures { IfOk result (λ r. r ≡ self.now) }
    {
        match self {
            Record::Switch(switch) => Ok(Record::Switch(*switch)),
            Record::Router(router) => Ok(Record::Router(*router)),
            Record::RouterPort(port) => Ok(Record::RouterPort(port.copy()?)),
            Record::SwitchPort(port) => Ok(Record::SwitchPort(port.copy()?)),
            Record::AddressSet(set) => Ok(Record::AddressSet(set.copy()?)),
            Record::PortGroup(group) => Ok(Record::PortGroup(group.copy()?)),
            Record::Acl(rule) => Ok(Record::Acl(rule.copy()?)),
            Record::Route(route) => Ok(Record::Route(*route)),
            Record::Nat(row) => Ok(Record::Nat(*row)),
            Record::LoadBalancer(balancer) => Ok(Record::LoadBalancer(balancer.copy()?)),
            Record::StaticMac(binding) => Ok(Record::StaticMac(*binding)),
        }
    }
}
