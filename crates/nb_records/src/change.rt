//! The operations of an edit.
ghost use Rattle.std.specs.Prelude.{◌≡◌, IfOk};

use crate::balancer::Vip;
use crate::kinds::Kind;
use crate::record::Record;
use crate::rule::{RuleAction, SetEntry};
use crate::switch::{PortAddress, SecurityEntry};
use match_language::expr::Expr;
use ovn_base::address::{Backend, Cidr, Ip4, Mac};
use ovn_base::list::List;
use ovn_base::memory::NoMemory;
use ovn_base::name::Name;

/// New values for fields of a record of one kind: those that `set` may give. A field that is `None` stays as it is.
#[derive(Clone, PartialEq, Eq, Debug, Drop)]
pub enum Change {
    Switch,
    Router,
    RouterPort {
        mac: Option<Mac>,
        networks: Option<List<Cidr>>,
        peer: Option<Name>,
    },
    SwitchPort {
        addresses: Option<List<PortAddress>>,
        port_security: Option<List<SecurityEntry>>,
        enabled: Option<bool>,
    },
    AddressSet {
        addresses: Option<List<SetEntry>>,
    },
    PortGroup {
        ports: Option<List<Name>>,
    },
    Acl {
        priority: Option<u16>,
        matching: Option<Expr>,
        action: Option<RuleAction>,
    },
    Route {
        prefix: Option<Cidr>,
        nexthop: Option<Ip4>,
    },
    Nat {
        external_ip: Option<Ip4>,
        logical_ip: Option<Cidr>,
    },
    LoadBalancer {
        vips: Option<List<Vip>>,
        switches: Option<List<Name>>,
        routers: Option<List<Name>>,
    },
    StaticMac {
        ip: Option<Ip4>,
        mac: Option<Mac>,
    },
}

/// An operation of an edit.
#[derive(Clone, PartialEq, Eq, Debug, Drop)]
pub enum Op {
    /// The record comes. Its birth is set when the edit is taken.
    Add(Record),
    /// The record's fields change.
    Set {
        kind: Kind,
        name: Name,
        change: Change,
    },
    /// The record goes.
    Remove {
        kind: Kind,
        name: Name,
    },
    /// The backend is marked online or offline. No edit holds it; the event `health` is planned as one.
    Health {
        balancer: Name,
        backend: Backend,
        online: bool,
    },
}
