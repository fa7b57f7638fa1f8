//! The kinds of records.

/// The kinds of records, in the order in which they are listed.
#[derive(Clone, Copy, PartialEq, Eq, PartialOrd, Ord, Debug)]
pub enum Kind {
    Switch,
    Router,
    RouterPort,
    SwitchPort,
    AddressSet,
    PortGroup,
    Acl,
    Route,
    Nat,
    LoadBalancer,
    StaticMac,
}
