use ovn_base::address::Ip4;
use ovn_base::name::Name;

/// A part of the network that has rows of its own. Units are in the order of the variants, and then of their fields.
#[derive(Clone, Copy, PartialEq, Eq, PartialOrd, Ord, Hash, Debug)]
pub enum UnitId {
    /// A port of a switch or of a router.
    Port(Name),
    /// A rule on a switch to which it applies.
    Rule { rule: Name, switch: Name },
    /// A static route.
    Route(Name),
    /// An address that a router's port reaches without a hop between.
    Neighbour { port: Name, ip: Ip4 },
    /// A row of NAT.
    Nat(Name),
    /// A load balancer on a switch or router.
    Balancer { balancer: Name, datapath: Name },
    /// What a switch has beside its ports.
    Switch(Name),
    /// What a router has beside its ports.
    Router(Name),
}
