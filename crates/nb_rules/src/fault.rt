//! What is wrong with an edit, or with the records that it would leave.

use ovn_base::address::{Ip4, Mac};
use ovn_base::name::Name;

/// An address that two hold.
#[derive(Clone, Copy, PartialEq, Eq, Debug)]
pub enum Address {
    Ether(Mac),
    Ip(Ip4),
}

/// What there may be only so many of.
#[derive(Clone, Copy, PartialEq, Eq, Debug)]
pub enum Limited {
    /// Switches and routers together.
    Datapath,
    /// Ports of switches and of routers together.
    Port,
    /// Rules.
    Acl,
    /// Widths of rules, summed over the switches to which they apply.
    Cubes,
}

/// What is wrong with an edit, or with the records that it would leave: the first that holds.
#[derive(Clone, Copy, PartialEq, Eq, Debug)]
pub enum SchemaFault {
    /// An operation adds a record of a name that is there.
    DuplicateName(Name),
    /// An operation or a record names one that isn't there.
    NoSuch(Name),
    /// A rule on what comes from ports has a match that names the port of exit.
    BadDirection(Name),
    /// The record names one that the edit removes.
    StillUsed(Name),
    /// The record has an address that is none, or that it can't have.
    BadAddress(Name),
    /// The router port has two partners, is its own, or has a peer that it can't have.
    BadPeer(Name),
    /// Two hold the address; the second is named.
    DuplicateAddress { address: Address, holder: Name },
    /// The record has the prefix of one before it.
    DuplicatePrefix(Name),
    /// No network of the router holds the route's next hop.
    NoNetworkForNexthop(Name),
    /// The NAT row or balancer is of a router without a chassis.
    NatNeedsChassis(Name),
    /// A match is wider than 65,536: its width, or 2^128 - 1 where it is wider.
    TooWide(u128),
    /// There are too many.
    Limit(Limited),
}
