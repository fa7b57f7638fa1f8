//! Packets on their way between chassis.

use inet_packet::packet::Packet;
use ovn_base::name::Name;
use tunnel_keys::owner::Identity;

/// A group of ports of a switch.
#[derive(Clone, Copy, PartialEq, Eq, Debug)]
pub enum Group {
    /// All enabled ports.
    Flood,
    /// Those of them that take packets for addresses that no port has.
    Unknown,
}

/// To whom a packet goes that crosses to another chassis.
#[derive(Clone, Copy, PartialEq, Eq, Debug)]
pub enum Aim {
    ToPort(Identity),
    /// To the members of a group of the switch.
    ToGroup(Group),
}

/// A packet on its way to another chassis; its switch and its ports are known by identity.
#[derive(PartialEq, Eq, Debug, Drop)]
pub struct Crossing {
    pub datapath: Identity,
    /// The port of entry into the switch.
    pub in_port: Identity,
    pub aim: Aim,
    /// The chassis to which it goes.
    pub home: Name,
    pub packet: Packet,
}
