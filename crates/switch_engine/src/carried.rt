//! Copies of a packet on their way.

use conn_table::connection::State;
use inet_packet::packet::Packet;
use inet_packet::regs::Regs;

/// What a list of connections said of a packet, and the number of its zone.
#[derive(Clone, Copy, PartialEq, Eq, Debug)]
pub struct Found {
    pub zone: u16,
    pub state: State,
}

/// A copy of a packet that comes to a table, with its registers.
#[derive(PartialEq, Eq, Debug, Drop)]
pub struct Carried {
    /// The table from which it came, 0 at the start.
    pub from: u8,
    pub table: u8,
    pub regs: Regs,
    pub packet: Packet,
    /// What was found last, which names the entry that is remembered.
    pub found: Option<Found>,
    /// How often it passed into another datapath, at most 64 times.
    pub passes: u8,
}
