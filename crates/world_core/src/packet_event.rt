//! The events that move packets.

use ovn_base::list::Bytes;
use ovn_base::name::Name;

/// An event that moves packets on chassis. Each variant is the event of that name.
#[derive(Clone, Copy)]
pub(crate) enum PacketEvent<'a> {
    Inject { port: Name, frame: &'a Bytes },
    Deliver { frame: u64 },
    Repeat { frame: u64 },
    Drain,
    Packet { port: Name, frame: &'a Bytes },
}
