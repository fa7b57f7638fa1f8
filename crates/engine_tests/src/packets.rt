//! Packets, by the bytes of their frames.
ghost use Rattle.std.specs.Prelude.{IfOk};
ghost use Rattle.inet_packet.specs.Whole.{IsWhole};

use inet_packet::decode::decode;
use inet_packet::packet::Packet;
use ovn_base::memory::NoMemory;
use std::alloc::Global;

/// A UDP packet from 10.0.0.1, port 5000, to 10.0.0.2, port 5001.
pub const ASKED: &str =
    "0a00000000020a000000000108004500001c00010000401166ce0a0000010a0000021388138900080000";

/// Its answer.
pub const ANSWERED: &str =
    "0a00000000010a000000000208004500001c00010000401166ce0a0000020a0000011389138800080000";

/// The packet of the bytes, which are ones of a frame.
pub fn read(alloc: Global, digits: &str) -> Result<Packet, NoMemory>
    ensures { IfOk result IsWhole }
{
    let Ok(frame) = hex::decode(alloc, digits) else {
        return Err(NoMemory);
    };
    match decode(alloc, &frame) {
        Ok(packet) => Ok(packet),
        Err(_) => Err(NoMemory),
    }
}
