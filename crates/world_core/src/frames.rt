//! The frames of packets that would enter.
ghost use Rattle.std.specs.Prelude.{IfOk};
ghost use Rattle.world_core.specs.FrameReading.{IsRead};

use inet_packet::decode::decode;
use inet_packet::frame::FrameFault;
use inet_packet::packet::Packet;
use ovn_base::memory::NoMemory;
use std::alloc::Global;

/// What the frame of a packet that would enter is.
#[derive(Drop)]
pub(crate) enum Entering {
    /// The frame of this packet, which can enter.
    Whole(Packet),
    /// A frame of fewer than 14 bytes.
    Short,
    /// A frame of more than 9,216 bytes.
    Big,
    /// A frame of the type of IPv4 with no IPv4 packet.
    BadIp4,
}

/// Reads the frame of a packet that would enter.
pub(crate) fn read_entering(alloc: Global, frame: &[u8]) -> Result<Entering, NoMemory>
    ensures { IfOk result (IsRead frame.now) }
{
    match decode(alloc, frame) {
        Ok(packet) => Ok(Entering::Whole(packet)),
        Err(FrameFault::TooShort) => Ok(Entering::Short),
        Err(FrameFault::TooBig) => Ok(Entering::Big),
        Err(FrameFault::BadIp4) => Ok(Entering::BadIp4),
        Err(FrameFault::Memory) => Err(NoMemory),
    }
}
