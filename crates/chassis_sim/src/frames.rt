//! Packets in the frames between chassis.
ghost use Rattle.std.specs.Prelude.{◌≡◌, ◌<◌, ◌^◌, IfOk};
ghost use Rattle.inet_packet.specs.Frame.{frame_of};
ghost use Rattle.inet_packet.specs.Whole.{IsWhole};
ghost use Rattle.geneve_frames.specs.Meaning.{Spells, canon};
ghost use Rattle.chassis_sim.specs.Frames.{IsSent, IsFrame, Brings};

use geneve_frames::{View, read, reads_back, write};
use inet_packet::decode::decode;
use inet_packet::encode::encode;
use inet_packet::frame::FrameFault;
use inet_packet::packet::Packet;
use ovn_base::list::{Bytes, List};
use ovn_base::memory::NoMemory;
use std::alloc::Global;
use switch_engine::effect::Entry;

// The frame that takes the packet to another chassis.
pub(crate) fn spelled(
    alloc: Global,
    vni: u32,
    in_key: u16,
    out_key: u16,
    packet: &Packet,
) -> Result<Bytes, NoMemory>
    requires vni { vni < 2 ^ 24 }
    requires in_key { in_key < 2 ^ 15 }
    requires whole { IsWhole packet.now }
    ensures bytes { IfOk result (λ bytes. bytes ≡ canon vni in_key out_key (frame_of packet.now)) }
    ensures sent { IfOk result IsSent }
{
    let mut inner = Vec::new(alloc);
    encode(packet, &mut inner)?;
    let mut bytes = Vec::new(alloc);
    write(vni, in_key, out_key, &inner, &mut bytes)?;
    Ok(List::from_vec(bytes))
}

// The packet of which the bytes are the frame.
fn decoded(alloc: Global, frame: &[u8]) -> Result<Packet, NoMemory>
    requires { IsFrame frame.now }
    ensures frame { IfOk result (λ packet. frame_of packet ≡ frame.now) }
    ensures whole { IfOk result IsWhole }
{
    match decode(alloc, frame) {
        Ok(packet) => Ok(packet),
        Err(FrameFault::Memory) => Err(NoMemory),
        Err(_) => unreachable!(),
    }
}

// The parts of a frame that was sent.
fn parts(bytes: &[u8]) -> View<'_>
    requires { IsSent bytes.now }
    ensures spelled { Spells bytes.now result.vni result.in_key result.out_key result.inner.now }
    ensures frame { IsFrame result.inner.now }
{
    reads_back();
    match read(bytes) {
        Ok(view) => view,
        Err(_) => unreachable!(),
    }
}

// What a frame that was sent brings from the tunnel.
pub(crate) fn opened(alloc: Global, bytes: &[u8]) -> Result<(Entry, Packet), NoMemory>
    requires { IsSent bytes.now }
    ensures { IfOk result (λ brought. Brings bytes.now brought.0 brought.1) }
{
    let View {
        vni,
        in_key,
        out_key,
        inner,
    } = parts(bytes);
    let packet = decoded(alloc, inner)?;
    let entry = Entry::Tunnel {
        vni,
        in_key,
        out_key,
    };
    Ok((entry, packet))
}
