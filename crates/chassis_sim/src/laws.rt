//! Laws of the frames between chassis, each on a function that does nothing: call it, and its clause is a fact of the call.
ghost use Rattle.std.specs.Prelude.{◌≡◌, ◌<◌, ◌^◌, ℕ, List};
ghost use Rattle.inet_packet.specs.declared.packet.Packet.{Packet};
ghost use Rattle.inet_packet.specs.Frame.{frame_of};
ghost use Rattle.inet_packet.specs.Whole.{IsWhole};
ghost use Rattle.geneve_frames.specs.Meaning.{canon};
ghost use Rattle.chassis_sim.specs.Frames.{Carries};

use geneve_frames::{one_reading, reads_back};
use inet_packet::decode::one_packet;

/// What is sent carries the packet with its keys.
pub fn sent_carries()
    ensures { (vni in_key out_key : ℕ) (packet : Packet)
        → vni < 2 ^ 24 → in_key < 2 ^ 15 → out_key < 2 ^ 16 → IsWhole packet
        → Carries (canon vni in_key out_key (frame_of packet)) vni in_key out_key packet }
{
    reads_back();
}

/// Bytes carry at most one packet, with one key each of a datapath, a port of entry, and a port or group.
pub fn one_carried()
    ensures { (bytes : List ℕ)
        (vni in_key out_key : ℕ) (packet : Packet)
        (other_vni other_in other_out : ℕ) (other : Packet)
        → Carries bytes vni in_key out_key packet
        → Carries bytes other_vni other_in other_out other
        → (vni ≡ other_vni) × (in_key ≡ other_in) × (out_key ≡ other_out) × (packet ≡ other) }
{
    one_reading();
    one_packet();
}
