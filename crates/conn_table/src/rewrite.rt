//! The packet of another tuple.
ghost use Rattle.std.specs.Prelude.{◌≡◌, Some};
ghost use Rattle.inet_packet.specs.Transport.{HasRightSum};
ghost use Rattle.inet_packet.specs.Whole.{IsWhole};
ghost use Rattle.conn_table.specs.Tuples.{tuple_of, with_tuple, CanBecome};

use crate::tuple::Tuple;
use inet_packet::packet::Packet;

/// Gives the packet the addresses and ports of the tuple, which is one of its protocol. A packet stays whole, and a right
/// transport sum stays right.
pub fn rewrite(packet: &mut Packet, to: &Tuple)
    requires { CanBecome to.now packet.old }
    ensures packet { packet.new ≡ with_tuple to.now packet.old }
    ensures tuple { tuple_of packet.new ≡ Some to.now }
    ensures whole { IsWhole packet.old → IsWhole packet.new }
    ensures right { IsWhole packet.old → HasRightSum packet.old → HasRightSum packet.new }
{
    packet.set_src(to.src);
    packet.set_dst(to.dst);
    if to.protocol.has_ports() {
        packet.set_ports(to.src_port, to.dst_port);
    }
}
