//! The fields that a cube can ask for, in one order.
ghost use Rattle.std.specs.Prelude.{◌≡◌};
ghost use Rattle.tuple_space.specs.Masks.{cube_bits, field_values};

use inet_packet::cube::{Bits, Cube};
use inet_packet::packet::Packet;
use inet_packet::regs::Regs;

/// What the cube asks of each field.
pub fn bits_of(cube: &Cube) -> [Bits; 30]
    ensures { result ≡ cube_bits cube.now }
{
    [
        cube.dp,
        cube.in_port,
        cube.out_port,
        cube.next,
        cube.z_in,
        cube.z_out,
        cube.z_dnat,
        cube.z_snat,
        cube.state,
        cube.verdict,
        cube.tier,
        cube.flags,
        cube.eth_src,
        cube.eth_dst,
        cube.eth_type,
        cube.ip4_src,
        cube.ip4_dst,
        cube.ip_proto,
        cube.ip_ttl,
        cube.tcp_src,
        cube.tcp_dst,
        cube.udp_src,
        cube.udp_dst,
        cube.icmp4_type,
        cube.icmp4_code,
        cube.arp_op,
        cube.arp_spa,
        cube.arp_tpa,
        cube.arp_sha,
        cube.arp_tha,
    ]
}

/// What the registers and the packet have in each field.
pub fn values_of(regs: &Regs, packet: &Packet) -> [u64; 30]
    ensures { result ≡ field_values regs.now packet.now }
{
    [
        u64::from(regs.dp),
        u64::from(regs.in_port),
        u64::from(regs.out_port),
        u64::from(regs.next),
        u64::from(regs.z_in),
        u64::from(regs.z_out),
        u64::from(regs.z_dnat),
        u64::from(regs.z_snat),
        u64::from(regs.state),
        u64::from(regs.verdict),
        u64::from(regs.tier),
        u64::from(regs.flags.0),
        packet.src.number(),
        packet.dst.number(),
        u64::from(packet.body.ether_type()),
        u64::from(packet.body.ip4_src()),
        u64::from(packet.body.ip4_dst()),
        u64::from(packet.body.ip_proto()),
        u64::from(packet.body.ip_ttl()),
        u64::from(packet.body.tcp_src()),
        u64::from(packet.body.tcp_dst()),
        u64::from(packet.body.udp_src()),
        u64::from(packet.body.udp_dst()),
        u64::from(packet.body.icmp4_type()),
        u64::from(packet.body.icmp4_code()),
        u64::from(packet.body.arp_op()),
        u64::from(packet.body.arp_spa()),
        u64::from(packet.body.arp_tpa()),
        packet.body.arp_sha(),
        packet.body.arp_tha(),
    ]
}
