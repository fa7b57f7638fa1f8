//! What a cube asks of the fields that matches speak of.
ghost use Rattle.std.specs.Prelude.{◌≡◌, ◌≤◌};
ghost use Rattle.match_cubes.specs.Asked as spec;

use crate::meet::Meet;
use crate::ternary::{agree, both_bits};
use inet_packet::cube::{Bits, Cube};
use match_language::field::Field;

/// How many bits the field's number has; that of a port is its key.
pub(crate) fn width(field: Field) -> u32
    ensures value { result ≡ spec.bit_width field }
    ensures within { result ≤ 48 }
{
    if field.is_port() { 16 } else { field.bits() }
}

/// Has the cube ask this of the field.
pub(crate) fn ask(cube: &mut Cube, field: Field, bits: Bits)
    ensures { cube.new ≡ spec.ask field bits cube.old }
{
    match field {
        Field::EthSrc => cube.eth_src = bits,
        Field::EthDst => cube.eth_dst = bits,
        Field::EthType => cube.eth_type = bits,
        Field::ArpOp => cube.arp_op = bits,
        Field::ArpSpa => cube.arp_spa = bits,
        Field::ArpTpa => cube.arp_tpa = bits,
        Field::ArpSha => cube.arp_sha = bits,
        Field::ArpTha => cube.arp_tha = bits,
        Field::Ip4Src => cube.ip4_src = bits,
        Field::Ip4Dst => cube.ip4_dst = bits,
        Field::IpProto => cube.ip_proto = bits,
        Field::IpTtl => cube.ip_ttl = bits,
        Field::Icmp4Type => cube.icmp4_type = bits,
        Field::Icmp4Code => cube.icmp4_code = bits,
        Field::TcpSrc => cube.tcp_src = bits,
        Field::TcpDst => cube.tcp_dst = bits,
        Field::UdpSrc => cube.udp_src = bits,
        Field::UdpDst => cube.udp_dst = bits,
        Field::Inport => cube.in_port = bits,
        Field::Outport => cube.out_port = bits,
    }
}

// Whether the cubes ask for both values of no bit.
fn agree_all(a: &Cube, b: &Cube) -> bool
    ensures { result ≡ spec.agree_all a.now b.now }
{
    agree(&a.eth_src, &b.eth_src)
        && agree(&a.eth_dst, &b.eth_dst)
        && agree(&a.eth_type, &b.eth_type)
        && agree(&a.arp_op, &b.arp_op)
        && agree(&a.arp_spa, &b.arp_spa)
        && agree(&a.arp_tpa, &b.arp_tpa)
        && agree(&a.arp_sha, &b.arp_sha)
        && agree(&a.arp_tha, &b.arp_tha)
        && agree(&a.ip4_src, &b.ip4_src)
        && agree(&a.ip4_dst, &b.ip4_dst)
        && agree(&a.ip_proto, &b.ip_proto)
        && agree(&a.ip_ttl, &b.ip_ttl)
        && agree(&a.icmp4_type, &b.icmp4_type)
        && agree(&a.icmp4_code, &b.icmp4_code)
        && agree(&a.tcp_src, &b.tcp_src)
        && agree(&a.tcp_dst, &b.tcp_dst)
        && agree(&a.udp_src, &b.udp_src)
        && agree(&a.udp_dst, &b.udp_dst)
        && agree(&a.in_port, &b.in_port)
        && agree(&a.out_port, &b.out_port)
}

fn joined_all(a: &Cube, b: &Cube) -> Cube
    ensures { result ≡ spec.joined_all a.now b.now }
{
    Cube {
        in_port: both_bits(&a.in_port, &b.in_port),
        out_port: both_bits(&a.out_port, &b.out_port),
        eth_src: both_bits(&a.eth_src, &b.eth_src),
        eth_dst: both_bits(&a.eth_dst, &b.eth_dst),
        eth_type: both_bits(&a.eth_type, &b.eth_type),
        ip4_src: both_bits(&a.ip4_src, &b.ip4_src),
        ip4_dst: both_bits(&a.ip4_dst, &b.ip4_dst),
        ip_proto: both_bits(&a.ip_proto, &b.ip_proto),
        ip_ttl: both_bits(&a.ip_ttl, &b.ip_ttl),
        tcp_src: both_bits(&a.tcp_src, &b.tcp_src),
        tcp_dst: both_bits(&a.tcp_dst, &b.tcp_dst),
        udp_src: both_bits(&a.udp_src, &b.udp_src),
        udp_dst: both_bits(&a.udp_dst, &b.udp_dst),
        icmp4_type: both_bits(&a.icmp4_type, &b.icmp4_type),
        icmp4_code: both_bits(&a.icmp4_code, &b.icmp4_code),
        arp_op: both_bits(&a.arp_op, &b.arp_op),
        arp_spa: both_bits(&a.arp_spa, &b.arp_spa),
        arp_tpa: both_bits(&a.arp_tpa, &b.arp_tpa),
        arp_sha: both_bits(&a.arp_sha, &b.arp_sha),
        arp_tha: both_bits(&a.arp_tha, &b.arp_tha),
        ..Cube::EVERYTHING
    }
}

#[tactic(auto, unfolding(crate::specs::Asked::meet))]
impl Meet for Cube {
    ghost both = { spec.meet };

    fn meet(&self, other: &Cube) -> Option<Cube> {
        if agree_all(self, other) {
            Some(joined_all(self, other))
        } else {
            None
        }
    }
}
