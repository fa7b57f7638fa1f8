ghost use Rattle.std.specs.Prelude.{◌≡◌, ◌<◌};
ghost use Rattle.std.specs.Hash.{same_Alike};
ghost use Rattle.inet_packet.specs.BitsHash.{fed_by, same_bits_decides};
ghost use Rattle.inet_packet.specs.Cubes.{exactly};

use crate::regs::At;
use std::hash::{Hash, Hasher};

/// The bits of a field that count, and what they have to be.
#[derive(Clone, Copy, PartialEq, Eq, Debug)]
pub struct Bits {
    pub value: u64,
    pub mask: u64,
}

// A cube asks for few of its fields, and the others add nothing to its hash.
impl Hash for Bits {
    ghost hash_input = { fed_by };

    ghost respects_eq = { (same_Alike fed_by same_bits_decides).fed };

    fn hash<H: Hasher>(&self, state: &mut H) {
        if self.mask != 0 {
            self.value.hash(state);
            self.mask.hash(state);
        }
    }
}

/// A set of packets with their registers: a value and a mask for each register and each field, and the entry.
#[derive(Clone, Copy, PartialEq, Eq, Hash, Debug)]
pub struct Cube {
    /// The entry that is asked for, if one is.
    pub at: Option<At>,
    pub dp: Bits,
    pub in_port: Bits,
    pub out_port: Bits,
    pub next: Bits,
    pub z_in: Bits,
    pub z_out: Bits,
    pub z_dnat: Bits,
    pub z_snat: Bits,
    pub state: Bits,
    pub verdict: Bits,
    pub tier: Bits,
    /// The flags, as one word.
    pub flags: Bits,
    pub eth_src: Bits,
    pub eth_dst: Bits,
    pub eth_type: Bits,
    pub ip4_src: Bits,
    pub ip4_dst: Bits,
    pub ip_proto: Bits,
    pub ip_ttl: Bits,
    pub tcp_src: Bits,
    pub tcp_dst: Bits,
    pub udp_src: Bits,
    pub udp_dst: Bits,
    pub icmp4_type: Bits,
    pub icmp4_code: Bits,
    pub arp_op: Bits,
    pub arp_spa: Bits,
    pub arp_tpa: Bits,
    pub arp_sha: Bits,
    pub arp_tha: Bits,
}

impl Bits {
    /// No bit counts.
    pub const ANY: Bits = Bits { value: 0, mask: 0 };

    /// All bits of a field of this width count, and have to be those of the number.
    pub fn exactly(width: u32, n: u64) -> Bits
        requires { width < 64 }
        ensures { result ≡ exactly width n }
    {
        Bits {
            value: n,
            mask: (1 << width) - 1,
        }
    }
}

impl Cube {
    /// Every packet with its registers.
    pub const EVERYTHING: Cube = Cube {
        at: None,
        dp: Bits::ANY,
        in_port: Bits::ANY,
        out_port: Bits::ANY,
        next: Bits::ANY,
        z_in: Bits::ANY,
        z_out: Bits::ANY,
        z_dnat: Bits::ANY,
        z_snat: Bits::ANY,
        state: Bits::ANY,
        verdict: Bits::ANY,
        tier: Bits::ANY,
        flags: Bits::ANY,
        eth_src: Bits::ANY,
        eth_dst: Bits::ANY,
        eth_type: Bits::ANY,
        ip4_src: Bits::ANY,
        ip4_dst: Bits::ANY,
        ip_proto: Bits::ANY,
        ip_ttl: Bits::ANY,
        tcp_src: Bits::ANY,
        tcp_dst: Bits::ANY,
        udp_src: Bits::ANY,
        udp_dst: Bits::ANY,
        icmp4_type: Bits::ANY,
        icmp4_code: Bits::ANY,
        arp_op: Bits::ANY,
        arp_spa: Bits::ANY,
        arp_tpa: Bits::ANY,
        arp_sha: Bits::ANY,
        arp_tha: Bits::ANY,
    };
}
