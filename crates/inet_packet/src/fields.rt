//! The fields of a packet that a cube may ask for.
ghost use Rattle.std.specs.Prelude.{◌≡◌};
ghost use Rattle.inet_packet.specs.Fields.{ether_type, ip4_src, ip4_dst, ip_proto, ip_ttl, tcp_src, tcp_dst, udp_src, udp_dst, icmp4_type, icmp4_code, arp_op, arp_spa, arp_tpa, arp_sha, arp_tha, part_tcp_src, part_tcp_dst, part_udp_src, part_udp_dst, part_icmp4_type, part_icmp4_code};

use crate::packet::{Body, Part};

/// Each field is 0 where the body does not have it.
impl Body {
    /// The Ethernet type.
    pub fn ether_type(&self) -> u16
        ensures { result ≡ ether_type self.now }
    {
        match self {
            Body::Arp(_) => 0x0806,
            Body::Ip4(_) => 0x0800,
            Body::Other { ether_type } => *ether_type,
        }
    }

    /// The source address of an IPv4 header.
    pub fn ip4_src(&self) -> u32
        ensures { result ≡ ip4_src self.now }
    {
        match self {
            Body::Ip4(packet) => packet.src.0,
            Body::Arp(_) | Body::Other { .. } => 0,
        }
    }

    /// The destination address of an IPv4 header.
    pub fn ip4_dst(&self) -> u32
        ensures { result ≡ ip4_dst self.now }
    {
        match self {
            Body::Ip4(packet) => packet.dst.0,
            Body::Arp(_) | Body::Other { .. } => 0,
        }
    }

    /// The protocol of an IPv4 header.
    pub fn ip_proto(&self) -> u8
        ensures { result ≡ ip_proto self.now }
    {
        match self {
            Body::Ip4(packet) => packet.proto,
            Body::Arp(_) | Body::Other { .. } => 0,
        }
    }

    /// The time to live of an IPv4 header.
    pub fn ip_ttl(&self) -> u8
        ensures { result ≡ ip_ttl self.now }
    {
        match self {
            Body::Ip4(packet) => packet.ttl,
            Body::Arp(_) | Body::Other { .. } => 0,
        }
    }

    /// The source port of a TCP header.
    pub fn tcp_src(&self) -> u16
        ensures { result ≡ tcp_src self.now }
    {
        match self {
            Body::Ip4(packet) => packet.part.tcp_src(),
            Body::Arp(_) | Body::Other { .. } => 0,
        }
    }

    /// The destination port of a TCP header.
    pub fn tcp_dst(&self) -> u16
        ensures { result ≡ tcp_dst self.now }
    {
        match self {
            Body::Ip4(packet) => packet.part.tcp_dst(),
            Body::Arp(_) | Body::Other { .. } => 0,
        }
    }

    /// The source port of a UDP header.
    pub fn udp_src(&self) -> u16
        ensures { result ≡ udp_src self.now }
    {
        match self {
            Body::Ip4(packet) => packet.part.udp_src(),
            Body::Arp(_) | Body::Other { .. } => 0,
        }
    }

    /// The destination port of a UDP header.
    pub fn udp_dst(&self) -> u16
        ensures { result ≡ udp_dst self.now }
    {
        match self {
            Body::Ip4(packet) => packet.part.udp_dst(),
            Body::Arp(_) | Body::Other { .. } => 0,
        }
    }

    /// The type of an ICMP message.
    pub fn icmp4_type(&self) -> u8
        ensures { result ≡ icmp4_type self.now }
    {
        match self {
            Body::Ip4(packet) => packet.part.icmp4_type(),
            Body::Arp(_) | Body::Other { .. } => 0,
        }
    }

    /// The code of an ICMP message.
    pub fn icmp4_code(&self) -> u8
        ensures { result ≡ icmp4_code self.now }
    {
        match self {
            Body::Ip4(packet) => packet.part.icmp4_code(),
            Body::Arp(_) | Body::Other { .. } => 0,
        }
    }

    /// The operation of an ARP packet.
    pub fn arp_op(&self) -> u16
        ensures { result ≡ arp_op self.now }
    {
        match self {
            Body::Arp(arp) => arp.op,
            Body::Ip4(_) | Body::Other { .. } => 0,
        }
    }

    /// The sender's IPv4 address in an ARP packet.
    pub fn arp_spa(&self) -> u32
        ensures { result ≡ arp_spa self.now }
    {
        match self {
            Body::Arp(arp) => arp.spa.0,
            Body::Ip4(_) | Body::Other { .. } => 0,
        }
    }

    /// The target's IPv4 address in an ARP packet.
    pub fn arp_tpa(&self) -> u32
        ensures { result ≡ arp_tpa self.now }
    {
        match self {
            Body::Arp(arp) => arp.tpa.0,
            Body::Ip4(_) | Body::Other { .. } => 0,
        }
    }

    /// The sender's Ethernet address in an ARP packet, as a number.
    pub fn arp_sha(&self) -> u64
        ensures { result ≡ arp_sha self.now }
    {
        match self {
            Body::Arp(arp) => arp.sha.number(),
            Body::Ip4(_) | Body::Other { .. } => 0,
        }
    }

    /// The target's Ethernet address in an ARP packet, as a number.
    pub fn arp_tha(&self) -> u64
        ensures { result ≡ arp_tha self.now }
    {
        match self {
            Body::Arp(arp) => arp.tha.number(),
            Body::Ip4(_) | Body::Other { .. } => 0,
        }
    }
}

impl Part {
    fn tcp_src(&self) -> u16
        ensures { result ≡ part_tcp_src self.now }
    {
        match self {
            Part::Tcp { src_port, .. } => *src_port,
            _ => 0,
        }
    }

    fn tcp_dst(&self) -> u16
        ensures { result ≡ part_tcp_dst self.now }
    {
        match self {
            Part::Tcp { dst_port, .. } => *dst_port,
            _ => 0,
        }
    }

    fn udp_src(&self) -> u16
        ensures { result ≡ part_udp_src self.now }
    {
        match self {
            Part::Udp { src_port, .. } => *src_port,
            _ => 0,
        }
    }

    fn udp_dst(&self) -> u16
        ensures { result ≡ part_udp_dst self.now }
    {
        match self {
            Part::Udp { dst_port, .. } => *dst_port,
            _ => 0,
        }
    }

    fn icmp4_type(&self) -> u8
        ensures { result ≡ part_icmp4_type self.now }
    {
        match self {
            Part::Icmp { kind, .. } => *kind,
            _ => 0,
        }
    }

    fn icmp4_code(&self) -> u8
        ensures { result ≡ part_icmp4_code self.now }
    {
        match self {
            Part::Icmp { code, .. } => *code,
            _ => 0,
        }
    }
}
