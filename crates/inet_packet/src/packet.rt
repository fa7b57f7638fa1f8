use ovn_base::address::{Ip4, Mac};
use ovn_base::list::Bytes;

/// An Ethernet II frame, with the fields of its body that are read.
#[derive(PartialEq, Eq, Debug, Drop)]
pub struct Packet {
    pub dst: Mac,
    pub src: Mac,
    pub body: Body,
    /// The bytes behind the fields of the body.
    pub tail: Bytes,
}

/// What follows the two addresses of a frame.
#[derive(PartialEq, Eq, Debug, Drop)]
pub enum Body {
    /// An ARP packet for IPv4 over Ethernet (RFC 826).
    Arp(Arp),
    /// An IPv4 packet (RFC 791).
    Ip4(Ip4Packet),
    /// Any other type, or an ARP body that isn't read.
    Other { ether_type: u16 },
}

/// The fields of an ARP packet for IPv4 over Ethernet: the operation, and the hardware and protocol addresses of
/// the sender and of the target.
#[derive(Clone, Copy, PartialEq, Eq, Debug)]
pub struct Arp {
    pub op: u16,
    pub sha: Mac,
    pub spa: Ip4,
    pub tha: Mac,
    pub tpa: Ip4,
}

/// The fields of an IPv4 header (RFC 791 section 3.1), and of the transport header behind it.
#[derive(PartialEq, Eq, Debug, Drop)]
pub struct Ip4Packet {
    pub tos: u8,
    /// The total length, in bytes, of header and data.
    pub total: u16,
    pub ident: u16,
    /// The three flags and the fragment's offset.
    pub frag: u16,
    pub ttl: u8,
    pub proto: u8,
    /// The checksum of the header.
    pub sum: u16,
    pub src: Ip4,
    pub dst: Ip4,
    /// The bytes of the header's options.
    pub options: Bytes,
    pub part: Part,
}

/// The transport header of an IPv4 packet.
#[derive(Clone, Copy, PartialEq, Eq, Debug)]
pub enum Part {
    /// TCP (RFC 793), of at least 20 bytes; `middle` is what stands between the ports and the checksum.
    Tcp {
        src_port: u16,
        dst_port: u16,
        middle: [u8; 12],
        sum: u16,
        urgent: u16,
    },
    /// UDP (RFC 768), of at least 8 bytes.
    Udp {
        src_port: u16,
        dst_port: u16,
        len: u16,
        sum: u16,
    },
    /// ICMP (RFC 792), of at least 8 bytes; the sequence number stands in the tail.
    Icmp {
        kind: u8,
        code: u8,
        sum: u16,
        ident: u16,
    },
    /// Another protocol, or a transport header that is cut.
    OtherIp,
    /// A fragment: more fragments follow, or it has an offset.
    Fragment,
}
