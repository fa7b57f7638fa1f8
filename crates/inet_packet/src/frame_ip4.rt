//! The IPv4 packet behind the type of a frame, read where it lies.
ghost use Rattle.std.specs.Prelude.{◌≡◌, ◌↔◌, ◌+◌, ◌≤◌, ◌-◌, ◌++◌, ℕ, length, IsTrue};
ghost use Rattle.inet_packet.specs.Frame.{ip4_header, part_bytes};
ghost use Rattle.inet_packet.specs.Reading.{IsIp4Bytes, header_len, ip4_packet_of};
ghost use Rattle.inet_packet.specs.Whole.{AreBytes, IsPart, IsPartWithin, IsFragment, IsWholeIp4};

use crate::frame::{Front, take_front, take_u8, take_u16};
use crate::frame_sums::ones_sum;
use crate::packet::Part;
use byteorder::{BigEndian, ByteOrder};

const MORE_OR_OFFSET: u16 = 0x3fff;

pub(crate) fn is_ip4(bytes: &[u8]) -> bool
    ensures { IsTrue result ↔ IsIp4Bytes bytes.now }
{
    if bytes.len() < 20 {
        return false;
    }
    let header = usize::from(bytes[0] % 16) * 4;
    let total = usize::from(BigEndian::read_u16(&bytes[2..]));
    bytes[0] / 16 == 4
        && 20 <= header
        && header <= total
        && total <= bytes.len()
        && ones_sum(&bytes[..header]) == 0xffff
}

// The first bytes, of a number of them.
fn take_bytes(bytes: &[u8], len: usize) -> (&[u8], &[u8])
    requires { len ≤ length bytes.now }
    ensures parts { bytes.now ≡ result.0.now ++ result.1.now }
    ensures len { length result.0.now ≡ len }
    ensures rest { length result.1.now + len ≡ length bytes.now }
    ensures are_bytes { AreBytes result.0.now }
{
    bytes.split_at(len)
}

fn take_middle(bytes: &[u8]) -> ([u8; 12], &[u8])
    requires { 12 ≤ length bytes.now }
    ensures parts { bytes.now ≡ result.0 ++ result.1.now }
    ensures len { length result.1.now + 12 ≡ length bytes.now }
    ensures twelve { length result.0 ≡ 12 }
    ensures are_bytes { AreBytes result.0 }
{
    let (front, rest) = bytes.split_at(12);
    let mut middle = [0; 12];
    middle.copy_from_slice(front);
    (middle, rest)
}

fn take_tcp(bytes: &[u8]) -> (Part, &[u8])
    requires { 20 ≤ length bytes.now }
    ensures parts { bytes.now ≡ part_bytes result.0 ++ result.1.now }
    ensures within { IsPartWithin result.0 }
    ensures named { (frag proto len : ℕ) → ¬ IsFragment frag → proto ≡ 6 → 20 ≤ len → IsPart frag proto len result.0 }
{
    let (src_port, rest) = take_u16(bytes);
    let (dst_port, rest) = take_u16(rest);
    let (middle, rest) = take_middle(rest);
    let (sum, rest) = take_u16(rest);
    let (urgent, rest) = take_u16(rest);
    let part = Part::Tcp {
        src_port,
        dst_port,
        middle,
        sum,
        urgent,
    };
    (part, rest)
}

fn take_udp(bytes: &[u8]) -> (Part, &[u8])
    requires { 8 ≤ length bytes.now }
    ensures parts { bytes.now ≡ part_bytes result.0 ++ result.1.now }
    ensures within { IsPartWithin result.0 }
    ensures named { (frag proto len : ℕ) → ¬ IsFragment frag → proto ≡ 17 → 8 ≤ len → IsPart frag proto len result.0 }
{
    let (src_port, rest) = take_u16(bytes);
    let (dst_port, rest) = take_u16(rest);
    let (len, rest) = take_u16(rest);
    let (sum, rest) = take_u16(rest);
    let part = Part::Udp {
        src_port,
        dst_port,
        len,
        sum,
    };
    (part, rest)
}

fn take_icmp(bytes: &[u8]) -> (Part, &[u8])
    requires { 8 ≤ length bytes.now }
    ensures parts { bytes.now ≡ part_bytes result.0 ++ result.1.now }
    ensures within { IsPartWithin result.0 }
    ensures named { (frag proto len : ℕ) → ¬ IsFragment frag → proto ≡ 1 → 8 ≤ len → IsPart frag proto len result.0 }
{
    let (kind, rest) = take_u8(bytes);
    let (code, rest) = take_u8(rest);
    let (sum, rest) = take_u16(rest);
    let (ident, rest) = take_u16(rest);
    let part = Part::Icmp {
        kind,
        code,
        sum,
        ident,
    };
    (part, rest)
}

// The transport header, of `len` bytes with its data, at the front of the bytes.
fn take_part(frag: u16, proto: u8, len: usize, bytes: &[u8]) -> (Part, &[u8])
    requires { len ≤ length bytes.now }
    ensures parts { bytes.now ≡ part_bytes result.0 ++ result.1.now }
    ensures within { IsPartWithin result.0 }
    ensures named { IsPart frag proto len result.0 }
{
    if frag & MORE_OR_OFFSET != 0 {
        return (Part::Fragment, bytes);
    }
    if proto == 6 && len >= 20 {
        return take_tcp(bytes);
    }
    if proto == 17 && len >= 8 {
        return take_udp(bytes);
    }
    if proto == 1 && len >= 8 {
        return take_icmp(bytes);
    }
    (Part::OtherIp, bytes)
}

/// The header's first 20 bytes, its options, the transport header, and what follows.
pub(crate) fn view_ip4(bytes: &[u8]) -> (Front, &[u8], Part, &[u8])
    requires { IsIp4Bytes bytes.now }
    ensures parts { let i = ip4_packet_of result.0 result.1.now result.2 in bytes.now ≡ (ip4_header i ++ part_bytes result.2) ++ result.3.now }
    ensures whole { IsWholeIp4 (ip4_packet_of result.0 result.1.now result.2) result.3.now }
{
    let (front, rest) = take_front(bytes);
    let header = usize::from(front.first % 16) * 4;
    let (options, rest) = take_bytes(rest, header - 20);
    let (part, tail) = take_part(
        front.frag,
        front.proto,
        usize::from(front.total) - header,
        rest,
    );
    (front, options, part, tail)
}
