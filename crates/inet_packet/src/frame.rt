//! The fields of a frame, read from the front of bytes.
ghost use Rattle.std.specs.Prelude.{◌≡◌, ◌↔◌, ◌+◌, ◌≤◌, ◌∷◌, ◌++◌, length, IsTrue};
ghost use Rattle.ovn_base.specs.addresses.EtherAddress.{mac_bytes};
ghost use Rattle.inet_packet.specs.declared.frame.FrameFault.TheVariants.{Memory};
ghost use Rattle.inet_packet.specs.Frame.{two, four, arp_bytes};
ghost use Rattle.inet_packet.specs.Reading.{front_bytes, IsFrontWithin};
ghost use Rattle.inet_packet.specs.Whole.{IsArpBytes, IsWholeArp};

use crate::packet::Arp;
use byteorder::{BigEndian, ByteOrder};
use ovn_base::address::{Ip4, Mac};
use ovn_base::memory::NoMemory;
use std::alloc::AllocError;
use thiserror::Error;

/// Why bytes are not the frame of a packet.
#[derive(Debug, Drop, Error)]
pub enum FrameFault {
    #[error("the frame has fewer than 14 bytes")]
    TooShort,
    #[error("the frame has more than 9216 bytes")]
    TooBig,
    #[error("version, header length, total length or sum of the IPv4 header is wrong")]
    BadIp4,
    #[error("memory was wanted and not found")]
    Memory,
}

impl From<AllocError> for FrameFault {
    ghost from_gives = { λ _ e. e ≡ Memory };

    fn from(_error: AllocError) -> Self {
        FrameFault::Memory
    }
}

/// What an IPv4 header has up to its options.
#[derive(Clone, Copy)]
pub(crate) struct Front {
    pub(crate) first: u8,
    pub(crate) tos: u8,
    pub(crate) total: u16,
    pub(crate) ident: u16,
    pub(crate) frag: u16,
    pub(crate) ttl: u8,
    pub(crate) proto: u8,
    pub(crate) sum: u16,
    pub(crate) src: Ip4,
    pub(crate) dst: Ip4,
}

pub(crate) fn take_u8(bytes: &[u8]) -> (u8, &[u8])
    requires { 1 ≤ length bytes.now }
    ensures parts { bytes.now ≡ result.0 ∷ result.1.now }
    ensures len { length result.1.now + 1 ≡ length bytes.now }
{
    (bytes[0], &bytes[1..])
}

pub(crate) fn take_u16(bytes: &[u8]) -> (u16, &[u8])
    requires { 2 ≤ length bytes.now }
    ensures parts { bytes.now ≡ two result.0 ++ result.1.now }
    ensures len { length result.1.now + 2 ≡ length bytes.now }
{
    (BigEndian::read_u16(bytes), &bytes[2..])
}

pub(crate) fn take_u32(bytes: &[u8]) -> (u32, &[u8])
    requires { 4 ≤ length bytes.now }
    ensures parts { bytes.now ≡ four result.0 ++ result.1.now }
    ensures len { length result.1.now + 4 ≡ length bytes.now }
{
    (BigEndian::read_u32(bytes), &bytes[4..])
}

pub(crate) fn take_mac(bytes: &[u8]) -> (Mac, &[u8])
    requires { 6 ≤ length bytes.now }
    ensures parts { bytes.now ≡ mac_bytes result.0 ++ result.1.now }
    ensures len { length result.1.now + 6 ≡ length bytes.now }
{
    let (front, rest) = bytes.split_at(6);
    let mut mac = [0; 6];
    mac.copy_from_slice(front);
    let [a, b, c, d, e, f] = mac;
    (Mac([a, b, c, d, e, f]), rest)
}

pub(crate) fn is_arp(bytes: &[u8]) -> bool
    ensures { IsTrue result ↔ IsArpBytes bytes.now }
{
    bytes.len() >= 28 && bytes[..6] == [0, 1, 8, 0, 6, 4]
}

pub(crate) fn take_arp(bytes: &[u8]) -> (Arp, &[u8])
    requires { IsArpBytes bytes.now }
    ensures parts { bytes.now ≡ arp_bytes result.0 ++ result.1.now }
    ensures whole { IsWholeArp result.0 }
{
    let (_kind, rest) = bytes.split_at(6);
    let (op, rest) = take_u16(rest);
    let (sha, rest) = take_mac(rest);
    let (spa, rest) = take_u32(rest);
    let (tha, rest) = take_mac(rest);
    let (tpa, rest) = take_u32(rest);
    let arp = Arp {
        op,
        sha,
        spa: Ip4(spa),
        tha,
        tpa: Ip4(tpa),
    };
    (arp, rest)
}

pub(crate) fn take_front(bytes: &[u8]) -> (Front, &[u8])
    requires { 20 ≤ length bytes.now }
    ensures parts { bytes.now ≡ front_bytes result.0 ++ result.1.now }
    ensures len { length result.1.now + 20 ≡ length bytes.now }
    ensures within { IsFrontWithin result.0 }
{
    let (first, rest) = take_u8(bytes);
    let (tos, rest) = take_u8(rest);
    let (total, rest) = take_u16(rest);
    let (ident, rest) = take_u16(rest);
    let (frag, rest) = take_u16(rest);
    let (ttl, rest) = take_u8(rest);
    let (proto, rest) = take_u8(rest);
    let (sum, rest) = take_u16(rest);
    let (src, rest) = take_u32(rest);
    let (dst, rest) = take_u32(rest);
    let front = Front {
        first,
        tos,
        total,
        ident,
        frag,
        ttl,
        proto,
        sum,
        src: Ip4(src),
        dst: Ip4(dst),
    };
    (front, rest)
}
