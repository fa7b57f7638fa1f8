//! A packet out of the bytes of a frame.
ghost use Rattle.std.specs.Prelude.{◌≡◌, ◌↔◌, ◌<◌, ℕ, List, length, IfOk, IfErr, IsErrOf};
ghost use Rattle.inet_packet.specs.declared.frame.FrameFault.TheVariants.{TooShort, TooBig, BadIp4, Memory};
ghost use Rattle.inet_packet.specs.Frame.{frame_of};
ghost use Rattle.inet_packet.specs.Reading.{IsBodyOf, ReadsBody, IsBadIp4};
ghost use Rattle.inet_packet.specs.Whole.{IsArpBytes, IsWhole};

use crate::frame::{FrameFault, is_arp, take_arp, take_mac, take_u16};
use crate::frame_ip4::{is_ip4, view_ip4};
use crate::packet::{Body, Ip4Packet, Packet};
use ovn_base::limits::{MAX_FRAME, MIN_FRAME};
use ovn_base::list::{Bytes, List};
use std::alloc::Global;

/// The packet whose frame the bytes are, an Ethernet II frame of 14 to 9,216 bytes.
pub fn decode(alloc: Global, frame: &[u8]) -> Result<Packet, FrameFault>
    ensures frame { IfOk result (λ p. frame_of p ≡ frame.now) }
    ensures whole { IfOk result IsWhole }
    ensures again { (p : Packet) → IsWhole p → frame_of p ≡ frame.now → IfOk result (λ q. q ≡ p) }
    ensures short { IsErrOf result TooShort ↔ (length frame.now < MIN_FRAME) }
    ensures big { IsErrOf result TooBig ↔ (MAX_FRAME < length frame.now) }
    ensures bad { IsErrOf result BadIp4 ↔ IsBadIp4 frame.now }
{
    if frame.len() < MIN_FRAME {
        return Err(FrameFault::TooShort);
    }
    if frame.len() > MAX_FRAME {
        return Err(FrameFault::TooBig);
    }
    let (dst, rest) = take_mac(frame);
    let (src, rest) = take_mac(rest);
    let (ether_type, rest) = take_u16(rest);
    let (body, tail) = body_of(alloc, ether_type, rest)?;
    Ok(Packet {
        dst,
        src,
        body,
        tail,
    })
}

fn body_of(alloc: Global, ether_type: u16, bytes: &[u8]) -> Result<(Body, Bytes), FrameFault>
    ensures { ReadsBody result ether_type bytes.now }
{
    if ether_type == 0x0800 {
        return ip4_of(alloc, bytes);
    }
    if ether_type == 0x0806 && is_arp(bytes) {
        return arp_of(alloc, bytes);
    }
    with_tail(alloc, Body::Other { ether_type }, bytes)
}

fn ip4_of(alloc: Global, bytes: &[u8]) -> Result<(Body, Bytes), FrameFault>
    ensures { ReadsBody result 0x0800 bytes.now }
{
    if !is_ip4(bytes) {
        return Err(FrameFault::BadIp4);
    }
    let (front, options, part, tail) = view_ip4(bytes);
    let options = copied(alloc, options)?;
    let packet = Ip4Packet {
        tos: front.tos,
        total: front.total,
        ident: front.ident,
        frag: front.frag,
        ttl: front.ttl,
        proto: front.proto,
        sum: front.sum,
        src: front.src,
        dst: front.dst,
        options,
        part,
    };
    with_tail(alloc, Body::Ip4(packet), tail)
}

fn arp_of(alloc: Global, bytes: &[u8]) -> Result<(Body, Bytes), FrameFault>
    requires { IsArpBytes bytes.now }
    ensures { ReadsBody result 0x0806 bytes.now }
{
    let (arp, tail) = take_arp(bytes);
    with_tail(alloc, Body::Arp(arp), tail)
}

// The body with a copy of the bytes behind it.
fn with_tail(alloc: Global, body: Body, tail: &[u8]) -> Result<(Body, Bytes), FrameFault>
    ensures { (ether_type : ℕ) (bytes : List ℕ) → IsBodyOf ether_type bytes body tail.now → ReadsBody result ether_type bytes }
{
    let tail = copied(alloc, tail)?;
    Ok((body, tail))
}

fn copied(alloc: Global, bytes: &[u8]) -> Result<Bytes, FrameFault>
    ensures ok { IfOk result (λ b. b ≡ bytes.now) }
    ensures err { IfErr result (λ e. e ≡ Memory) }
{
    Ok(List::from_vec(Vec::from_slice(alloc, bytes)?))
}

/// A frame is the frame of at most one whole packet.
#[tactic(auto, using(crate::proofs::OnePacket::one_packet_at_most))]
pub fn one_packet()
    ensures { (p q : Packet) → IsWhole p → IsWhole q → frame_of p ≡ frame_of q → p ≡ q }
{}
