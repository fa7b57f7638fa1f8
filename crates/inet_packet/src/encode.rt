//! The frame of a packet, as bytes.
ghost use Rattle.std.specs.Prelude.{◌≡◌, ◌+◌, ◌/◌, ◌%◌, ◌++◌, ◌∷◌, OnOk, OnErr, length, take};
ghost use Rattle.inet_packet.specs.Frame.{two, arp_bytes, ip4_front, ip4_header, part_bytes, body_bytes, frame_of};

use crate::packet::{Arp, Body, Ip4Packet, Packet, Part};
use ovn_base::memory::NoMemory;

/// Appends the frame of the packet. Without memory `out` stays as it was.
pub fn encode(packet: &Packet, out: &mut Vec<u8>) -> Result<(), NoMemory>
    ensures ok { OnOk result (out.new.items ≡ out.old.items ++ frame_of packet.now) }
    ensures err { OnErr result (out.new.items ≡ out.old.items) }
{
    let before = out.len();
    let answer = put_packet(packet, out);
    if answer.is_err() {
        out.truncate(before);
    }
    answer
}

#[tactic(auto, unfolding(crate::specs::Frame::frame_of))]
fn put_packet(packet: &Packet, out: &mut Vec<u8>) -> Result<(), NoMemory>
    ensures ok { OnOk result (out.new.items ≡ out.old.items ++ frame_of packet.now) }
    ensures err { OnErr result (take (length out.old.items) out.new.items ≡ out.old.items) }
{
    put(out, &packet.dst.bytes())?;
    put(out, &packet.src.bytes())?;
    put_body(&packet.body, out)?;
    put(out, packet.tail.as_slice())
}

fn put(out: &mut Vec<u8>, bytes: &[u8]) -> Result<(), NoMemory>
    ensures ok { OnOk result (out.new.items ≡ out.old.items ++ bytes.now) }
    ensures err { OnErr result (out.new.items ≡ out.old.items) }
{
    out.extend_from_slice(bytes)?;
    Ok(())
}

fn put_body(body: &Body, out: &mut Vec<u8>) -> Result<(), NoMemory>
    ensures ok { OnOk result (out.new.items ≡ out.old.items ++ body_bytes body.now) }
    ensures err { OnErr result (take (length out.old.items) out.new.items ≡ out.old.items) }
{
    match body {
        Body::Arp(arp) => {
            put(out, &[0x08, 0x06])?;
            put_arp(arp, out)
        }
        Body::Ip4(packet) => {
            put(out, &[0x08, 0x00])?;
            put_header(packet, out)?;
            put_part(&packet.part, out)
        }
        Body::Other { ether_type } => put(out, &ether_type.to_be_bytes()),
    }
}

fn put_arp(arp: &Arp, out: &mut Vec<u8>) -> Result<(), NoMemory>
    ensures ok { OnOk result (out.new.items ≡ out.old.items ++ arp_bytes arp.now) }
    ensures err { OnErr result (take (length out.old.items) out.new.items ≡ out.old.items) }
{
    put(out, &[0, 1, 8, 0, 6, 4])?;
    put(out, &arp.op.to_be_bytes())?;
    put(out, &arp.sha.bytes())?;
    put(out, &arp.spa.0.to_be_bytes())?;
    put(out, &arp.tha.bytes())?;
    put(out, &arp.tpa.0.to_be_bytes())
}

#[tactic(auto, unfolding(crate::specs::Frame::ip4_header))]
fn put_header(packet: &Ip4Packet, out: &mut Vec<u8>) -> Result<(), NoMemory>
    ensures ok { OnOk result (out.new.items ≡ out.old.items ++ ip4_header packet.now) }
    ensures err { OnErr result (take (length out.old.items) out.new.items ≡ out.old.items) }
{
    put_front(first_byte(packet), packet, out)?;
    put(out, &packet.src.0.to_be_bytes())?;
    put(out, &packet.dst.0.to_be_bytes())?;
    put(out, packet.options.as_slice())
}

// The header up to its addresses.
fn put_front(first: u8, packet: &Ip4Packet, out: &mut Vec<u8>) -> Result<(), NoMemory>
    ensures ok { OnOk result (out.new.items ≡ out.old.items ++ first ∷ ip4_front packet.now) }
    ensures err { OnErr result (take (length out.old.items) out.new.items ≡ out.old.items) }
{
    let [total, total_low] = packet.total.to_be_bytes();
    let [ident, ident_low] = packet.ident.to_be_bytes();
    let [frag, frag_low] = packet.frag.to_be_bytes();
    let [sum, sum_low] = packet.sum.to_be_bytes();
    let front = [
        first,
        packet.tos,
        total,
        total_low,
        ident,
        ident_low,
        frag,
        frag_low,
        packet.ttl,
        packet.proto,
        sum,
        sum_low,
    ];
    put(out, &front)
}

// Version 4, and the header's length in words of four bytes.
fn first_byte(packet: &Ip4Packet) -> u8
    ensures { result ≡ (64 + (5 + length packet.now.options / 4)) % 256 }
{
    ((64 + (5 + packet.options.len() / 4)) % 256) as u8
}

fn put_part(part: &Part, out: &mut Vec<u8>) -> Result<(), NoMemory>
    ensures ok { OnOk result (out.new.items ≡ out.old.items ++ part_bytes part.now) }
    ensures err { OnErr result (take (length out.old.items) out.new.items ≡ out.old.items) }
{
    match part {
        Part::Tcp {
            src_port,
            dst_port,
            middle,
            sum,
            urgent,
        } => {
            put(out, &src_port.to_be_bytes())?;
            put(out, &dst_port.to_be_bytes())?;
            put(out, middle)?;
            put(out, &sum.to_be_bytes())?;
            put(out, &urgent.to_be_bytes())
        }
        Part::Udp {
            src_port,
            dst_port,
            len,
            sum,
        } => {
            put(out, &src_port.to_be_bytes())?;
            put(out, &dst_port.to_be_bytes())?;
            put(out, &len.to_be_bytes())?;
            put(out, &sum.to_be_bytes())
        }
        Part::Icmp {
            kind,
            code,
            sum,
            ident,
        } => {
            put(out, &[*kind, *code])?;
            put(out, &sum.to_be_bytes())?;
            put(out, &ident.to_be_bytes())
        }
        Part::OtherIp | Part::Fragment => Ok(()),
    }
}
