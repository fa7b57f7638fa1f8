//! Tuples of frames, and frames before and after translation.
use crate::tables::{FRAMES, ROWS, Row};
use crate::tracker::{Told, Tracker};
use crate::tuples::tuple;
use conn_table::tuple::Tuple;
use inet_packet::decode::decode;
use inet_packet::encode::encode;
use inet_packet::packet::Packet;
use ovn_base::address::Mac;
use std::alloc::Global;
use std::test::*;

fn read(alloc: Global, digits: &str) -> Result<Packet, Fail> {
    let frame = hex::decode(alloc, digits)?;
    Ok(decode(alloc, &frame).ok().ok_or("the bytes are a frame")?)
}

fn written(alloc: Global, packet: &Packet) -> Result<Vec<u8>, Fail> {
    let mut out = Vec::new(alloc);
    encode(packet, &mut out).ok().ok_or("there is memory")?;
    Ok(out)
}

#[test]
fn frames_have_tuples(rt: HostRuntime) -> Result<(), Fail> {
    for (digits, wanted) in FRAMES {
        let packet = read(rt.alloc(), digits)?;
        assert_eq!(rt; Tuple::of(&packet), wanted.map(tuple), "at {digits}");
    }
    Ok(())
}

// Makes the packet one of a connection, and translates it.
fn translate(
    alloc: Global,
    answers: bool,
    becomes: Tuple,
    packet: &mut Packet,
) -> Result<Told, Fail> {
    let from = Tuple::of(packet).ok_or("the packet has a tuple")?;
    let mut list = Tracker::new(alloc).ok().ok_or("there is memory")?;
    let begun = if answers {
        list.begin(becomes.reversed(), from, 0)
    } else {
        list.begin(from, becomes.reversed(), 0)
    };
    if begun != Told::Added {
        return Ok(begun);
    }
    Ok(list.translate(packet))
}

// A router sends the packet on.
fn send(packet: &mut Packet, dst: Mac, src: Mac) {
    if packet.body.ip_ttl() > 0 {
        packet.dec_ttl();
    }
    packet.dst = dst;
    packet.src = src;
}

// What the list says of the row's packet, and what becomes of it.
fn sent_on(alloc: Global, row: &Row) -> Result<(Told, Vec<u8>), Fail> {
    let mut packet = read(alloc, row.before)?;
    let told = translate(alloc, row.answers, tuple(row.becomes), &mut packet)?;
    if let Some((dst, src)) = row.sent {
        send(&mut packet, dst, src);
    }
    Ok((told, written(alloc, &packet)?))
}

#[test]
fn packets_of_connections_are_translated(rt: HostRuntime) -> Result<(), Fail> {
    for row in &ROWS {
        let wanted = if row.answers {
            Told::Reply
        } else {
            Told::Forward
        };
        let (told, frame) = sent_on(rt.alloc(), row)?;
        assert_eq!(rt; told, wanted);
        assert_eq!(rt;
            frame,
            hex::decode(rt.alloc(), row.after)?,
            "at {}",
            row.before
        );
    }
    Ok(())
}
