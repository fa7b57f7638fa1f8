//! A zone that is full.
ghost use Rattle.std.specs.Prelude.{IfOk};
ghost use Rattle.inet_packet.specs.Whole.{IsWhole};
ghost use Rattle.switch_engine.specs.Proper.{IsProper};

use crate::rows::row;
use crate::tables::{all, name, sent_in, set, tables, zones};
use flow_table::flow::{Cause, FlowOp, ZoneOf};
use flow_table::tables::Tables;
use inet_packet::decode::decode;
use inet_packet::packet::Packet;
use inet_packet::regs::Reg;
use ovn_base::memory::NoMemory;
use ovn_base::name::Name;
use std::alloc::Global;
use std::test::Fail;
use switch_engine::effect::{Effect, Entry};
use switch_engine::zones::Zones;

// A UDP packet from 10.0.0.1 to 10.0.0.2, between these ports.
fn asking(alloc: Global, from: u16, to: u16) -> Result<Packet, NoMemory>
    ensures { IfOk result IsWhole }
{
    let [a, b] = from.to_be_bytes();
    let [c, d] = to.to_be_bytes();
    let frame = [
        10, 0, 0, 0, 0, 2, 10, 0, 0, 0, 0, 1, 8, 0, 0x45, 0, 0, 28, 0, 1, 0, 0, 64, 17, 0x66, 0xce,
        10, 0, 0, 1, 10, 0, 0, 2, a, b, c, d, 0, 8, 0, 0,
    ];
    match decode(alloc, &frame) {
        Ok(packet) => Ok(packet),
        Err(_) => Err(NoMemory),
    }
}

// Packets from port 2 of datapath 3 begin connections in zone 7 and go on, where they can.
fn committing(alloc: Global, p1: Name) -> Result<Tables, NoMemory>
    ensures { IfOk result (λ t. IsProper t.flows) }
{
    let leave = FlowOp::output(alloc, p1)?;
    let begin = [
        set(Reg::Dp, 3),
        set(Reg::InPort, 2),
        set(Reg::ZIn, 7),
        FlowOp::Commit(ZoneOf::In),
        leave,
    ];
    tables(alloc, &[], [row(alloc, 0, all(), begin)])
}

// What comes of a packet.
#[derive(Clone, Copy, PartialEq, Eq, Debug)]
enum Comes {
    Leaves,
    Drops(Cause),
    Other,
}

// What comes of the packet between these ports, where that is its only effect; it is dropped at port 2 of datapath 3.
fn told(
    alloc: Global,
    tables: &Tables,
    zones: &mut Zones,
    p1: Name,
    from: u16,
    to: u16,
) -> Result<Comes, NoMemory>
    requires { IsProper tables.now.flows }
{
    let packet = asking(alloc, from, to)?;
    let out = sent_in(alloc, tables, zones, Entry::Vif(p1), packet, 0)?;
    Ok(match out.effects.as_slice() {
        [Effect::Out { .. }] => Comes::Leaves,
        [
            Effect::Drop {
                vni: 3,
                port: 2,
                cause,
            },
        ] => Comes::Drops(*cause),
        _ => Comes::Other,
    })
}

// Whether each packet that begins a connection to port 53, one from each port, leaves.
fn fills(alloc: Global, tables: &Tables, zones: &mut Zones, p1: Name) -> Result<bool, NoMemory>
    requires { IsProper tables.now.flows }
{
    let mut all = true;
    for port in 0..=u16::MAX {
        all &= told(alloc, tables, zones, p1, port, 53)? == Comes::Leaves;
    }
    Ok(all)
}

// Whether the list is filled, and then what comes of a packet that would begin one more connection, and of one of a connection that is
// there.
fn filled(alloc: Global) -> Result<(bool, Comes, Comes), NoMemory> {
    let p1 = name("p1")?;
    let tables = committing(alloc, p1)?;
    let mut zones = zones(alloc, &[7])?;
    let all = fills(alloc, &tables, &mut zones, p1)?;
    let more = told(alloc, &tables, &mut zones, p1, 5000, 54)?;
    let held = told(alloc, &tables, &mut zones, p1, 5000, 53)?;
    Ok((all, more, held))
}

// A list has room for 65,536 connections, as many as there are ports. A packet that would begin one more is dropped, and a packet of
// one that is there is not.
#[test]
fn zone_is_full(rt: HostRuntime) -> Result<(), Fail> {
    assert_eq!(rt;
        filled(rt.alloc())?,
        (true, Comes::Drops(Cause::Full), Comes::Leaves)
    );
    Ok(())
}
