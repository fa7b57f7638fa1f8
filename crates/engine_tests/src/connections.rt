//! A packet that would be tracked.
ghost use Rattle.std.specs.Prelude.{IfOk};
ghost use Rattle.switch_engine.specs.Proper.{IsProper};

use crate::packets::{ASKED, read};
use crate::rows::row;
use crate::tables::{all, at, comes_to, name, sent_in, set, tables, zones};
use flow_table::flow::{FlowOp, ZoneOf};
use flow_table::tables::Tables;
use inet_packet::cube::{Bits, Cube};
use inet_packet::regs::{At, Reg};
use ovn_base::memory::NoMemory;
use ovn_base::name::Name;
use std::alloc::Global;
use std::test::Fail;
use switch_engine::effect::Entry;
use switch_engine::walk::RunOut;
use switch_engine::zones::Zones;

// The packets that are new to a list.
fn new() -> Cube {
    let mut cube = all();
    cube.state = Bits { value: 1, mask: 7 };
    cube
}

// Packets of the port p1 are looked for in zone 7, and new ones begin a connection.
fn tracking(alloc: Global, p1: Name) -> Result<Tables, NoMemory>
    ensures { IfOk result (λ t. IsProper t.flows) }
{
    let look = [set(Reg::ZIn, 7), FlowOp::Find(ZoneOf::In), FlowOp::Go(1)];
    let leave = FlowOp::output(alloc, p1)?;
    let begin = [FlowOp::Commit(ZoneOf::In), leave];
    let rows = [
        row(alloc, 0, at(At::Local(p1)), look),
        row(alloc, 1, new(), begin),
    ];
    tables(alloc, &[], rows)
}

// What comes of the packet in these zones.
fn tracked(alloc: Global, zones: &mut Zones) -> Result<RunOut, NoMemory> {
    let p1 = name("p1")?;
    let packet = read(alloc, ASKED)?;
    let tables = tracking(alloc, p1)?;
    sent_in(alloc, &tables, zones, Entry::Vif(p1), packet, 5)
}

// What comes of it where the zone isn't there.
fn untracked(alloc: Global) -> Result<RunOut, NoMemory> {
    let mut zones = zones(alloc, &[8])?;
    tracked(alloc, &mut zones)
}

// Nothing is found, so no row of table 1 takes the packet.
#[test]
fn no_zone(rt: HostRuntime) -> Result<(), Fail> {
    let out = untracked(rt.alloc())?;
    assert!(rt; comes_to(rt.alloc(), &out, &[], &[0]));
    Ok(())
}
