//! Connections in the zones of a chassis, without records.

use crate::cubes::{at, seen};
use crate::sims::{Comes, Step, are_so, bind, chassis, enters, leaves, name};
use chassis_sim::out::SimFault;
use engine_tests::packets::{ANSWERED, ASKED};
use engine_tests::rows::row;
use flow_table::flow::{FlowOp, SharedFlow, ZoneOf};
use inet_packet::regs::{At, Reg};
use ovn_base::memory::NoMemory;
use ovn_base::name::Name;
use std::alloc::Global;
use std::test::Fail;

// The action that has a packet be looked for in zone 5.
fn zone() -> FlowOp {
    FlowOp::Set {
        reg: Reg::ZIn,
        value: 5,
    }
}

// What enters at the port begins a connection in the zone and goes out of the other.
fn begins(alloc: Global, port: Name, other: Name) -> Result<SharedFlow, NoMemory> {
    let leaves = FlowOp::output(alloc, other)?;
    let ops = [
        zone(),
        FlowOp::Find(ZoneOf::In),
        FlowOp::Commit(ZoneOf::In),
        leaves,
    ];
    row(alloc, 0, at(At::Local(port)), ops)
}

// What enters at the port is looked for in the zone.
fn looks(alloc: Global, port: Name) -> Result<SharedFlow, NoMemory> {
    let ops = [zone(), FlowOp::Find(ZoneOf::In), FlowOp::Go(1)];
    row(alloc, 0, at(At::Local(port)), ops)
}

// Whether the steps are so on a chassis, where what enters at p1 begins a connection in the empty zone 5 and goes out of p2, and of
// what enters at p2 the answers go out of p1.
fn are_so_on_both_ports(alloc: Global, steps: &[Step]) -> Result<bool, SimFault> {
    let (p1, p2) = (name("p1")?, name("p2")?);
    let gives = FlowOp::output(alloc, p1)?;
    let rows = [
        begins(alloc, p1, p2),
        looks(alloc, p2),
        row(alloc, 1, seen(3, 0), [gives]),
    ];
    let mut sim = chassis(alloc, rows)?;
    bind(alloc, &mut sim, "p2")?;
    are_so(alloc, &mut sim, steps)
}

// The answer enters at p2, and comes to this.
fn answers(comes: Comes, steps: usize) -> Step {
    Step::Enters {
        port: "p2",
        frame: ANSWERED,
        now: 0,
        comes,
        steps,
    }
}

// A change that empties the zone ends its connections.
#[test]
fn emptied_zones_know_none(rt: HostRuntime) -> Result<(), Fail> {
    let steps = [
        enters(ASKED, leaves(ASKED), 1),
        Step::Empties,
        answers(Comes::Nothing, 1),
    ];
    assert_eq!(rt; are_so_on_both_ports(rt.alloc(), &steps), Ok(true));
    Ok(())
}

// A connection of UDP ends 60 seconds after its last use.
#[test]
fn idle_connections_end(rt: HostRuntime) -> Result<(), Fail> {
    let known = Comes::Leaves {
        port: "p1",
        frame: ANSWERED,
    };
    let steps = [
        enters(ASKED, leaves(ASKED), 1),
        Step::Expires(59),
        answers(known, 2),
        Step::Expires(60),
        answers(Comes::Nothing, 1),
    ];
    assert_eq!(rt; are_so_on_both_ports(rt.alloc(), &steps), Ok(true));
    Ok(())
}
