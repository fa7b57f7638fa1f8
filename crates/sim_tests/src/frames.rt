//! Frames between chassis.

use crate::cubes::at;
use crate::sims::{FRAME, chassis, come, entered, is_all, leaves, name};
use chassis_sim::out::{SimFault, SimOut};
use chassis_sim::sim::Sim;
use engine_tests::rows::row;
use flow_table::flow::{FlowOp, SharedFlow};
use flow_table::tables::Tables;
use inet_packet::regs::{At, Reg};
use ovn_base::memory::NoMemory;
use std::alloc::Global;
use std::test::Fail;
use switch_engine::walk::Start;

// The flow of hv1 that sends what enters at p1 as a frame to hv2, from the port of the key 1 of the datapath 1 to that of the key 2.
fn sends(alloc: Global) -> Result<SharedFlow, NoMemory> {
    let (p1, hv2) = (name("p1")?, name("hv2")?);
    let send = FlowOp::frame(alloc, hv2)?;
    let ops = [
        FlowOp::Set {
            reg: Reg::Dp,
            value: 1,
        },
        FlowOp::Set {
            reg: Reg::InPort,
            value: 1,
        },
        FlowOp::Set {
            reg: Reg::OutPort,
            value: 2,
        },
        send,
    ];
    row(alloc, 0, at(At::Local(p1)), ops)
}

// What comes of the frame of the number.
fn arrived(alloc: Global, sim: &mut Sim<Tables>, frame: u128) -> Result<SimOut, SimFault> {
    let mut out = SimOut::new(alloc);
    if sim.next_frame() < 1 << 127 {
        sim.arrive(frame, false, 0, &mut out)?;
    }
    Ok(out)
}

// hv2 comes, and gives what comes from tunnels out of p2.
fn second_chassis(alloc: Global, sim: &mut Sim<Tables>) -> Result<(), NoMemory> {
    let ops = [FlowOp::output(alloc, name("p2")?)?];
    let gives = row(alloc, 0, at(At::Tunnel), ops);
    come(alloc, sim, "hv2", [gives], "p2")
}

// Whether the frame of a packet at p1 comes to the other chassis, and the packet leaves it by p2.
fn reaches(alloc: Global, sim: &mut Sim<Tables>) -> Result<bool, SimFault> {
    entered(alloc, sim, "p1", FRAME, 0)?;
    second_chassis(alloc, sim)?;
    let out = arrived(alloc, sim, 1)?;
    Ok(is_all(alloc, &out, "hv2", Start::Frame(1), leaves(FRAME), 1)?)
}

// Whether it is so where hv1 sends frames.
fn is_reached(alloc: Global) -> Result<bool, SimFault> {
    let mut sim = chassis(alloc, [sends(alloc)])?;
    reaches(alloc, &mut sim)
}

#[test]
fn frames_reach_the_chassis(rt: HostRuntime) -> Result<(), Fail> {
    assert_eq!(rt; is_reached(rt.alloc()), Ok(true));
    Ok(())
}

// Whether the first of two frames is gone once it arrived, and the second once it was lost; and then none waits, and the next is the third.
fn are_gone(alloc: Global, sim: &mut Sim<Tables>) -> Result<bool, SimFault> {
    entered(alloc, sim, "p1", FRAME, 0)?;
    entered(alloc, sim, "p1", FRAME, 0)?;
    arrived(alloc, sim, 1)?;
    let arrived_once = arrived(alloc, sim, 1) == Err(SimFault::NoFrame(1));
    let lost = sim.lose(2) == Ok(());
    let lost_once = sim.lose(2) == Err(SimFault::NoFrame(2));
    Ok(arrived_once && lost && lost_once && sim.waiting() == 0 && sim.next_frame() == 3)
}

// Whether it is so where hv1 sends frames.
fn are_gone_for_good(alloc: Global) -> Result<bool, SimFault> {
    let mut sim = chassis(alloc, [sends(alloc)])?;
    are_gone(alloc, &mut sim)
}

// The number of a frame that is gone is not given again.
#[test]
fn frames_that_are_gone(rt: HostRuntime) -> Result<(), Fail> {
    assert_eq!(rt; are_gone_for_good(rt.alloc()), Ok(true));
    Ok(())
}
