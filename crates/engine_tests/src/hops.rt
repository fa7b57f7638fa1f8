//! How often a packet passes from datapath to datapath.

use crate::rows::row;
use crate::tables::{all, name, sent, set, tables};
use flow_table::flow::{Cause, FlowOp, SharedFlow};
use inet_packet::cube::{Bits, Cube};
use inet_packet::regs::Reg;
use ovn_base::memory::NoMemory;
use std::alloc::Global;
use std::test::Fail;
use switch_engine::effect::{Effect, Entry};
use switch_engine::walk::RunOut;

// The packets of the datapath of the key.
fn of(dp: u32) -> Cube {
    let mut cube = all();
    cube.dp = Bits {
        value: u64::from(dp),
        mask: 0xff_ffff,
    };
    cube
}

// What takes a packet of the datapath into the other, by its port of the key 2.
fn passes(alloc: Global, from: u32, into: u32) -> Result<SharedFlow, NoMemory> {
    let patch = FlowOp::Patch {
        dp: into,
        in_port: 2,
        z_dnat: 0,
        z_snat: 0,
    };
    row(alloc, 64, of(from), [patch])
}

// What comes of a packet where two datapaths lead to each other.
fn sent_round(alloc: Global) -> Result<RunOut, NoMemory> {
    let p1 = name("p1")?;
    let begin = [set(Reg::Dp, 3), FlowOp::Go(8)];
    let leave = [set(Reg::OutPort, 9), FlowOp::Go(64)];
    let rows = [
        row(alloc, 0, all(), begin),
        row(alloc, 8, all(), leave),
        passes(alloc, 3, 5),
        passes(alloc, 5, 3),
    ];
    let tables = tables(alloc, &[], rows)?;
    sent(alloc, &tables, Entry::Vif(p1))
}

// A packet passes 64 times, so it is on the datapath where it began, and then it is dropped at the port that it would leave. There is
// one step in table 0, and there are two for each of the 65 times that it comes into a datapath.
#[test]
fn hop_limit(rt: HostRuntime) -> Result<(), Fail> {
    let out = sent_round(rt.alloc())?;
    let dropped = Effect::Drop {
        vni: 3,
        port: 9,
        cause: Cause::HopLimit,
    };
    assert!(rt; out.effects.as_slice() == [dropped].as_slice() && out.walk.len() == 131);
    Ok(())
}
