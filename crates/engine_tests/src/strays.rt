//! Copies whose port isn't here.

use crate::rows::row;
use crate::tables::{Comes, all, at, name, set, shows};
use flow_table::flow::{Cause, FlowOp};
use inet_packet::regs::{At, Reg};
use std::test::Fail;
use switch_engine::effect::Entry;

// What brings a packet for the port of the key 3 from a tunnel.
const FROM_TUNNEL: Entry = Entry::Tunnel {
    vni: 1,
    in_key: 1,
    out_key: 3,
};

const UNBOUND: Comes = Comes::Drops {
    vni: 1,
    port: 3,
    cause: Cause::Unbound,
};

#[test]
fn lost_straight_from_a_tunnel(rt: HostRuntime) -> Result<(), Fail> {
    let alloc = rt.alloc();
    let rows = [row(alloc, 0, at(At::Tunnel), [FlowOp::Header, FlowOp::Go(33)])];
    assert!(rt; shows(alloc, &[], rows, FROM_TUNNEL, &[Comes::Lost], &[0])?);
    Ok(())
}

#[test]
fn dropped_on_the_way_from_a_tunnel(rt: HostRuntime) -> Result<(), Fail> {
    let alloc = rt.alloc();
    let rows = [row(alloc, 0, at(At::Tunnel), [FlowOp::Header, FlowOp::Go(32)])];
    assert!(rt; shows(alloc, &[(32, 33)], rows, FROM_TUNNEL, &[UNBOUND], &[0, 32])?);
    Ok(())
}

#[test]
fn dropped_from_a_port(rt: HostRuntime) -> Result<(), Fail> {
    let alloc = rt.alloc();
    let p1 = name("p1")?;
    let ops = [set(Reg::Dp, 1), set(Reg::OutPort, 3), FlowOp::Go(33)];
    let rows = [row(alloc, 0, all(), ops)];
    assert!(rt; shows(alloc, &[], rows, Entry::Vif(p1), &[UNBOUND], &[0])?);
    Ok(())
}
