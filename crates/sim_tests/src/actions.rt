//! What actions make of packets on a chassis that know no connection, without records.

use crate::cubes::{all, next_to, on};
use crate::sims::{enters, leaves, name, shows};
use engine_tests::packets::ASKED;
use engine_tests::rows::row;
use flow_table::flow::FlowOp;
use ovn_base::address::Mac;
use std::test::Fail;

// ASKED as it leaves for the next hop, with one less to live.
const ROUTED: &str =
    "0a00000001090a00000001fe08004500001c000100003f1167ce0a0000010a0000021388138900080000";

// An echo request from 10.0.0.1 to 10.0.0.254, with the identifier 7, and its reply.
const PING: &str =
    "0a00000000fe0a000000000108004500001c00010000400165e20a0000010a0000fe0800f7f700070001";

const PONG: &str =
    "0a00000000fe0a000000000108004500001c00010000ff01a6e10a0000fe0a0000010000fff700070001";

// A packet is routed: new Ethernet addresses, and one less to live.
#[test]
fn routes(rt: HostRuntime) -> Result<(), Fail> {
    let gives = FlowOp::output(rt.alloc(), name("p2")?)?;
    let ops = [
        FlowOp::DecTtl,
        FlowOp::EthSrc(Mac([10, 0, 0, 0, 1, 0xfe])),
        FlowOp::EthDst(Mac([10, 0, 0, 0, 1, 9])),
        gives,
    ];
    let rows = [row(rt.alloc(), 0, all(), ops)];
    let told = shows(rt.alloc(), rows, &[enters(ASKED, leaves(ROUTED), 1)]);
    assert_eq!(rt; told, Ok(true));
    Ok(())
}

// The Ethernet addresses stay, since what follows sets them.
#[test]
fn answers_echo(rt: HostRuntime) -> Result<(), Fail> {
    let gives = FlowOp::output(rt.alloc(), name("p2")?)?;
    let rows = [row(rt.alloc(), 0, all(), [FlowOp::EchoReply, gives])];
    let told = shows(rt.alloc(), rows, &[enters(PING, leaves(PONG), 1)]);
    assert_eq!(rt; told, Ok(true));
    Ok(())
}

// The next hop is the destination, and table 1 knows it.
#[test]
fn next_hop(rt: HostRuntime) -> Result<(), Fail> {
    let gives = FlowOp::output(rt.alloc(), name("p2")?)?;
    let rows = [
        row(rt.alloc(), 0, all(), [FlowOp::NextDst, FlowOp::Go(1)]),
        row(rt.alloc(), 1, next_to(0x0a00_0002), [gives]),
    ];
    let told = shows(rt.alloc(), rows, &[enters(ASKED, leaves(ASKED), 2)]);
    assert_eq!(rt; told, Ok(true));
    Ok(())
}

// A packet passes into the datapath of the key 4 at its port of the key 2: table 8 knows both.
#[test]
fn passes_into_a_datapath(rt: HostRuntime) -> Result<(), Fail> {
    let gives = FlowOp::output(rt.alloc(), name("p2")?)?;
    let patch = FlowOp::Patch {
        dp: 4,
        in_port: 2,
        z_dnat: 0,
        z_snat: 0,
    };
    let rows = [
        row(rt.alloc(), 0, all(), [FlowOp::Go(64)]),
        row(rt.alloc(), 64, all(), [patch]),
        row(rt.alloc(), 8, on(4, 2), [gives]),
    ];
    let told = shows(rt.alloc(), rows, &[enters(ASKED, leaves(ASKED), 3)]);
    assert_eq!(rt; told, Ok(true));
    Ok(())
}
