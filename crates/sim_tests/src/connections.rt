//! What actions make of connections on a chassis, without records.

use crate::cubes::{all, from, new_from, seen};
use crate::sims::{Comes, Step, enters, leaves, name, shows};
use engine_tests::packets::{ANSWERED, ASKED};
use engine_tests::rows::row;
use flow_table::flow::{Cause, FlowOp, SharedFlow, ZoneOf};
use inet_packet::cube::Cube;
use inet_packet::regs::Reg;
use ovn_base::address::{Backend, Ip4};
use ovn_base::memory::NoMemory;
use ovn_base::name::Name;
use std::alloc::Global;
use std::test::Fail;

// ASKED, to 10.0.0.7, and the answer of 10.0.0.7.
const ASKED_7: &str =
    "0a00000000020a000000000108004500001c00010000401166c90a0000010a0000071388138900080000";

const ANSWERED_7: &str =
    "0a00000000010a000000000208004500001c00010000401166c90a0000070a0000011389138800080000";

// ASKED, from 172.16.0.254, and what is answered there.
const ASKED_HIDDEN: &str =
    "0a00000000020a000000000108004500001c000100004011c3c0ac1000fe0a0000021388138900080000";

const ANSWERED_HIDDEN: &str =
    "0a00000000010a000000000208004500001c000100004011c3c00a000002ac1000fe1389138800080000";

// ASKED as of 10.0.0.3, and from 172.16.0.254, port 1024.
const OTHER: &str =
    "0a00000000020a000000000308004500001c00010000401166cc0a0000030a0000021388138900080000";

const OTHER_HIDDEN: &str =
    "0a00000000020a000000000308004500001c000100004011c3c0ac1000fe0a0000020400138900080000";

// The flow of table 0, which looks for the connection of every packet in zone 5.
fn looks(alloc: Global) -> Result<SharedFlow, NoMemory> {
    let zone = FlowOp::Set {
        reg: Reg::ZIn,
        value: 5,
    };
    row(
        alloc,
        0,
        all(),
        [zone, FlowOp::Find(ZoneOf::In), FlowOp::Go(1)],
    )
}

// The flow of table 1 that does the one action with what the zone says so of, and gives it out of p2.
fn does(
    alloc: Global,
    state: u64,
    blocked: u64,
    op: FlowOp,
    p2: Name,
) -> Result<SharedFlow, NoMemory> {
    let gives = FlowOp::output(alloc, p2)?;
    row(alloc, 1, seen(state, blocked), [op, gives])
}

// The destination of a connection becomes another, and its answer comes back from where it was sent.
#[test]
fn destination_nat(rt: HostRuntime) -> Result<(), Fail> {
    let p2 = name("p2")?;
    let turns = FlowOp::Dnat {
        zone: ZoneOf::In,
        ip: Ip4(0x0a00_0002),
    };
    let rows = [
        looks(rt.alloc()),
        does(rt.alloc(), 1, 0, turns, p2),
        does(rt.alloc(), 3, 0, FlowOp::Translate, p2),
    ];
    let steps = [
        enters(ASKED_7, leaves(ASKED), 2),
        enters(ANSWERED, leaves(ANSWERED_7), 2),
    ];
    assert_eq!(rt; shows(rt.alloc(), rows, &steps), Ok(true));
    Ok(())
}

// What comes from the address has the source 172.16.0.254 from then on.
fn hides(alloc: Global, ip: u64, p2: Name) -> Result<SharedFlow, NoMemory> {
    let hide = FlowOp::Snat {
        zone: ZoneOf::Snat,
        ip: Ip4(0xac10_00fe),
    };
    let gives = FlowOp::output(alloc, p2)?;
    row(alloc, 1, from(ip), [hide, gives])
}

// What meets the cube in table 1 goes out of p2.
fn gives(alloc: Global, cube: Cube, p2: Name) -> Result<SharedFlow, NoMemory> {
    row(alloc, 1, cube, [FlowOp::output(alloc, p2)?])
}

// What leaves 10.0.0.1 or 10.0.0.3 is hidden, and what comes back of 10.0.0.2 is for the source as it was.
fn hiding(alloc: Global, p2: Name) -> [Result<SharedFlow, NoMemory>; 4] {
    let zone = FlowOp::Set {
        reg: Reg::ZSnat,
        value: 5,
    };
    [
        row(alloc, 0, all(), [zone, FlowOp::Undo, FlowOp::Go(1)]),
        hides(alloc, 0x0a00_0001, p2),
        gives(alloc, from(0x0a00_0002), p2),
        hides(alloc, 0x0a00_0003, p2),
    ]
}

#[test]
fn source_nat(rt: HostRuntime) -> Result<(), Fail> {
    let steps = [
        enters(ASKED, leaves(ASKED_HIDDEN), 2),
        enters(ANSWERED_HIDDEN, leaves(ANSWERED), 2),
    ];
    let rows = hiding(rt.alloc(), name("p2")?);
    assert_eq!(rt; shows(rt.alloc(), rows, &steps), Ok(true));
    Ok(())
}

// The source port is taken, so the least free one is picked.
#[test]
fn picks_a_port(rt: HostRuntime) -> Result<(), Fail> {
    let picked = Comes::PicksPort {
        picked: 1024,
        frame: OTHER_HIDDEN,
    };
    let steps = [
        enters(ASKED, leaves(ASKED_HIDDEN), 2),
        enters(OTHER, picked, 2),
    ];
    let rows = hiding(rt.alloc(), name("p2")?);
    assert_eq!(rt; shows(rt.alloc(), rows, &steps), Ok(true));
    Ok(())
}

// The port 5001 of the address.
fn at_port(ip: u32) -> Backend {
    Backend {
        ip: Ip4(ip),
        port: 5001,
    }
}

// A new connection goes to one of the backends of 10.0.0.7.
fn balances(alloc: Global, backends: &[Backend], p2: Name) -> Result<SharedFlow, NoMemory> {
    let balance = FlowOp::balance(alloc, ZoneOf::In, at_port(0x0a00_0007), backends)?;
    does(alloc, 1, 0, balance, p2)
}

// A connection to a virtual address goes to its backend, and its answer comes from the virtual address.
#[test]
fn picks_a_backend(rt: HostRuntime) -> Result<(), Fail> {
    let p2 = name("p2")?;
    let backend = at_port(0x0a00_0002);
    let rows = [
        looks(rt.alloc()),
        balances(rt.alloc(), &[backend], p2),
        does(rt.alloc(), 3, 0, FlowOp::Translate, p2),
    ];
    let picked = Comes::PicksBackend {
        vip: at_port(0x0a00_0007),
        backend,
        frame: ASKED,
    };
    let steps = [
        enters(ASKED_7, picked, 2),
        enters(ANSWERED, leaves(ANSWERED_7), 2),
    ];
    assert_eq!(rt; shows(rt.alloc(), rows, &steps), Ok(true));
    Ok(())
}

// Without a backend that is online a new connection drops.
#[test]
fn no_backend(rt: HostRuntime) -> Result<(), Fail> {
    let rows = [looks(rt.alloc()), balances(rt.alloc(), &[], name("p2")?)];
    let steps = [enters(ASKED_7, Comes::Drops(Cause::NoLiveBackend), 2)];
    assert_eq!(rt; shows(rt.alloc(), rows, &steps), Ok(true));
    Ok(())
}

// A packet of the connection blocks it, so that its answers drop, and the next packet of it opens it again.
#[test]
fn blocks_and_unblocks(rt: HostRuntime) -> Result<(), Fail> {
    let alloc = rt.alloc();
    let p2 = name("p2")?;
    let rows = [
        looks(alloc),
        does(alloc, 1, 0, FlowOp::Commit(ZoneOf::In), p2),
        row(
            alloc,
            1,
            seen(2, 0),
            [FlowOp::Block, FlowOp::Drop(Cause::Acl)],
        ),
        does(alloc, 2, 4, FlowOp::Unblock, p2),
        gives(alloc, seen(3, 0), p2),
        row(alloc, 1, seen(3, 4), [FlowOp::Drop(Cause::Blocked)]),
    ];
    let steps = [
        enters(ASKED, leaves(ASKED), 2),
        enters(ASKED, Comes::Drops(Cause::Acl), 2),
        enters(ANSWERED, Comes::Drops(Cause::Blocked), 2),
        enters(ASKED, leaves(ASKED), 2),
        enters(ANSWERED, leaves(ANSWERED), 2),
    ];
    assert_eq!(rt; shows(alloc, rows, &steps), Ok(true));
    Ok(())
}

// The packet enters at p1 at the time 59, and comes to this.
fn enters_at_59(frame: &'static str, comes: Comes, steps: usize) -> Step {
    Step::Enters {
        port: "p1",
        frame,
        now: 59,
        comes,
        steps,
    }
}

// What is new and comes from the address begins a connection and goes out of p2.
fn begins(alloc: Global, ip: u64, p2: Name) -> Result<SharedFlow, NoMemory> {
    let gives = FlowOp::output(alloc, p2)?;
    row(alloc, 1, new_from(ip), [FlowOp::Commit(ZoneOf::In), gives])
}

// A use keeps a connection of UDP for 60 seconds more: one that begins at 0 and is used at 59 is there at 118, and not at 119.
#[test]
fn touches(rt: HostRuntime) -> Result<(), Fail> {
    let alloc = rt.alloc();
    let p2 = name("p2")?;
    let rows = [
        looks(alloc),
        begins(alloc, 0x0a00_0001, p2),
        does(alloc, 2, 0, FlowOp::Touch, p2),
        gives(alloc, seen(3, 0), p2),
    ];
    let steps = [
        enters(ASKED, leaves(ASKED), 2),
        enters_at_59(ASKED, leaves(ASKED), 2),
        Step::Expires(118),
        enters_at_59(ANSWERED, leaves(ANSWERED), 2),
        Step::Expires(119),
        enters_at_59(ANSWERED, Comes::Nothing, 1),
    ];
    assert_eq!(rt; shows(alloc, rows, &steps), Ok(true));
    Ok(())
}
