//! Packets for groups of ports.

use crate::rows::row;
use crate::tables::{Comes, at, name, set, shows, to};
use flow_table::flow::{FlowOp, Member, SharedFlow};
use inet_packet::regs::{At, Reg};
use ovn_base::memory::NoMemory;
use ovn_base::name::Name;
use std::alloc::Global;
use std::test::Fail;
use switch_engine::effect::Entry;

// The key of the group of the ports that take unknown addresses.
const UNKNOWN: u16 = 0x8001;

// The packet goes as a frame, on the datapath of the key 1, from the port of the key to the group.
fn framed(chassis: Name, in_key: u16) -> Comes {
    Comes::Frame {
        chassis,
        vni: 1,
        in_key,
        out_key: UNKNOWN,
    }
}

// The flow of table 33 that copies what is for the group to these members.
fn copies(alloc: Global, members: &[Member]) -> Result<SharedFlow, NoMemory> {
    row(alloc, 33, to(UNKNOWN), [FlowOp::copies(alloc, members)?])
}

// The flow of table 64 that gives what is for the port of the key out of the port.
fn gives(alloc: Global, key: u16, port: Name) -> Result<SharedFlow, NoMemory> {
    row(alloc, 64, to(key), [FlowOp::output(alloc, port)?])
}

// On hv1 the port p1 has the key 1, and p3 with the key 3 takes unknown addresses, as a port of hv2 does: a packet of p1 for an
// address that no port has goes out of p3, and as a frame to hv2.
#[test]
fn unknown_group_where_it_is_sent(rt: HostRuntime) -> Result<(), Fail> {
    let alloc = rt.alloc();
    let (p1, p3, hv2) = (name("p1")?, name("p3")?, name("hv2")?);
    let group = u32::from(UNKNOWN);
    let enter = [set(Reg::Dp, 1), set(Reg::InPort, 1), FlowOp::Go(8)];
    let send = FlowOp::frame(alloc, hv2)?;
    let rows = [
        row(alloc, 0, at(At::Local(p1)), enter),
        row(alloc, 14, to(0), [set(Reg::OutPort, group), FlowOp::Go(32)]),
        row(alloc, 32, to(UNKNOWN), [send, FlowOp::Go(33)]),
        copies(alloc, &[Member { key: 3, zone: 7 }]),
        gives(alloc, 3, p3),
    ];
    let way = [
        (8, 9),
        (9, 10),
        (10, 11),
        (11, 12),
        (12, 13),
        (13, 14),
        (34, 40),
        (40, 41),
        (41, 42),
        (42, 43),
        (43, 64),
    ];
    let effects = [framed(hv2, 1), Comes::Leaves(p3)];
    let path = [0, 8, 9, 10, 11, 12, 13, 14, 32, 33, 34, 40, 41, 42, 43, 64];
    assert!(rt; shows(alloc, &way, rows, Entry::Vif(p1), &effects, &path)?);
    Ok(())
}

// On hv2, where p4 with the key 4 takes unknown addresses, the frame goes out of p4.
#[test]
fn unknown_group_where_it_arrives(rt: HostRuntime) -> Result<(), Fail> {
    let alloc = rt.alloc();
    let p4 = name("p4")?;
    let arrive = [FlowOp::Header, set(Reg::Arrived, 1), FlowOp::Go(33)];
    let rows = [
        row(alloc, 0, at(At::Tunnel), arrive),
        copies(alloc, &[Member { key: 4, zone: 1 }]),
        gives(alloc, 4, p4),
    ];
    let way = [(34, 40), (40, 41), (41, 42), (42, 43), (43, 64)];
    let entry = Entry::Tunnel {
        vni: 1,
        in_key: 1,
        out_key: UNKNOWN,
    };
    let path = [0, 33, 34, 40, 41, 42, 43, 64];
    assert!(rt; shows(alloc, &way, rows, entry, &[Comes::Leaves(p4)], &path)?);
    Ok(())
}

// The flow that gives what is for the port of the key 5 out of it, where its zone is 9.
fn gives_in_zone(alloc: Global, port: Name) -> Result<SharedFlow, NoMemory> {
    let mut cube = to(5);
    cube.z_out.value = 9;
    cube.z_out.mask = 0xffff;
    row(alloc, 64, cube, [FlowOp::output(alloc, port)?])
}

// Frames come before the copies, in order. The port p2 with the key 2, at which the packet enters, gets no copy, and the other
// members have their zones.
#[test]
fn copies_for_all_members_but_one(rt: HostRuntime) -> Result<(), Fail> {
    let alloc = rt.alloc();
    let (p1, p2, p5) = (name("p1")?, name("p2")?, name("p5")?);
    let (hv2, hv3) = (name("hv2")?, name("hv3")?);
    let members = [
        Member { key: 1, zone: 8 },
        Member { key: 2, zone: 0 },
        Member { key: 5, zone: 9 },
    ];
    let first = FlowOp::frame(alloc, hv2)?;
    let second = FlowOp::frame(alloc, hv3)?;
    let enter = [
        set(Reg::Dp, 1),
        set(Reg::InPort, 2),
        set(Reg::OutPort, u32::from(UNKNOWN)),
        first,
        second,
        FlowOp::Go(33),
    ];
    let rows = [
        row(alloc, 0, at(At::Local(p2)), enter),
        copies(alloc, &members),
        gives(alloc, 1, p1),
        gives_in_zone(alloc, p5),
    ];
    let effects = [
        framed(hv2, 2),
        framed(hv3, 2),
        Comes::Leaves(p1),
        Comes::Leaves(p5),
    ];
    let path = [0, 33, 34, 64, 34, 64];
    assert!(rt; shows(alloc, &[(34, 64)], rows, Entry::Vif(p2), &effects, &path)?);
    Ok(())
}

// The flow of table 0 that copies what is for no port to the port of the key 3, and has the packet itself go on.
fn copies_and_goes(alloc: Global) -> Result<SharedFlow, NoMemory> {
    let copies = FlowOp::copies(alloc, &[Member { key: 3, zone: 0 }])?;
    row(alloc, 0, to(0), [copies, FlowOp::Go(40)])
}

// The copy itself goes to its end, at p1, before the one that was made of it for p3 with the key 3.
#[test]
fn carries_each_copy_to_its_end(rt: HostRuntime) -> Result<(), Fail> {
    let alloc = rt.alloc();
    let (p1, p3) = (name("p1")?, name("p3")?);
    let rows = [
        copies_and_goes(alloc),
        gives(alloc, 3, p3),
        gives(alloc, 0, p1),
    ];
    let way = [(34, 64), (40, 64)];
    let effects = [Comes::Leaves(p1), Comes::Leaves(p3)];
    let path = [0, 40, 64, 34, 64];
    assert!(rt; shows(alloc, &way, rows, Entry::Vif(p1), &effects, &path)?);
    Ok(())
}
