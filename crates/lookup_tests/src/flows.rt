//! Flows of a few masks, packets that they may match, and what a classifier does with both.

use flow_table::flow::{Flow, FlowOp, SharedFlow, ZoneOf};
use flow_table::lookup::Lookup;
use inet_packet::cube::{Bits, Cube};
use inet_packet::packet::{Body, Ip4Packet, Packet, Part};
use inet_packet::regs::{At, RegFlags, Regs};
use ovn_base::address::{Backend, Ip4, Mac};
use ovn_base::delta::Delta;
use ovn_base::list::List;
use ovn_base::memory::NoMemory;
use std::alloc::Global;

/// What makes a flow: where it stands, which fields it asks for, and the number that it wants in each of them.
#[derive(Clone, Copy)]
pub struct Row {
    pub table: u8,
    pub priority: u16,
    pub rank: u8,
    pub asks: u32,
    pub wants: u32,
}

// The packets that have the number in the fields.
fn cube(asks: u32, wants: u32) -> Cube {
    let wants = u64::from(wants);
    let mut cube = Cube::EVERYTHING;
    match asks {
        0 => {}
        1 => cube.dp = Bits::exactly(24, wants),
        2 => {
            cube.ip4_src = Bits {
                value: (10 << 24) | (wants & 255) << 8,
                mask: 0xffff_ff00,
            };
        }
        3 => {
            cube.dp = Bits::exactly(24, wants);
            cube.ip_proto = Bits::exactly(8, 17);
        }
        4 => cube.eth_src = Bits::exactly(48, wants),
        5 => cube.at = Some(At::Tunnel),
        6 => cube.in_port = Bits::exactly(16, wants),
        7 => {
            cube.in_port = Bits::exactly(16, wants);
            cube.eth_src = Bits::exactly(48, wants);
        }
        8 => cube.out_port = Bits::exactly(16, wants),
        9 => cube.next = Bits::exactly(32, wants),
        10 => {
            cube.dp = Bits::exactly(24, wants);
            cube.next = Bits { value: 0, mask: 4 };
        }
        11 => cube.z_in = Bits::exactly(16, wants),
        12 => cube.udp_dst = Bits::exactly(16, 52 + wants),
        _ => {
            cube.z_in = Bits::exactly(16, wants);
            cube.udp_dst = Bits::exactly(16, 52 + wants);
        }
    }
    cube
}

/// The flow of the row.
pub fn flow(alloc: Global, row: &Row) -> Result<SharedFlow, NoMemory> {
    let cube = cube(row.asks, row.wants);
    Flow::shared(alloc, row.table, row.priority, row.rank, cube, &[])
}

/// Whether an operation with a list is equal to its copy, and so is a flow that has it.
pub fn are_copied(alloc: Global) -> Result<bool, NoMemory> {
    let vip = Backend {
        ip: Ip4(0x0a00_0007),
        port: 80,
    };
    let balance = FlowOp::balance(alloc, ZoneOf::In, vip, &[vip])?;
    let same = balance.copy()? == balance;
    let flow = Flow::shared(alloc, 8, 100, 1, cube(1, 7), &[balance])?;
    Ok(same && flow.get().copy()? == *flow.get())
}

// Registers with the number in all fields that flows ask for.
fn regs(number: u32) -> Regs {
    Regs {
        dp: number,
        in_port: number,
        out_port: number,
        next: number,
        z_in: number,
        z_out: 0,
        z_dnat: 0,
        z_snat: 0,
        state: 0,
        verdict: 0,
        tier: 0,
        flags: RegFlags(0),
        at: At::Tunnel,
    }
}

/// A UDP packet with the number in all fields that flows ask for.
pub fn packet(alloc: Global, number: u8) -> Packet {
    Packet {
        dst: Mac([0x0a, 0, 0, 0, 0, 2]),
        src: Mac([0, 0, 0, 0, 0, number]),
        body: Body::Ip4(Ip4Packet {
            tos: 0,
            total: 28,
            ident: 0,
            frag: 0,
            ttl: 64,
            proto: 17,
            sum: 0,
            src: Ip4(0x0a00_0001 | u32::from(number) << 8),
            dst: Ip4(0x0a00_0002),
            options: List::new(alloc),
            part: Part::Udp {
                src_port: 1024,
                dst_port: 53,
                len: 8,
                sum: 0,
            },
        }),
        tail: List::new(alloc),
    }
}

/// The flow comes, and the others go. It is named among them too: so the delta is one of any flows.
pub fn change<T: Lookup>(
    held: &mut T,
    comes: SharedFlow,
    goes: List<SharedFlow>,
) -> Result<(), NoMemory> {
    let mut removed = goes;
    removed.push(comes.share()?)?;
    let mut added = List::new(comes.get().ops.allocator());
    added.push(comes)?;
    let delta = Delta { added, removed };
    held.prepare(&delta)?;
    held.replace(delta);
    Ok(())
}

/// The flow goes.
pub fn remove<T: Lookup>(held: &mut T, goes: SharedFlow) -> Result<(), NoMemory> {
    let alloc = goes.get().ops.allocator();
    let mut removed = List::new(alloc);
    removed.push(goes)?;
    let delta = Delta {
        added: List::new(alloc),
        removed,
    };
    held.prepare(&delta)?;
    held.replace(delta);
    Ok(())
}

/// The priority and the rank of the flow that the packet takes, with registers that have the number.
pub fn taken<T: Lookup>(held: &T, table: u8, number: u32, packet: &Packet) -> Option<(u16, u8)> {
    let flow = held.lookup(table, &regs(number), packet)?.get();
    Some((flow.priority, flow.rank))
}

/// How many flows there are, up to this many.
pub fn count<T: Lookup>(held: &T, most: usize) -> usize {
    for index in 0..most {
        if held.flow(index).is_none() {
            return index;
        }
    }
    most
}
