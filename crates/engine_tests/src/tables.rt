//! Tables of proper flows, and what has to come of a packet in them.
ghost use Rattle.std.specs.Prelude.{IfOk};
ghost use Rattle.inet_packet.specs.Whole.{IsWhole};
ghost use Rattle.switch_engine.specs.Proper.{IsEntry, IsProper};

use crate::rows::{put_all, row};
use flow_table::flow::{Cause, FlowOp, SharedFlow};
use flow_table::tables::Tables;
use inet_packet::cube::{Bits, Cube};
use inet_packet::packet::{Body, Packet};
use inet_packet::regs::{At, Reg};
use ovn_base::address::Mac;
use ovn_base::list::List;
use ovn_base::memory::NoMemory;
use ovn_base::name::Name;
use std::alloc::Global;
use switch_engine::effect::{Effect, Entry};
use switch_engine::engine::run;
use switch_engine::walk::RunOut;
use switch_engine::zones::Zones;

/// Every packet.
pub fn all() -> Cube {
    Cube::EVERYTHING
}

/// Every packet that enters there.
pub fn at(entry: At) -> Cube {
    let mut cube = Cube::EVERYTHING;
    cube.at = Some(entry);
    cube
}

/// The packets for the port or group of the key.
pub fn to(key: u16) -> Cube {
    let mut cube = Cube::EVERYTHING;
    cube.out_port = Bits {
        value: u64::from(key),
        mask: 0xffff,
    };
    cube
}

/// A packet for an address that no port has.
pub fn stranger(alloc: Global) -> Packet
    ensures { IsWhole result }
{
    Packet {
        dst: Mac([10, 0, 0, 0, 0, 9]),
        src: Mac([10, 0, 0, 0, 0, 1]),
        body: Body::Other { ether_type: 0x88b5 },
        tail: List::new(alloc),
    }
}

/// The action that sets the register.
pub fn set(reg: Reg, value: u32) -> FlowOp {
    FlowOp::Set { reg, value }
}

// The flows, and one for each pair of tables on the way, which takes every packet from the one to the other.
fn with_way(
    alloc: Global,
    way: &[(u8, u8)],
    rows: Vec<Result<SharedFlow, NoMemory>>,
) -> Result<Vec<SharedFlow>, NoMemory> {
    let mut flows: Vec<SharedFlow> = rows.into_iter().try_collect(alloc)?;
    for &(table, next) in way {
        flows.push(row(alloc, table, all(), [FlowOp::Go(next)])?)?;
    }
    Ok(flows)
}

/// Tables with the rows, and with one for each pair of tables on the way, which takes every packet from the one to the other.
pub fn tables<const N: usize>(
    alloc: Global,
    way: &[(u8, u8)],
    rows: [Result<SharedFlow, NoMemory>; N],
) -> Result<Tables, NoMemory>
    ensures { IfOk result (λ t. IsProper t.flows) }
{
    let flows = with_way(alloc, way, Vec::from_array(alloc, rows)?)?;
    put_all(alloc, flows)
}

/// What the packet comes to, with these zones at the time.
pub fn sent_in(
    alloc: Global,
    tables: &Tables,
    zones: &mut Zones,
    entry: Entry,
    packet: Packet,
    now: u64,
) -> Result<RunOut, NoMemory>
    requires tables { IsProper tables.now.flows }
    requires entry { IsEntry entry }
    requires packet { IsWhole packet }
{
    let mut out = RunOut::new(alloc);
    run(alloc, tables, zones, &entry, packet, now, &mut out)?;
    Ok(out)
}

/// What a packet for a stranger comes to, without zones.
pub fn sent(alloc: Global, tables: &Tables, entry: Entry) -> Result<RunOut, NoMemory>
    requires tables { IsProper tables.now.flows }
    requires entry { IsEntry entry }
{
    let mut zones = Zones::new(alloc);
    sent_in(alloc, tables, &mut zones, entry, stranger(alloc), 0)
}

/// Zones of these numbers, without connections.
pub fn zones(alloc: Global, numbers: &[u16]) -> Result<Zones, NoMemory> {
    let mut zones = Zones::new(alloc);
    for number in numbers {
        zones.reserve(1)?;
        zones.empty(*number);
    }
    Ok(zones)
}

/// What is to come of a packet for a stranger.
#[derive(Clone, Copy)]
pub enum Comes {
    /// It leaves the port.
    Leaves(Name),
    /// It is sent to the chassis as a frame with these keys.
    Frame {
        chassis: Name,
        vni: u32,
        in_key: u16,
        out_key: u16,
    },
    /// It is dropped on the datapath of the key at the port of the key.
    Drops {
        vni: u32,
        port: u16,
        cause: Cause,
    },
    /// It came from a tunnel for a port that isn't here.
    Lost,
}

// The effect on the packet.
fn effect(alloc: Global, comes: Comes) -> Effect {
    match comes {
        Comes::Leaves(port) => Effect::Out {
            port,
            packet: stranger(alloc),
        },
        Comes::Frame {
            chassis,
            vni,
            in_key,
            out_key,
        } => {
            Effect::Frame {
                chassis,
                vni,
                in_key,
                out_key,
                packet: stranger(alloc),
            }
        }
        Comes::Drops { vni, port, cause } => Effect::Drop { vni, port, cause },
        Comes::Lost => Effect::Lost,
    }
}

// Whether the effects are these, in this order.
fn are(alloc: Global, effects: &[Effect], wanted: &[Comes]) -> bool {
    for (told, comes) in effects.iter().zip(wanted) {
        if *told != effect(alloc, *comes) {
            return false;
        }
    }
    effects.len() == wanted.len()
}

// Whether the steps are of these tables.
fn visits(out: &RunOut, path: &[u8]) -> bool {
    let mut steps = out.walk.as_slice().iter().map(|step| step.table);
    steps.eq(path.iter().copied())
}

/// Whether the packet came to these effects, in steps of these tables.
pub fn comes_to(alloc: Global, out: &RunOut, effects: &[Comes], path: &[u8]) -> bool {
    are(alloc, out.effects.as_slice(), effects) && visits(out, path)
}

/// Whether a packet for a stranger comes to these effects in steps of these tables, without zones.
pub fn leads_to(
    alloc: Global,
    tables: &Tables,
    entry: Entry,
    effects: &[Comes],
    path: &[u8],
) -> Result<bool, NoMemory>
    requires tables { IsProper tables.now.flows }
    requires entry { IsEntry entry }
{
    let out = sent(alloc, tables, entry)?;
    Ok(comes_to(alloc, &out, effects, path))
}

/// Whether it does in tables that have these rows, and one for each pair of tables on the way.
pub fn shows<const N: usize>(
    alloc: Global,
    way: &[(u8, u8)],
    rows: [Result<SharedFlow, NoMemory>; N],
    entry: Entry,
    effects: &[Comes],
    path: &[u8],
) -> Result<bool, NoMemory>
    requires { IsEntry entry }
{
    let tables = tables(alloc, way, rows)?;
    leads_to(alloc, &tables, entry, effects, path)
}

/// The name of that text.
pub fn name(text: &str) -> Result<Name, NoMemory> {
    Name::read(text.as_bytes()).ok_or(NoMemory)
}
