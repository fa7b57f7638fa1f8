//! Simulated chassis, what is done to them, and what has to come of it.
ghost use Rattle.std.specs.Prelude.{◌≡◌, ◌∷◌, [], IfOk};
ghost use Rattle.switch_engine.specs.Proper.{IsProper};

use chassis_sim::change::SimChange;
use chassis_sim::out::{SimFault, SimOut};
use chassis_sim::sim::Sim;
use engine_tests::packets::read;
use engine_tests::rows::put_all;
use flow_table::flow::{Cause, SharedFlow};
use flow_table::tables::Tables;
use ovn_base::address::Backend;
use ovn_base::list::List;
use ovn_base::memory::NoMemory;
use ovn_base::name::Name;
use std::alloc::Global;
use switch_engine::effect::NetEffect;
use switch_engine::walk::Start;

/// A frame from 0a:00:00:00:00:01 to 0a:00:00:00:00:02, of the type 0x88b5.
pub const FRAME: &str = "0a00000000020a000000000188b56869";

/// What is to come of a packet.
#[derive(Clone, Copy)]
pub enum Comes {
    Nothing,
    /// It leaves the port as these bytes.
    Leaves {
        port: &'static str,
        frame: &'static str,
    },
    /// It is dropped, where it has no datapath and no port, whose names are told as a dash.
    Drops(Cause),
    /// The source port is picked for it, and it leaves p2 as these bytes.
    PicksPort {
        picked: u16,
        frame: &'static str,
    },
    /// The backend of the virtual address is picked for it, and it leaves p2 as these bytes.
    PicksBackend {
        vip: Backend,
        backend: Backend,
        frame: &'static str,
    },
}

/// What is done to the chassis hv1.
#[derive(Clone, Copy)]
pub enum Step {
    /// The packet of the bytes enters at the port at the time in seconds, and comes to this in so many steps of one walk.
    Enters {
        port: &'static str,
        frame: &'static str,
        now: u64,
        comes: Comes,
        steps: usize,
    },
    /// Connections end that are idle at the time.
    Expires(u64),
    /// Zone 5 is emptied.
    Empties,
}

/// The packet enters at p1 at the time 0, and comes to this.
pub fn enters(frame: &'static str, comes: Comes, steps: usize) -> Step {
    Step::Enters {
        port: "p1",
        frame,
        now: 0,
        comes,
        steps,
    }
}

/// The packet leaves p2 as these bytes.
pub fn leaves(frame: &'static str) -> Comes {
    Comes::Leaves { port: "p2", frame }
}

/// The name of that text.
pub fn name(text: &str) -> Result<Name, NoMemory> {
    Name::read(text.as_bytes()).ok_or(NoMemory)
}

/// The list of one element.
pub fn one<T: Drop>(alloc: Global, item: T) -> Result<List<T>, NoMemory>
    ensures { IfOk result (λ l. l ≡ item ∷ []) }
{
    let mut list = List::new(alloc);
    list.push(item)?;
    Ok(list)
}

// ---- chassis

/// The chassis comes with these tables, and the port is bound to it. It has an empty zone 5.
pub fn bring(
    alloc: Global,
    sim: &mut Sim<Tables>,
    chassis: Name,
    tables: Tables,
    port: Name,
) -> Result<(), NoMemory>
    requires { IsProper tables.flows }
{
    let change = SimChange {
        added: one(alloc, (chassis, tables))?,
        removed: List::new(alloc),
        tables: List::new(alloc),
        emptied: one(alloc, (chassis, 5))?,
        bound: one(alloc, (port, Some(chassis)))?,
        names: List::new(alloc),
    };
    sim.prepare(&change)?;
    sim.apply(change);
    Ok(())
}

// Ports are bound, and zones are emptied.
fn settle(
    alloc: Global,
    sim: &mut Sim<Tables>,
    bound: List<(Name, Option<Name>)>,
    emptied: List<(Name, u16)>,
) -> Result<(), NoMemory> {
    let change = SimChange {
        added: List::new(alloc),
        removed: List::new(alloc),
        tables: List::new(alloc),
        emptied,
        bound,
        names: List::new(alloc),
    };
    sim.prepare(&change)?;
    sim.apply(change);
    Ok(())
}

// Those of the flows whose actions may stand in their tables.
fn tables_of(alloc: Global, rows: Vec<Result<SharedFlow, NoMemory>>) -> Result<Tables, NoMemory>
    ensures { IfOk result (λ t. IsProper t.flows) }
{
    let flows = rows.into_iter().try_collect(alloc)?;
    put_all(alloc, flows)
}

/// The chassis comes with these flows, and the port is bound to it.
pub fn come<const N: usize>(
    alloc: Global,
    sim: &mut Sim<Tables>,
    chassis: &str,
    rows: [Result<SharedFlow, NoMemory>; N],
    port: &str,
) -> Result<(), NoMemory> {
    let tables = tables_of(alloc, Vec::from_array(alloc, rows)?)?;
    bring(alloc, sim, name(chassis)?, tables, name(port)?)
}

/// The port is bound to hv1.
pub fn bind(alloc: Global, sim: &mut Sim<Tables>, port: &str) -> Result<(), NoMemory> {
    let bound = one(alloc, (name(port)?, Some(name("hv1")?)))?;
    settle(alloc, sim, bound, List::new(alloc))
}

// Zone 5 of hv1 is emptied.
fn empty(alloc: Global, sim: &mut Sim<Tables>) -> Result<(), NoMemory> {
    let emptied = one(alloc, (name("hv1")?, 5))?;
    settle(alloc, sim, List::new(alloc), emptied)
}

/// The chassis hv1 with these flows, an empty zone 5, and the port p1.
pub fn chassis<const N: usize>(
    alloc: Global,
    rows: [Result<SharedFlow, NoMemory>; N],
) -> Result<Sim<Tables>, NoMemory> {
    let mut sim = Sim::new(alloc)?;
    come(alloc, &mut sim, "hv1", rows, "p1")?;
    Ok(sim)
}

// ---- packets

/// What comes of the packet of the bytes at the port at the time.
pub fn entered(
    alloc: Global,
    sim: &mut Sim<Tables>,
    port: &str,
    frame: &str,
    now: u64,
) -> Result<SimOut, SimFault> {
    let port = name(port)?;
    let packet = read(alloc, frame)?;
    let mut out = SimOut::new(alloc);
    if sim.next_frame() < 1 << 127 {
        sim.inject(&port, packet, now, &mut out)?;
    }
    Ok(out)
}

// The packet of the bytes leaves the port.
fn left(alloc: Global, port: &str, frame: &str) -> Result<NetEffect, NoMemory> {
    let packet = read(alloc, frame)?;
    Ok(NetEffect::Out {
        port: name(port)?,
        packet,
    })
}

// What is picked for the packet, or why it is dropped.
fn first_effect(comes: Comes) -> Result<Option<NetEffect>, NoMemory> {
    let dash = name("-")?;
    let effect = match comes {
        Comes::Nothing | Comes::Leaves { .. } => None,
        Comes::Drops(cause) => Some(NetEffect::Drop {
            datapath: dash,
            port: dash,
            cause,
        }),
        Comes::PicksPort { picked, .. } => Some(NetEffect::PickPort {
            router: dash,
            port: picked,
        }),
        Comes::PicksBackend { vip, backend, .. } => {
            Some(NetEffect::PickBackend {
                datapath: dash,
                vip,
                backend,
            })
        }
    };
    Ok(effect)
}

// The packet as it leaves.
fn last_effect(alloc: Global, comes: Comes) -> Result<Option<NetEffect>, NoMemory> {
    match comes {
        Comes::Nothing | Comes::Drops(_) => Ok(None),
        Comes::Leaves { port, frame } => Ok(Some(left(alloc, port, frame)?)),
        Comes::PicksPort { frame, .. } | Comes::PicksBackend { frame, .. } => {
            Ok(Some(left(alloc, "p2", frame)?))
        }
    }
}

// Whether the effects are these, one after the other.
fn are(effects: &[NetEffect], first: &Option<NetEffect>, last: &Option<NetEffect>) -> bool {
    match (effects, first, last) {
        ([], None, None) => true,
        ([told], Some(wanted), None) | ([told], None, Some(wanted)) => told == wanted,
        ([told, then], Some(wanted), Some(behind)) => told == wanted && then == behind,
        _ => false,
    }
}

/// Whether there is one walk, which begins so on the chassis and has so many steps, and this is all that came.
pub fn is_all(
    alloc: Global,
    out: &SimOut,
    chassis: &str,
    start: Start,
    comes: Comes,
    steps: usize,
) -> Result<bool, NoMemory> {
    let chassis = name(chassis)?;
    let first = first_effect(comes)?;
    let last = last_effect(alloc, comes)?;
    let walked = match out.walks.as_slice() {
        [walk] => { walk.chassis == chassis && walk.start == start && walk.steps.len() == steps }
        _ => false,
    };
    Ok(walked && are(out.effects.as_slice(), &first, &last))
}

// ---- steps

// Whether what comes of the step is as it says.
fn is_so(alloc: Global, sim: &mut Sim<Tables>, step: Step) -> Result<bool, SimFault> {
    match step {
        Step::Enters {
            port,
            frame,
            now,
            comes,
            steps,
        } => {
            let out = entered(alloc, sim, port, frame, now)?;
            let start = Start::Port(name(port)?);
            Ok(is_all(alloc, &out, "hv1", start, comes, steps)?)
        }
        Step::Expires(now) => {
            sim.expire(now);
            Ok(true)
        }
        Step::Empties => {
            empty(alloc, sim)?;
            Ok(true)
        }
    }
}

/// Whether each step is so, one after the other.
pub fn are_so(alloc: Global, sim: &mut Sim<Tables>, steps: &[Step]) -> Result<bool, SimFault> {
    for step in steps {
        if !is_so(alloc, sim, *step)? {
            return Ok(false);
        }
    }
    Ok(true)
}

/// Whether each step is so on a chassis with these flows.
pub fn shows<const N: usize>(
    alloc: Global,
    rows: [Result<SharedFlow, NoMemory>; N],
    steps: &[Step],
) -> Result<bool, SimFault> {
    let mut sim = chassis(alloc, rows)?;
    are_so(alloc, &mut sim, steps)
}
