//! A simulation over any classifier: what it is given, and what it does with packets and frames.
ghost use Rattle.std.specs.Prelude.{◌≡◌, ◌∷◌, [], IfOk, OnOk};
ghost use Rattle.ovn_base.specs.lists.Once.{EachOnce};
ghost use Rattle.switch_engine.specs.Proper.{IsProper};

use chassis_sim::change::SimChange;
use chassis_sim::out::{SimFault, SimOut};
use chassis_sim::sim::Sim;
use engine_tests::proper::is_proper;
use flow_table::exact::{exact_flow, exact_flow_clone};
use flow_table::flow::SharedFlow;
use flow_table::lookup::Lookup;
use flow_table::tables::Tables;
use inet_packet::decode::decode;
use ovn_base::delta::Delta;
use ovn_base::list::List;
use ovn_base::memory::NoMemory;
use ovn_base::name::Name;
use std::alloc::Global;
use tuple_space::space::TupleSpace;

/// A classifier that begins with no flow.
pub trait Empty: Lookup + Drop {
    /// No flow yet.
    fn empty(alloc: Global) -> Result<Self, NoMemory>
        ensures { IfOk result (λ tables. Self.flows tables ≡ []) };
}

impl Empty for Tables {
    fn empty(alloc: Global) -> Result<Tables, NoMemory> {
        Tables::new(alloc)
    }
}

impl Empty for TupleSpace {
    fn empty(alloc: Global) -> Result<TupleSpace, NoMemory> {
        TupleSpace::new(alloc)
    }
}

// The list of one element.
fn one<T: Drop>(alloc: Global, item: T) -> Result<List<T>, NoMemory>
    ensures { IfOk result (λ l. l ≡ item ∷ []) }
{
    let mut list = List::new(alloc);
    list.push(item)?;
    Ok(list)
}

/// The chassis comes, and holds no flow.
pub fn come<T: Empty>(alloc: Global, sim: &mut Sim<T>, chassis: Name) -> Result<(), NoMemory> {
    let empty = T::empty(alloc)?;
    let change = SimChange {
        added: one(alloc, (chassis, empty))?,
        removed: List::new(alloc),
        tables: List::new(alloc),
        emptied: List::new(alloc),
        bound: List::new(alloc),
        names: List::new(alloc),
    };
    sim.prepare(&change)?;
    sim.apply(change);
    Ok(())
}

// Ports are bound to chassis, and pairs of a datapath key and a port key get names.
fn settle<T: Empty>(
    alloc: Global,
    sim: &mut Sim<T>,
    bound: List<(Name, Option<Name>)>,
    names: List<(u32, u16, Name)>,
) -> Result<(), NoMemory> {
    let change = SimChange {
        added: List::new(alloc),
        removed: List::new(alloc),
        tables: List::new(alloc),
        emptied: List::new(alloc),
        bound,
        names,
    };
    sim.prepare(&change)?;
    sim.apply(change);
    Ok(())
}

/// The port is bound to the chassis.
pub fn bind<T: Empty>(
    alloc: Global,
    sim: &mut Sim<T>,
    port: Name,
    chassis: Name,
) -> Result<(), NoMemory> {
    let bound = one(alloc, (port, Some(chassis)))?;
    settle(alloc, sim, bound, List::new(alloc))
}

/// The pair of a datapath key and a port key gets the name.
pub fn call<T: Empty>(
    alloc: Global,
    sim: &mut Sim<T>,
    datapath: u32,
    port: u16,
    name: Name,
) -> Result<(), NoMemory> {
    let names = one(alloc, (datapath, port, name))?;
    settle(alloc, sim, List::new(alloc), names)
}

// Those of the flows that are none of the others.
fn beyond(
    alloc: Global,
    flows: &[SharedFlow],
    others: &[SharedFlow],
) -> Result<List<SharedFlow>, NoMemory> {
    let mut left = List::new(alloc);
    for flow in flows {
        if !others.contains(flow) {
            left.push(flow.share()?)?;
        }
    }
    Ok(left)
}

// Adds the flow, if it is proper and isn't there.
fn keep(kept: &mut List<SharedFlow>, flow: &SharedFlow) -> Result<(), NoMemory>
    ensures once { EachOnce kept.old → OnOk result (EachOnce kept.new) }
    ensures proper { IsProper kept.old → OnOk result (IsProper kept.new) }
{
    exact_flow();
    if !is_proper(flow) || kept.as_slice().contains(flow) {
        return Ok(());
    }
    kept.push(flow.share()?)?;
    Ok(())
}

// Those of the flows that are proper, each once.
fn proper_once(alloc: Global, flows: &List<SharedFlow>) -> Result<List<SharedFlow>, NoMemory>
    ensures once { IfOk result (λ kept. EachOnce kept) }
    ensures proper { IfOk result (λ kept. IsProper kept) }
{
    let mut kept: List<SharedFlow> = List::new(alloc);
    'flows: for flow in flows.as_slice() {
        keep(&mut kept, flow)?;
    }
    Ok(kept)
}

// Some flows of the chassis come, and others go. Those that come are named among those that go, too: so the delta is one of any
// flows.
fn change<T: Empty>(
    alloc: Global,
    sim: &mut Sim<T>,
    chassis: Name,
    comes: List<SharedFlow>,
    goes: List<SharedFlow>,
) -> Result<(), NoMemory>
    requires once { EachOnce comes }
    requires proper { IsProper comes }
{
    exact_flow_clone();
    let mut removed = comes.copy()?;
    removed.append(goes)?;
    let delta = Delta {
        added: comes,
        removed,
    };
    let change = SimChange {
        added: List::new(alloc),
        removed: List::new(alloc),
        tables: one(alloc, (chassis, delta))?,
        emptied: List::new(alloc),
        bound: List::new(alloc),
        names: List::new(alloc),
    };
    sim.prepare(&change)?;
    sim.apply(change);
    Ok(())
}

// The flows that the chassis holds.
fn held_by<T: Empty>(
    alloc: Global,
    sim: &Sim<T>,
    chassis: &Name,
) -> Result<List<SharedFlow>, NoMemory> {
    let mut flows = List::new(alloc);
    for index in 0..10_000 {
        match sim.flow(chassis, index) {
            Some(flow) => flows.push(flow.share()?)?,
            None => return Ok(flows),
        }
    }
    Ok(flows)
}

/// The chassis holds these flows from now on: those that it didn't hold come, and what else it held goes.
pub fn follow<T: Empty>(
    alloc: Global,
    sim: &mut Sim<T>,
    chassis: Name,
    wanted: &List<SharedFlow>,
) -> Result<(), NoMemory> {
    let held = held_by(alloc, sim, &chassis)?;
    let missing = beyond(alloc, wanted.as_slice(), held.as_slice())?;
    let comes = proper_once(alloc, &missing)?;
    let goes = beyond(alloc, held.as_slice(), wanted.as_slice())?;
    change(alloc, sim, chassis, comes, goes)
}

/// A frame enters at the port.
pub fn enter<T: Empty>(
    alloc: Global,
    sim: &mut Sim<T>,
    port: &Name,
    frame: &[u8],
    out: &mut SimOut,
) -> Result<(), SimFault> {
    if sim.next_frame() >= 1 << 127 {
        return Err(SimFault::Memory);
    }
    match decode(alloc, frame) {
        Ok(packet) => sim.inject(port, packet, 0, out),
        Err(_) => Err(SimFault::Memory),
    }
}

/// The waiting frame of the number arrives.
pub fn arrive<T: Empty>(
    sim: &mut Sim<T>,
    frame: u128,
    keep: bool,
    out: &mut SimOut,
) -> Result<(), SimFault> {
    if sim.next_frame() >= 1 << 127 {
        return Err(SimFault::Memory);
    }
    sim.arrive(frame, keep, 0, out)
}

/// The frames that wait arrive, the lowest first.
pub fn drain<T: Empty>(sim: &mut Sim<T>, out: &mut SimOut) -> Result<(), SimFault> {
    for frame in 1..1_000_u64 {
        if sim.waiting() == 0 {
            return Ok(());
        }
        match arrive(sim, u128::from(frame), false, out) {
            Ok(()) | Err(SimFault::NoFrame(_)) => {}
            Err(fault) => return Err(fault),
        }
    }
    Ok(())
}
