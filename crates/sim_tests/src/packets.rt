//! Packets at ports, without records.
ghost use Rattle.std.specs.Prelude.{◌≡◌, ◌∷◌, [], IfOk};
ghost use Rattle.switch_engine.specs.Proper.{IsProperFlow};

use crate::cubes::at;
use crate::sims::{Comes, FRAME, are_so, chassis, enters, leaves, name, one, shows};
use chassis_sim::change::SimChange;
use chassis_sim::out::SimFault;
use chassis_sim::sim::Sim;
use engine_tests::proper::is_proper;
use engine_tests::rows::row;
use flow_table::flow::{Cause, FlowOp, SharedFlow};
use flow_table::tables::Tables;
use inet_packet::regs::At;
use ovn_base::delta::Delta;
use ovn_base::list::List;
use ovn_base::memory::NoMemory;
use ovn_base::name::Name;
use std::alloc::Global;
use std::test::Fail;

// The flow comes, and the other goes. The first is named among those that go too: so the delta is one of any flows.
fn exchange(
    alloc: Global,
    comes: SharedFlow,
    goes: SharedFlow,
) -> Result<Delta<SharedFlow>, NoMemory>
    ensures added { IfOk result (λ d. d.added ≡ comes ∷ []) }
    ensures removed { IfOk result (λ d. d.removed ≡ comes ∷ goes ∷ []) }
{
    let mut removed = one(alloc, comes.share()?)?;
    removed.push(goes)?;
    let added = one(alloc, comes)?;
    Ok(Delta { added, removed })
}

// The one flow of the chassis comes in place of the other.
fn replace(
    alloc: Global,
    sim: &mut Sim<Tables>,
    chassis: Name,
    comes: SharedFlow,
    goes: SharedFlow,
) -> Result<(), NoMemory>
    requires { IsProperFlow comes }
{
    let delta = exchange(alloc, comes, goes)?;
    let change = SimChange {
        added: List::new(alloc),
        removed: List::new(alloc),
        tables: one(alloc, (chassis, delta))?,
        emptied: List::new(alloc),
        bound: List::new(alloc),
        names: List::new(alloc),
    };
    sim.prepare(&change)?;
    sim.apply(change);
    Ok(())
}

// The one flow of the chassis, which does this with what enters at p1.
fn does(alloc: Global, op: FlowOp) -> Result<SharedFlow, NoMemory> {
    row(alloc, 0, at(At::Local(name("p1")?)), [op])
}

#[test]
fn sim_without_records(rt: HostRuntime) -> Result<(), Fail> {
    let gives = FlowOp::output(rt.alloc(), name("p2")?)?;
    let rows = [does(rt.alloc(), gives)];
    let told = shows(rt.alloc(), rows, &[enters(FRAME, leaves(FRAME), 1)]);
    assert_eq!(rt; told, Ok(true));
    Ok(())
}

// The flow that gave is replaced by one that drops.
fn replaced(alloc: Global, sim: &mut Sim<Tables>) -> Result<bool, SimFault> {
    let (hv1, p2) = (name("hv1")?, name("p2")?);
    let gave = does(alloc, FlowOp::output(alloc, p2)?)?;
    let drops = does(alloc, FlowOp::Drop(Cause::Vlan))?;
    if !is_proper(&drops) {
        return Ok(false);
    }
    replace(alloc, sim, hv1, drops, gave)?;
    are_so(alloc, sim, &[enters(FRAME, Comes::Drops(Cause::Vlan), 1)])
}

// Whether it is so where the chassis came with the first.
fn is_replaced(alloc: Global) -> Result<bool, SimFault> {
    let gives = FlowOp::output(alloc, name("p2")?)?;
    let mut sim = chassis(alloc, [does(alloc, gives)])?;
    replaced(alloc, &mut sim)
}

// Keys that have no name are told as a dash.
#[test]
fn sim_without_records_drops(rt: HostRuntime) -> Result<(), Fail> {
    assert_eq!(rt; is_replaced(rt.alloc()), Ok(true));
    Ok(())
}
