//! The flows of each chassis around the pipelines, made ready and changed chassis after chassis.
ghost use Rattle.std.specs.Prelude.{◌≡◌, false, IfOk, List, Some, map};
ghost use Rattle.std.specs.List.{AllByRecursion};
ghost use Rattle.std.specs.Map.{keys_of};
ghost use Rattle.indexmap.specs.IndexMap.{spare};
ghost use Rattle.ovn_base.specs.declared.name.Name.{Name};
ghost use Rattle.ovn_base.specs.lists.Among.{Among};
ghost use Rattle.ovn_base.specs.lists.Once.{EachOnce};
ghost use Rattle.ovn_base.specs.names.SameName.{same_name};
ghost use Rattle.chassis_sim.specs.State.{at_name};
ghost use Rattle.flow_table.specs.declared.flow.Flow.{Flow};
ghost use Rattle.physical_flows.specs.Compiling.{basis_of};
ghost use Rattle.physical_flows.specs.UnitFlows.{HaveRows, UnitStore, rows_held};
ghost use Rattle.physical_flows.specs.Units.{ChangeOnly};
ghost use Rattle.physical_flows.specs.declared.unit.FlowUnit.{FlowUnit};
ghost use Rattle.physical_flows.specs.Around.{around_everywhere, around_rows};
ghost use Rattle.physical_flows.specs.Switched.{IsKeyed};
ghost use Rattle.world_setup.specs.Ground.{GroundView, ground_after};
ghost use Rattle.world_setup.specs.Setup.{ArePatches, HaveStores, HasRowsAt, HasStore, IsOnTheWay, IsPatchAt, IsReadyAt, both_deltas, rows_at, rows_on};

use crate::ground::{Ground, GroundChange};
use flow_table::exact::exact_flow_clone;
use flow_table::flow::SharedFlow;
use indexmap::IndexMap;
use ovn_base::delta::Delta;
use ovn_base::list::List;
use ovn_base::memory::NoMemory;
use ovn_base::name::Name;
use physical_flows::compile::Maps;
use physical_flows::unit::FlowUnit;
use physical_flows::unit_flows::{TablePatch, UnitFlows};
use std::alloc::Global;

/// The flows of each chassis around the pipelines, by unit.
pub(crate) type Stores = IndexMap<Name, UnitFlows>;

// Makes the flows of the chassis of the maps ready for some units to have their rows; `None` where the chassis has no store.
fn prepare_one(
    alloc: Global,
    stores: &mut Stores,
    maps: &Maps<'_>,
    everywhere: &[(FlowUnit, List<SharedFlow>)],
) -> Result<Option<TablePatch>, NoMemory>
    requires keyed { IsKeyed (basis_of maps.now).net (basis_of maps.now).keys }
    requires once { EachOnce (keys_of everywhere.now) }
    requires everywhere { AllByRecursion (λ e. e.1 ≡ around_everywhere (basis_of maps.now) e.0) everywhere.now }
    ensures kept { (c : Name) → rows_at (at_name stores.new.entries c) ≡ rows_at (at_name stores.old.entries c) }
    ensures others { (c : Name) → same_name maps.now.chassis c ≡ false → at_name stores.new.entries c ≡ at_name stores.old.entries c }
    ensures patch { IfOk result (λ patch. (before : FlowUnit → List Flow) (store : UnitStore) → at_name stores.old.entries maps.now.chassis ≡ Some store
        → HaveRows before (rows_held store) → ChangeOnly (keys_of everywhere.now) before (around_rows (basis_of maps.now))
        → IsPatchAt before (around_rows (basis_of maps.now)) (at_name stores.new.entries maps.now.chassis) patch) }
    ensures spare { spare stores.new ≡ spare stores.old }
{
    match stores.get_mut(&maps.chassis) {
        Some(flows) => Ok(Some(flows.prepare_around(alloc, maps, everywhere)?)),
        None => Ok(None),
    }
}

/// Makes the flows of all chassis of the ground ready for the rows that the touched units have after the change. What each
/// unit has stays.
pub(crate) fn prepare_each(
    alloc: Global,
    stores: &mut Stores,
    ground: &Ground,
    change: &GroundChange,
    touched: &[FlowUnit],
) -> Result<List<(Name, TablePatch)>, NoMemory>
    requires once { EachOnce ground.now.config.chassis }
    requires keyed { IsKeyed (ground_after change.now ground.now).config.net (ground_after change.now ground.now).keys }
    requires units_once { EachOnce touched.now }
    requires touched { (c : Name) → Among c ground.now.config.chassis → ChangeOnly touched.now (rows_on ground.now c) (rows_on (ground_after change.now ground.now) c) }
    requires stand { HaveStores ground.now stores.old.entries }
    ensures kept { HaveStores ground.now stores.new.entries }
    ensures patches { IfOk result (ArePatches ground.now (ground_after change.now ground.now) stores.new.entries) }
    ensures spare { spare stores.new ≡ spare stores.old }
{
    let mut patches = List::new(alloc);
    let Some(first) = ground.chassis.as_slice().first() else {
        return Ok(patches);
    };
    let everywhere = ground.maps(change, *first).around(alloc, touched)?;
    'chassis: for chassis in ground.chassis.as_slice() {
        let maps = ground.maps(change, *chassis);
        if let Some(patch) = prepare_one(alloc, stores, &maps, everywhere.as_slice())? {
            patches.push((*chassis, patch))?;
        }
    }
    Ok(patches)
}

// One delta and then the other.
fn joined(one: &Delta<SharedFlow>, other: &Delta<SharedFlow>) -> Result<Delta<SharedFlow>, NoMemory>
    ensures { IfOk result (λ both. both ≡ both_deltas one.now other.now) }
{
    exact_flow_clone();
    let mut both = one.copy()?;
    both.added.append(other.added.copy()?)?;
    both.removed.append(other.removed.copy()?)?;
    Ok(both)
}

/// What comes to each chassis and goes: to every one the same, and then what its own patch says.
pub(crate) fn deltas_of(
    alloc: Global,
    every: &Delta<SharedFlow>,
    patches: &[(Name, TablePatch)],
) -> Result<List<(Name, Delta<SharedFlow>)>, NoMemory>
    ensures { IfOk result (λ deltas. deltas ≡ map (λ p. (p.0, both_deltas every.now p.1.delta)) patches.now) }
{
    let mut deltas = List::new(alloc);
    'patches: for (name, patch) in patches {
        deltas.push((*name, joined(every, patch.delta())?))?;
    }
    Ok(deltas)
}

// Puts the patch of a chassis into force.
fn apply_one(stores: &mut Stores, name: &Name, patch: TablePatch)
    requires { IsReadyAt patch (at_name stores.old.entries name.now) }
    ensures applied { (before after : FlowUnit → List Flow) → IsPatchAt before after (at_name stores.old.entries name.now) (Some patch) → HasRowsAt after (at_name stores.new.entries name.now) }
    ensures others { (c : Name) → same_name name.now c ≡ false → at_name stores.new.entries c ≡ at_name stores.old.entries c }
    ensures spare { spare stores.new ≡ spare stores.old }
{
    if let Some(flows) = stores.get_mut(name) {
        flows.apply(patch);
    }
}

/// Puts the patches of all chassis into force, which were prepared for what their stores hold. No memory is taken.
pub(crate) fn apply_each(stores: &mut Stores, patches: List<(Name, TablePatch)>)
    requires once { EachOnce (keys_of patches) }
    requires ready { AllByRecursion (λ p. IsReadyAt p.1 (at_name stores.old.entries p.0)) patches }
    ensures leads { (before after : GroundView) → ((c : Name) → Among c before.config.chassis → IsOnTheWay before after patches stores.old.entries c)
        → (c : Name) → Among c before.config.chassis → HasStore after stores.new.entries c }
    ensures spare { spare stores.new ≡ spare stores.old }
{
    'patches: for (name, patch) in patches {
        apply_one(stores, &name, patch);
    }
}
