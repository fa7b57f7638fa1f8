//! The flows of many units, each with its unit.
ghost use Rattle.std.specs.Prelude.{◌≡◌, IfOk, List};
ghost use Rattle.std.specs.List.{AllByRecursion};
ghost use Rattle.std.specs.List.Sorted.{IsStrictlySortedBy};
ghost use Rattle.address_sets.specs.Members.{sets_of};
ghost use Rattle.northd_core.specs.Held.{unit_order};
ghost use Rattle.northd_core.specs.Listing.{HasCountedOn, with_each};
ghost use Rattle.northd_core.specs.Lowering.{CanCompile, IsLowerable, flows_of_rows, lowered_of};

use crate::laws::sets_are_of_records;
use crate::rows::{unit_datapath, unit_rows};
use address_sets::expand::expand;
use flow_lowering::lower::lower;
use flow_table::flow::SharedFlow;
use logical_flows::flow::LFlow;
use logical_flows::unit::UnitId;
use match_cubes::sets::Sets;
use nb_records::records::Records;
use ovn_base::list::List;
use ovn_base::memory::NoMemory;
use ovn_base::name::Name;
use ovn_base::steps::Steps;
use row_laws::rows::{named_ports_are_live, rows_are_narrow, rows_can_be_lowered};
use std::alloc::Global;
use std::collections::BTreeSet;
use tunnel_keys::store::KeyStore;

// The flows of the rows on the datapath.
#[tactic(auto, using(crate::proofs::Counted::none_counted))]
fn lower_rows<L>(
    alloc: Global,
    rows: &[LFlow],
    datapath: &Name,
    keys: &KeyStore,
    sets: &Sets,
    steps: &mut Steps<L>,
) -> Result<List<SharedFlow>, NoMemory>
    requires { AllByRecursion (IsLowerable keys.now sets.now datapath.now) rows.now }
    ensures flows { IfOk result (λ flows. flows ≡ flows_of_rows keys.now sets.now rows.now datapath.now) }
    ensures steps { HasCountedOn steps.old steps.new }
{
    let mut flows = List::new(alloc);
    'rows: for row in rows {
        lower(row, datapath, keys, sets, &mut flows, steps)?;
    }
    Ok(flows)
}

// The flows of the unit, none where it has no datapath.
fn lower_unit<L>(
    alloc: Global,
    records: &Records,
    unit: &UnitId,
    keys: &KeyStore,
    sets: &Sets,
    steps: &mut Steps<L>,
) -> Result<List<SharedFlow>, NoMemory>
    requires can { CanCompile (record { net = records.now; keys = keys.now }) }
    requires sets { sets.now ≡ sets_of records.now }
    ensures flows { IfOk result (λ flows. flows ≡ lowered_of (record { net = records.now; keys = keys.now }) unit.now) }
    ensures steps { HasCountedOn steps.old steps.new }
{
    rows_can_be_lowered();
    rows_are_narrow();
    named_ports_are_live();
    sets_are_of_records();
    let rows = unit_rows(alloc, records, unit, steps)?;
    match unit_datapath(records, unit) {
        Some(datapath) => lower_rows(alloc, rows.as_slice(), &datapath, keys, sets, steps),
        None => Ok(List::new(alloc)),
    }
}

/// The flows that the units have by the records, lowered with their sets and these keys.
#[tactic(auto, using(crate::proofs::Counted::none_counted))]
pub fn list_lowered<L>(
    alloc: Global,
    records: &Records,
    units: &BTreeSet<UnitId>,
    keys: &KeyStore,
    steps: &mut Steps<L>,
) -> Result<List<(UnitId, List<SharedFlow>)>, NoMemory>
    requires { CanCompile (record { net = records.now; keys = keys.now }) }
    ensures order { IfOk result (λ _. IsStrictlySortedBy unit_order units.now.keys) }
    ensures steps { HasCountedOn steps.old steps.new }
    ensures flows { IfOk result (λ all. all ≡ with_each (lowered_of (record { net = records.now; keys = keys.now })) units.now.keys) }
{
    let sets = expand(alloc, records)?;
    let mut all = List::new(alloc);
    'units: for unit in units {
        let flows = lower_unit(alloc, records, unit, keys, &sets, steps)?;
        all.push((*unit, flows))?;
    }
    Ok(all)
}
