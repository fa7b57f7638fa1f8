//! The rows of many units, each with its unit.
ghost use Rattle.std.specs.Prelude.{◌≡◌, IfOk, List};
ghost use Rattle.std.specs.List.Sorted.{IsStrictlySortedBy};
ghost use Rattle.nb_rules.specs.Valid.{IsValid};
ghost use Rattle.stage_rows.specs.Units.{pairs_of_unit, rows_of};
ghost use Rattle.northd_core.specs.Held.{unit_order};
ghost use Rattle.northd_core.specs.Listing.{HasCountedOn, with_each};

use crate::rows::{paired, unit_datapath, unit_rows};
use logical_flows::flow::LFlow;
use logical_flows::unit::UnitId;
use nb_records::records::Records;
use ovn_base::list::List;
use ovn_base::memory::NoMemory;
use ovn_base::name::Name;
use ovn_base::steps::Steps;
use std::alloc::Global;
use std::collections::BTreeSet;

/// The rows of units, and those with their datapaths.
#[derive(Drop)]
pub struct Listed {
    pub flows: List<(UnitId, List<LFlow>)>,
    pub pairs: List<(UnitId, List<(LFlow, Name)>)>,
}

/// The rows that the units have in the records.
#[tactic(auto, using(crate::proofs::Counted::none_counted, crate::proofs::Counted::more_counted))]
pub fn list_units<L>(
    alloc: Global,
    records: &Records,
    units: &BTreeSet<UnitId>,
    steps: &mut Steps<L>,
) -> Result<Listed, NoMemory>
    requires valid { IsValid records.now }
    ensures order { IfOk result (λ _. IsStrictlySortedBy unit_order units.now.keys) }
    ensures steps { HasCountedOn steps.old steps.new }
    ensures flows { IfOk result (λ l. l.flows ≡ with_each (rows_of records.now) units.now.keys) }
    ensures pairs { IfOk result (λ l. l.pairs ≡ with_each (pairs_of_unit records.now) units.now.keys) }
{
    let mut flows = List::new(alloc);
    let mut pairs = List::new(alloc);
    'units: for unit in units {
        let rows = unit_rows(alloc, records, unit, steps)?;
        let datapath = unit_datapath(records, unit);
        pairs.push((*unit, paired(alloc, datapath, rows.as_slice())?))?;
        flows.push((*unit, rows))?;
    }
    Ok(Listed { flows, pairs })
}
