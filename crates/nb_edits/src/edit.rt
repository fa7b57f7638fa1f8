//! Edits planned on records, and applied to them.
ghost use Rattle.std.specs.Prelude.{◌≡◌};
ghost use Rattle.nb_edits.specs.Plans.{Plans};

use crate::operate::operate_all;
use crate::owners::new_owners;
use crate::plan::{EditFault, EditPlan};
use nb_records::change::Op;
use nb_records::records::Records;
use nb_rules::check::first_broken_indexed;
use std::alloc::Global;
use std::collections::BTreeSet;

/// The edit by the event of this number: what the operations leave, one after another, or the first that is wrong with them or with
/// the records after all. The records stay.
#[tactic(auto, unfolding(crate::specs::OpFaults::fault_of))]
pub fn plan(
    alloc: Global,
    records: &mut Records,
    ops: &[Op],
    number: u64,
) -> Result<EditPlan, EditFault>
    ensures planned { Plans result records.old ops.now number }
    ensures same { records.new ≡ records.old }
{
    let mut after = records.copy()?;
    let mut touched = BTreeSet::new(alloc);
    if let Err(fault) = operate_all(&mut after, ops, number, &mut touched) {
        return Err(fault);
    }
    if let Some(fault) = first_broken_indexed(alloc, &after, ops)? {
        return Err(EditFault::Schema(fault));
    }
    let added = new_owners(alloc, records, &after, &touched)?;
    let removed = new_owners(alloc, &after, records, &touched)?;
    Ok(EditPlan {
        after,
        added,
        removed,
    })
}

/// Applies the edit to the records on which it was planned. It takes no memory.
pub fn apply(records: &mut Records, plan: EditPlan)
    ensures { records.new ≡ plan.after }
{
    let EditPlan {
        after,
        added: _,
        removed: _,
    } = plan;
    *records = after;
}
