//! What comes and what goes where numbers change.
ghost use Rattle.std.specs.Prelude.{◌≡◌, IfOk};
ghost use Rattle.std.specs.Map.{keys_of};
ghost use Rattle.flow_refs.specs.Difference.{begins, ends, flows_where};

use indexmap::IndexMap;
use ovn_base::delta::Delta;
use ovn_base::list::List;
use ovn_base::memory::NoMemory;
use std::alloc::Global;
use std::hash::Hash;

// The flows that have a number now and had none.
fn added<F: Eq + Hash + Clone + Drop>(
    alloc: Global,
    counts: &IndexMap<F, u64>,
    numbers: &List<(F, u64)>,
) -> Result<List<F>, NoMemory>
    requires flow_clones { (x y : F) → F.is_clone x y → y ≡ x }
    ensures { IfOk result (λ l. l ≡ flows_where F.eq begins counts.now.entries numbers.now) }
{
    let mut flows = List::new(alloc);
    'numbers: for (flow, number) in numbers {
        if *number != 0 && !counts.contains_key(flow) {
            flows.push(flow.clone()?)?;
        }
    }
    Ok(flows)
}

// The flows that had a number and have none now.
fn removed<F: Eq + Hash + Clone + Drop>(
    alloc: Global,
    counts: &IndexMap<F, u64>,
    numbers: &List<(F, u64)>,
) -> Result<List<F>, NoMemory>
    requires flow_clones { (x y : F) → F.is_clone x y → y ≡ x }
    ensures { IfOk result (λ l. l ≡ flows_where F.eq ends counts.now.entries numbers.now) }
{
    let mut flows = List::new(alloc);
    'numbers: for (flow, number) in numbers {
        if *number == 0 && counts.contains_key(flow) {
            flows.push(flow.clone()?)?;
        }
    }
    Ok(flows)
}

// What comes and what goes.
pub(crate) fn difference<F: Eq + Hash + Clone + Drop>(
    alloc: Global,
    counts: &IndexMap<F, u64>,
    numbers: &List<(F, u64)>,
) -> Result<Delta<F>, NoMemory>
    requires flow_clones { (x y : F) → F.is_clone x y → y ≡ x }
    ensures added { IfOk result (λ d. d.added ≡ flows_where F.eq begins counts.now.entries numbers.now) }
    ensures removed { IfOk result (λ d. d.removed ≡ flows_where F.eq ends counts.now.entries numbers.now) }
{
    Ok(Delta {
        added: added(alloc, counts, numbers)?,
        removed: removed(alloc, counts, numbers)?,
    })
}
