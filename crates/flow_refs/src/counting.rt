//! The numbers that flows have once changes are made.
ghost use Rattle.std.specs.Prelude.{◌≡◌, ◌+◌, ◌<◌, ◌≤◌, ◌^◌, true, IfOk, OnOk, length, unwrap_or};
ghost use Rattle.std.specs.BTreeMap.{IsOrdered};
ghost use Rattle.std.specs.List.{IsDistinct};
ghost use Rattle.std.specs.Map.{keys_of, lookup};
ghost use Rattle.std.specs.Set.{is_member};
ghost use Rattle.flow_refs.specs.Counts.{bit, count_of, number_of, new_number_of, HaveOnce};
ghost use Rattle.flow_refs.specs.Origins.{flows_of, IsEachOnce};
ghost use Rattle.flow_refs.specs.Store.{put_all, HavePlaces, AreCounted};

use indexmap::IndexMap;
use ovn_base::list::List;
use ovn_base::memory::NoMemory;
use std::alloc::Global;
use std::collections::BTreeMap;
use std::hash::Hash;

// The new number of the flow, or else its old one.
fn number<F: Eq + Hash>(counts: &IndexMap<F, u64>, numbers: &IndexMap<F, u64>, flow: &F) -> u64
    ensures { result ≡ new_number_of F.eq numbers.now.entries counts.now.entries flow.now }
{
    match numbers.get(flow) {
        Some(number) => *number,
        None => match counts.get(flow) {
            Some(number) => *number,
            None => 0,
        },
    }
}

// Each of the flows has one origin less.
fn lower_each<F: Eq + Hash + Clone + Drop>(
    counts: &IndexMap<F, u64>,
    numbers: &mut IndexMap<F, u64>,
    flows: &List<F>,
) -> Result<(), NoMemory>
    requires flow_clones { (x y : F) → F.is_clone x y → y ≡ x }
    requires once { IsDistinct F.eq flows.now }
    requires some { (q : F) → is_member F.eq flows.now q ≡ true → 0 < new_number_of F.eq numbers.old.entries counts.now.entries q }
    ensures { OnOk result ((q : F) → new_number_of F.eq numbers.new.entries counts.now.entries q + bit (is_member F.eq flows.now q) ≡ new_number_of F.eq numbers.old.entries counts.now.entries q) }
{
    'flows: for flow in flows {
        let before = number(counts, numbers, flow);
        numbers.insert(flow.clone()?, before - 1)?;
    }
    Ok(())
}

// Each of the flows has one origin more.
fn raise_each<F: Eq + Hash + Clone + Drop>(
    counts: &IndexMap<F, u64>,
    numbers: &mut IndexMap<F, u64>,
    flows: &List<F>,
) -> Result<(), NoMemory>
    requires flow_clones { (x y : F) → F.is_clone x y → y ≡ x }
    requires once { IsDistinct F.eq flows.now }
    requires few { (q : F) → new_number_of F.eq numbers.old.entries counts.now.entries q < 2 ^ 63 }
    ensures { OnOk result ((q : F) → new_number_of F.eq numbers.new.entries counts.now.entries q ≡ new_number_of F.eq numbers.old.entries counts.now.entries q + bit (is_member F.eq flows.now q)) }
{
    'flows: for flow in flows {
        let before = number(counts, numbers, flow);
        numbers.insert(flow.clone()?, before + 1)?;
    }
    Ok(())
}

// The numbers once an origin that had some flows has others in their place.
fn change_numbers<F: Eq + Hash + Clone + Drop>(
    counts: &IndexMap<F, u64>,
    numbers: &mut IndexMap<F, u64>,
    before: &List<F>,
    after: &List<F>,
) -> Result<(), NoMemory>
    requires flow_clones { (x y : F) → F.is_clone x y → y ≡ x }
    requires before_once { IsDistinct F.eq before.now }
    requires after_once { IsDistinct F.eq after.now }
    requires some { (q : F) → bit (is_member F.eq before.now q) ≤ new_number_of F.eq numbers.old.entries counts.now.entries q }
    requires few { (q : F) → new_number_of F.eq numbers.old.entries counts.now.entries q < 2 ^ 63 }
    ensures { OnOk result ((q : F) → new_number_of F.eq numbers.new.entries counts.now.entries q + bit (is_member F.eq before.now q) ≡ new_number_of F.eq numbers.old.entries counts.now.entries q + bit (is_member F.eq after.now q)) }
{
    lower_each(counts, numbers, before)?;
    raise_each(counts, numbers, after)
}

// The flows of the changes and those in whose place they come, with the numbers that they have afterwards.
fn changed_numbers<F: Eq + Hash + Clone + Drop, O: Ord>(
    alloc: Global,
    origins: &BTreeMap<O, List<F>>,
    counts: &IndexMap<F, u64>,
    changes: &List<(O, List<F>)>,
) -> Result<IndexMap<F, u64>, NoMemory>
    requires flow_clones { (x y : F) → F.is_clone x y → y ≡ x }
    requires counted { AreCounted F.eq origins.now.entries counts.now.entries }
    requires once { HaveOnce F.eq origins.now.entries }
    requires each_once { IsEachOnce O.cmp changes.now }
    requires have_once { HaveOnce F.eq changes.now }
    requires places { HavePlaces O.cmp origins.now.entries changes.now }
    ensures { IfOk result (λ n. (q : F) → new_number_of F.eq n.entries counts.now.entries q ≡ count_of F.eq (put_all O.cmp origins.now.entries changes.now) q) }
{
    let _few = origins.len();
    let mut numbers = IndexMap::new(alloc);
    'changes: for (origin, after) in changes {
        if let Some(before) = origins.get(origin) {
            change_numbers(counts, &mut numbers, before, after)?;
        }
    }
    Ok(numbers)
}

// The same as a list, each flow once.
pub(crate) fn new_numbers<F: Eq + Hash + Clone + Drop, O: Ord>(
    alloc: Global,
    origins: &BTreeMap<O, List<F>>,
    counts: &IndexMap<F, u64>,
    changes: &List<(O, List<F>)>,
) -> Result<List<(F, u64)>, NoMemory>
    requires flow_clones { (x y : F) → F.is_clone x y → y ≡ x }
    requires counted { AreCounted F.eq origins.now.entries counts.now.entries }
    requires once { HaveOnce F.eq origins.now.entries }
    requires each_once { IsEachOnce O.cmp changes.now }
    requires have_once { HaveOnce F.eq changes.now }
    requires places { HavePlaces O.cmp origins.now.entries changes.now }
    ensures once { IfOk result (λ n. IsDistinct F.eq (keys_of n)) }
    ensures numbers { IfOk result (λ n. (q : F) → new_number_of F.eq n counts.now.entries q ≡ count_of F.eq (put_all O.cmp origins.now.entries changes.now) q) }
{
    let numbers = changed_numbers(alloc, origins, counts, changes)?;
    Ok(List::from_iter(alloc, numbers)?)
}
