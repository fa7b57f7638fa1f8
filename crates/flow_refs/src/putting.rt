//! Prepared flows and numbers are put in their places. No memory is taken.
ghost use Rattle.std.specs.Prelude.{◌≡◌, ◌+◌, ◌≤◌, ◌<◌, ◌≢◌, ◌↔◌, IsTrue, Some, [], IsSome, cond, length};
ghost use Rattle.std.specs.BTreeMap.{get, is_at};
ghost use Rattle.std.specs.Map.{lookup};
ghost use Rattle.indexmap.specs.IndexMap.{spare};
ghost use Rattle.indexmap.specs.IndexMap as counted;
ghost use Rattle.flow_refs.specs.Counts.{positive, kept_number, HaveOnce};
ghost use Rattle.flow_refs.specs.Origins.{IsEachOnce};
ghost use Rattle.flow_refs.specs.Store.{put_flows, put_all, HavePlaces, IsKept, AreIdleAmong};
ghost use Rattle.std.specs.List.{IsDistinct};
ghost use Rattle.std.specs.Map.{keys_of};

use indexmap::IndexMap;
use ovn_base::list::List;
use std::collections::BTreeMap;
use std::hash::Hash;

// Puts the flows of the origin in its place, or takes the place away where there are none.
fn put<F: Drop, O: Ord + Drop>(origins: &mut BTreeMap<O, List<F>>, origin: O, flows: List<F>)
    ensures entries { origins.new.entries ≡ put_flows (is_at (O.cmp origin)) origins.old.entries flows }
{
    if flows.is_empty() {
        origins.remove(&origin);
    } else if let Some(place) = origins.get_mut(&origin) {
        *place = flows;
    }
}

// Puts the flows of each origin in its place.
pub(crate) fn put_each<F: Drop, O: Ord + Drop>(
    origins: &mut BTreeMap<O, List<F>>,
    changes: List<(O, List<F>)>,
)
    ensures { origins.new.entries ≡ put_all O.cmp origins.old.entries changes }
{
    'changes: for (origin, flows) in changes {
        put(origins, origin, flows);
    }
}

// Keeps the number of the flow, unless it is 0.
fn set_number<F: Eq + Hash + Drop>(counts: &mut IndexMap<F, u64>, flow: F, number: u64)
    requires { 0 < spare counts.old }
    ensures number { (q : F) → lookup (F.eq q) counts.new.entries ≡ cond (F.eq flow q) (positive number) (lookup (F.eq q) counts.old.entries) }
    ensures spare { spare counts.old ≤ spare counts.new + 1 }
{
    if number == 0 {
        counts.swap_remove(&flow);
    } else {
        match counts.insert(flow, number) {
            Ok(_) => {}
            Err(_) => unreachable!(),
        }
    }
}

// Keeps the new number of each flow.
pub(crate) fn set_numbers<F: Eq + Hash + Drop>(
    counts: &mut IndexMap<F, u64>,
    numbers: List<(F, u64)>,
)
    requires once { IsDistinct F.eq (keys_of numbers) }
    requires room { length numbers ≤ spare counts.old }
    ensures { (q : F) → lookup (F.eq q) counts.new.entries ≡ kept_number F.eq counts.old.entries numbers q }
{
    'numbers: for (flow, number) in numbers {
        set_number(counts, flow, number);
    }
}

// Whether the origin has a place without flows.
fn is_idle<F, O: Ord>(origins: &BTreeMap<O, List<F>>, origin: &O) -> bool
    ensures { IsTrue result ↔ (get O.cmp origins.now origin.now ≡ Some []) }
{
    match origins.get(origin) {
        Some(flows) => flows.is_empty(),
        None => false,
    }
}

// Takes the place of the origin away, if it has no flows.
fn clear_place<F: Eq + Drop, O: Ord + Drop>(origins: &mut BTreeMap<O, List<F>>, origin: &O)
    requires once { HaveOnce F.eq origins.old.entries }
    ensures gone { get O.cmp origins.new origin.now ≢ Some [] }
    ensures idle { (o : O) → get O.cmp origins.new o ≡ Some [] → get O.cmp origins.old o ≡ Some [] }
    ensures kept { IsKept F.eq O.cmp origins.old.entries origins.new.entries }
    ensures once { HaveOnce F.eq origins.new.entries }
{
    if is_idle(origins, origin) {
        origins.remove(origin);
    }
}

// Takes the places away that are without flows, and notes none any more.
pub(crate) fn clear_places<F: Eq + Drop, O: Ord + Drop>(
    origins: &mut BTreeMap<O, List<F>>,
    places: &mut List<O>,
)
    requires once { HaveOnce F.eq origins.old.entries }
    requires idle { AreIdleAmong O.cmp origins.old.entries places.old }
    ensures idle { (o : O) → get O.cmp origins.new o ≢ Some [] }
    ensures none_noted { places.new ≡ [] }
    ensures kept { IsKept F.eq O.cmp origins.old.entries origins.new.entries }
    ensures once { HaveOnce F.eq origins.new.entries }
{
    'places: while let Some(origin) = places.pop() {
        clear_place(origins, &origin);
    }
}
