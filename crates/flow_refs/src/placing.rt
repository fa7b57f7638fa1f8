//! Places for the origins of changes, so that their flows can be put there without memory.
ghost use Rattle.std.specs.Prelude.{◌≡◌, IsSome, IfOk, OnOk, Some, []};
ghost use Rattle.std.specs.BTreeMap.{get, is_at};
ghost use Rattle.std.specs.List.{IsDistinct};
ghost use Rattle.std.specs.Map.{lookup};
ghost use Rattle.std.specs.Ordering.{eq_by_cmp};
ghost use Rattle.std.specs.Set.{is_member};
ghost use Rattle.flow_refs.specs.Counts.{count_of, HaveOnce};
ghost use Rattle.flow_refs.specs.Origins.{flows_of};
ghost use Rattle.flow_refs.specs.Store.{AreSame, HavePlaces, IsKept, AreIdleAmong};

use indexmap::IndexSet;
use ovn_base::list::List;
use ovn_base::memory::NoMemory;
use std::alloc::Global;
use std::collections::BTreeMap;
use std::hash::Hash;

// The flows, each once.
fn each_once<F: Eq + Hash + Drop>(alloc: Global, flows: List<F>) -> Result<List<F>, NoMemory>
    ensures same { IfOk result (λ l. (flow : F) → is_member F.eq l flow ≡ is_member F.eq flows flow) }
    ensures once { IfOk result (IsDistinct F.eq) }
{
    let seen: IndexSet<F> = IndexSet::from_iter(alloc, flows)?;
    Ok(List::from_iter(alloc, seen)?)
}

// Makes an empty place for the origin, if it has none.
fn make_place<F: Eq + Hash + Drop, O: Ord + Clone + Drop>(
    origins: &mut BTreeMap<O, List<F>>,
    places: &mut List<O>,
    origin: &O,
) -> Result<(), NoMemory>
    requires origin_clones { (x y : O) → O.is_clone x y → y ≡ x }
    requires once { HaveOnce F.eq origins.old.entries }
    requires idle { AreIdleAmong O.cmp origins.old.entries places.old }
    ensures place { OnOk result (IsSome (get O.cmp origins.new origin.now)) }
    ensures places { (o : O) → IsSome (get O.cmp origins.old o) → IsSome (get O.cmp origins.new o) }
    ensures kept { IsKept F.eq O.cmp origins.old.entries origins.new.entries }
    ensures once { HaveOnce F.eq origins.new.entries }
    ensures idle { AreIdleAmong O.cmp origins.new.entries places.new }
{
    if origins.contains_key(origin) {
        return Ok(());
    }
    let alloc = places.allocator();
    places.push(origin.clone()?)?;
    origins.insert(origin.clone()?, List::new(alloc))?;
    Ok(())
}

// The changes, each origin's flows once. Each origin has a place then.
pub(crate) fn place_each<F: Eq + Hash + Drop, O: Ord + Clone + Drop>(
    alloc: Global,
    origins: &mut BTreeMap<O, List<F>>,
    places: &mut List<O>,
    given: List<(O, List<F>)>,
) -> Result<List<(O, List<F>)>, NoMemory>
    requires origin_clones { (x y : O) → O.is_clone x y → y ≡ x }
    requires once { HaveOnce F.eq origins.old.entries }
    requires idle { AreIdleAmong O.cmp origins.old.entries places.old }
    ensures same { IfOk result (AreSame F.eq given) }
    ensures have_once { IfOk result (HaveOnce F.eq) }
    ensures places { IfOk result (HavePlaces O.cmp origins.new.entries) }
    ensures stay { (o : O) → IsSome (get O.cmp origins.old o) → IsSome (get O.cmp origins.new o) }
    ensures kept { IsKept F.eq O.cmp origins.old.entries origins.new.entries }
    ensures once { HaveOnce F.eq origins.new.entries }
    ensures idle { AreIdleAmong O.cmp origins.new.entries places.new }
{
    let mut changes = List::new(alloc);
    'given: for (origin, flows) in given {
        let flows = each_once(alloc, flows)?;
        make_place(origins, places, &origin)?;
        changes.push((origin, flows))?;
    }
    Ok(changes)
}
