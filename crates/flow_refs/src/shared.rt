//! A store of flows that several origins may have.
ghost use Rattle.std.specs.Prelude.{◌≡◌, ◌≢◌, ◌↔◌, true, [], Some, IsTrue, IfOk, slice_get, unwrap_or};
ghost use Rattle.std.specs.BTreeMap.{is_at};
ghost use Rattle.std.specs.List.{IsDistinct};
ghost use Rattle.std.specs.Map.{keys_of, lookup};
ghost use Rattle.std.specs.Option.{option_copied};
ghost use Rattle.std.specs.Set.{is_member};
ghost use Rattle.flow_refs.specs.Counts.{count_of};
ghost use Rattle.flow_refs.specs.Origins.{flows_of, flows_after, IsEachOnce, IsHeld, IsDifference};
ghost use Rattle.flow_refs.specs.Store.{Prepared, AreSame, IsKept, IsPreparedFor, AreCounted};

use crate::counting::new_numbers;
use crate::difference::difference;
use crate::patch::Patch;
use crate::placing::place_each;
use crate::putting::{clear_places, put_each, set_numbers};
use indexmap::IndexMap;
use ovn_base::delta::Delta;
use ovn_base::list::List;
use ovn_base::memory::NoMemory;
use std::alloc::Global;
use std::collections::BTreeMap;
use std::hash::Hash;
use std::marker::Model;

/// The flows of any number of origins. A flow that several origins have is held once, and is held until none has it.
#[derive(Drop)]
pub struct Shared<F: Eq + Hash, O: Ord> {
    origins: BTreeMap<O, List<F>>,
    counts: IndexMap<F, u64>,
    places: List<O>,
}

impl<F: Eq + Hash, O: Ord> Model for Shared<F, O> {
    ghost use Rattle.indexmap.specs.IndexMap.{spare};
    ghost use Rattle.flow_refs.specs.Store.{Store, IsStore};

    ghost Value = { Store F O };

    ghost view = { λ s. record { origins = s.origins.entries; counts = s.counts.entries; room = spare s.counts; idle = s.places } };

    ghost invariant = { λ s. IsStore F.eq O.cmp s.origins.entries s.counts.entries s.places };
}

impl<F: Eq + Hash + Clone + Drop, O: Ord + Clone + Drop> Shared<F, O> {
    /// The store in which no origin has a flow.
    pub fn new(alloc: Global) -> Result<Self, NoMemory>
        ensures origins { IfOk result (λ s. s.origins ≡ []) }
        ensures counts { IfOk result (λ s. s.counts ≡ []) }
        ensures idle { IfOk result (λ s. s.idle ≡ []) }
    {
        Ok(Shared {
            origins: BTreeMap::new(alloc),
            counts: IndexMap::new(alloc),
            places: List::new(alloc),
        })
    }

    /// Makes all ready for each origin of the changes to have exactly the flows that stand there with it. What is held stays,
    /// and what was prepared before can still be applied.
    pub fn prepare(&mut self, changes: List<(O, List<F>)>) -> Result<Patch<F, O>, NoMemory>
        requires flow_clones { (x y : F) → F.is_clone x y → y ≡ x }
        requires origin_clones { (x y : O) → O.is_clone x y → y ≡ x }
        requires once { IsEachOnce O.cmp changes }
        ensures prepared { IfOk result (IsPreparedFor F.eq O.cmp self.new) }
        ensures same { IfOk result (λ p. AreSame F.eq changes p.changes) }
        ensures kept { IsKept F.eq O.cmp self.old.origins self.new.origins }
        ensures counts { self.new.counts ≡ self.old.counts }
        ensures stays { (p : Prepared F O) → IsPreparedFor F.eq O.cmp self.old p → IsPreparedFor F.eq O.cmp self.new p }
    {
        let alloc = self.places.allocator();
        let _once = self.origins.len();
        let placed = place_each(alloc, &mut self.origins, &mut self.places, changes);
        let _still_once = self.origins.len();
        let changes = placed?;
        let numbers = new_numbers(alloc, &self.origins, &self.counts, &changes)?;
        let delta = difference(alloc, &self.counts, &numbers)?;
        self.counts.reserve(numbers.len())?;
        Ok(Patch {
            changes,
            numbers,
            delta,
        })
    }

    /// Each origin of the changes has exactly the flows that stand there with it, and every other what it had. Answers what
    /// is held from now on and wasn't, and what was and isn't. It takes no memory.
    pub fn apply(&mut self, patch: Patch<F, O>) -> Delta<F>
        requires { IsPreparedFor F.eq O.cmp self.old patch }
        ensures given { (o : O) → flows_of O.cmp self.new.origins o ≡ flows_after O.cmp self.old.origins patch.changes o }
        ensures delta { IsDifference F.eq (flows_of O.cmp self.old.origins) (flows_of O.cmp self.new.origins) result }
        ensures shown { result ≡ patch.delta }
        ensures no_idle { (o : O) → lookup (is_at (O.cmp o)) self.new.origins ≢ Some [] }
        ensures none_noted { self.new.idle ≡ [] }
    {
        let Patch {
            changes,
            numbers,
            delta,
        } = patch;
        let _once = self.origins.len();
        put_each(&mut self.origins, changes);
        set_numbers(&mut self.counts, numbers);
        clear_places(&mut self.origins, &mut self.places);
        delta
    }

    /// Whether some origin has the flow.
    pub fn holds(&self, flow: &F) -> bool
        ensures { IsTrue result ↔ IsHeld F.eq (flows_of O.cmp self.now.origins) flow.now }
    {
        let _once = self.origins.len();
        self.counts.contains_key(flow)
    }

    /// How many origins have the flow.
    pub fn count(&self, flow: &F) -> u64
        ensures { result ≡ count_of F.eq self.now.origins flow.now }
    {
        match self.counts.get(flow) {
            Some(count) => *count,
            None => 0,
        }
    }

    /// The held flow at the index, counted from 0; `None` past the last. Each held flow is at one index.
    pub fn flow(&self, index: usize) -> Option<&F>
        ensures flow { option_copied result ≡ slice_get (keys_of self.now.counts) index }
        ensures once { IsDistinct F.eq (keys_of self.now.counts) }
        ensures held { (flow : F) → (is_member F.eq (keys_of self.now.counts) flow ≡ true) ↔ IsHeld F.eq (flows_of O.cmp self.now.origins) flow }
    {
        let _once = self.origins.len();
        let _unique = self.counts.len();
        match self.counts.get_index(index) {
            Some((flow, _)) => Some(flow),
            None => None,
        }
    }

    /// What always holds of a store: no origin stands twice, and a flow is listed exactly where some origin has it, with the
    /// number of these. It does nothing.
    pub fn counts_hold(&self)
        ensures once { IsEachOnce O.cmp self.now.origins }
        ensures counted { AreCounted F.eq self.now.origins self.now.counts }
    {
        let _once = self.origins.len();
    }
}
