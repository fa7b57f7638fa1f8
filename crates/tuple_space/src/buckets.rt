//! Flows in buckets, by key.
ghost use Rattle.std.specs.Prelude.{◌≡◌, ◌↔◌, ◌⊎◌, ◌+◌, ◌<◌, ℕ, List, None, [], cond, nat_eq, slice_get, is_some, IsSome, IsTrue, OnOk};
ghost use Rattle.std.specs.Cmp.Lexicographic.{pointwise};
ghost use Rattle.std.specs.Map.{lookup};
ghost use Rattle.std.specs.Option.{option_copied};
ghost use Rattle.ovn_base.specs.lists.Among.{Among};
ghost use Rattle.flow_table.specs.declared.flow.Flow.{Flow};
ghost use Rattle.tuple_space.specs.Bunches.{flows_in, flows_under, promised_under, AreBunches};
ghost use Rattle.tuple_space.specs.Masks.{cube_bits, cube_mask};
ghost use Rattle.tuple_space.specs.Sieving.{bit_of, IsLetWhole};
ghost use Rattle.tuple_space.specs.Space.{mask_number};

use crate::bucket::Bucket;
use crate::masks::Masks;
use crate::place::{Numbers, Place};
use crate::sieve::Sieve;
use flow_table::flow::SharedFlow;
use indexmap::IndexMap;
use ovn_base::memory::NoMemory;
use std::alloc::Global;
use std::marker::Model;

/// Flows by key: each key has a bucket with the flows that belong there.
#[derive(Drop)]
pub struct Buckets {
    places: IndexMap<Place, Bucket>,
}

impl Model for Buckets {
    ghost use Rattle.std.specs.Prelude.{ℕ, List};
    ghost use Rattle.tuple_space.specs.Bunches.{Bunch, AreBunches};

    ghost Value = { List (List ℕ × Bunch) };

    ghost view = { λ s. s.places.entries };

    ghost invariant = { λ s. AreBunches s.places.entries };
}

// The flow at the index, bucket by bucket.
fn flow_in(places: &IndexMap<Place, Bucket>, index: usize) -> Option<&SharedFlow>
    ensures { option_copied result ≡ slice_get (flows_in places.now.entries) index }
{
    let mut left = index;
    for i in 0..places.len() {
        match places.get_index(i) {
            Some((_, bucket)) => {
                if left < bucket.len() {
                    return bucket.get(left);
                }
                left -= bucket.len();
            }
            None => unreachable!(),
        }
    }
    None
}

impl Buckets {
    /// No bucket.
    pub fn new(alloc: Global) -> Buckets
        ensures { result ≡ [] }
    {
        Buckets {
            places: IndexMap::new(alloc),
        }
    }

    /// What always holds. It does nothing.
    pub fn hold(&self)
        ensures { AreBunches self.now }
    {
        let _many = self.places.len();
    }

    /// The best of the flows at the key.
    pub fn first(&self, key: &[u64]) -> Option<&SharedFlow>
        ensures { option_copied result ≡ slice_get (flows_under self.now key.now) 0 }
    {
        match self.places.get(Numbers { numbers: key }) {
            Some(bucket) => bucket.get(0),
            None => None,
        }
    }

    /// The flow at the index, counted from 0; `None` past the last.
    pub fn flow(&self, index: usize) -> Option<&SharedFlow>
        ensures { option_copied result ≡ slice_get (flows_in self.now) index }
    {
        flow_in(&self.places, index)
    }

    /// How many buckets there are.
    pub fn len(&self) -> usize {
        self.places.len()
    }

    /// How many flows the table has.
    pub fn len_of(&self, table: u8) -> usize {
        let mut many: usize = 0;
        for (key, bucket) in self.places.iter() {
            if key.first() == Some(u64::from(table)) {
                many = many.saturating_add(bucket.len());
            }
        }
        many
    }

    /// Marks the masks of all flows of the table in its sieve.
    pub fn note_all(&self, masks: &Masks, table: u8, sieve: &mut Sieve)
        ensures { (f : Flow) → Among f (flows_in self.now) → f.table ≡ table → IsLetWhole sieve.new (cube_bits f.cube) (bit_of (mask_number masks.now (cube_mask f.cube))) }
    {
        for i in 0..self.places.len() {
            match self.places.get_index(i) {
                Some((_, bucket)) => bucket.note_all(masks, table, sieve),
                None => unreachable!(),
            }
        }
    }

    /// Puts a flow in, where room was promised. No memory is taken.
    pub fn put(&mut self, key: &[u64], flow: SharedFlow)
        requires room { 0 < promised_under self.old key.now }
        requires fresh { ¬ Among flow (flows_under self.old key.now) }
        ensures held { (k : List ℕ) (f : Flow) → Among f (flows_under self.new k) ↔ (((k ≡ key.now) × (f ≡ flow)) ⊎ Among f (flows_under self.old k)) }
        ensures promised { (k : List ℕ) → promised_under self.old k ≡ promised_under self.new k + cond (pointwise nat_eq key.now k) 1 0 }
    {
        match self.places.get_mut(Numbers { numbers: key }) {
            Some(bucket) => bucket.put(flow),
            None => unreachable!(),
        }
    }

    // Takes the flow out at a key that has a bucket.
    fn take_out_there(&mut self, key: &[u64], flow: &SharedFlow)
        requires { IsSome (lookup (pointwise nat_eq key.now) self.old) }
        ensures kept { (k : List ℕ) (f : Flow) → Among f (flows_under self.new k) ↔ (Among f (flows_under self.old k) × ¬ ((k ≡ key.now) × (f ≡ flow.now))) }
        ensures promised { (k : List ℕ) → promised_under self.new k ≡ promised_under self.old k }
    {
        match self.places.get_mut(Numbers { numbers: key }) {
            Some(bucket) => bucket.take_out(flow),
            None => unreachable!(),
        }
    }

    /// Whether there is a bucket for the key.
    pub fn has(&self, key: &[u64]) -> bool
        ensures { result ≡ is_some (lookup (pointwise nat_eq key.now) self.now) }
    {
        self.places.contains_key(Numbers { numbers: key })
    }

    // Makes room for one flow more at a key that has a bucket.
    fn promise_there(&mut self, key: &[u64]) -> Result<(), NoMemory>
        requires { IsSome (lookup (pointwise nat_eq key.now) self.old) }
        ensures flows { flows_in self.new ≡ flows_in self.old }
        ensures under { (k : List ℕ) → flows_under self.new k ≡ flows_under self.old k }
        ensures promised { OnOk result ((k : List ℕ) → promised_under self.new k ≡ promised_under self.old k + cond (pointwise nat_eq key.now k) 1 0) }
    {
        match self.places.get_mut(Numbers { numbers: key }) {
            Some(bucket) => bucket.promise(),
            None => unreachable!(),
        }
    }

    // Makes a bucket with room for one flow.
    fn promise_new(&mut self, key: &[u64]) -> Result<(), NoMemory>
        requires { lookup (pointwise nat_eq key.now) self.old ≡ None }
        ensures flows { flows_in self.new ≡ flows_in self.old }
        ensures under { (k : List ℕ) → flows_under self.new k ≡ flows_under self.old k }
        ensures promised { OnOk result ((k : List ℕ) → promised_under self.new k ≡ promised_under self.old k + cond (pointwise nat_eq key.now k) 1 0) }
    {
        let alloc = *self.places.allocator();
        let mut bucket = Bucket::new(alloc);
        bucket.promise()?;
        let place = Place::new(alloc, key)?;
        match self.places.insert(place, bucket) {
            Ok(_) => Ok(()),
            Err(_) => Err(NoMemory),
        }
    }

    /// Makes room for one flow more at the key than was promised. The flows stay, also without memory.
    pub fn promise(&mut self, key: &[u64]) -> Result<(), NoMemory>
        ensures flows { flows_in self.new ≡ flows_in self.old }
        ensures under { (k : List ℕ) → flows_under self.new k ≡ flows_under self.old k }
        ensures promised { OnOk result ((k : List ℕ) → promised_under self.new k ≡ promised_under self.old k + cond (pointwise nat_eq key.now k) 1 0) }
    {
        if self.has(key) {
            self.promise_there(key)
        } else {
            self.promise_new(key)
        }
    }

    // Whether no flow is at the key, and no room is promised.
    fn is_idle(&self, key: &[u64]) -> bool
        ensures { IsTrue result → (flows_under self.now key.now ≡ []) × (promised_under self.now key.now ≡ 0) }
    {
        match self.places.get(Numbers { numbers: key }) {
            Some(bucket) => bucket.is_idle(),
            None => false,
        }
    }

    // Takes the bucket of the key away.
    fn clear(&mut self, key: &[u64])
        requires { (flows_under self.old key.now ≡ []) × (promised_under self.old key.now ≡ 0) }
        ensures under { (k : List ℕ) → flows_under self.new k ≡ flows_under self.old k }
        ensures promised { (k : List ℕ) → promised_under self.new k ≡ promised_under self.old k }
    {
        self.places.swap_remove(Numbers { numbers: key });
    }

    // Takes the bucket of the key away, if it is idle.
    fn sweep(&mut self, key: &[u64])
        ensures under { (k : List ℕ) → flows_under self.new k ≡ flows_under self.old k }
        ensures promised { (k : List ℕ) → promised_under self.new k ≡ promised_under self.old k }
    {
        if !self.is_idle(key) {
            return;
        }
        self.clear(key);
    }

    /// Takes the flow out, if it is there, and its bucket, if nothing is left in it. No memory is taken, and no room is lost.
    pub fn take_out(&mut self, key: &[u64], flow: &SharedFlow)
        ensures kept { (k : List ℕ) (f : Flow) → Among f (flows_under self.new k) ↔ (Among f (flows_under self.old k) × ¬ ((k ≡ key.now) × (f ≡ flow.now))) }
        ensures promised { (k : List ℕ) → promised_under self.new k ≡ promised_under self.old k }
    {
        if !self.has(key) {
            return;
        }
        self.take_out_there(key, flow);
        self.sweep(key);
    }
}
