//! The masks of a chassis, each at its number.
ghost use Rattle.std.specs.Prelude.{◌≡◌, ◌<◌, ◌≤◌, [], IfOk, length};
ghost use Rattle.tuple_space.specs.declared.mask.Mask.{Mask};
ghost use Rattle.tuple_space.specs.Space.{same_mask, mask_number, AreFew};
ghost use Rattle.tuple_space.specs.Same.{mask_like};

use crate::mask::{Asked, Mask};
use indexmap::{Equivalent, IndexSet};
use ovn_base::list::List;
use ovn_base::memory::NoMemory;
use std::alloc::Global;
use std::hash::Hash;
use std::marker::Model;

// What a mask asks for, where it stands elsewhere: so a look-up takes no memory.
#[derive(Clone, Copy, PartialEq, Eq, Hash)]
struct Parts<'a> {
    asks: &'a [Asked],
    entry: bool,
}

impl<'a> Equivalent<Mask> for Parts<'a> {
    ghost equivalent = { λ p. same_mask (record { asks = p.asks.now; entry = p.entry }) };

    ghost respects_hash = { λ p. mask_like ⟦<Mask as Hash>⟧.hash_input (record { asks = p.asks.now; entry = p.entry }) };

    ghost respects_eq = { λ p x y. mask_like (λ m. same_mask m y) (record { asks = p.asks.now; entry = p.entry }) x };

    fn equivalent(&self, key: &Mask) -> bool {
        self.asks == key.asks.as_slice() && self.entry == key.entry
    }
}

/// Masks, each once, at its number. None is ever taken out.
#[derive(Drop)]
pub struct Masks {
    set: IndexSet<Mask>,
}

impl Model for Masks {
    ghost use Rattle.std.specs.Prelude.{List};
    ghost use Rattle.tuple_space.specs.declared.mask.Mask.{Mask};

    ghost Value = { List Mask };

    ghost view = { λ s. s.set.keys };
}

impl Masks {
    /// No mask.
    pub fn new(alloc: Global) -> Masks
        ensures { result ≡ [] }
    {
        Masks {
            set: IndexSet::new(alloc),
        }
    }

    /// Where memory comes from.
    pub fn allocator(&self) -> Global {
        *self.set.allocator()
    }

    /// All masks, each at its number.
    pub fn as_slice(&self) -> &[Mask]
        ensures { result.now ≡ self.now }
    {
        self.set.as_slice()
    }

    /// The number of the mask; how many there are, where it isn't one of them.
    pub fn number_of(&self, asks: &[Asked], entry: bool) -> usize
        ensures { result ≡ mask_number self.now (record { asks = asks.now; entry = entry }) }
    {
        match self.set.get_index_of(Parts { asks, entry }) {
            Some(number) => number,
            None => self.set.len(),
        }
    }

    /// The number of the mask, which becomes the last one if it wasn't there. The others keep theirs, also without memory.
    pub fn number_for(&mut self, asks: &[Asked], entry: bool) -> Result<usize, NoMemory>
        requires { length asks.now ≤ 30 }
        ensures number { IfOk result (λ n. (n ≡ mask_number self.new (record { asks = asks.now; entry = entry })) × (n < length self.new)) }
        ensures kept { (m : Mask) → mask_number self.old m < length self.old → (mask_number self.new m ≡ mask_number self.old m) × (mask_number self.new m < length self.new) }
        ensures few { AreFew self.old → AreFew self.new }
    {
        let number = self.number_of(asks, entry);
        if number < self.set.len() {
            return Ok(number);
        }
        let alloc = *self.set.allocator();
        let asks = List::from_slice(alloc, asks)?;
        self.set.insert(Mask { asks, entry })?;
        Ok(number)
    }
}
