//! The sieves of all tables.
ghost use Rattle.std.specs.Prelude.{◌≡◌, ◌<◌, ℕ, List, Some, [], OnOk, OnErr, cond, nat_eq};
ghost use Rattle.std.specs.Map.{lookup};
ghost use Rattle.tuple_space.specs.Masks.{AllFit};
ghost use Rattle.tuple_space.specs.Sieving.{HasBit, IsLetIn, bit_of};

use crate::sieve::Sieve;
use indexmap::IndexMap;
use inet_packet::cube::Bits;
use ovn_base::memory::NoMemory;
use std::alloc::Global;
use std::marker::Model;

/// The sieve of each table that has one. A table without one lets all masks through.
#[derive(Drop)]
pub struct Sieves {
    tables: IndexMap<u8, Sieve>,
}

impl Model for Sieves {
    ghost use Rattle.std.specs.Prelude.{ℕ, List};
    ghost use Rattle.tuple_space.specs.declared.sieve.Sieve.{Sieve};

    ghost Value = { List (ℕ × Sieve) };

    ghost view = { λ s. s.tables.entries };
}

impl Sieves {
    /// No sieve.
    pub fn new(alloc: Global) -> Sieves
        ensures { result ≡ [] }
    {
        Sieves {
            tables: IndexMap::new(alloc),
        }
    }

    /// Whether the table has no sieve for so many masks and so many flows more.
    pub fn is_small(&self, table: u8, masks: usize, coming: usize) -> bool {
        match self.tables.get(&table) {
            Some(sieve) => sieve.is_small(masks, coming),
            None => true,
        }
    }

    /// The masks of the table that are let through where the fields have these values.
    pub fn passed(&self, table: u8, values: &[u64; 30]) -> u128
        ensures { (bit : ℕ) → bit < 128 → IsLetIn self.now table values.now bit → HasBit result bit }
    {
        match self.tables.get(&table) {
            Some(sieve) => sieve.passed(values),
            None => u128::MAX,
        }
    }

    /// Marks the mask of this number, in the table, as one with a flow that wants this. No memory is taken.
    pub fn note(&mut self, table: u8, number: usize, bits: &[Bits; 30])
        ensures kept { (t : ℕ) (xs : List ℕ) (b : ℕ) → IsLetIn self.old t xs b → IsLetIn self.new t xs b }
        ensures noted { (xs : List ℕ) → AllFit bits.now xs → IsLetIn self.new table xs (bit_of number) }
    {
        match self.tables.get_mut(&table) {
            Some(sieve) => sieve.note(number, bits),
            None => {}
        }
    }

    /// Gives the table this sieve, in place of one that it had.
    pub fn set(&mut self, table: u8, sieve: Sieve) -> Result<(), NoMemory>
        ensures ok { OnOk result ((t : ℕ) → lookup (nat_eq t) self.new ≡ cond (nat_eq table t) (Some sieve) (lookup (nat_eq t) self.old)) }
        ensures err { OnErr result (self.new ≡ self.old) }
    {
        match self.tables.insert(table, sieve) {
            Ok(_) => Ok(()),
            Err(_) => Err(NoMemory),
        }
    }
}
