//! Keys of flows in hash maps.
ghost use Rattle.std.specs.Prelude.{◌≡◌, IfOk, nat_eq, slice_get};
ghost use Rattle.std.specs.Cmp.{partial_equiv_from_equiv};
ghost use Rattle.std.specs.Cmp.Lexicographic.{pointwise, nat_list_eq_equiv};
ghost use Rattle.std.specs.Hash as fed;
ghost use Rattle.tuple_space.specs.Digests.{digest_of, digest_with, same_digest};

use indexmap::Equivalent;
use ovn_base::memory::NoMemory;
use smallvec::SmallVec;
use std::alloc::Global;
use std::hash::{Hash, Hasher};
use std::marker::Model;

/// The numbers of a key. Up to six stand in place: most keys have no more.
#[derive(Drop)]
pub struct Place {
    numbers: SmallVec<u64, 6>,
}

impl Model for Place {
    ghost use Rattle.std.specs.Prelude.{ℕ, List};

    ghost Value = { List ℕ };

    ghost view = { λ p. p.numbers.items };
}

/// The numbers of a key, where they stand elsewhere.
#[derive(Clone, Copy, PartialEq, Eq)]
pub struct Numbers<'a> {
    pub numbers: &'a [u64],
}

// The digest with one number more.
fn with(digest: u64, number: u64) -> u64
    ensures { result ≡ digest_with digest number }
{
    (digest ^ number).wrapping_mul(0x9e37_79b9_7f4a_7c15)
}

// What is hashed of the numbers.
fn digest(numbers: &[u64]) -> u64
    ensures { result ≡ digest_of numbers.now }
{
    let mut digest = 0;
    for number in numbers {
        digest = with(digest, *number);
    }
    digest
}

// Whether the numbers are the same. They are few: so they are compared one by one.
fn is_same(numbers: &[u64], others: &[u64]) -> bool
    ensures { result ≡ pointwise nat_eq numbers.now others.now }
{
    if numbers.len() != others.len() {
        return false;
    }
    for i in 0..numbers.len() {
        if numbers[i] != others[i] {
            return false;
        }
    }
    true
}

impl Place {
    /// The numbers, in memory of their own.
    pub fn new(alloc: Global, numbers: &[u64]) -> Result<Place, NoMemory>
        ensures { IfOk result (λ p. p ≡ numbers.now) }
    {
        let numbers = SmallVec::from_slice(alloc, numbers)?;
        Ok(Place { numbers })
    }

    /// The first number.
    pub fn first(&self) -> Option<u64>
        ensures { result ≡ slice_get self.now 0 }
    {
        self.numbers.as_slice().first().copied()
    }
}

impl PartialEq for Place {
    ghost eq = { pointwise nat_eq };

    ghost laws = { partial_equiv_from_equiv nat_list_eq_equiv };

    fn eq(&self, other: &Self) -> bool {
        is_same(self.numbers.as_slice(), other.numbers.as_slice())
    }
}

impl Eq for Place {
    ghost laws = { nat_list_eq_equiv };
}

impl Hash for Place {
    ghost hash_input = { λ p. fed.u64 (digest_of p) };

    ghost respects_eq = { same_digest };

    fn hash<H: Hasher>(&self, state: &mut H) {
        state.write_u64(digest(self.numbers.as_slice()));
    }
}

impl<'a> Hash for Numbers<'a> {
    ghost hash_input = { λ q. fed.u64 (digest_of q.numbers.now) };

    ghost respects_eq = { λ x y. same_digest x.numbers.now y.numbers.now };

    fn hash<H: Hasher>(&self, state: &mut H) {
        state.write_u64(digest(self.numbers));
    }
}

impl<'a> Equivalent<Place> for Numbers<'a> {
    ghost equivalent = { λ q. pointwise nat_eq q.numbers.now };

    ghost respects_hash = { λ q. same_digest q.numbers.now };

    ghost respects_eq = { λ q. nat_list_eq_equiv.congr q.numbers.now };

    fn equivalent(&self, key: &Place) -> bool {
        is_same(self.numbers, key.numbers.as_slice())
    }
}
