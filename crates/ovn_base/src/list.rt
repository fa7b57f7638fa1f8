//! Values in order, seen by contracts as the list of them.
ghost use Rattle.std.specs.Prelude.{◌≡◌, ◌∷◌, ◌++◌, ◌<◌, [], ◌↔◌, IsTrue, IfOk, OnOk, OnErr, OnSome, MatchOption, length, slice_get, slice_set, remove, swap_remove, take, Some, ◌^◌};
ghost use Rattle.std.specs.Option.{option_copied};
ghost use Rattle.std.specs.List.{AllZip};
ghost use Rattle.std.specs.Cmp.Lexicographic.{pointwise, slice_cmp, slice_partial_cmp, lists_per, lists_equiv, lists_po, lists_total, lists_agrees, lists_ties};
ghost use Rattle.std.specs.Fmt.{debug_list};
ghost use Rattle.std.specs.Iterator.Adapters.{IterYieldsInOrder};
ghost use Rattle.std.specs.Iterator.Runs.{EveryRun, ItemsAre};
ghost use Rattle.std.specs.Slice.Iter.{iter_rest};
ghost use Rattle.std.specs.Vec.Iter.{into_iter_steps, into_iter_items, into_iter_len};
ghost use Rattle.std.specs.declared.alloc.Global.{Global};
ghost use Rattle.std.specs.Hash as fed;
ghost use Rattle.std.specs.Hash.{items_Alike};

use crate::memory::NoMemory;
use std::alloc::{AllocError, Global};
use std::cmp::Ordering;
use std::hash::{Hash, Hasher};
use std::marker::Model;
use std::{fmt, slice, vec};

/// Values in order. A contract sees a `List<T>` as the list of its elements, and nothing else of it, so that equal lists
/// are one value: use it in place of `Vec` in every type whose values are compared.
#[derive(Drop)]
pub struct List<T> {
    items: Vec<T>,
}

/// Bytes in order.
pub type Bytes = List<u8>;

impl<T> Model for List<T> {
    ghost use Rattle.std.specs.Prelude.{List};
    ghost use Rattle.std.specs.Coded.{coded_list};

    ghost Value = { List T };

    ghost coded = { coded_list T.code };

    ghost view = { λ l. l.items.items };
}

impl<T> List<T> {
    /// The empty list. It takes no memory until something is pushed.
    pub fn new(alloc: Global) -> Self
        ensures { result ≡ [] }
    {
        List {
            items: Vec::new(alloc),
        }
    }

    /// The elements of the `Vec`, in place.
    pub fn from_vec(items: Vec<T>) -> Self
        ensures { result ≡ items.items }
    {
        List { items }
    }

    /// The elements as a `Vec`, in place.
    pub fn into_vec(self) -> Vec<T>
        ensures { result.items ≡ self }
    {
        let List { items } = self;
        items
    }

    /// The elements.
    pub fn as_slice(&self) -> &[T]
        ensures { result.now ≡ self.now }
    {
        self.items.as_slice()
    }

    /// How many elements there are.
    pub fn len(&self) -> usize
        ensures { result ≡ length self.now }
    {
        self.items.len()
    }

    /// Whether there is no element.
    pub fn is_empty(&self) -> bool
        ensures { IsTrue result ↔ (self.now ≡ []) }
    {
        self.items.is_empty()
    }

    /// The element at the index, counted from 0; `None` past the last.
    pub fn get(&self, index: usize) -> Option<&T>
        ensures value { option_copied result ≡ slice_get self.now index }
        ensures within { OnSome result (index < length self.now) }
    {
        self.items.get(index)
    }

    /// Goes over the elements, from the first to the last.
    pub fn iter(&self) -> slice::Iter<'_, T>
        ensures rest { iter_rest result ≡ self.now }
        ensures len { length (iter_rest result) ≡ length self.now }
        ensures bound { length (iter_rest result) < 2 ^ 64 }
        ensures runs { IterYieldsInOrder T }
    {
        self.items.as_slice().iter()
    }

    /// Takes the last element out.
    pub fn pop(&mut self) -> Option<T>
        ensures { MatchOption result ((self.old ≡ []) × (self.new ≡ [])) (λ last. self.old ≡ self.new ++ last ∷ []) }
    {
        self.items.pop()
    }

    /// Where the list takes its memory.
    pub fn allocator(&self) -> Global {
        *self.items.allocator()
    }
}

impl<T: Drop> List<T> {
    /// Adds the element at the end. Without memory the list stays as it was, and the element is dropped.
    pub fn push(&mut self, item: T) -> Result<(), NoMemory>
        ensures ok { OnOk result (self.new ≡ self.old ++ item ∷ []) }
        ensures err { OnErr result (self.new ≡ self.old) }
    {
        self.items.push(item)?;
        Ok(())
    }

    /// Moves the elements of the other to the end. Without memory the list stays as it was, and the other is dropped.
    pub fn append(&mut self, more: List<T>) -> Result<(), NoMemory>
        ensures ok { OnOk result (self.new ≡ self.old ++ more) }
        ensures err { OnErr result (self.new ≡ self.old) }
    {
        let List { mut items } = more;
        self.items.append(&mut items)?;
        Ok(())
    }

    /// Puts the item in the place of the one at the index.
    pub fn set(&mut self, index: usize, item: T)
        requires { index < length self.old }
        ensures { self.new ≡ slice_set self.old index item }
    {
        self.items[index] = item;
    }

    /// Takes the element at the index out, and moves those after it up.
    pub fn remove(&mut self, index: usize) -> T
        requires { index < length self.old }
        ensures item { slice_get self.old index ≡ Some result }
        ensures rest { self.new ≡ remove self.old index }
    {
        self.items.remove(index)
    }

    /// Takes the element at the index out, and puts the last in its place.
    pub fn swap_remove(&mut self, index: usize) -> T
        requires { index < length self.old }
        ensures item { slice_get self.old index ≡ Some result }
        ensures rest { self.new ≡ swap_remove self.old index result }
    {
        self.items.swap_remove(index)
    }

    /// Keeps the first elements, at most `len` of them.
    pub fn truncate(&mut self, len: usize)
        ensures { self.new ≡ take len self.old }
    {
        self.items.truncate(len);
    }

    /// Drops all elements.
    pub fn clear(&mut self)
        ensures { self.new ≡ [] }
    {
        self.items.clear();
    }
}

impl<T: Copy> List<T> {
    /// The elements of the slice, in memory of their own.
    pub fn from_slice(alloc: Global, items: &[T]) -> Result<Self, NoMemory>
        ensures { IfOk result (λ l. l ≡ items.now) }
    {
        let items = Vec::from_slice(alloc, items)?;
        Ok(List { items })
    }

    /// Adds the elements of the slice at the end. Without memory the list stays as it was.
    pub fn extend_from_slice(&mut self, more: &[T]) -> Result<(), NoMemory>
        ensures ok { OnOk result (self.new ≡ self.old ++ more.now) }
        ensures err { OnErr result (self.new ≡ self.old) }
    {
        self.items.extend_from_slice(more)?;
        Ok(())
    }
}

impl<T: Clone> List<T> {
    /// An equal list in memory of its own. What its elements share with others they go on sharing.
    pub fn copy(&self) -> Result<Self, NoMemory>
        requires clones { (x y : T) → T.is_clone x y → y ≡ x }
        ensures { IfOk result (λ l. l ≡ self.now) }
    {
        let items = self.items.as_slice().to_vec(self.allocator())?;
        Ok(List { items })
    }
}

impl<T: Clone> Clone for List<T> {
    ghost is_clone = { λ a b. AllZip T.is_clone a b };

    fn clone(&self) -> Result<Self, AllocError> {
        let items = self.as_slice().to_vec(self.allocator())?;
        Ok(List { items })
    }
}

impl<T: PartialEq> PartialEq for List<T> {
    ghost eq = { λ a b. pointwise T.eq a b };

    ghost laws = { lists_per T.laws };

    fn eq(&self, other: &Self) -> bool {
        self.as_slice() == other.as_slice()
    }
}

impl<T: Eq> Eq for List<T> {
    ghost laws = { lists_equiv T.Eq.laws };
}

impl<T: PartialOrd> PartialOrd for List<T> {
    ghost partial_cmp = { λ a b. slice_partial_cmp T.partial_cmp a b };

    ghost laws = { lists_po T.PartialOrd.laws };

    fn partial_cmp(&self, other: &Self) -> Option<Ordering> {
        self.as_slice().partial_cmp(&other.as_slice())
    }
}

impl<T: Ord> Ord for List<T> {
    ghost cmp = { λ a b. slice_cmp T.cmp a b };

    ghost total = { lists_total T.total };

    ghost matches_partial_cmp = { lists_agrees T.matches_partial_cmp };

    ghost matches_eq = { lists_ties T.cmp T.matches_eq };

    fn cmp(&self, other: &Self) -> Ordering {
        self.as_slice().cmp(&other.as_slice())
    }
}

impl<T: Hash> Hash for List<T> {
    ghost hash_input = { λ l. fed.slice T.hash_input l };

    ghost respects_eq = { (items_Alike (record { fed = T.respects_eq })).fed };

    fn hash<H: Hasher>(&self, state: &mut H) {
        self.as_slice().hash(state);
    }
}

impl<'a, T> IntoIterator for &'a List<T> {
    type Item = &'a T;

    type IntoIter = slice::Iter<'a, T>;

    ghost into_iter_gives = { λ l it. (iter_rest it ≡ l.now) × (length (iter_rest it) < 2 ^ 64) × IterYieldsInOrder T };

    fn into_iter(self) -> slice::Iter<'a, T> {
        self.as_slice().iter()
    }
}

impl<T: Drop> IntoIterator for List<T> {
    type Item = T;

    type IntoIter = vec::IntoIter<T>;

    ghost into_iter_gives = { λ l it. (into_iter_items it ≡ l) × (into_iter_len it ≡ length l) × (into_iter_len it < 2 ^ 64) × EveryRun (into_iter_steps {X = T} {Z = Global}) (λ p. ItemsAre p (into_iter_items p.from)) };

    fn into_iter(self) -> vec::IntoIter<T> {
        self.into_vec().into_iter()
    }
}

impl<T: Drop> FromIterator<T> for List<T> {
    type Alloc = Global;

    ghost from_iter_gives = { λ xs l. l ≡ xs };

    fn from_iter<U: IntoIterator<Item = T>>(alloc: Global, iter: U) -> Result<Self, AllocError> {
        let items = Vec::from_iter(alloc, iter)?;
        Ok(List { items })
    }
}

impl<T: fmt::Debug> fmt::Debug for List<T> {
    ghost debug_output = { λ l. debug_list T.debug_output l };

    fn fmt<W: fmt::Write>(&self, f: &mut fmt::Formatter<W>) -> fmt::Result {
        fmt::Debug::fmt(&self.as_slice(), f)
    }
}
