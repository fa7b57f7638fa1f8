//! A few values in order, seen by contracts as the list of them.
ghost use Rattle.std.specs.Prelude.{◌≡◌, IfOk};
ghost use Rattle.std.specs.Cmp.Lexicographic.{pointwise, lists_per, lists_equiv};
ghost use Rattle.std.specs.Fmt.{debug_list};
ghost use Rattle.std.specs.Hash as fed;
ghost use Rattle.std.specs.Hash.{items_Alike};

use ovn_base::memory::NoMemory;
use smallvec::SmallVec;
use std::alloc::Global;
use std::fmt;
use std::hash::{Hash, Hasher};
use std::marker::Model;

/// Values in order. Up to four stand in place; where there are more, all of them are in memory of their own. A contract sees a
/// `Few<T>` as the list of its elements, and nothing else of it, so that equal lists are one value.
#[derive(Drop)]
pub struct Few<T> {
    items: SmallVec<T, 4>,
}

impl<T> Model for Few<T> {
    ghost use Rattle.std.specs.Prelude.{List};
    ghost use Rattle.std.specs.Coded.{coded_list};

    ghost Value = { List T };

    ghost coded = { coded_list T.code };

    ghost view = { λ f. f.items.items };
}

impl<T> Few<T> {
    /// The elements.
    pub fn as_slice(&self) -> &[T]
        ensures { result.now ≡ self.now }
    {
        self.items.as_slice()
    }

    /// Where the list takes its memory.
    pub fn allocator(&self) -> Global {
        *self.items.allocator()
    }
}

impl<T: Clone + Default> Few<T> {
    /// The elements of the slice. Up to four take no memory but that of their clones.
    pub fn from_slice(alloc: Global, items: &[T]) -> Result<Self, NoMemory>
        requires clones { (x y : T) → T.is_clone x y → y ≡ x }
        ensures { IfOk result (λ f. f ≡ items.now) }
    {
        let items = SmallVec::from_clones(alloc, items)?;
        Ok(Few { items })
    }
}

impl<T: PartialEq> PartialEq for Few<T> {
    ghost eq = { λ a b. pointwise T.eq a b };

    ghost laws = { lists_per T.laws };

    fn eq(&self, other: &Self) -> bool {
        self.as_slice() == other.as_slice()
    }
}

impl<T: Eq> Eq for Few<T> {
    ghost laws = { lists_equiv T.Eq.laws };
}

impl<T: Hash> Hash for Few<T> {
    ghost hash_input = { λ f. fed.slice T.hash_input f };

    ghost respects_eq = { (items_Alike (record { fed = T.respects_eq })).fed };

    fn hash<H: Hasher>(&self, state: &mut H) {
        self.as_slice().hash(state);
    }
}

impl<T: fmt::Debug> fmt::Debug for Few<T> {
    ghost debug_output = { λ f. debug_list T.debug_output f };

    fn fmt<W: fmt::Write>(&self, f: &mut fmt::Formatter<W>) -> fmt::Result {
        fmt::Debug::fmt(&self.as_slice(), f)
    }
}
