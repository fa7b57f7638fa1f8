//! A value that several owners share, seen by contracts as the value.
ghost use Rattle.std.specs.Prelude.{◌≡◌, IfOk};

use crate::memory::NoMemory;
use std::alloc::{AllocError, Global};
use std::fmt;
use std::hash::{Hash, Hasher};
use std::marker::Model;
use std::rc::Rc;

/// A value that is shared: a copy of it is one owner more, and no value more. A contract sees a `Counted<T>` as the value in it,
/// so that copies of equal values are one value: use it in place of `Rc` in every type whose values are compared.
#[derive(Drop)]
pub struct Counted<T> {
    inner: Rc<T>,
}

impl<T> Model for Counted<T> {
    ghost Value = { T };

    ghost coded = { T.code };

    ghost view = { λ c. c.inner.value };
}

impl<T> Counted<T> {
    /// The value.
    pub fn get(&self) -> &T
        ensures { result.now ≡ self.now }
    {
        &self.inner
    }
}

impl<T: Drop> Counted<T> {
    /// The value, with one owner. Without memory the value is dropped.
    pub fn new(alloc: Global, value: T) -> Result<Self, NoMemory>
        ensures { IfOk result (λ c. c ≡ value) }
    {
        Ok(Counted {
            inner: Rc::new(alloc, value)?,
        })
    }

    /// The same value, with one owner more. `NoMemory` only where there are more owners than can be counted; no clause promises
    /// that it isn't answered.
    pub fn share(&self) -> Result<Self, NoMemory>
        ensures { IfOk result (λ c. c ≡ self.now) }
    {
        Ok(Counted {
            inner: self.inner.clone()?,
        })
    }
}

impl<T: Drop> Clone for Counted<T> {
    ghost is_clone = { λ c copy. copy ≡ c };

    fn clone(&self) -> Result<Self, AllocError> {
        Ok(Counted {
            inner: self.inner.clone()?,
        })
    }
}

impl<T: PartialEq> PartialEq for Counted<T> {
    ghost eq = { T.eq };

    ghost laws = { T.laws };

    fn eq(&self, other: &Self) -> bool {
        self.get() == other.get()
    }
}

impl<T: Eq> Eq for Counted<T> {
    ghost laws = { T.Eq.laws };
}

impl<T: Hash> Hash for Counted<T> {
    ghost hash_input = { T.hash_input };

    ghost respects_eq = { T.respects_eq };

    fn hash<H: Hasher>(&self, state: &mut H) {
        self.get().hash(state);
    }
}

impl<T: fmt::Debug> fmt::Debug for Counted<T> {
    ghost debug_output = { T.debug_output };

    fn fmt<W: fmt::Write>(&self, f: &mut fmt::Formatter<W>) -> fmt::Result {
        fmt::Debug::fmt(self.get(), f)
    }
}
