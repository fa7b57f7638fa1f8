//! What came and what went.
ghost use Rattle.std.specs.Prelude.{◌≡◌, IfOk};

use crate::list::List;
use crate::memory::NoMemory;

/// What comes into a set of values and what goes out of it.
#[derive(Debug, Clone, PartialEq, Eq, Hash, Drop)]
pub struct Delta<F> {
    /// The values that come. They are there afterwards, also those that go.
    pub added: List<F>,
    /// The values that go, unless they come too.
    pub removed: List<F>,
}

impl<F: Clone> Delta<F> {
    /// An equal delta, whose two lists are in memory of their own. What its values share with others they go on sharing.
    pub fn copy(&self) -> Result<Self, NoMemory>
        requires clones { (x y : F) → F.is_clone x y → y ≡ x }
        ensures { IfOk result (λ d. d ≡ self.now) }
    {
        Ok(Delta {
            added: self.added.copy()?,
            removed: self.removed.copy()?,
        })
    }
}
