//! What is prepared for a counted store.
ghost use Rattle.std.specs.Prelude.{◌≡◌};

use ovn_base::delta::Delta;
use ovn_base::list::List;
use std::marker::Model;

/// New flows of some origins, made by [`crate::shared::Shared::prepare`] and put into force by
/// [`crate::shared::Shared::apply`].
#[derive(Drop)]
pub struct Patch<F, O> {
    pub(crate) changes: List<(O, List<F>)>,
    pub(crate) numbers: List<(F, u64)>,
    pub(crate) delta: Delta<F>,
}

impl<F, O> Model for Patch<F, O> {
    ghost use Rattle.flow_refs.specs.Store.{Prepared};

    ghost Value = { Prepared F O };

    ghost view = { λ p. record { changes = p.changes; numbers = p.numbers; delta = p.delta } };
}

impl<F, O> Patch<F, O> {
    /// What comes and what goes: the delta that `apply` will answer.
    pub fn delta(&self) -> &Delta<F>
        ensures { result.now ≡ self.now.delta }
    {
        &self.delta
    }
}
