//! Laws of clones, each on a function that does nothing: call it, and its clause is a fact of the call.
ghost use Rattle.std.specs.Prelude.{◌≡◌};

use crate::change::{Change, Op};
use crate::record::Record;

/// A clone of a record is that record.
pub fn exact_record()
    ensures { (a b : Record) → ⟦<Record as Clone>⟧.is_clone a b → b ≡ a }
{}

/// A clone of new values is those values.
pub fn exact_change()
    ensures { (a b : Change) → ⟦<Change as Clone>⟧.is_clone a b → b ≡ a }
{}

/// A clone of an operation is that operation.
pub fn exact_op()
    ensures { (a b : Op) → ⟦<Op as Clone>⟧.is_clone a b → b ≡ a }
{
    exact_record();
    exact_change();
}
