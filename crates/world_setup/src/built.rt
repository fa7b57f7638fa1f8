//! What is built of edits.
ghost use Rattle.std.specs.Prelude.{◌≡◌};
ghost use Rattle.world_setup.specs.Built.{is_built_edit, is_built_op};

use nb_records::change::Op;

fn is_built_op(op: &Op) -> bool
    ensures { result ≡ is_built_op op.now }
{
    match op {
        Op::Add(_) | Op::Set { .. } => true,
        Op::Remove { .. } | Op::Health { .. } => false,
    }
}

/// Whether each operation of an edit is built.
pub(crate) fn is_built_edit(ops: &[Op]) -> bool
    ensures { result ≡ is_built_edit ops.now }
{
    let Some((op, others)) = ops.split_first() else {
        return true;
    };
    is_built_op(op) && is_built_edit(others)
}
