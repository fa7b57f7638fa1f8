//! Edits as lines spell them.
ghost use Rattle.std.specs.Prelude.{◌≡◌, IfOk};
ghost use Rattle.std.specs.List.{AllByRecursion};
ghost use Rattle.nb_records.specs.Grammar.{IsOpInGrammar};
ghost use Rattle.nb_rules.specs.Valid.{IsValid};

use edit_reader::event::Event;
use edit_reader::read::{read_event, read_is_in_grammar};
use nb_edits::edit::plan;
use nb_edits::laws::edit_is_sound;
use nb_edits::plan::EditPlan;
use nb_records::change::Op;
use nb_records::records::Records;
use ovn_base::list::List;
use ovn_base::memory::NoMemory;
use ovn_base::name::Name;
use std::alloc::Global;

/// The name of that text.
pub(crate) fn name(text: &str) -> Result<Name, NoMemory> {
    Name::read(text.as_bytes()).ok_or(NoMemory)
}

// The operations of the line.
fn operations(alloc: Global, line: &str) -> Result<List<Op>, NoMemory>
    ensures { IfOk result (AllByRecursion IsOpInGrammar) }
{
    read_is_in_grammar();
    match read_event(alloc, line.as_bytes()) {
        Ok(Event::Edit(ops)) => Ok(ops),
        _ => Err(NoMemory),
    }
}

/// The edit of the line, by the event of that number, planned on the records.
pub(crate) fn planned(
    alloc: Global,
    records: &mut Records,
    line: &str,
    number: u64,
) -> Result<EditPlan, NoMemory>
    requires { IsValid records.old }
    ensures same { records.new ≡ records.old }
    ensures valid { IfOk result (λ p. IsValid p.after) }
{
    let ops = operations(alloc, line)?;
    edit_is_sound();
    match plan(alloc, records, ops.as_slice(), number) {
        Ok(plan) => Ok(plan),
        Err(_) => Err(NoMemory),
    }
}
