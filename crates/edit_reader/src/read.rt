//! From a line to its event.
ghost use Rattle.std.specs.Prelude.{◌≡◌, ℕ, List, Ok};
ghost use Rattle.serde_json.specs.View.{view};
ghost use Rattle.edit_reader.specs.Outcomes.{Gives};
ghost use Rattle.edit_reader.specs.Events as spec;
ghost use Rattle.edit_reader.specs.Fitting.{IsEventInGrammar};

use crate::event::{Event, ReadError, ReadRefusal};
use crate::events::{
    bind_of, chassis_of, clock_of, drain_of, frame_in, health_of, inject_of, keys_of, packet_of,
    unbind_of,
};
use crate::form::{Form, form_in};
use crate::operations::edit_of;
use serde_json::Value;
use std::alloc::Global;

// The event of the form, from its value.
fn event_by(alloc: Global, form: Form, value: &Value) -> Result<Event, ReadError>
    ensures { Gives result (spec.event_by (Some (form, view value.now))) }
{
    match form {
        Form::Edit => Ok(Event::Edit(edit_of(alloc, value)?)),
        Form::Bind => bind_of(alloc, value),
        Form::Unbind => unbind_of(alloc, value),
        Form::Chassis => chassis_of(alloc, value),
        Form::Keys => keys_of(alloc, value),
        Form::Health => health_of(alloc, value),
        Form::Clock => clock_of(alloc, value),
        Form::Inject => inject_of(alloc, value),
        Form::Deliver => Ok(Event::Deliver {
            frame: frame_in(alloc, "deliver", value)?,
        }),
        Form::Lose => Ok(Event::Lose {
            frame: frame_in(alloc, "lose", value)?,
        }),
        Form::Repeat => Ok(Event::Repeat {
            frame: frame_in(alloc, "repeat", value)?,
        }),
        Form::Drain => drain_of(alloc, value),
        Form::Packet => packet_of(alloc, value),
    }
}

// The event of a value.
#[tactic(auto, unfolding(crate::specs::Events::event_of))]
fn event_of(alloc: Global, value: &Value) -> Result<Event, ReadError>
    ensures { Gives result (spec.event_of (view value.now)) }
{
    if !value.is_object() {
        return Err(ReadError::Refused(ReadRefusal::NotObject));
    }
    match form_in(value) {
        Some((form, inner)) => event_by(alloc, form, inner),
        None => Err(ReadError::Refused(ReadRefusal::UnknownEvent)),
    }
}

/// The event that a line asks for, or the first fault of the line.
#[tactic(auto, unfolding(crate::specs::Events::reading_of), using(crate::proofs::Lines::is_text, crate::proofs::Lines::no_text))]
pub fn read_event(alloc: Global, line: &[u8]) -> Result<Event, ReadError>
    ensures { Gives result (spec.reading_of line.now) }
{
    match Value::from_slice(alloc, line) {
        Ok(value) => event_of(alloc, &value),
        Err(error) if error.is_memory() => Err(ReadError::Memory),
        Err(_) => Err(ReadError::Refused(ReadRefusal::BadJson)),
    }
}

/// What a line asks for is in its ranges and grammars, and each record has the fields that its kind requires.
#[tactic(auto, using(crate::proofs::ReadGrammar::reading_fits))]
pub fn read_is_in_grammar()
    ensures { (line : List ℕ) (event : Event) → spec.reading_of line ≡ Ok event → IsEventInGrammar event }
{}
