// The forms of events: what the only member of a line's object is called.
ghost use Rattle.std.specs.Prelude.{◌≡◌};
ghost use Rattle.std.specs.Option.{option_map};
ghost use Rattle.serde_json.specs.View.{view};
ghost use Rattle.edit_reader.specs.Events as spec;

use serde_json::Value;

/// The forms of events.
#[derive(Clone, Copy)]
pub enum Form {
    Edit,
    Bind,
    Unbind,
    Chassis,
    Keys,
    Health,
    Clock,
    Inject,
    Deliver,
    Lose,
    Repeat,
    Drain,
    Packet,
}

#[tactic(auto, unfolding(crate::specs::Events::spelled_form))]
fn form_of(text: &[u8]) -> Option<Form>
    ensures { result ≡ spec.spelled_form text.now }
{
    if b"edit".as_slice() == text {
        Some(Form::Edit)
    } else if b"bind".as_slice() == text {
        Some(Form::Bind)
    } else if b"unbind".as_slice() == text {
        Some(Form::Unbind)
    } else if b"chassis".as_slice() == text {
        Some(Form::Chassis)
    } else if b"keys".as_slice() == text {
        Some(Form::Keys)
    } else if b"health".as_slice() == text {
        Some(Form::Health)
    } else if b"clock".as_slice() == text {
        Some(Form::Clock)
    } else if b"inject".as_slice() == text {
        Some(Form::Inject)
    } else if b"deliver".as_slice() == text {
        Some(Form::Deliver)
    } else if b"lose".as_slice() == text {
        Some(Form::Lose)
    } else if b"repeat".as_slice() == text {
        Some(Form::Repeat)
    } else if b"drain".as_slice() == text {
        Some(Form::Drain)
    } else if b"packet".as_slice() == text {
        Some(Form::Packet)
    } else {
        None
    }
}

// The name and the value of the only member.
fn only_member(value: &Value) -> Option<(&str, &Value)>
    ensures { option_map (λ m. (m.0.now, view m.1.now)) result ≡ spec.only_member (view value.now) }
{
    let Value::Object(members) = value else {
        return None;
    };
    let mut members = members.iter();
    let (name, inner) = members.next()?;
    match members.next() {
        None => Some((name.as_str(), inner)),
        Some(_) => None,
    }
}

/// The form that the only member names, and its value.
#[tactic(auto, unfolding(crate::specs::Events::form_in))]
pub fn form_in(value: &Value) -> Option<(Form, &Value)>
    ensures { option_map (λ f. (f.0, view f.1.now)) result ≡ spec.form_in (view value.now) }
{
    let (name, inner) = only_member(value)?;
    Some((form_of(name.as_bytes())?, inner))
}
