// The inner objects of events, each read by its table of fields.
ghost use Rattle.std.specs.Prelude.{◌≡◌, ℕ, List, map};
ghost use Rattle.serde_json.specs.View.{view};
ghost use Rattle.edit_reader.specs.Outcomes.{Gives};
ghost use Rattle.edit_reader.specs.Events as spec;

use crate::addresses::{BackendText, FrameText};
use crate::event::{Event, ReadError, ReadRefusal};
use crate::field::{Field, Text, of_kind};
use crate::object::{needed, only};
use crate::values::{DatapathKeys, Flag, FrameNumber, PortKeys, Seconds};
use crate::words::NameText;
use ovn_base::list::Bytes;
use ovn_base::name::Name;
use serde_json::Value;
use std::alloc::Global;

// The inner object of that name has fields of these names alone.
#[tactic(auto, unfolding(crate::specs::Events::object_in))]
fn object_in(alloc: Global, name: &str, names: &[&str], value: &Value) -> Result<(), ReadError>
    ensures { Gives result (spec.object_in name.now (map (λ n. n.now) names.now) (view value.now)) }
{
    of_kind(alloc, name, value.as_object())?;
    only(alloc, value, names)
}

/// A port is bound to a chassis.
#[tactic(auto, unfolding(crate::specs::Events::bind_of))]
pub fn bind_of(alloc: Global, value: &Value) -> Result<Event, ReadError>
    ensures { Gives result (spec.bind_of (view value.now)) }
{
    object_in(alloc, "bind", &["port", "chassis"], value)?;
    Ok(Event::Bind {
        port: needed(alloc, value, "port", &Text(NameText))?,
        chassis: needed(alloc, value, "chassis", &Text(NameText))?,
    })
}

/// A port is bound no more.
#[tactic(auto, unfolding(crate::specs::Events::unbind_of))]
pub fn unbind_of(alloc: Global, value: &Value) -> Result<Event, ReadError>
    ensures { Gives result (spec.unbind_of (view value.now)) }
{
    object_in(alloc, "unbind", &["port"], value)?;
    Ok(Event::Unbind {
        port: needed(alloc, value, "port", &Text(NameText))?,
    })
}

/// A chassis comes or goes.
#[tactic(auto, unfolding(crate::specs::Events::chassis_of))]
pub fn chassis_of(alloc: Global, value: &Value) -> Result<Event, ReadError>
    ensures { Gives result (spec.chassis_of (view value.now)) }
{
    of_kind(alloc, "chassis", value.as_object())?;
    match (value.get("add"), value.get("remove")) {
        (Some(name), None) => {
            only(alloc, value, &["add"])?;
            Ok(Event::AddChassis(Text(NameText).read(alloc, "add", name)?))
        }
        (None, Some(name)) => {
            only(alloc, value, &["remove"])?;
            Ok(Event::RemoveChassis(Text(NameText).read(alloc, "remove", name)?))
        }
        _ => Err(ReadError::Refused(ReadRefusal::UnknownEvent)),
    }
}

/// The ranges of keys.
#[tactic(auto, unfolding(crate::specs::Events::keys_of))]
pub fn keys_of(alloc: Global, value: &Value) -> Result<Event, ReadError>
    ensures { Gives result (spec.keys_of (view value.now)) }
{
    object_in(alloc, "keys", &["datapaths", "ports"], value)?;
    Ok(Event::Keys {
        datapaths: needed(alloc, value, "datapaths", &DatapathKeys)?,
        ports: needed(alloc, value, "ports", &PortKeys)?,
    })
}

/// A backend is marked.
#[tactic(auto, unfolding(crate::specs::Events::health_of))]
pub fn health_of(alloc: Global, value: &Value) -> Result<Event, ReadError>
    ensures { Gives result (spec.health_of (view value.now)) }
{
    object_in(alloc, "health", &["balancer", "backend", "online"], value)?;
    Ok(Event::Health {
        balancer: needed(alloc, value, "balancer", &Text(NameText))?,
        backend: needed(alloc, value, "backend", &Text(BackendText))?,
        online: needed(alloc, value, "online", &Flag)?,
    })
}

/// Time passes.
#[tactic(auto, unfolding(crate::specs::Events::clock_of))]
pub fn clock_of(alloc: Global, value: &Value) -> Result<Event, ReadError>
    ensures { Gives result (spec.clock_of (view value.now)) }
{
    object_in(alloc, "clock", &["seconds"], value)?;
    Ok(Event::Clock {
        seconds: needed(alloc, value, "seconds", &Seconds)?,
    })
}

// The port at which a frame enters, and the frame.
fn entry_in(alloc: Global, name: &str, value: &Value) -> Result<(Name, Bytes), ReadError>
    ensures { Gives result (spec.entry_in name.now (view value.now)) }
{
    object_in(alloc, name, &["port", "frame"], value)?;
    Ok((
        needed(alloc, value, "port", &Text(NameText))?,
        needed(alloc, value, "frame", &Text(FrameText))?,
    ))
}

/// A frame enters.
#[tactic(auto, unfolding(crate::specs::Events::inject_of))]
pub fn inject_of(alloc: Global, value: &Value) -> Result<Event, ReadError>
    ensures { Gives result (spec.inject_of (view value.now)) }
{
    let (port, frame) = entry_in(alloc, "inject", value)?;
    Ok(Event::Inject { port, frame })
}

/// A frame enters and is carried to its ends.
#[tactic(auto, unfolding(crate::specs::Events::packet_of))]
pub fn packet_of(alloc: Global, value: &Value) -> Result<Event, ReadError>
    ensures { Gives result (spec.packet_of (view value.now)) }
{
    let (port, frame) = entry_in(alloc, "packet", value)?;
    Ok(Event::Packet { port, frame })
}

/// The number of the frame of which the event is.
#[tactic(auto, unfolding(crate::specs::Events::frame_in))]
pub fn frame_in(alloc: Global, name: &str, value: &Value) -> Result<u64, ReadError>
    ensures { Gives result (spec.frame_in name.now (view value.now)) }
{
    object_in(alloc, name, &["frame"], value)?;
    needed(alloc, value, "frame", &FrameNumber)
}

/// All waiting frames arrive.
#[tactic(auto, unfolding(crate::specs::Events::drain_of))]
pub fn drain_of(alloc: Global, value: &Value) -> Result<Event, ReadError>
    ensures { Gives result (spec.drain_of (view value.now)) }
{
    object_in(alloc, "drain", &[], value)?;
    Ok(Event::Drain)
}
