// The operations of an edit.
ghost use Rattle.std.specs.Prelude.{◌≡◌, List};
ghost use Rattle.std.specs.Option.{option_map};
ghost use Rattle.serde_json.specs.View.{view, items_view};
ghost use Rattle.edit_reader.specs.Outcomes.{Gives};
ghost use Rattle.edit_reader.specs.Operations as spec;
ghost use Rattle.edit_reader.specs.Records as records;

use crate::changes::{
    acl_change, address_set_change, load_balancer_change, nat_change, port_group_change,
    route_change, router_port_change, static_mac_change, switch_port_change,
};
use crate::event::{ReadError, ReadRefusal};
use crate::field::{Text, bytes_of, of_kind};
use crate::field_names::{only_added, only_removed, only_set};
use crate::object::needed;
use crate::router_records::{
    load_balancer_of, nat_of, route_of, router_of, router_port_of, static_mac_of,
};
use crate::switch_records::{acl_of, address_set_of, port_group_of, switch_of, switch_port_of};
use crate::words::{NameText, kind_of};
use nb_records::change::{Change, Op};
use nb_records::kinds::Kind;
use nb_records::record::Record;
use ovn_base::limits::MAX_OPERATIONS;
use ovn_base::list::List;
use serde_json::Value;
use std::alloc::Global;

/// What an operation does.
#[derive(Clone, Copy)]
pub enum Verb {
    Add,
    Set,
    Remove,
}

// Exactly one of add, set and remove, and its value.
#[tactic(auto, unfolding(crate::specs::Operations::verb_of))]
fn verb_of(object: &Value) -> Option<(Verb, &Value)>
    ensures { option_map (λ v. (v.0, view v.1.now)) result ≡ spec.verb_of (view object.now) }
{
    match (object.get("add"), object.get("set"), object.get("remove")) {
        (Some(value), None, None) => Some((Verb::Add, value)),
        (None, Some(value), None) => Some((Verb::Set, value)),
        (None, None, Some(value)) => Some((Verb::Remove, value)),
        _ => None,
    }
}

// The verb, and the kind that it names.
#[tactic(auto, unfolding(crate::specs::Operations::head_of))]
fn head_of(object: &Value) -> Option<(Verb, Kind)>
    ensures { result ≡ spec.head_of (view object.now) }
{
    let (verb, value) = verb_of(object)?;
    let kind = kind_of(value.as_str()?.as_bytes())?;
    Some((verb, kind))
}

// The record that an object of the kind adds.
fn record_of(alloc: Global, kind: Kind, object: &Value) -> Result<Record, ReadError>
    ensures { Gives result (records.record_of kind (view object.now)) }
{
    match kind {
        Kind::Switch => switch_of(alloc, object),
        Kind::Router => router_of(alloc, object),
        Kind::RouterPort => router_port_of(alloc, object),
        Kind::SwitchPort => switch_port_of(alloc, object),
        Kind::AddressSet => address_set_of(alloc, object),
        Kind::PortGroup => port_group_of(alloc, object),
        Kind::Acl => acl_of(alloc, object),
        Kind::Route => route_of(alloc, object),
        Kind::Nat => nat_of(alloc, object),
        Kind::LoadBalancer => load_balancer_of(alloc, object),
        Kind::StaticMac => static_mac_of(alloc, object),
    }
}

// The new values that an object of the kind gives.
fn change_of(alloc: Global, kind: Kind, object: &Value) -> Result<Change, ReadError>
    ensures { Gives result (records.change_of kind (view object.now)) }
{
    match kind {
        Kind::Switch => Ok(Change::Switch),
        Kind::Router => Ok(Change::Router),
        Kind::RouterPort => router_port_change(alloc, object),
        Kind::SwitchPort => switch_port_change(alloc, object),
        Kind::AddressSet => address_set_change(alloc, object),
        Kind::PortGroup => port_group_change(alloc, object),
        Kind::Acl => acl_change(alloc, object),
        Kind::Route => route_change(alloc, object),
        Kind::Nat => nat_change(alloc, object),
        Kind::LoadBalancer => load_balancer_change(alloc, object),
        Kind::StaticMac => static_mac_change(alloc, object),
    }
}

#[tactic(auto, unfolding(crate::specs::Operations::added_of))]
fn added_of(alloc: Global, kind: Kind, object: &Value) -> Result<Op, ReadError>
    ensures { Gives result (spec.added_of kind (view object.now)) }
{
    only_added(alloc, kind, object)?;
    Ok(Op::Add(record_of(alloc, kind, object)?))
}

#[tactic(auto, unfolding(crate::specs::Operations::set_of))]
fn set_of(alloc: Global, kind: Kind, object: &Value) -> Result<Op, ReadError>
    ensures { Gives result (spec.set_of kind (view object.now)) }
{
    only_set(alloc, kind, object)?;
    let name = needed(alloc, object, "name", &Text(NameText))?;
    let change = change_of(alloc, kind, object)?;
    Ok(Op::Set { kind, name, change })
}

#[tactic(auto, unfolding(crate::specs::Operations::removed_of))]
fn removed_of(alloc: Global, kind: Kind, object: &Value) -> Result<Op, ReadError>
    ensures { Gives result (spec.removed_of kind (view object.now)) }
{
    only_removed(alloc, object)?;
    let name = needed(alloc, object, "name", &Text(NameText))?;
    Ok(Op::Remove { kind, name })
}

// An operation of an edit.
#[tactic(auto, unfolding(crate::specs::Operations::op_of))]
fn op_of(alloc: Global, value: &Value) -> Result<Op, ReadError>
    ensures { Gives result (spec.op_of (view value.now)) }
{
    if !value.is_object() {
        return Err(ReadError::Refused(ReadRefusal::NotObject));
    }
    match head_of(value) {
        Some((Verb::Add, kind)) => added_of(alloc, kind, value),
        Some((Verb::Set, kind)) => set_of(alloc, kind, value),
        Some((Verb::Remove, kind)) => removed_of(alloc, kind, value),
        None => Err(ReadError::Refused(ReadRefusal::UnknownEvent)),
    }
}

fn ops_of(alloc: Global, items: &[Value]) -> Result<List<Op>, ReadError>
    ensures { Gives result (spec.ops_of (items_view items.now)) }
{
    let mut ops = List::new(alloc);
    'items: for item in items {
        ops.push(op_of(alloc, item)?)?;
    }
    Ok(ops)
}

/// The 1 to 64 operations of an edit.
#[tactic(auto, unfolding(crate::specs::Operations::edit_of), using(crate::proofs::Counts::counted))]
pub fn edit_of(alloc: Global, value: &Value) -> Result<List<Op>, ReadError>
    ensures { Gives result (spec.edit_of (view value.now)) }
{
    let items = of_kind(alloc, "edit", value.as_array())?;
    if items.is_empty() || items.len() > MAX_OPERATIONS {
        return Err(ReadError::Refused(ReadRefusal::OutOfRange(bytes_of(alloc, "edit")?)));
    }
    ops_of(alloc, items.as_slice())
}
