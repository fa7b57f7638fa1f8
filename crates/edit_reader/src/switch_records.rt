// The records of switches that operations add. The lines of a literal stand in the order of the table of fields, since the
// first fault is the answer.
ghost use Rattle.std.specs.Prelude.{◌≡◌, codes};
ghost use Rattle.serde_json.specs.View.{view};
ghost use Rattle.ovn_base.specs.names.NameText.{spelled_name};
ghost use Rattle.nb_records.specs.declared.kinds.Kind.TheVariants as kind;
ghost use Rattle.edit_reader.specs.Outcomes.{Gives};
ghost use Rattle.edit_reader.specs.Fields as fields;
ghost use Rattle.edit_reader.specs.Records as spec;
ghost use Rattle.edit_reader.specs.Tables as tables;

use crate::addresses::{PortAddressText, SecurityText, SetEntryText};
use crate::event::ReadError;
use crate::field::{Text, Texts};
use crate::object::{default_or, listed, needed, needed_where};
use crate::values::{Flag, Match, Priority, has, says, way_in};
use crate::words::{ActionText, DirectionText, NameText, PortKindText};
use match_language::expr::Expr;
use nb_records::record::Record;
use nb_records::rule::{Acl, AddressSet, PortGroup};
use nb_records::switch::{PortKind, Switch, SwitchPort};
use ovn_base::address::Birth;
use ovn_base::name::Name;
use serde_json::Value;
use std::alloc::Global;

/// The switch of the object.
#[tactic(auto, unfolding(crate::specs::Records::record_of))]
pub fn switch_of(alloc: Global, object: &Value) -> Result<Record, ReadError>
    ensures { Gives result (spec.record_of kind.Switch (view object.now)) }
{
    Ok(Record::Switch(Switch {
        name: needed(alloc, object, "name", &Text(NameText))?,
        birth: Birth(0),
    }))
}

// Whether the object is a port to a router.
fn is_router(object: &Value) -> bool
    ensures { result ≡ tables.is_router (view object.now) }
{
    says(object, "type", "router")
}

// The router port behind a port to a router, which has to name it.
fn router_port_in(alloc: Global, object: &Value) -> Result<Option<Name>, ReadError>
    ensures { Gives result (fields.needed_where (tables.is_router (view object.now)) (fields.text_by spelled_name) (codes "router_port") (view object.now)) }
{
    needed_where(
        alloc,
        is_router(object),
        object,
        "router_port",
        &Text(NameText),
    )
}

/// The switch port of the object.
#[tactic(auto, unfolding(crate::specs::Records::record_of))]
pub fn switch_port_of(alloc: Global, object: &Value) -> Result<Record, ReadError>
    ensures { Gives result (spec.record_of kind.SwitchPort (view object.now)) }
{
    Ok(Record::SwitchPort(SwitchPort {
        name: needed(alloc, object, "name", &Text(NameText))?,
        birth: Birth(0),
        switch: needed(alloc, object, "switch", &Text(NameText))?,
        kind: default_or(
            alloc,
            object,
            "type",
            &Text(PortKindText),
            PortKind::Virtual,
        )?,
        router_port: router_port_in(alloc, object)?,
        addresses: listed(alloc, object, "addresses", PortAddressText)?,
        port_security: listed(alloc, object, "port_security", SecurityText)?,
        enabled: default_or(alloc, object, "enabled", &Flag, true)?,
    }))
}

/// The address set of the object.
#[tactic(auto, unfolding(crate::specs::Records::record_of))]
pub fn address_set_of(alloc: Global, object: &Value) -> Result<Record, ReadError>
    ensures { Gives result (spec.record_of kind.AddressSet (view object.now)) }
{
    Ok(Record::AddressSet(AddressSet {
        name: needed(alloc, object, "name", &Text(NameText))?,
        birth: Birth(0),
        addresses: needed(alloc, object, "addresses", &Texts(SetEntryText))?,
    }))
}

/// The port group of the object.
#[tactic(auto, unfolding(crate::specs::Records::record_of))]
pub fn port_group_of(alloc: Global, object: &Value) -> Result<Record, ReadError>
    ensures { Gives result (spec.record_of kind.PortGroup (view object.now)) }
{
    Ok(Record::PortGroup(PortGroup {
        name: needed(alloc, object, "name", &Text(NameText))?,
        birth: Birth(0),
        ports: needed(alloc, object, "ports", &Texts(NameText))?,
    }))
}

// Whether the rule of the object is one of a switch: it names one, or names no port group.
fn is_of_switch(object: &Value) -> bool
    ensures { result ≡ tables.is_of_switch (view object.now) }
{
    has(object, "switch") || !has(object, "port_group")
}

// The switch of the rule, where it is one of a switch.
fn switch_in(alloc: Global, object: &Value) -> Result<Option<Name>, ReadError>
    ensures { Gives result (fields.needed_where (tables.is_of_switch (view object.now)) (fields.text_by spelled_name) (codes "switch") (view object.now)) }
{
    needed_where(
        alloc,
        is_of_switch(object),
        object,
        "switch",
        &Text(NameText),
    )
}

// The port group of the rule, where it names no switch.
fn group_in(alloc: Global, object: &Value) -> Result<Option<Name>, ReadError>
    ensures { Gives result (fields.needed_where (tables.is_of_group (view object.now)) (fields.text_by spelled_name) (codes "port_group") (view object.now)) }
{
    needed_where(
        alloc,
        !has(object, "switch"),
        object,
        "port_group",
        &Text(NameText),
    )
}

// The match of the rule, read for the rule's direction.
fn match_in(alloc: Global, object: &Value) -> Result<Expr, ReadError>
    ensures { Gives result (fields.needed (tables.match_in (tables.way_in (view object.now))) (codes "match") (view object.now)) }
{
    needed(alloc, object, "match", &Match(way_in(object)))
}

/// The rule of the object.
#[tactic(auto, unfolding(crate::specs::Records::record_of))]
pub fn acl_of(alloc: Global, object: &Value) -> Result<Record, ReadError>
    ensures { Gives result (spec.record_of kind.Acl (view object.now)) }
{
    Ok(Record::Acl(Acl {
        name: needed(alloc, object, "name", &Text(NameText))?,
        birth: Birth(0),
        switch: switch_in(alloc, object)?,
        port_group: group_in(alloc, object)?,
        direction: needed(alloc, object, "direction", &Text(DirectionText))?,
        priority: needed(alloc, object, "priority", &Priority)?,
        matching: match_in(alloc, object)?,
        action: needed(alloc, object, "action", &Text(ActionText))?,
    }))
}
