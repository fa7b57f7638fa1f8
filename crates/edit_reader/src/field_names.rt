// The names that the object of an operation may have.
ghost use Rattle.std.specs.Prelude.{◌≡◌};
ghost use Rattle.serde_json.specs.View.{view};
ghost use Rattle.nb_records.specs.declared.kinds.Kind.TheVariants as kind;
ghost use Rattle.edit_reader.specs.Outcomes.{Gives};
ghost use Rattle.edit_reader.specs.Operations as spec;

use crate::event::ReadError;
use crate::object::only;
use crate::values::{has, says};
use nb_records::kinds::Kind;
use serde_json::Value;
use std::alloc::Global;

#[tactic(auto, unfolding(crate::specs::Operations::only_added))]
fn only_port(alloc: Global, object: &Value) -> Result<(), ReadError>
    ensures { Gives result (spec.only_added kind.SwitchPort (view object.now)) }
{
    if says(object, "type", "router") {
        return only(
            alloc,
            object,
            &[
                "add",
                "name",
                "switch",
                "type",
                "router_port",
                "addresses",
                "port_security",
                "enabled",
            ],
        );
    }
    only(
        alloc,
        object,
        &[
            "add",
            "name",
            "switch",
            "type",
            "addresses",
            "port_security",
            "enabled",
        ],
    )
}

#[tactic(auto, unfolding(crate::specs::Operations::only_added))]
fn only_acl(alloc: Global, object: &Value) -> Result<(), ReadError>
    ensures { Gives result (spec.only_added kind.Acl (view object.now)) }
{
    if has(object, "switch") {
        return only(
            alloc,
            object,
            &[
                "add",
                "name",
                "switch",
                "direction",
                "priority",
                "match",
                "action",
            ],
        );
    }
    if has(object, "port_group") {
        return only(
            alloc,
            object,
            &[
                "add",
                "name",
                "port_group",
                "direction",
                "priority",
                "match",
                "action",
            ],
        );
    }
    only(
        alloc,
        object,
        &[
            "add",
            "name",
            "switch",
            "port_group",
            "direction",
            "priority",
            "match",
            "action",
        ],
    )
}

/// The object has fields alone that `add` may give.
#[tactic(auto, unfolding(crate::specs::Operations::only_added))]
pub fn only_added(alloc: Global, kind: Kind, object: &Value) -> Result<(), ReadError>
    ensures { Gives result (spec.only_added kind (view object.now)) }
{
    match kind {
        Kind::Switch => only(alloc, object, &["add", "name"]),
        Kind::Router => only(alloc, object, &["add", "name", "chassis"]),
        Kind::RouterPort => only(
            alloc,
            object,
            &["add", "name", "router", "mac", "networks", "peer"],
        ),
        Kind::SwitchPort => only_port(alloc, object),
        Kind::AddressSet => only(alloc, object, &["add", "name", "addresses"]),
        Kind::PortGroup => only(alloc, object, &["add", "name", "ports"]),
        Kind::Acl => only_acl(alloc, object),
        Kind::Route => only(
            alloc,
            object,
            &["add", "name", "router", "prefix", "nexthop"],
        ),
        Kind::Nat => only(
            alloc,
            object,
            &["add", "name", "router", "type", "external_ip", "logical_ip"],
        ),
        Kind::LoadBalancer => only(
            alloc,
            object,
            &["add", "name", "protocol", "vips", "switches", "routers"],
        ),
        Kind::StaticMac => only(alloc, object, &["add", "name", "port", "ip", "mac"]),
    }
}

/// The object has fields alone that `set` may give.
#[tactic(auto, unfolding(crate::specs::Operations::only_set))]
pub fn only_set(alloc: Global, kind: Kind, object: &Value) -> Result<(), ReadError>
    ensures { Gives result (spec.only_set kind (view object.now)) }
{
    match kind {
        Kind::Switch | Kind::Router => only(alloc, object, &["set", "name"]),
        Kind::RouterPort => only(alloc, object, &["set", "name", "mac", "networks", "peer"]),
        Kind::SwitchPort => only(
            alloc,
            object,
            &["set", "name", "addresses", "port_security", "enabled"],
        ),
        Kind::AddressSet => only(alloc, object, &["set", "name", "addresses"]),
        Kind::PortGroup => only(alloc, object, &["set", "name", "ports"]),
        Kind::Acl => only(
            alloc,
            object,
            &["set", "name", "priority", "match", "action"],
        ),
        Kind::Route => only(alloc, object, &["set", "name", "prefix", "nexthop"]),
        Kind::Nat => only(alloc, object, &["set", "name", "external_ip", "logical_ip"]),
        Kind::LoadBalancer => only(
            alloc,
            object,
            &["set", "name", "vips", "switches", "routers"],
        ),
        Kind::StaticMac => only(alloc, object, &["set", "name", "ip", "mac"]),
    }
}

/// The object has fields alone that `remove` may give.
#[tactic(auto, unfolding(crate::specs::Operations::only_removed))]
pub fn only_removed(alloc: Global, object: &Value) -> Result<(), ReadError>
    ensures { Gives result (spec.only_removed (view object.now)) }
{
    only(alloc, object, &["remove", "name"])
}
