// The records of routers and balancers that operations add. The lines of a literal stand in the order of the table of
// fields, since the first fault is the answer.
ghost use Rattle.std.specs.Prelude.{◌≡◌};
ghost use Rattle.serde_json.specs.View.{view};
ghost use Rattle.nb_records.specs.declared.kinds.Kind.TheVariants as kind;
ghost use Rattle.edit_reader.specs.Outcomes.{Gives};
ghost use Rattle.edit_reader.specs.Records as spec;

use crate::addresses::{CidrText, IpText, MacText, PrefixText};
use crate::event::ReadError;
use crate::field::Text;
use crate::object::{default_or, given, listed, needed};
use crate::values::Networks;
use crate::vips::Vips;
use crate::words::{NameText, NatKindText, ProtocolText};
use nb_records::balancer::{BalancerProtocol, LoadBalancer};
use nb_records::record::Record;
use nb_records::router::{Nat, Route, Router, RouterPort, StaticMac};
use ovn_base::address::Birth;
use serde_json::Value;
use std::alloc::Global;

/// The router of the object.
#[tactic(auto, unfolding(crate::specs::Records::record_of))]
pub fn router_of(alloc: Global, object: &Value) -> Result<Record, ReadError>
    ensures { Gives result (spec.record_of kind.Router (view object.now)) }
{
    Ok(Record::Router(Router {
        name: needed(alloc, object, "name", &Text(NameText))?,
        birth: Birth(0),
        chassis: given(alloc, object, "chassis", &Text(NameText))?,
    }))
}

/// The router port of the object.
#[tactic(auto, unfolding(crate::specs::Records::record_of))]
pub fn router_port_of(alloc: Global, object: &Value) -> Result<Record, ReadError>
    ensures { Gives result (spec.record_of kind.RouterPort (view object.now)) }
{
    Ok(Record::RouterPort(RouterPort {
        name: needed(alloc, object, "name", &Text(NameText))?,
        birth: Birth(0),
        router: needed(alloc, object, "router", &Text(NameText))?,
        mac: needed(alloc, object, "mac", &Text(MacText))?,
        networks: needed(alloc, object, "networks", &Networks)?,
        peer: given(alloc, object, "peer", &Text(NameText))?,
    }))
}

/// The static route of the object.
#[tactic(auto, unfolding(crate::specs::Records::record_of))]
pub fn route_of(alloc: Global, object: &Value) -> Result<Record, ReadError>
    ensures { Gives result (spec.record_of kind.Route (view object.now)) }
{
    Ok(Record::Route(Route {
        name: needed(alloc, object, "name", &Text(NameText))?,
        birth: Birth(0),
        router: needed(alloc, object, "router", &Text(NameText))?,
        prefix: needed(alloc, object, "prefix", &Text(PrefixText))?,
        nexthop: needed(alloc, object, "nexthop", &Text(IpText))?,
    }))
}

/// The translation of the object.
#[tactic(auto, unfolding(crate::specs::Records::record_of))]
pub fn nat_of(alloc: Global, object: &Value) -> Result<Record, ReadError>
    ensures { Gives result (spec.record_of kind.Nat (view object.now)) }
{
    Ok(Record::Nat(Nat {
        name: needed(alloc, object, "name", &Text(NameText))?,
        birth: Birth(0),
        router: needed(alloc, object, "router", &Text(NameText))?,
        kind: needed(alloc, object, "type", &Text(NatKindText))?,
        external_ip: needed(alloc, object, "external_ip", &Text(IpText))?,
        logical_ip: needed(alloc, object, "logical_ip", &Text(CidrText))?,
    }))
}

/// The load balancer of the object.
#[tactic(auto, unfolding(crate::specs::Records::record_of))]
pub fn load_balancer_of(alloc: Global, object: &Value) -> Result<Record, ReadError>
    ensures { Gives result (spec.record_of kind.LoadBalancer (view object.now)) }
{
    Ok(Record::LoadBalancer(LoadBalancer {
        name: needed(alloc, object, "name", &Text(NameText))?,
        birth: Birth(0),
        protocol: default_or(
            alloc,
            object,
            "protocol",
            &Text(ProtocolText),
            BalancerProtocol::Tcp,
        )?,
        vips: needed(alloc, object, "vips", &Vips)?,
        switches: listed(alloc, object, "switches", NameText)?,
        routers: listed(alloc, object, "routers", NameText)?,
    }))
}

/// The static binding of the object.
#[tactic(auto, unfolding(crate::specs::Records::record_of))]
pub fn static_mac_of(alloc: Global, object: &Value) -> Result<Record, ReadError>
    ensures { Gives result (spec.record_of kind.StaticMac (view object.now)) }
{
    Ok(Record::StaticMac(StaticMac {
        name: needed(alloc, object, "name", &Text(NameText))?,
        birth: Birth(0),
        port: needed(alloc, object, "port", &Text(NameText))?,
        ip: needed(alloc, object, "ip", &Text(IpText))?,
        mac: needed(alloc, object, "mac", &Text(MacText))?,
    }))
}
