// The new values that operations set. The lines of a variant stand in the order of the table of fields.
ghost use Rattle.std.specs.Prelude.{◌≡◌};
ghost use Rattle.serde_json.specs.View.{view};
ghost use Rattle.nb_records.specs.declared.kinds.Kind.TheVariants as kind;
ghost use Rattle.edit_reader.specs.Outcomes.{Gives};
ghost use Rattle.edit_reader.specs.Records as spec;

use crate::addresses::{
    CidrText, IpText, MacText, PortAddressText, PrefixText, SecurityText, SetEntryText,
};
use crate::event::ReadError;
use crate::field::{Text, Texts};
use crate::object::given;
use crate::values::{Flag, Match, Networks, Priority, way_in};
use crate::vips::Vips;
use crate::words::{ActionText, NameText};
use nb_records::change::Change;
use serde_json::Value;
use std::alloc::Global;

/// What the object sets of a router port.
#[tactic(auto, unfolding(crate::specs::Records::change_of))]
pub fn router_port_change(alloc: Global, object: &Value) -> Result<Change, ReadError>
    ensures { Gives result (spec.change_of kind.RouterPort (view object.now)) }
{
    Ok(Change::RouterPort {
        mac: given(alloc, object, "mac", &Text(MacText))?,
        networks: given(alloc, object, "networks", &Networks)?,
        peer: given(alloc, object, "peer", &Text(NameText))?,
    })
}

/// What the object sets of a switch port.
#[tactic(auto, unfolding(crate::specs::Records::change_of))]
pub fn switch_port_change(alloc: Global, object: &Value) -> Result<Change, ReadError>
    ensures { Gives result (spec.change_of kind.SwitchPort (view object.now)) }
{
    Ok(Change::SwitchPort {
        addresses: given(alloc, object, "addresses", &Texts(PortAddressText))?,
        port_security: given(alloc, object, "port_security", &Texts(SecurityText))?,
        enabled: given(alloc, object, "enabled", &Flag)?,
    })
}

/// What the object sets of an address set.
#[tactic(auto, unfolding(crate::specs::Records::change_of))]
pub fn address_set_change(alloc: Global, object: &Value) -> Result<Change, ReadError>
    ensures { Gives result (spec.change_of kind.AddressSet (view object.now)) }
{
    Ok(Change::AddressSet {
        addresses: given(alloc, object, "addresses", &Texts(SetEntryText))?,
    })
}

/// What the object sets of a port group.
#[tactic(auto, unfolding(crate::specs::Records::change_of))]
pub fn port_group_change(alloc: Global, object: &Value) -> Result<Change, ReadError>
    ensures { Gives result (spec.change_of kind.PortGroup (view object.now)) }
{
    Ok(Change::PortGroup {
        ports: given(alloc, object, "ports", &Texts(NameText))?,
    })
}

/// What the object sets of a rule. Its match is read as one of a to-lport rule, since the object has no direction.
#[tactic(auto, unfolding(crate::specs::Records::change_of))]
pub fn acl_change(alloc: Global, object: &Value) -> Result<Change, ReadError>
    ensures { Gives result (spec.change_of kind.Acl (view object.now)) }
{
    Ok(Change::Acl {
        priority: given(alloc, object, "priority", &Priority)?,
        matching: given(alloc, object, "match", &Match(way_in(object)))?,
        action: given(alloc, object, "action", &Text(ActionText))?,
    })
}

/// What the object sets of a static route.
#[tactic(auto, unfolding(crate::specs::Records::change_of))]
pub fn route_change(alloc: Global, object: &Value) -> Result<Change, ReadError>
    ensures { Gives result (spec.change_of kind.Route (view object.now)) }
{
    Ok(Change::Route {
        prefix: given(alloc, object, "prefix", &Text(PrefixText))?,
        nexthop: given(alloc, object, "nexthop", &Text(IpText))?,
    })
}

/// What the object sets of a translation.
#[tactic(auto, unfolding(crate::specs::Records::change_of))]
pub fn nat_change(alloc: Global, object: &Value) -> Result<Change, ReadError>
    ensures { Gives result (spec.change_of kind.Nat (view object.now)) }
{
    Ok(Change::Nat {
        external_ip: given(alloc, object, "external_ip", &Text(IpText))?,
        logical_ip: given(alloc, object, "logical_ip", &Text(CidrText))?,
    })
}

/// What the object sets of a load balancer.
#[tactic(auto, unfolding(crate::specs::Records::change_of))]
pub fn load_balancer_change(alloc: Global, object: &Value) -> Result<Change, ReadError>
    ensures { Gives result (spec.change_of kind.LoadBalancer (view object.now)) }
{
    Ok(Change::LoadBalancer {
        vips: given(alloc, object, "vips", &Vips)?,
        switches: given(alloc, object, "switches", &Texts(NameText))?,
        routers: given(alloc, object, "routers", &Texts(NameText))?,
    })
}

/// What the object sets of a static binding.
#[tactic(auto, unfolding(crate::specs::Records::change_of))]
pub fn static_mac_change(alloc: Global, object: &Value) -> Result<Change, ReadError>
    ensures { Gives result (spec.change_of kind.StaticMac (view object.now)) }
{
    Ok(Change::StaticMac {
        ip: given(alloc, object, "ip", &Text(IpText))?,
        mac: given(alloc, object, "mac", &Text(MacText))?,
    })
}
