//! To which switches a rule applies.
ghost use Rattle.std.specs.Prelude.{◌≡◌};
ghost use Rattle.std.specs.Option.{option_copied, option_and_then};
ghost use Rattle.ovn_base.specs.names.ByName.{at};
ghost use Rattle.nb_records.specs.Switches as spec;

use crate::records::Records;
use crate::references::{is_given, is_named};
use crate::rule::{Acl, PortGroup};
use ovn_base::name::Name;

// The group has a port of the switch.
fn has_port_of(records: &Records, switch: &Name, group: &PortGroup) -> bool
    ensures { result ≡ spec.has_port_of records.now switch.now group.now }
{
    'ports: for (_name, port) in records.switch_ports() {
        if port.switch == *switch {
            if is_named(group.ports.as_slice(), &port.name) {
                return true;
            }
        }
    }
    false
}

// The port group of the rule, where it is there.
fn group_of<'a>(records: &'a Records, rule: &Acl) -> Option<&'a PortGroup>
    ensures { option_copied result ≡ option_and_then (at records.now.port_groups) rule.now.port_group }
{
    match &rule.port_group {
        Some(group) => records.port_group(group),
        None => None,
    }
}

/// Whether the rule applies to the switch: it is one of the switch, or of a port group that has a port of it.
pub fn applies(records: &Records, switch: &Name, rule: &Acl) -> bool
    ensures { result ≡ spec.applies records.now switch.now rule.now }
{
    if is_given(switch, &rule.switch) {
        return true;
    }
    match group_of(records, rule) {
        Some(group) => has_port_of(records, switch, group),
        None => false,
    }
}
