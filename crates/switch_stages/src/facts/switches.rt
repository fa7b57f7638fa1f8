//! Whether a switch tracks connections, and whether a port of it takes packets for unknown addresses.
ghost use Rattle.std.specs.Prelude.{◌≡◌, ◌&&◌};
ghost use Rattle.std.specs.List.{list_any};
ghost use Rattle.nb_records.specs.Switches as spec;
ghost use Rattle.stage_rows.specs.SwitchRows as rows;
ghost use Rattle.switch_stages.specs.SwitchTests as tests;

use nb_records::addresses::takes_unknown;
use nb_records::records::Records;
use nb_records::rule::{Acl, RuleAction};
use nb_records::scopes::applies;
use nb_records::switch::SwitchPort;
use ovn_base::name::Name;
use stage_rows::balancers::has_balancer;

fn is_related(action: RuleAction) -> bool
    ensures { result ≡ spec.is_related action }
{
    match action {
        RuleAction::AllowRelated => true,
        RuleAction::Allow | RuleAction::AllowStateless | RuleAction::Drop | RuleAction::Reject =>
            false,
    }
}

// The rule makes the switch stateful.
fn makes_stateful(records: &Records, switch: &Name, rule: &Acl) -> bool
    ensures { result ≡ tests.makes_stateful records.now switch.now rule.now }
{
    is_related(rule.action) && applies(records, switch, rule)
}

// Some rule makes the switch stateful.
fn some_make_stateful(records: &Records, switch: &Name) -> bool
    ensures { result ≡ list_any (λ e. tests.makes_stateful records.now switch.now e.1) records.now.acls }
{
    'rules: for (_name, rule) in records.acls() {
        if makes_stateful(records, switch, rule) {
            return true;
        }
    }
    false
}

/// Whether an allow-related rule applies to the switch.
#[tactic(auto, using(crate::proofs::SwitchTests::stateful_is))]
pub fn is_stateful(records: &Records, switch: &Name) -> bool
    ensures { result ≡ spec.is_stateful records.now switch.now }
{
    some_make_stateful(records, switch)
}

// ---- ports

/// Whether the switch is stateful or has a balancer, and a virtual machine or a container is behind the port.
pub(crate) fn tracks_port(records: &Records, port: &SwitchPort) -> bool
    ensures { result ≡ rows.tracks_port records.now port.now }
{
    port.kind.is_virtual()
        && (is_stateful(records, &port.switch) || has_balancer(records, &port.switch))
}

// The port is an enabled one of the switch, with the address `unknown`.
fn takes_unknown_there(switch: &Name, port: &SwitchPort) -> bool
    ensures { result ≡ tests.takes_unknown_there switch.now port.now }
{
    port.switch == *switch && (port.enabled && takes_unknown(port.addresses.as_slice()))
}

// Some port is such a one.
fn some_take_there(records: &Records, switch: &Name) -> bool
    ensures { result ≡ list_any (λ e. tests.takes_unknown_there switch.now e.1) records.now.switch_ports }
{
    'ports: for (_name, port) in records.switch_ports() {
        if takes_unknown_there(switch, port) {
            return true;
        }
    }
    false
}

/// Whether an enabled port of the switch has the address `unknown`.
#[tactic(auto, using(crate::proofs::SwitchTests::takes_is))]
pub(crate) fn some_take_unknown(records: &Records, switch: &Name) -> bool
    ensures { result ≡ rows.some_take_unknown records.now switch.now }
{
    some_take_there(records, switch)
}
