//! The units that an edit may leave lowered to other flows.
ghost use Rattle.std.specs.Prelude.{◌≡◌, ◌↔◌, ◌++◌, IfOk, OnOk, filter, flat_map, is_some, map};
ghost use Rattle.std.specs.Map.{keys_of};
ghost use Rattle.nb_records.specs.Switches.{has_some};
ghost use Rattle.logical_flows.specs.declared.unit.UnitId.{UnitId};
ghost use Rattle.logical_flows.specs.declared.unit.UnitId.TheVariants.{Port, Rule};
ghost use Rattle.ovn_base.specs.declared.name.Name.{Name};
ghost use Rattle.ovn_base.specs.lists.Among.{Among};
ghost use Rattle.northd_core.specs.Listing.{HaveJoined};
ghost use Rattle.northd_core.specs.Routed.{routed_units};
ghost use Rattle.northd_core.specs.Touched.{beside_routers, is_on_either, ports_at, ports_to_routers, routed_rows, rule_touched, rules_at, switches_balanced, switches_in, switches_of_rule, touched_rows, turned_at, turns};

use crate::routed::put_routed;
use crate::rows::is_on;
use logical_flows::unit::UnitId;
use nb_records::records::Records;
use ovn_base::list::List;
use ovn_base::memory::NoMemory;
use ovn_base::name::{Name, exact_name};
use stage_rows::balancers::has_balancer;
use std::alloc::Global;
use std::collections::BTreeSet;
use switch_stages::facts::switches::is_stateful;

// ---- the rules that are named

// The rule applies to the switch before or after.
fn is_on_either(before: &Records, after: &Records, rule: &Name, switch: &Name) -> bool
    ensures { result ≡ is_on_either before.now after.now rule.now switch.now }
{
    is_on(before, rule, switch) || is_on(after, rule, switch)
}

// The switches to which the rule applies before or after.
fn switches_of_rule(
    alloc: Global,
    before: &Records,
    after: &Records,
    rule: &Name,
) -> Result<List<Name>, NoMemory>
    ensures { IfOk result (λ names. names ≡ switches_of_rule before.now after.now rule.now) }
{
    let mut names = List::new(alloc);
    'switches: for (switch, _) in after.switches() {
        if is_on_either(before, after, rule, switch) {
            names.push(*switch)?;
        }
    }
    Ok(names)
}

// Adds the rule on each of the switches.
fn push_on_each(rule: &Name, switches: &[Name], units: &mut List<UnitId>) -> Result<(), NoMemory>
    ensures { OnOk result (units.new ≡ units.old ++ map (Rule rule.now) switches.now) }
{
    'switches: for switch in switches {
        units.push(UnitId::Rule {
            rule: *rule,
            switch: *switch,
        })?;
    }
    Ok(())
}

// Adds the rules, each on the switches to which it applies before or after, and these switches.
fn push_named_rules(
    alloc: Global,
    before: &Records,
    after: &Records,
    rules: &[Name],
    units: &mut List<UnitId>,
    switches: &mut List<Name>,
) -> Result<(), NoMemory>
    ensures units { OnOk result (units.new ≡ units.old ++ flat_map (rule_touched before.now after.now) rules.now) }
    ensures switches { OnOk result (switches.new ≡ switches.old ++ flat_map (switches_of_rule before.now after.now) rules.now) }
{
    'rules: for rule in rules {
        let names = switches_of_rule(alloc, before, after, rule)?;
        push_on_each(rule, names.as_slice(), units)?;
        switches.append(names)?;
    }
    Ok(())
}

// ---- the switches that are named

// The switches among the units.
fn switches_in(alloc: Global, units: &[UnitId]) -> Result<List<Name>, NoMemory>
    ensures { IfOk result (λ names. names ≡ switches_in units.now) }
{
    let mut names = List::new(alloc);
    'units: for unit in units {
        if let UnitId::Switch(switch) = unit {
            names.push(*switch)?;
        }
    }
    Ok(names)
}

// Adds the rules that apply to the switch before or after, on it.
fn push_rules(
    before: &Records,
    after: &Records,
    switch: &Name,
    units: &mut List<UnitId>,
) -> Result<(), NoMemory>
    ensures { OnOk result (units.new ≡ units.old ++ rules_at before.now after.now switch.now) }
{
    'rules: for (rule, _) in before.acls() {
        if is_on_either(before, after, rule, switch) {
            units.push(UnitId::Rule {
                rule: *rule,
                switch: *switch,
            })?;
        }
    }
    Ok(())
}

// Adds the rules that apply to each of the switches before or after.
fn push_rules_at(
    before: &Records,
    after: &Records,
    switches: &[Name],
    units: &mut List<UnitId>,
) -> Result<(), NoMemory>
    ensures { OnOk result (units.new ≡ units.old ++ flat_map (rules_at before.now after.now) switches.now) }
{
    'switches: for switch in switches {
        push_rules(before, after, switch, units)?;
    }
    Ok(())
}

// ---- the switches that begin or cease to track connections

// Adds the ports of the switch.
fn push_ports(records: &Records, switch: &Name, units: &mut List<UnitId>) -> Result<(), NoMemory>
    ensures { OnOk result (units.new ≡ units.old ++ ports_at records.now switch.now) }
{
    'ports: for (name, port) in records.switch_ports() {
        if port.switch == *switch {
            units.push(UnitId::Port(*name))?;
        }
    }
    Ok(())
}

// The switch begins or ceases to be stateful, or to be served by a balancer.
fn turns(before: &Records, after: &Records, switch: &Name) -> bool
    ensures { result ≡ turns before.now after.now switch.now }
{
    is_stateful(before, switch) != is_stateful(after, switch)
        || has_balancer(before, switch) != has_balancer(after, switch)
}

// Adds the switch with its ports, if it begins or ceases to track connections.
fn push_turned(
    before: &Records,
    after: &Records,
    switch: &Name,
    units: &mut List<UnitId>,
) -> Result<(), NoMemory>
    ensures { OnOk result (units.new ≡ units.old ++ turned_at before.now after.now switch.now) }
{
    if turns(before, after, switch) {
        units.push(UnitId::Switch(*switch))?;
        push_ports(after, switch, units)?;
    }
    Ok(())
}

// Adds those of the switches that begin or cease to track connections, with their ports.
fn push_all_turned(
    before: &Records,
    after: &Records,
    switches: &[Name],
    units: &mut List<UnitId>,
) -> Result<(), NoMemory>
    ensures { OnOk result (units.new ≡ units.old ++ flat_map (turned_at before.now after.now) switches.now) }
{
    'switches: for switch in switches {
        push_turned(before, after, switch, units)?;
    }
    Ok(())
}

// Whether there is a balancer.
fn has_balancers(records: &Records) -> bool
    ensures { result ≡ has_some records.now.load_balancers }
{
    'balancers: for (_name, _balancer) in records.load_balancers() {
        return true;
    }
    false
}

// Adds all switches.
fn push_switches(records: &Records, switches: &mut List<Name>) -> Result<(), NoMemory>
    ensures { OnOk result (switches.new ≡ switches.old ++ keys_of records.now.switches) }
{
    'switches: for (switch, _) in records.switches() {
        switches.push(*switch)?;
    }
    Ok(())
}

// Adds all switches, if a balancer is there before or after.
fn push_balanced(
    before: &Records,
    after: &Records,
    switches: &mut List<Name>,
) -> Result<(), NoMemory>
    ensures { OnOk result (switches.new ≡ switches.old ++ switches_balanced before.now after.now) }
{
    if has_balancers(before) || has_balancers(after) {
        push_switches(after, switches)?;
    }
    Ok(())
}

// ---- what follows from routers

// Adds the units of the set.
fn push_all(set: &BTreeSet<UnitId>, units: &mut List<UnitId>) -> Result<(), NoMemory>
    ensures { OnOk result (units.new ≡ units.old ++ set.now.keys) }
{
    'units: for unit in set {
        units.push(*unit)?;
    }
    Ok(())
}

// Adds what routers and balancers have before and after.
fn push_routed(
    alloc: Global,
    before: &Records,
    after: &Records,
    units: &mut List<UnitId>,
) -> Result<(), NoMemory>
    ensures { OnOk result (HaveJoined (routed_units before.now ++ routed_units after.now) units.old units.new) }
{
    let mut set = BTreeSet::new(alloc);
    put_routed(alloc, before, &mut set)?;
    put_routed(alloc, after, &mut set)?;
    push_all(&set, units)?;
    Ok(())
}

/// Whether a router has a port.
pub fn has_router_ports(records: &Records) -> bool
    ensures { result ≡ has_some records.now.router_ports }
{
    'ports: for (_name, _port) in records.router_ports() {
        return true;
    }
    false
}

// Adds the ports of switches to routers.
fn push_ports_to_routers(records: &Records, units: &mut List<UnitId>) -> Result<(), NoMemory>
    ensures { OnOk result (units.new ≡ units.old ++ map (λ e. Port e.0) (filter (λ e. is_some e.1.router_port) records.now.switch_ports)) }
{
    'ports: for (name, port) in records.switch_ports() {
        if port.router_port.is_some() {
            units.push(UnitId::Port(*name))?;
        }
    }
    Ok(())
}

// Adds them, if a router has a port before or after.
fn push_to_routers(
    before: &Records,
    after: &Records,
    units: &mut List<UnitId>,
) -> Result<(), NoMemory>
    ensures { OnOk result (units.new ≡ units.old ++ ports_to_routers before.now after.now) }
{
    if has_router_ports(before) || has_router_ports(after) {
        push_ports_to_routers(after, units)?;
    }
    Ok(())
}

// Adds all that follows from routers.
fn push_routed_rows(
    alloc: Global,
    before: &Records,
    after: &Records,
    units: &mut List<UnitId>,
) -> Result<(), NoMemory>
    ensures { OnOk result (HaveJoined (routed_rows before.now after.now) units.old units.new) }
{
    push_routed(alloc, before, after, units)?;
    push_to_routers(before, after, units)?;
    Ok(())
}

// ---- all of them

// The names, each once.
fn each_name(alloc: Global, names: &[Name]) -> Result<List<Name>, NoMemory>
    ensures { IfOk result (λ singles. (n : Name) → Among n singles ↔ Among n names.now) }
{
    exact_name();
    let mut sorted = BTreeSet::new(alloc);
    'names: for name in names {
        sorted.insert(*name)?;
    }
    let mut singles = List::new(alloc);
    'singles: for name in &sorted {
        singles.push(*name)?;
    }
    Ok(singles)
}

// Adds the named rules, all rules on the named switches, and who begins or ceases to track connections.
fn push_touched(
    alloc: Global,
    before: &Records,
    after: &Records,
    named: &[UnitId],
    rules: &[Name],
    units: &mut List<UnitId>,
) -> Result<(), NoMemory>
    ensures { OnOk result (HaveJoined (beside_routers before.now after.now named.now rules.now) units.old units.new) }
{
    let switches = switches_in(alloc, named)?;
    let mut touched = List::from_slice(alloc, switches.as_slice())?;
    push_named_rules(alloc, before, after, rules, units, &mut touched)?;
    push_balanced(before, after, &mut touched)?;
    push_rules_at(before, after, switches.as_slice(), units)?;
    let singles = each_name(alloc, touched.as_slice())?;
    push_all_turned(before, after, singles.as_slice(), units)?;
    Ok(())
}

/// The units that an edit may leave lowered to other flows: the ports, switches and rules that it names, the rules that apply to these
/// switches, a switch that begins or ceases to track connections, with its ports, and, where there are routers or balancers before or after,
/// all that they have, with the ports of switches to routers. `NoMemory` alone is an error.
pub fn touched_rows(
    alloc: Global,
    before: &Records,
    after: &Records,
    named: &[UnitId],
    rules: &[Name],
) -> Result<List<UnitId>, NoMemory>
    ensures { IfOk result (λ units. (u : UnitId) → Among u units ↔ Among u (touched_rows before.now after.now named.now rules.now)) }
{
    let mut units = List::from_slice(alloc, named)?;
    push_touched(alloc, before, after, named, rules, &mut units)?;
    push_routed_rows(alloc, before, after, &mut units)?;
    Ok(units)
}
