//! The units of records.
ghost use Rattle.std.specs.Prelude.{◌≡◌, ◌↔◌, IfOk, List, OnOk, map};
ghost use Rattle.std.specs.Map.{keys_of};
ghost use Rattle.logical_flows.specs.declared.unit.UnitId.{UnitId};
ghost use Rattle.logical_flows.specs.declared.unit.UnitId.TheVariants.{Port, Switch};
ghost use Rattle.ovn_base.specs.lists.Among.{Among};
ghost use Rattle.stage_rows.specs.Units.{rule_units, units_of_rule, units_of};
ghost use Rattle.northd_core.specs.Listing.{HaveJoined};

use crate::routed::put_routed;
use logical_flows::exact::exact_unit_order;
use logical_flows::unit::UnitId;
use nb_records::records::Records;
use nb_records::rule::Acl;
use nb_records::scopes::applies;
use ovn_base::memory::NoMemory;
use ovn_base::name::Name;
use std::alloc::Global;
use std::collections::BTreeSet;

// Puts the ports of switches among the units.
fn put_ports(records: &Records, units: &mut BTreeSet<UnitId>) -> Result<(), NoMemory>
    ensures { OnOk result (HaveJoined (map Port (keys_of records.now.switch_ports)) units.old.keys units.new.keys) }
{
    exact_unit_order();
    for (name, _) in records.switch_ports() {
        units.insert(UnitId::Port(*name))?;
    }
    Ok(())
}

// Puts the switches among the units.
fn put_switches(records: &Records, units: &mut BTreeSet<UnitId>) -> Result<(), NoMemory>
    ensures { OnOk result (HaveJoined (map Switch (keys_of records.now.switches)) units.old.keys units.new.keys) }
{
    exact_unit_order();
    for (name, _) in records.switches() {
        units.insert(UnitId::Switch(*name))?;
    }
    Ok(())
}

// Puts the rule on each switch to which it applies among the units.
fn put_rule(
    records: &Records,
    name: &Name,
    rule: &Acl,
    units: &mut BTreeSet<UnitId>,
) -> Result<(), NoMemory>
    ensures { OnOk result (HaveJoined (units_of_rule records.now (name.now, rule.now)) units.old.keys units.new.keys) }
{
    exact_unit_order();
    for (switch, _) in records.switches() {
        if applies(records, switch, rule) {
            units.insert(UnitId::Rule {
                rule: *name,
                switch: *switch,
            })?;
        }
    }
    Ok(())
}

// Puts the rules among the units.
fn put_rules(records: &Records, units: &mut BTreeSet<UnitId>) -> Result<(), NoMemory>
    ensures { OnOk result (HaveJoined (rule_units records.now) units.old.keys units.new.keys) }
{
    for (name, rule) in records.acls() {
        put_rule(records, name, rule, units)?;
    }
    Ok(())
}

/// Puts the units of the records among the units.
pub fn put_units(
    alloc: Global,
    records: &Records,
    units: &mut BTreeSet<UnitId>,
) -> Result<(), NoMemory>
    ensures { OnOk result (HaveJoined (units_of records.now) units.old.keys units.new.keys) }
{
    put_ports(records, units)?;
    put_rules(records, units)?;
    put_switches(records, units)?;
    put_routed(alloc, records, units)?;
    Ok(())
}

/// The units, as a set.
pub fn units_in(alloc: Global, units: &[UnitId]) -> Result<BTreeSet<UnitId>, NoMemory>
    ensures { IfOk result (λ set. (u : UnitId) → Among u set.keys ↔ Among u units.now) }
{
    exact_unit_order();
    let mut set = BTreeSet::new(alloc);
    'units: for unit in units {
        set.insert(*unit)?;
    }
    Ok(set)
}
