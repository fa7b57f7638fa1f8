//! What an edit makes of units, lines and names.
ghost use Rattle.std.specs.Prelude.{◌≡◌, ◌↔◌, ◌++◌, cond, [], flat_map, map, IfOk, OnOk};
ghost use Rattle.std.specs.List.{filter_map, list_any};
ghost use Rattle.std.specs.Map.{keys_of};
ghost use Rattle.ovn_base.specs.lists.Among.{Among};
ghost use Rattle.ovn_base.specs.lists.Once.{EachOnce};
ghost use Rattle.ovn_base.specs.names.ByName.{at, in_order};
ghost use Rattle.nb_records.specs.declared.kinds.Kind.TheVariants as kind;
ghost use Rattle.tunnel_keys.specs.Giving.{put_option};
ghost use Rattle.tunnel_keys.specs.Owners.{as_port_of, datapaths_in, ports_in};
ghost use Rattle.world_setup.specs.KeyLines.{as_place, datapath_effect, key_effects, key_name, port_effect};
ghost use Rattle.world_setup.specs.Touched.{has_members, leading_units, names_members, router_port_units, row_unit, rule_named, rules_by, rules_touched, switch_of, to_routers, touched_by, units_by, units_leading, units_named};

use logical_flows::unit::UnitId;
use nb_records::change::Op;
use nb_records::kinds::Kind;
use nb_records::record::Record;
use nb_records::records::Records;
use northd_core::touched::has_router_ports;
use ovn_base::address::Birth;
use ovn_base::list::List;
use ovn_base::memory::NoMemory;
use ovn_base::name::Name;
use physical_flows::unit::{FlowUnit, exact_unit};
use std::alloc::Global;
use std::collections::{BTreeMap, BTreeSet};
use switch_engine::effect::NetEffect;
use tunnel_keys::owner::KeyOwner;
use tunnel_keys::store::KeyStore;

// Adds the switch of the port, if the port is there.
fn push_switch_of(
    records: &Records,
    port: &Name,
    units: &mut List<FlowUnit>,
) -> Result<(), NoMemory>
    ensures { OnOk result (units.new ≡ units.old ++ switch_of (at records.now.switch_ports port.now)) }
{
    match records.switch_port(port) {
        Some(port) => units.push(FlowUnit::Switch(port.switch)),
        None => Ok(()),
    }
}

// Adds the units of the record of this kind and name.
fn push_named(
    before: &Records,
    after: &Records,
    kind: Kind,
    name: Name,
    units: &mut List<FlowUnit>,
) -> Result<(), NoMemory>
    ensures { OnOk result (units.new ≡ units.old ++ units_named before.now after.now kind name) }
{
    match kind {
        Kind::Switch | Kind::Router => units.push(FlowUnit::Switch(name)),
        Kind::SwitchPort | Kind::RouterPort => {
            units.push(FlowUnit::Port(name))?;
            push_switch_of(before, &name, units)?;
            push_switch_of(after, &name, units)
        }
        _ => Ok(()),
    }
}

// Adds the units that the operation touches.
fn push_touched(
    before: &Records,
    after: &Records,
    op: &Op,
    units: &mut List<FlowUnit>,
) -> Result<(), NoMemory>
    ensures { OnOk result (units.new ≡ units.old ++ units_by before.now after.now op.now) }
{
    match op {
        Op::Add(Record::Switch(switch)) => {
            push_named(before, after, Kind::Switch, switch.name, units)
        }
        Op::Add(Record::SwitchPort(port)) => {
            push_named(before, after, Kind::SwitchPort, port.name, units)
        }
        Op::Add(Record::Router(router)) => {
            push_named(before, after, Kind::Router, router.name, units)
        }
        Op::Add(Record::RouterPort(port)) => {
            push_named(before, after, Kind::RouterPort, port.name, units)
        }
        Op::Add(_) => Ok(()),
        Op::Set { kind, name, .. } | Op::Remove { kind, name } => {
            push_named(before, after, *kind, *name, units)
        }
        Op::Health { .. } => Ok(()),
    }
}

// Adds the units of the ports of switches that lead to routers.
fn push_to_routers(
    before: &Records,
    after: &Records,
    records: &Records,
    units: &mut List<FlowUnit>,
) -> Result<(), NoMemory>
    ensures { OnOk result (units.new ≡ units.old ++ flat_map (λ q. units_named before.now after.now kind.SwitchPort q) (to_routers records.now)) }
{
    'ports: for (name, port) in records.switch_ports() {
        if !port.kind.is_virtual() {
            push_named(before, after, Kind::SwitchPort, *name, units)?;
        }
    }
    Ok(())
}

// Adds them, if a router has a port.
fn push_leading(
    before: &Records,
    after: &Records,
    records: &Records,
    units: &mut List<FlowUnit>,
) -> Result<(), NoMemory>
    ensures { OnOk result (units.new ≡ units.old ++ units_leading before.now after.now records.now) }
{
    if has_router_ports(records) {
        push_to_routers(before, after, records, units)
    } else {
        Ok(())
    }
}

// Adds the units of the ports of routers.
fn push_router_ports(records: &Records, units: &mut List<FlowUnit>) -> Result<(), NoMemory>
    ensures { OnOk result (units.new ≡ units.old ++ router_port_units records.now) }
{
    'ports: for (name, _port) in records.router_ports() {
        units.push(FlowUnit::RouterPort(*name))?;
    }
    Ok(())
}

// Adds the units of all ports that lead into another datapath, before and after.
fn push_all_leading(
    before: &Records,
    after: &Records,
    units: &mut List<FlowUnit>,
) -> Result<(), NoMemory>
    ensures { OnOk result (units.new ≡ units.old ++ leading_units before.now after.now) }
{
    push_leading(before, after, before, units)?;
    push_leading(before, after, after, units)?;
    push_router_ports(before, units)?;
    push_router_ports(after, units)
}

// The units, each once.
fn each_once(alloc: Global, units: &[FlowUnit]) -> Result<List<FlowUnit>, NoMemory>
    ensures once { IfOk result (λ singles. EachOnce singles) }
    ensures all { IfOk result (λ singles. (u : FlowUnit) → Among u singles ↔ Among u units.now) }
{
    exact_unit();
    let mut sorted = BTreeSet::new(alloc);
    'units: for unit in units {
        sorted.insert(*unit)?;
    }
    let mut singles = List::new(alloc);
    'singles: for unit in &sorted {
        singles.push(*unit)?;
    }
    Ok(singles)
}

/// The units of flows that the operations touch, each once: those that they name, and those of all ports that lead into another datapath.
pub(crate) fn touched_units(
    alloc: Global,
    before: &Records,
    after: &Records,
    ops: &[Op],
) -> Result<List<FlowUnit>, NoMemory>
    ensures once { IfOk result (λ units. EachOnce units) }
    ensures all { IfOk result (λ units. (u : FlowUnit) → Among u units ↔ Among u (touched_by before.now after.now ops.now)) }
{
    let mut touched = List::new(alloc);
    'ops: for op in ops {
        push_touched(before, after, op, &mut touched)?;
    }
    push_all_leading(before, after, &mut touched)?;
    each_once(alloc, touched.as_slice())
}

/// The units of flows of all ports that lead into another datapath, with their switches, each once.
pub(crate) fn leading_units(alloc: Global, records: &Records) -> Result<List<FlowUnit>, NoMemory>
    ensures once { IfOk result (λ units. EachOnce units) }
    ensures all { IfOk result (λ units. (u : FlowUnit) → Among u units ↔ Among u (leading_units records.now records.now)) }
{
    let mut leading = List::new(alloc);
    push_all_leading(records, records, &mut leading)?;
    each_once(alloc, leading.as_slice())
}

/// The units of rows that those units of flows are: of the flows that every chassis has come none of a switch or a port.
pub(crate) fn row_units(alloc: Global, touched: &[FlowUnit]) -> Result<List<UnitId>, NoMemory>
    ensures { IfOk result (λ units. units ≡ filter_map row_unit touched.now) }
{
    let mut units = List::new(alloc);
    'touched: for unit in touched {
        match unit {
            FlowUnit::Common | FlowUnit::RouterPort(_) => {}
            FlowUnit::Switch(name) => units.push(UnitId::Switch(*name))?,
            FlowUnit::Port(name) => units.push(UnitId::Port(*name))?,
        }
    }
    Ok(units)
}

// Adds the rules of the records.
fn push_rules(records: &Records, rules: &mut List<Name>) -> Result<(), NoMemory>
    ensures { OnOk result (rules.new ≡ rules.old ++ keys_of records.now.acls) }
{
    'rules: for (name, _rule) in records.acls() {
        rules.push(*name)?;
    }
    Ok(())
}

// Adds the name, if a record of this kind is a rule.
fn push_named_rule(kind: Kind, name: Name, rules: &mut List<Name>) -> Result<(), NoMemory>
    ensures { OnOk result (rules.new ≡ rules.old ++ rule_named kind name) }
{
    match kind {
        Kind::Acl => rules.push(name),
        _ => Ok(()),
    }
}

// Adds the rule that the operation names, if it names one.
fn push_rules_by(op: &Op, rules: &mut List<Name>) -> Result<(), NoMemory>
    ensures { OnOk result (rules.new ≡ rules.old ++ rules_by op.now) }
{
    match op {
        Op::Add(Record::Acl(rule)) => rules.push(rule.name),
        Op::Add(_) => Ok(()),
        Op::Set { kind, name, .. } | Op::Remove { kind, name } => {
            push_named_rule(*kind, *name, rules)
        }
        Op::Health { .. } => Ok(()),
    }
}

// A record of this kind has members, which a rule may name by it.
fn has_members(kind: Kind) -> bool
    ensures { result ≡ has_members kind }
{
    match kind {
        Kind::AddressSet | Kind::PortGroup => true,
        _ => false,
    }
}

// The operation names a set or a group.
fn names_members(op: &Op) -> bool
    ensures { result ≡ names_members op.now }
{
    match op {
        Op::Add(Record::AddressSet(_)) | Op::Add(Record::PortGroup(_)) => true,
        Op::Add(_) => false,
        Op::Set { kind, .. } | Op::Remove { kind, .. } => has_members(*kind),
        Op::Health { .. } => false,
    }
}

// One of the operations names a set or a group.
fn some_names_members(ops: &[Op]) -> bool
    ensures { result ≡ list_any names_members ops.now }
{
    ops.iter().any(|op| names_members(op))
}

// Adds all rules of the records, where one of the operations names a set or a group.
fn push_all_rules(before: &Records, ops: &[Op], rules: &mut List<Name>) -> Result<(), NoMemory>
    ensures { OnOk result (rules.new ≡ rules.old ++ cond (list_any names_members ops.now) (keys_of before.now.acls) []) }
{
    if some_names_members(ops) {
        push_rules(before, rules)
    } else {
        Ok(())
    }
}

/// The rules that the operations touch: those that they name, and with a set or a group all that were there, since any may name it.
pub(crate) fn touched_rules(
    alloc: Global,
    before: &Records,
    ops: &[Op],
) -> Result<List<Name>, NoMemory>
    ensures { IfOk result (λ rules. rules ≡ rules_touched before.now ops.now) }
{
    let mut rules = List::new(alloc);
    'ops: for op in ops {
        push_rules_by(op, &mut rules)?;
    }
    push_all_rules(before, ops, &mut rules)?;
    Ok(rules)
}

// The datapaths among the owners, in order of name.
fn new_datapaths(alloc: Global, added: &[KeyOwner]) -> Result<BTreeMap<Name, Birth>, NoMemory>
    ensures { IfOk result (λ datapaths. datapaths.entries ≡ in_order (datapaths_in added.now)) }
{
    let mut datapaths = BTreeMap::new(alloc);
    'owners: for owner in added {
        if let KeyOwner::Datapath { name, birth } = owner {
            datapaths.insert(*name, *birth)?;
        }
    }
    Ok(datapaths)
}

// The datapaths of the ports among the owners, in order of name.
fn new_places(alloc: Global, added: &[KeyOwner]) -> Result<BTreeMap<Name, Birth>, NoMemory>
    ensures { IfOk result (λ places. places.entries ≡ in_order (filter_map as_place added.now)) }
{
    let mut places = BTreeMap::new(alloc);
    'owners: for owner in added {
        if let KeyOwner::Port {
            datapath,
            birth,
            ..
        } = owner
        {
            places.insert(*datapath, *birth)?;
        }
    }
    Ok(places)
}

// The ports of the datapath among the owners, in order of name.
fn new_ports(
    alloc: Global,
    place: &Name,
    added: &[KeyOwner],
) -> Result<BTreeMap<Name, Birth>, NoMemory>
    ensures { IfOk result (λ ports. ports.entries ≡ in_order (ports_in place.now added.now)) }
{
    let mut ports = BTreeMap::new(alloc);
    'owners: for owner in added {
        put_port(&mut ports, place, owner)?;
    }
    Ok(ports)
}

// Puts the owner among the others, if it is a port of the datapath.
fn put_port(
    ports: &mut BTreeMap<Name, Birth>,
    place: &Name,
    owner: &KeyOwner,
) -> Result<(), NoMemory>
    ensures { OnOk result (ports.new.entries ≡ put_option ports.old.entries (as_port_of place.now owner.now)) }
{
    if let KeyOwner::Port {
        datapath,
        name,
        birth,
    } = owner
        && *datapath == *place
    {
        ports.insert(*name, *birth)?;
    }
    Ok(())
}

// Adds the lines of the keys of the datapaths.
fn push_datapath_effects(
    datapaths: &BTreeMap<Name, Birth>,
    keys: &KeyStore,
    effects: &mut List<NetEffect>,
) -> Result<(), NoMemory>
    ensures { OnOk result (effects.new ≡ effects.old ++ map (datapath_effect keys.now) datapaths.now.entries) }
{
    'datapaths: for (name, _birth) in datapaths {
        let key = keys.datapath(name).unwrap_or(0);
        effects.push(NetEffect::DatapathKey { name: *name, key })?;
    }
    Ok(())
}

// Adds the lines of the keys of the ports.
fn push_port_effects(
    ports: &BTreeMap<Name, Birth>,
    keys: &KeyStore,
    effects: &mut List<NetEffect>,
) -> Result<(), NoMemory>
    ensures { OnOk result (effects.new ≡ effects.old ++ map (port_effect keys.now) ports.now.entries) }
{
    'ports: for (name, _birth) in ports {
        let key = keys.port(name).unwrap_or(0);
        effects.push(NetEffect::PortKey { name: *name, key })?;
    }
    Ok(())
}

/// The effects that name the keys of who came: those of datapaths in order of name, then those of ports, in order of
/// datapath name and then of port name.
pub(crate) fn key_effects(
    alloc: Global,
    added: &[KeyOwner],
    keys: &KeyStore,
) -> Result<List<NetEffect>, NoMemory>
    ensures { IfOk result (λ effects. effects ≡ key_effects added.now keys.now) }
{
    let mut effects = List::new(alloc);
    let datapaths = new_datapaths(alloc, added)?;
    push_datapath_effects(&datapaths, keys, &mut effects)?;
    let places = new_places(alloc, added)?;
    'places: for (place, _birth) in &places {
        let ports = new_ports(alloc, place, added)?;
        push_port_effects(&ports, keys, &mut effects)?;
    }
    Ok(effects)
}

// The name of the owner's key.
fn key_name(owner: &KeyOwner, keys: &KeyStore) -> (u32, u16, Name)
    ensures { result ≡ key_name keys.now owner.now }
{
    match owner {
        KeyOwner::Datapath { name, .. } => (keys.datapath(name).unwrap_or(0), 0, *name),
        KeyOwner::Port { datapath, name, .. } => (
            keys.datapath(datapath).unwrap_or(0),
            keys.port(name).unwrap_or(0),
            *name,
        ),
    }
}

/// The names of the keys of who came.
pub(crate) fn key_names(
    alloc: Global,
    added: &[KeyOwner],
    keys: &KeyStore,
) -> Result<List<(u32, u16, Name)>, NoMemory>
    ensures { IfOk result (λ names. names ≡ map (key_name keys.now) added.now) }
{
    let mut names = List::new(alloc);
    'owners: for owner in added {
        names.push(key_name(owner, keys))?;
    }
    Ok(names)
}
