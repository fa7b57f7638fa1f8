//! The tables of each chassis, and values that are set under keys.
ghost use Rattle.std.specs.Prelude.{◌≡◌, ◌≤◌, ◌<◌, ◌+◌, ℕ, Bool, false, cond, is_some, if◌then◌else◌, IsSome, IfOk, OnOk, Some, None, length, map};
ghost use Rattle.std.specs.List.{AllByRecursion};
ghost use Rattle.std.specs.Map.{keys_of, lookup};
ghost use Rattle.indexmap.specs.IndexMap.{get, spare};
ghost use Rattle.ovn_base.specs.declared.name.Name.{Name};
ghost use Rattle.ovn_base.specs.lists.Once.{EachOnce};
ghost use Rattle.ovn_base.specs.names.SameName.{same_name};
ghost use Rattle.chassis_sim.specs.Changing.{AllAreDeltas, AreReady, AreReadied, AreReplaced, IsDeltaOfAny, IsReadyFor, given_name, gone, come, without_zone, HasRoomFor, KeepsRoom, IsFresh};
ghost use Rattle.chassis_sim.specs.Settings.{AreSet};
ghost use Rattle.chassis_sim.specs.State.{at_name, same_pair};
ghost use Rattle.chassis_sim.specs.Tables.{flows_held, zones_held};

use crate::change::SimChange;
use crate::names::Names;
use crate::zones::{ZoneMap, fresh_zones, prepare_zones};
use flow_table::flow::SharedFlow;
use flow_table::lookup::Lookup;
use indexmap::IndexMap;
use ovn_base::delta::Delta;
use ovn_base::list::List;
use ovn_base::memory::NoMemory;
use ovn_base::name::Name;
use std::hash::Hash;
use switch_engine::zones::Zones;

// Makes the tables of the chassis ready for the delta, if it has any.
fn prepare_one<T: Lookup>(
    held: &mut IndexMap<Name, T>,
    name: &Name,
    delta: &Delta<SharedFlow>,
) -> Result<(), NoMemory>
    requires { IsDeltaOfAny delta.now (at_name (flows_held T.flows held.old.entries) name.now) }
    ensures flows { flows_held T.flows held.new.entries ≡ flows_held T.flows held.old.entries }
    ensures ready { OnOk result (IsReadyFor T.ready delta.now (at_name held.new.entries name.now)) }
    ensures others { (other : Name) → same_name name.now other ≡ false → at_name held.new.entries other ≡ at_name held.old.entries other }
    ensures spare { spare held.new ≡ spare held.old }
{
    match held.get_mut(name) {
        Some(tables) => tables.prepare(delta),
        None => Ok(()),
    }
}

// Makes the tables of chassis ready for their deltas.
pub(crate) fn prepare_each<T: Lookup>(
    held: &mut IndexMap<Name, T>,
    deltas: &[(Name, Delta<SharedFlow>)],
) -> Result<(), NoMemory>
    requires once { EachOnce (keys_of deltas.now) }
    requires deltas { AllAreDeltas (flows_held T.flows held.old.entries) deltas.now }
    ensures flows { flows_held T.flows held.new.entries ≡ flows_held T.flows held.old.entries }
    ensures ready { OnOk result (AreReady T.ready held.new.entries deltas.now) }
    ensures spare { spare held.new ≡ spare held.old }
{
    'deltas: for (name, delta) in deltas {
        prepare_one(held, name, delta)?;
    }
    Ok(())
}

// Makes ready for what the change brings to chassis, and gives fresh zones for those that come. What is held stays.
pub(crate) fn make_ready<T: Lookup>(
    held: &mut IndexMap<Name, T>,
    zones: &mut ZoneMap,
    change: &SimChange<T>,
) -> Result<List<Zones>, NoMemory>
    requires once { EachOnce (keys_of change.now.tables) }
    requires deltas { AllAreDeltas (flows_held T.flows held.old.entries) change.now.tables }
    ensures flows { flows_held T.flows held.new.entries ≡ flows_held T.flows held.old.entries }
    ensures lists { zones_held zones.new.entries ≡ zones_held zones.old.entries }
    ensures room { OnOk result (length change.now.added ≤ spare held.new) }
    ensures zoned { OnOk result (length change.now.added ≤ spare zones.new) }
    ensures ready { IfOk result (AreReadied T.ready change.now held.new.entries zones.new.entries) }
{
    let alloc = *held.allocator();
    held.reserve(change.added.len())?;
    zones.reserve(change.added.len())?;
    prepare_each(held, change.tables.as_slice())?;
    prepare_zones(zones, change.emptied.as_slice())?;
    fresh_zones(alloc, change.added.as_slice(), change.emptied.len())
}

// Changes the tables of the chassis by the delta, if it has any.
fn replace_one<T: Lookup>(held: &mut IndexMap<Name, T>, name: &Name, delta: Delta<SharedFlow>)
    requires { IsReadyFor T.ready delta (at_name held.old.entries name.now) }
    ensures replaced { AreReplaced (Some delta) (at_name (flows_held T.flows held.old.entries) name.now) (at_name (flows_held T.flows held.new.entries) name.now) }
    ensures others { (other : Name) → same_name name.now other ≡ false → at_name held.new.entries other ≡ at_name held.old.entries other }
    ensures spare { spare held.new ≡ spare held.old }
{
    if let Some(tables) = held.get_mut(name) {
        tables.replace(delta);
        let _first = tables.flow(0);
    }
}

// Changes the tables of chassis by their deltas.
pub(crate) fn replace_each<T: Lookup>(
    held: &mut IndexMap<Name, T>,
    deltas: List<(Name, Delta<SharedFlow>)>,
)
    requires once { EachOnce (keys_of deltas) }
    requires ready { AreReady T.ready held.old.entries deltas }
    ensures replaced { (name : Name) → AreReplaced (at_name deltas name) (at_name (flows_held T.flows held.old.entries) name) (at_name (flows_held T.flows held.new.entries) name) }
    ensures spare { spare held.new ≡ spare held.old }
{
    'deltas: for (name, delta) in deltas {
        replace_one(held, &name, delta);
    }
}

// Takes the chassis out, with their zones.
pub(crate) fn remove_each<T: Lookup + Drop>(
    held: &mut IndexMap<Name, T>,
    zones: &mut ZoneMap,
    names: List<Name>,
)
    ensures gone { AreSet same_name (map gone names) (flows_held T.flows held.old.entries) (flows_held T.flows held.new.entries) }
    ensures zones { AreSet same_name (map gone names) (zones_held zones.old.entries) (zones_held zones.new.entries) }
    ensures room { KeepsRoom zones.old.entries zones.new.entries }
    ensures spare { spare held.old ≤ spare held.new }
    ensures zoned { spare zones.old ≤ spare zones.new }
{
    'names: for name in names {
        take_out(held, &name);
        take_out(zones, &name);
    }
}

// Takes out what stands under the name.
fn take_out<V: Drop>(map: &mut IndexMap<Name, V>, name: &Name)
    ensures taken { (other : Name) → at_name map.new.entries other ≡ cond (same_name name.now other) None (at_name map.old.entries other) }
    ensures spare { spare map.old ≤ spare map.new }
{
    map.swap_remove(name);
}

// Puts each chassis in with its tables, and with fresh zones.
pub(crate) fn add_each<T: Lookup + Drop>(
    held: &mut IndexMap<Name, T>,
    zones: &mut ZoneMap,
    fresh: &mut List<Zones>,
    added: List<(Name, T)>,
)
    requires room { length added ≤ spare held.old }
    requires zoned { length added ≤ spare zones.old }
    requires fresh { length added ≤ length fresh.old }
    requires each_fresh { AllByRecursion (IsFresh 0) fresh.old }
    ensures come { AreSet same_name (map (come T.flows) added) (flows_held T.flows held.old.entries) (flows_held T.flows held.new.entries) }
    ensures zones { AreSet same_name (map without_zone added) (zones_held zones.old.entries) (zones_held zones.new.entries) }
    ensures room { (n z : ℕ) (name : Name) → AllByRecursion (IsFresh n) fresh.old → HasRoomFor n z (at_name zones.old.entries name) → HasRoomFor n z (at_name zones.new.entries name) }
{
    'added: for (name, tables) in added {
        let Some(none) = fresh.pop() else {
            unreachable!();
        };
        set(held, name, Some(tables));
        set(zones, name, Some(none));
    }
}

// Sets the value under the key, or takes it out.
fn set<K: Eq + Hash + Drop, V: Drop>(map: &mut IndexMap<K, V>, key: K, value: Option<V>)
    requires { IsSome value → 0 < spare map.old }
    ensures set { (other : K) → get K.eq map.new other ≡ cond (K.eq key other) value (get K.eq map.old other) }
    ensures spare { spare map.old ≤ spare map.new + 1 }
{
    match value {
        Some(value) => match map.insert(key, value) {
            Ok(_) => {}
            Err(_) => unreachable!(),
        },
        None => {
            map.swap_remove(&key);
        }
    }
}

// Binds ports to chassis, or to none.
pub(crate) fn bind_each(bindings: &mut IndexMap<Name, Name>, bound: List<(Name, Option<Name>)>)
    requires { length bound ≤ spare bindings.old }
    ensures { AreSet same_name bound bindings.old.entries bindings.new.entries }
{
    'bound: for (port, chassis) in bound {
        set(bindings, port, chassis);
    }
}

// Gives pairs of keys their names.
pub(crate) fn name_each(names: &mut Names, given: List<(u32, u16, Name)>)
    requires { length given ≤ spare names.old }
    ensures { AreSet same_pair (map given_name given) names.old.entries names.new.entries }
{
    'given: for (vni, port, name) in given {
        set(names, (vni, port), Some(name));
    }
}
