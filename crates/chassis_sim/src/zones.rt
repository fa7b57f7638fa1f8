//! The zones of each chassis.
ghost use Rattle.std.specs.Prelude.{◌≡◌, ◌≤◌, ◌+◌, ℕ, [], ◌∷◌, Some, IfOk, OnOk, length, map};
ghost use Rattle.std.specs.List.{AllByRecursion};
ghost use Rattle.indexmap.specs.IndexMap.{spare};
ghost use Rattle.ovn_base.specs.declared.name.Name.{Name};
ghost use Rattle.switch_engine.specs.Zones.{all_expired};
ghost use Rattle.chassis_sim.specs.Changing.{AreEmptied, HasRoomFor, HaveRoom, IsFresh, KeepsRoom};
ghost use Rattle.chassis_sim.specs.State.{at_name};
ghost use Rattle.chassis_sim.specs.Tables.{seen_by, zones_held};

use indexmap::IndexMap;
use ovn_base::list::List;
use ovn_base::memory::NoMemory;
use ovn_base::name::Name;
use std::alloc::Global;
use switch_engine::zones::Zones;

// The zones of each chassis.
pub(crate) type ZoneMap = IndexMap<Name, Zones>;

// Makes room for so many zones on the chassis, if it has zones and not this one.
fn prepare_zone(zones: &mut ZoneMap, name: &Name, number: u16, room: usize) -> Result<(), NoMemory>
    ensures lists { zones_held zones.new.entries ≡ zones_held zones.old.entries }
    ensures room { OnOk result (HasRoomFor room number (at_name zones.new.entries name.now)) }
    ensures more { OnOk result ((z : ℕ) (other : Name) → HasRoomFor room z (at_name zones.old.entries other) → HasRoomFor room z (at_name zones.new.entries other)) }
    ensures spare { spare zones.new ≡ spare zones.old }
{
    match zones.get_mut(name) {
        Some(held) => make_room(held, number, room),
        None => Ok(()),
    }
}

// Makes room for so many zones, if the zone isn't there.
fn make_room(held: &mut Zones, number: u16, room: usize) -> Result<(), NoMemory>
    ensures lists { held.new.zones ≡ held.old.zones }
    ensures room { OnOk result (HasRoomFor room number (Some held.new)) }
    ensures more { OnOk result ((z : ℕ) → HasRoomFor room z (Some held.old) → HasRoomFor room z (Some held.new)) }
{
    if held.zone(number).is_some() {
        return Ok(());
    }
    held.reserve(room)
}

// Makes room for the zones that are to be emptied, where they aren't there.
pub(crate) fn prepare_zones(zones: &mut ZoneMap, emptied: &[(Name, u16)]) -> Result<(), NoMemory>
    ensures lists { zones_held zones.new.entries ≡ zones_held zones.old.entries }
    ensures room { OnOk result (HaveRoom (length emptied.now) zones.new.entries emptied.now) }
    ensures spare { spare zones.new ≡ spare zones.old }
{
    'emptied: for (name, number) in emptied {
        prepare_zone(zones, name, *number, emptied.len())?;
    }
    Ok(())
}

// For each chassis that comes, zones without a list, with so much room.
pub(crate) fn fresh_zones<T>(
    alloc: Global,
    added: &[(Name, T)],
    room: usize,
) -> Result<List<Zones>, NoMemory>
    ensures enough { IfOk result (λ fresh. length added.now ≤ length fresh) }
    ensures fresh { IfOk result (λ fresh. AllByRecursion (IsFresh room) fresh) }
{
    let mut fresh = List::new(alloc);
    'added: for _ in added {
        let mut zones = Zones::new(alloc);
        zones.reserve(room)?;
        fresh.push(zones)?;
    }
    Ok(fresh)
}

// Empties the zone of the chassis, if it has zones.
fn empty_one(zones: &mut ZoneMap, name: &Name, number: u16)
    requires { HasRoomFor 1 number (at_name zones.old.entries name.now) }
    ensures emptied { (other : Name) → AreEmptied ((name.now, number) ∷ []) other (at_name (zones_held zones.old.entries) other) (at_name (zones_held zones.new.entries) other) }
    ensures room { (n z : ℕ) (other : Name) → HasRoomFor (n + 1) z (at_name zones.old.entries other) → HasRoomFor n z (at_name zones.new.entries other) }
    ensures spare { spare zones.new ≡ spare zones.old }
{
    if let Some(held) = zones.get_mut(name) {
        held.empty(number);
    }
}

// Empties zones of chassis.
pub(crate) fn empty_each(zones: &mut ZoneMap, emptied: List<(Name, u16)>)
    requires { HaveRoom (length emptied) zones.old.entries emptied }
    ensures { (name : Name) → AreEmptied emptied name (at_name (zones_held zones.old.entries) name) (at_name (zones_held zones.new.entries) name) }
{
    'emptied: for (name, number) in emptied {
        empty_one(zones, &name, number);
    }
}

// Ends the connections of all chassis that weren't used for as long as they may be idle.
pub(crate) fn expire_each(zones: &mut ZoneMap, now: u64)
    ensures lists { zones_held zones.new.entries ≡ map (seen_by (all_expired now)) (zones_held zones.old.entries) }
    ensures room { KeepsRoom zones.old.entries zones.new.entries }
    ensures spare { spare zones.old ≤ spare zones.new }
{
    zones.retain(move |_, held| {
        held.expire(now);
        true
    });
}
