//! The connections of a chassis.
ghost use Rattle.std.specs.Prelude.{◌≡◌, ◌≤◌, ◌<◌, ◌+◌, [], None, OnOk};
ghost use Rattle.std.specs.Option.{option_copied};
ghost use Rattle.indexmap.specs.IndexMap.{spare};
ghost use Rattle.switch_engine.specs.Zones.{zone_at, all_expired, IsEmptied};

use conn_table::zone::Zone;
use indexmap::IndexMap;
use ovn_base::memory::NoMemory;
use std::alloc::Global;
use std::marker::Model;

// The zones at their numbers.
pub(crate) type ZoneMap = IndexMap<u16, Zone>;

/// The zones of one chassis, each a list of connections under a number. A contract sees the lists with their numbers, and how
/// many more zones there is room for.
#[derive(Drop)]
pub struct Zones {
    alloc: Global,
    pub(crate) zones: ZoneMap,
}

impl Model for Zones {
    ghost use Rattle.indexmap.specs.IndexMap.{spare};
    ghost use Rattle.switch_engine.specs.Zones.{HeldZones};

    ghost Value = { HeldZones };

    ghost view = { λ z. record { zones = z.zones.entries; room = spare z.zones } };
}

impl Zones {
    /// No zone.
    pub fn new(alloc: Global) -> Self
        ensures { result.zones ≡ [] }
    {
        Zones {
            alloc,
            zones: IndexMap::new(alloc),
        }
    }

    /// The zone of the number, if it is there.
    pub fn zone(&self, number: u16) -> Option<&Zone>
        ensures { option_copied result ≡ zone_at self.now.zones number }
    {
        self.zones.get(&number)
    }

    /// Makes room for so many more zones. The zones stay, also without memory.
    pub fn reserve(&mut self, more: usize) -> Result<(), NoMemory>
        ensures zones { self.new.zones ≡ self.old.zones }
        ensures room { OnOk result (more ≤ self.new.room) }
    {
        self.zones.reserve(more)?;
        Ok(())
    }

    /// Puts an empty zone under the number, in place of the one that is there. No memory is taken.
    pub fn empty(&mut self, number: u16)
        requires { zone_at self.old.zones number ≡ None → 0 < self.old.room }
        ensures emptied { IsEmptied number self.old.zones self.new.zones }
        ensures room { self.old.room ≤ self.new.room + 1 }
    {
        put_empty(self.alloc, &mut self.zones, number);
    }

    /// Ends the connections of all zones that weren't used for as long as they may be idle.
    pub fn expire(&mut self, now: u64)
        ensures zones { self.new.zones ≡ all_expired now self.old.zones }
        ensures room { self.old.room ≤ self.new.room }
    {
        expire_each(&mut self.zones, now);
    }
}

fn put_empty(alloc: Global, zones: &mut ZoneMap, number: u16)
    requires { zone_at zones.old.entries number ≡ None → 0 < spare zones.old }
    ensures emptied { IsEmptied number zones.old.entries zones.new.entries }
    ensures room { spare zones.old ≤ spare zones.new + 1 }
{
    if let Some(zone) = zones.get_mut(&number) {
        zone.clear();
        return;
    }
    let Ok(zone) = Zone::new(alloc) else {
        unreachable!();
    };
    match zones.insert(number, zone) {
        Ok(_) => {}
        Err(_) => unreachable!(),
    }
}

fn expire_each(zones: &mut ZoneMap, now: u64)
    ensures zones { zones.new.entries ≡ all_expired now zones.old.entries }
    ensures room { spare zones.old ≤ spare zones.new }
{
    zones.retain(move |_, zone| {
        zone.expire(now);
        true
    });
}
