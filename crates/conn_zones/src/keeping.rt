//! Who stays at home and keeps the numbers, and who comes.
ghost use Rattle.std.specs.Prelude.{◌≡◌, IfOk, OnOk, cond, map};
ghost use Rattle.std.specs.BTreeMap.{is_at};
ghost use Rattle.std.specs.Cmp.Lexicographic.{slice_cmp};
ghost use Rattle.std.specs.Option.{option_copied, option_or};
ghost use Rattle.std.specs.Ordering.{nat_cmp};
ghost use Rattle.ovn_base.specs.declared.name.Name.{Name};
ghost use Rattle.ovn_base.specs.lists.Once.{EachOnce};
ghost use Rattle.ovn_base.specs.names.ByName.{at};
ghost use Rattle.conn_zones.specs.Zoning.{KnownHomes, IsZoned};
ghost use Rattle.conn_zones.specs.Rezoning.{IsRehomed, is_home_on, zones_in, coming};
ghost use Rattle.conn_zones.specs.Giving.{place_at_home, comes_to, ArePlacesAfter, AreComers, AreKeptNumbers};

use crate::change::HomeChange;
use crate::homes::Homes;
use crate::name_map::NameMap;
use crate::numbers::{ZoneNumbers, ZonePlace, ZoneUse};
use ovn_base::list::List;
use ovn_base::memory::NoMemory;
use ovn_base::name::Name;
use std::alloc::Global;

// Whether the home is this chassis.
fn is_home_on(home: Option<&Name>, chassis: &Name) -> bool
    ensures { result ≡ is_home_on (option_copied home.entry) chassis.now }
{
    match home {
        Some(home) => *home == *chassis,
        None => false,
    }
}

// Leaves who has the name its place only where it is at home.
fn keep_one(places: &mut NameMap<ZonePlace>, homes: &NameMap<Name>, name: &Name)
    ensures { (q : Name) → at places.new q ≡ cond (is_at (slice_cmp nat_cmp name.now) q) (place_at_home (at homes.now name.now) (at places.old name.now)) (at places.old q) }
{
    let home = homes.get(name);
    match places.get(name) {
        Some(place) if is_home_on(home, &place.chassis) => {}
        _ => {
            places.remove(name);
        }
    }
}

// The places, of which those of the named are left only where they are at home.
fn kept_places(
    places: &NameMap<ZonePlace>,
    homes: &NameMap<Name>,
    change: &[(Name, Option<Name>)],
) -> Result<NameMap<ZonePlace>, NoMemory>
    ensures { IfOk result (λ m. ArePlacesAfter homes.now change.now places.now m) }
{
    let mut kept = places.copy()?;
    'change: for (name, _) in change {
        keep_one(&mut kept, homes, name);
    }
    let _in_order = kept.entries();
    Ok(kept)
}

impl ZoneNumbers {
    // The numbers of those who stay at home there. Who isn't named stays, and so does a named port whose home stays; a named
    // router is one of another birth.
    pub(crate) fn kept(
        &self,
        alloc: Global,
        after: &Homes,
        change: &HomeChange,
    ) -> Result<ZoneNumbers, NoMemory>
        ensures { IfOk result (λ n. (before : KnownHomes) → IsZoned (record { homes = before; numbers = self.now }) → IsRehomed before change.now after.now → AreKeptNumbers self.now change.now after.now n) }
    {
        let nobody = NameMap::new(alloc);
        let routers = change.routers.as_slice();
        Ok(ZoneNumbers {
            ports: kept_places(&self.ports, &after.ports, change.ports.as_slice())?,
            dnat: kept_places(&self.dnat, &nobody, routers)?,
            snat: kept_places(&self.snat, &nobody, routers)?,
        })
    }
}

// All zones, each with its chassis.
fn zones_in(alloc: Global, homes: &Homes) -> Result<List<(ZoneUse, Name)>, NoMemory>
    ensures { IfOk result (λ l. l ≡ zones_in homes.now) }
{
    let mut zones = List::new(alloc);
    'ports: for (name, chassis) in homes.ports.entries() {
        zones.push((ZoneUse::Port(*name), *chassis))?;
    }
    'routers: for (name, chassis) in homes.routers.entries() {
        zones.push((ZoneUse::Dnat(*name), *chassis))?;
        zones.push((ZoneUse::Snat(*name), *chassis))?;
    }
    Ok(zones)
}

// Puts who has the name with its home, if it comes there.
fn put_comer(
    comers: &mut NameMap<Name>,
    before: &NameMap<Name>,
    name: &Name,
    home: &Option<Name>,
) -> Result<(), NoMemory>
    ensures { OnOk result ((q : Name) → at comers.new q ≡ cond (is_at (slice_cmp nat_cmp name.now) q) (option_or (comes_to (at before.now name.now) (Some home.now)) (at comers.old q)) (at comers.old q)) }
{
    match home {
        Some(chassis) if !is_home_on(before.get(name), chassis) => {
            comers.insert(*name, *chassis)?;
            Ok(())
        }
        _ => Ok(()),
    }
}

// Those of the named who come to a chassis, each with it.
fn comers(
    alloc: Global,
    before: &NameMap<Name>,
    change: &[(Name, Option<Name>)],
) -> Result<NameMap<Name>, NoMemory>
    requires { EachOnce (map (λ e. e.0) change.now) }
    ensures { IfOk result (λ m. AreComers before.now change.now m) }
{
    let mut comers = NameMap::new(alloc);
    'change: for (name, home) in change {
        put_comer(&mut comers, before, name, home)?;
    }
    let _in_order = comers.entries();
    Ok(comers)
}

// The zones that come, each with its chassis: those of the named, since who isn't named stays.
pub(crate) fn coming(
    alloc: Global,
    before: &Homes,
    change: &HomeChange,
) -> Result<List<(ZoneUse, Name)>, NoMemory>
    requires ports_once { EachOnce (map (λ e. e.0) change.now.ports) }
    requires routers_once { EachOnce (map (λ e. e.0) change.now.routers) }
    ensures { IfOk result (λ l. (after : KnownHomes) → IsRehomed before.now change.now after → l ≡ coming before.now change.now after) }
{
    let nobody = NameMap::new(alloc);
    let comers = Homes {
        ports: comers(alloc, &before.ports, change.ports.as_slice())?,
        routers: comers(alloc, &nobody, change.routers.as_slice())?,
    };
    zones_in(alloc, &comers)
}
