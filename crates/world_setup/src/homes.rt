//! Gateway routers that come home.
ghost use Rattle.std.specs.Prelude.{◌≡◌, ◌++◌, IfOk, OnOk, [], map};
ghost use Rattle.conn_zones.specs.Rezoning.{IsHomeChange, IsRezoned};
ghost use Rattle.ovn_base.specs.declared.name.Name.{Name};
ghost use Rattle.sim_laws.specs.journeys.TurnedZones.{coming_home, routers_coming, zone_numbered, zones_begun};
ghost use Rattle.world_setup.specs.Homecoming.{comers_of, home_among, homes_by};

use conn_zones::change::HomeChange;
use conn_zones::homes::Homes;
use conn_zones::numbers::ZoneNumbers;
use conn_zones::zones::{ConnZones, ZonePatch};
use nb_records::records::Records;
use nb_records::references::is_named;
use nb_records::router::Router;
use ovn_base::list::List;
use ovn_base::memory::NoMemory;
use ovn_base::name::Name;
use std::alloc::Global;

/// Homes and zones once gateway routers came home, and the zones with which these begin, each with its chassis.
#[derive(Drop)]
pub(crate) struct Homecoming {
    pub(crate) zones: ZonePatch,
    pub(crate) begun: List<(Name, u16)>,
}

// The chassis of a gateway router, if it is one of these.
fn home_among(router: &Router, chassis: &[Name]) -> Option<Name>
    ensures { result ≡ home_among chassis.now router.now }
{
    match router.chassis {
        Some(home) if is_named(chassis, &home) => Some(home),
        _ => None,
    }
}

// Adds the router with its home, if it comes home.
fn push_comer(
    homes: &Homes,
    name: Name,
    home: Option<Name>,
    comers: &mut List<(Name, Name)>,
) -> Result<(), NoMemory>
    ensures { OnOk result (comers.new ≡ comers.old ++ comers_of homes.now name home) }
{
    match home {
        Some(chassis) if homes.router(&name).is_none() => comers.push((name, chassis)),
        _ => Ok(()),
    }
}

// The gateway routers that come home, in order of name: those whose chassis is there, and that are at home nowhere yet.
fn routers_coming(
    alloc: Global,
    homes: &Homes,
    records: &Records,
    chassis: &[Name],
) -> Result<List<(Name, Name)>, NoMemory>
    ensures { IfOk result (λ routers. routers ≡ routers_coming homes.now (homes_by homes.now records.now chassis.now)) }
{
    let mut comers = List::new(alloc);
    'routers: for (name, router) in records.routers() {
        push_comer(homes, *name, home_among(router, chassis), &mut comers)?;
    }
    Ok(comers)
}

// They are at home there from now on.
fn coming_home(alloc: Global, routers: &[(Name, Name)]) -> Result<HomeChange, NoMemory>
    ensures { IfOk result (λ change. change ≡ record { ports = []; routers = map (λ (e : Name × Name). (e.0, Some e.1)) routers.now }) }
{
    let mut homes = List::new(alloc);
    'routers: for (name, chassis) in routers {
        homes.push((*name, Some(*chassis)))?;
    }
    Ok(HomeChange {
        ports: List::new(alloc),
        routers: homes,
    })
}

// Adds the zone of that number on the chassis, if there is a number.
fn push_zone(
    chassis: Name,
    number: Option<u16>,
    zones: &mut List<(Name, u16)>,
) -> Result<(), NoMemory>
    ensures { OnOk result (zones.new ≡ zones.old ++ zone_numbered chassis number) }
{
    match number {
        Some(number) => zones.push((chassis, number)),
        None => Ok(()),
    }
}

// The zones with which routers begin on their chassis.
fn zones_begun(
    alloc: Global,
    numbers: &ZoneNumbers,
    routers: &[(Name, Name)],
) -> Result<List<(Name, u16)>, NoMemory>
    ensures { IfOk result (λ zones. zones ≡ zones_begun numbers.now routers.now) }
{
    let mut zones = List::new(alloc);
    'routers: for (name, chassis) in routers {
        push_zone(*chassis, numbers.dnat(chassis, name), &mut zones)?;
        push_zone(*chassis, numbers.snat(chassis, name), &mut zones)?;
    }
    Ok(zones)
}

/// Homes and zones with these records and these chassis: each gateway router whose chassis is there is at home there, and begins
/// with its zones where it comes home. What is held stays as it was.
pub(crate) fn come_home(
    alloc: Global,
    zones: &mut ConnZones,
    records: &Records,
    chassis: &[Name],
) -> Result<Homecoming, NoMemory>
    requires { IsHomeChange zones.old.homes (coming_home zones.old.homes (homes_by zones.old.homes records.now chassis.now)) }
    ensures kept { zones.new ≡ zones.old }
    ensures rezoned { IfOk result (λ home. IsRezoned zones.old (coming_home zones.old.homes (homes_by zones.old.homes records.now chassis.now)) home.zones) }
    ensures begun { IfOk result (λ home. home.begun ≡ zones_begun home.zones.numbers (routers_coming zones.old.homes (homes_by zones.old.homes records.now chassis.now))) }
{
    let routers = routers_coming(alloc, zones.homes(), records, chassis)?;
    let zones = zones.prepare(&coming_home(alloc, routers.as_slice())?)?;
    let begun = zones_begun(alloc, zones.numbers(), routers.as_slice())?;
    Ok(Homecoming { zones, begun })
}
