//! Homes and zone numbers, and how they change.
ghost use Rattle.std.specs.Prelude.{◌≡◌, IfOk, []};
ghost use Rattle.conn_zones.specs.Zoning.{IsZoned};
ghost use Rattle.conn_zones.specs.Rezoning.{IsHomeChange, IsRezoned, IsZonePatchFor};

use crate::change::HomeChange;
use crate::giving::give_each;
use crate::homes::Homes;
use crate::keeping::coming;
use crate::name_map::NameMap;
use crate::numbers::ZoneNumbers;
use ovn_base::memory::NoMemory;
use std::alloc::Global;
use std::marker::Model;

/// Where virtual ports and gateway routers are at home, and the numbers of their connection lists there: one of each port, and one
/// for DNAT and one for SNAT of each router. Who is at home on a chassis has exactly these numbers, and nobody else has one there;
/// no two numbers of a chassis are the same.
#[derive(Drop)]
pub struct ConnZones {
    alloc: Global,
    homes: Homes,
    numbers: ZoneNumbers,
}

impl Model for ConnZones {
    ghost use Rattle.conn_zones.specs.Zoning.{Zoned, IsZoned};

    ghost Value = { Zoned };

    ghost view = { λ z. record { homes = z.homes; numbers = z.numbers } };

    ghost invariant = { λ z. IsZoned (record { homes = z.homes; numbers = z.numbers }) };
}

/// Homes and numbers after a change, made by [`ConnZones::prepare`] and put into force by [`ConnZones::apply`].
#[derive(Drop)]
pub struct ZonePatch {
    after: ConnZones,
}

impl Model for ZonePatch {
    ghost use Rattle.conn_zones.specs.Zoning.{Zoned};

    ghost Value = { Zoned };

    ghost view = { λ p. p.after };
}

impl ZonePatch {
    /// The homes as `apply` leaves them.
    pub fn homes(&self) -> &Homes
        ensures { result.now ≡ self.now.homes }
    {
        self.after.homes()
    }

    /// The numbers as `apply` leaves them.
    pub fn numbers(&self) -> &ZoneNumbers
        ensures { result.now ≡ self.now.numbers }
    {
        self.after.numbers()
    }
}

impl ConnZones {
    /// Nobody is at home anywhere.
    pub fn new(alloc: Global) -> Result<ConnZones, NoMemory>
        ensures homes { IfOk result (λ z. z.homes ≡ record { ports = []; routers = [] }) }
        ensures numbers { IfOk result (λ z. z.numbers ≡ record { ports = []; dnat = []; snat = [] }) }
    {
        Ok(ConnZones {
            alloc,
            homes: Homes {
                ports: NameMap::new(alloc),
                routers: NameMap::new(alloc),
            },
            numbers: ZoneNumbers {
                ports: NameMap::new(alloc),
                dnat: NameMap::new(alloc),
                snat: NameMap::new(alloc),
            },
        })
    }

    /// The homes.
    pub fn homes(&self) -> &Homes
        ensures { result.now ≡ self.now.homes }
    {
        &self.homes
    }

    /// The numbers.
    pub fn numbers(&self) -> &ZoneNumbers
        ensures { result.now ≡ self.now.numbers }
    {
        &self.numbers
    }

    /// What always holds of the homes and the numbers. It does nothing.
    pub fn zones_hold(&self)
        ensures { IsZoned self.now }
    {
        let _homes = &self.homes;
    }

    /// The homes and numbers after a change, in which nobody is named twice; afterwards the ports at home on one chassis and twice
    /// the gateway routers at home there must be at most 65,535. What is held stays as it was.
    ///
    /// Who isn't named keeps home and numbers. A named port whose home stays keeps its number, too; a named router whose home
    /// stays is one of another birth, which gives the numbers up and comes. Who comes to a chassis takes the least numbers that
    /// are free there, ports first in order of name, then routers in order of name, DNAT before SNAT. Numbers that are given up
    /// are free for them.
    pub fn prepare(&mut self, change: &HomeChange) -> Result<ZonePatch, NoMemory>
        requires { IsHomeChange self.old.homes change.now }
        ensures kept { self.new ≡ self.old }
        ensures rezoned { IfOk result (IsRezoned self.old change.now) }
    {
        Ok(ZonePatch {
            after: self.after(change)?,
        })
    }

    /// Puts a patch into force, which was made here and nothing was applied since.
    pub fn apply(&mut self, patch: ZonePatch)
        requires { IsZonePatchFor self.old patch }
        ensures { self.new ≡ patch }
    {
        let ZonePatch { after } = patch;
        *self = after;
    }

    // The homes and numbers after a change.
    fn after(&self, change: &HomeChange) -> Result<ConnZones, NoMemory>
        requires { IsHomeChange self.now.homes change.now }
        ensures { IfOk result (IsRezoned self.now change.now) }
    {
        let alloc = self.alloc;
        let homes = self.homes.after(change)?;
        let mut numbers = self.numbers.kept(alloc, &homes, change)?;
        let zones = coming(alloc, &self.homes, change)?;
        give_each(alloc, &mut numbers, zones.as_slice())?;
        Ok(ConnZones {
            alloc,
            homes,
            numbers,
        })
    }
}
