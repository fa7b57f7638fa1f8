//! The numbers of zones.
ghost use Rattle.std.specs.Prelude.{◌≡◌};
ghost use Rattle.std.specs.Option.{option_copied};
ghost use Rattle.conn_zones.specs.Zoning.{number_at, number_on};
ghost use Rattle.conn_zones.specs.declared.numbers.ZoneUse.TheVariants as uses;

use crate::name_map::NameMap;
use ovn_base::name::Name;
use std::marker::Model;

/// The greatest number of a zone; the least is 1.
pub const MAX_ZONE: u16 = 65_535;

/// What a zone is for.
#[derive(Clone, Copy)]
pub enum ZoneUse {
    /// The connections of a virtual port.
    Port(Name),
    /// The translated destinations of a gateway router.
    Dnat(Name),
    /// The translated sources of a gateway router.
    Snat(Name),
}

/// Where a zone is, and the number that it has there.
#[derive(Clone, Copy)]
pub struct ZonePlace {
    pub chassis: Name,
    pub number: u16,
}

/// The numbers of zones: each chassis has its own, from 1 to [`MAX_ZONE`].
#[derive(Drop)]
pub struct ZoneNumbers {
    pub(crate) ports: NameMap<ZonePlace>,
    pub(crate) dnat: NameMap<ZonePlace>,
    pub(crate) snat: NameMap<ZonePlace>,
}

impl Model for ZoneNumbers {
    ghost use Rattle.conn_zones.specs.Zoning.{GivenNumbers};

    ghost Value = { GivenNumbers };

    ghost view = { λ n. record { ports = n.ports; dnat = n.dnat; snat = n.snat } };
}

// The number of a place on the chassis.
fn number_at(place: Option<&ZonePlace>, chassis: &Name) -> Option<u16>
    ensures { result ≡ number_at chassis.now (option_copied place.entry) }
{
    match place {
        Some(place) if place.chassis == *chassis => Some(place.number),
        _ => None,
    }
}

impl ZoneNumbers {
    /// The number of the port's zone on the chassis; `None` where the port isn't at home there.
    pub fn port(&self, chassis: &Name, name: &Name) -> Option<u16>
        ensures { result ≡ number_on self.now chassis.now (uses.Port name.now) }
    {
        number_at(self.ports.get(name), chassis)
    }

    /// The number of the router's DNAT zone on the chassis; `None` where the router isn't at home there.
    pub fn dnat(&self, chassis: &Name, name: &Name) -> Option<u16>
        ensures { result ≡ number_on self.now chassis.now (uses.Dnat name.now) }
    {
        number_at(self.dnat.get(name), chassis)
    }

    /// The number of the router's SNAT zone on the chassis; `None` where the router isn't at home there.
    pub fn snat(&self, chassis: &Name, name: &Name) -> Option<u16>
        ensures { result ≡ number_on self.now chassis.now (uses.Snat name.now) }
    {
        number_at(self.snat.get(name), chassis)
    }
}
