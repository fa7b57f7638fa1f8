//! Where ports are at home, and what the groups of their switch ask of them.
ghost use Rattle.std.specs.Prelude.{◌≡◌};
ghost use Rattle.net_model.specs.Config.{is_here, is_on};
ghost use Rattle.physical_flows.specs.Homes.{is_reached_at};
ghost use Rattle.physical_flows.specs.Places.{home_at};
ghost use Rattle.physical_flows.specs.PlacedList.{is_in, home_in, is_reached_by, is_reached_in};
ghost use Rattle.physical_flows.specs.TableList.{one_home};

use flow_table::flow::Member;
use net_model::crossing::Group;
use ovn_base::name::Name;

/// Where a port is at home.
#[derive(Clone, Copy, PartialEq, Eq, Debug)]
pub enum Place {
    Nowhere,
    /// On this chassis alone.
    On(Name),
    /// On every chassis: the port of a distributed router, or one that leads to it.
    Everywhere,
}

impl Place {
    // Whether it is this chassis alone.
    fn is_on(&self, chassis: &Name) -> bool
        ensures { result ≡ is_on chassis.now (home_at self.now) }
    {
        match self {
            Place::On(home) => *home == *chassis,
            Place::Nowhere | Place::Everywhere => false,
        }
    }

    // Whether it is this chassis, or every one.
    fn is_here(&self, chassis: &Name) -> bool
        ensures { result ≡ is_here chassis.now (home_at self.now) }
    {
        match self {
            Place::On(home) => *home == *chassis,
            Place::Nowhere => false,
            Place::Everywhere => true,
        }
    }

    /// Whether a packet for the port reaches it on the chassis: one that came out of a tunnel reaches no distributed router.
    pub fn is_reached(&self, arrived: bool, chassis: &Name) -> bool
        ensures { result ≡ is_reached_at arrived chassis.now (home_at self.now) }
    {
        if arrived {
            self.is_on(chassis)
        } else {
            self.is_here(chassis)
        }
    }

    /// The one chassis, where it is one.
    pub fn chassis(&self) -> Option<Name>
        ensures { result ≡ one_home (home_at self.now) }
    {
        match self {
            Place::On(home) => Some(*home),
            Place::Nowhere | Place::Everywhere => None,
        }
    }
}

/// What the groups of a switch ask of one of its ports, on a chassis.
#[derive(Clone, Copy)]
pub struct Placed {
    /// The port as the chassis knows it, of zone 0 where it is not reached there.
    pub member: Member,
    /// The one chassis on which it is at home, where it is one.
    pub home: Option<Name>,
    /// Whether a packet for it reaches it on the chassis.
    pub here: bool,
    /// Whether one that came out of a tunnel does.
    pub reached: bool,
    /// Whether it is in the group to which all get.
    pub flood: bool,
    /// Whether it is in the group to which what has an unknown address gets.
    pub unknown: bool,
}

impl Placed {
    // Whether it is in the group.
    fn is_in(&self, group: Group) -> bool
        ensures { result ≡ is_in group self.now }
    {
        match group {
            Group::Flood => self.flood,
            Group::Unknown => self.unknown,
        }
    }

    // Whether a packet for it reaches it on the chassis.
    fn is_reached(&self, arrived: bool) -> bool
        ensures { result ≡ is_reached_by arrived self.now }
    {
        if arrived { self.reached } else { self.here }
    }

    /// The one chassis on which it is at home, where it is one and the port is in the group.
    pub fn home_in(&self, group: Group) -> Option<Name>
        ensures { result ≡ home_in group self.now }
    {
        if self.is_in(group) { self.home } else { None }
    }

    /// Whether it is a member of the group, and reached on the chassis.
    pub fn is_reached_in(&self, group: Group, arrived: bool) -> bool
        ensures { result ≡ is_reached_in group arrived self.now }
    {
        self.is_in(group) && self.is_reached(arrived)
    }
}
