//! Where ports and gateway routers are at home.
ghost use Rattle.std.specs.Prelude.{◌≡◌};
ghost use Rattle.std.specs.Option.{option_copied};
ghost use Rattle.ovn_base.specs.names.ByName.{at};

use crate::name_map::NameMap;
use ovn_base::name::Name;
use std::marker::Model;

/// The chassis of virtual ports and of gateway routers.
#[derive(Drop)]
pub struct Homes {
    pub(crate) ports: NameMap<Name>,
    pub(crate) routers: NameMap<Name>,
}

impl Model for Homes {
    ghost use Rattle.conn_zones.specs.Zoning.{KnownHomes};

    ghost Value = { KnownHomes };

    ghost view = { λ h. record { ports = h.ports; routers = h.routers } };
}

impl Homes {
    /// The chassis where the virtual port of that name is at home; `None` where it is at home nowhere.
    pub fn port(&self, name: &Name) -> Option<&Name>
        ensures { option_copied result ≡ at self.now.ports name.now }
    {
        self.ports.get(name)
    }

    /// The same as `port`, where the place `near` is tried before a search. If the port is found, `near` becomes the place behind it,
    /// so that ports that follow each other by name take one search.
    pub fn port_near(&self, name: &Name, near: &mut usize) -> Option<&Name>
        ensures { option_copied result ≡ at self.now.ports name.now }
    {
        self.ports.get_near(name, near)
    }

    /// The chassis where the gateway router of that name is at home; `None` where it is at home nowhere.
    pub fn router(&self, name: &Name) -> Option<&Name>
        ensures { option_copied result ≡ at self.now.routers name.now }
    {
        self.routers.get(name)
    }
}
