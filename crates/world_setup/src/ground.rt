//! What the tables of the chassis follow from.
ghost use Rattle.std.specs.Prelude.{◌≡◌, IfOk};
ghost use Rattle.physical_flows.specs.Compiling.{basis_of};
ghost use Rattle.tunnel_keys.specs.Keys.{settled};
ghost use Rattle.net_model.specs.Config.{is_chassis};
ghost use Rattle.net_model.specs.State.{empty};
ghost use Rattle.ovn_base.specs.names.ByName.{at};
ghost use Rattle.world_setup.specs.Ground.{basis_in, ground_after, ground_of, IsChangeOf};
ghost use Rattle.world_setup.specs.Refusing.{is_virtual_port};
ghost use Rattle.sim_laws.specs.journeys.First.{nobody_home};

use conn_zones::zones::{ConnZones, ZonePatch};
use nb_edits::edit::apply;
use nb_edits::plan::EditPlan;
use nb_records::records::Records;
use nb_records::switch::PortKind;
use ovn_base::limits::{MAX_DATAPATH_KEY, MAX_PORT_KEY};
use ovn_base::list::List;
use ovn_base::memory::NoMemory;
use ovn_base::name::Name;
use physical_flows::compile::Maps;
use std::alloc::Global;
use std::marker::Model;
use tunnel_keys::store::{KeyPlan, KeyStore};

/// The records, the chassis, the keys, and where ports are at home, with the numbers of their zones there.
#[derive(Drop)]
pub(crate) struct Ground {
    pub(crate) records: Records,
    // In order of name.
    pub(crate) chassis: List<Name>,
    pub(crate) keys: KeyStore,
    // Ports are at home where they are bound.
    pub(crate) zones: ConnZones,
}

impl Model for Ground {
    ghost use Rattle.match_language.specs.contracts.expr.Expr as expr;
    ghost use Rattle.std.specs.Coded.{codes};
    ghost use Rattle.world_setup.specs.Ground.{GroundView};

    ghost Value = { GroundView };

    ghost coded = { Prim.hlevel (codes, expr.the_row.coded) };

    ghost view = { λ g. record { config = record { net = g.records; chassis = g.chassis; bindings = g.zones.homes.ports }; keys = g.keys; zones = g.zones } };
}

/// What an event makes of the ground; what it leaves as it is is `None`.
#[derive(Drop)]
pub struct GroundChange {
    /// The records, as an edit is planned.
    pub records: Option<EditPlan>,
    /// All chassis, in order of name.
    pub chassis: Option<List<Name>>,
    /// The keys, as they are planned.
    pub keys: Option<KeyPlan>,
    /// Homes, with the numbers of zones.
    pub zones: Option<ZonePatch>,
}

impl Ground {
    /// No record, no chassis, no key, and nobody at home anywhere.
    pub(crate) fn new(alloc: Global) -> Result<Ground, NoMemory>
        ensures { IfOk result (λ g. g ≡ ground_of empty nobody_home) }
    {
        Ok(Ground {
            records: Records::new(alloc)?,
            chassis: List::new(alloc),
            keys: KeyStore::with_ranges(alloc, MAX_DATAPATH_KEY, MAX_PORT_KEY)?,
            zones: ConnZones::new(alloc)?,
        })
    }

    /// Whether the chassis is there.
    pub(crate) fn is_chassis(&self, chassis: &Name) -> bool
        ensures { result ≡ is_chassis self.now.config chassis.now }
    {
        self.chassis
            .as_slice()
            .iter()
            .any(|other| *other == *chassis)
    }

    /// Whether a virtual port of the name is there.
    pub(crate) fn is_virtual_port(&self, port: &Name) -> bool
        ensures { result ≡ is_virtual_port (at self.now.config.net.switch_ports port.now) }
    {
        match self.records.switch_port(port) {
            Some(port) => matches!(port.kind, PortKind::Virtual),
            None => false,
        }
    }

    /// What the flows of the chassis follow from after the change.
    pub(crate) fn maps<'a>(&'a self, change: &'a GroundChange, chassis: Name) -> Maps<'a>
        ensures { basis_of result ≡ basis_in (ground_after change.now self.now) chassis }
    {
        let (homes, numbers) = match &change.zones {
            Some(zones) => (zones.homes(), zones.numbers()),
            None => (self.zones.homes(), self.zones.numbers()),
        };
        Maps {
            chassis,
            all: match &change.chassis {
                Some(chassis) => chassis,
                None => &self.chassis,
            },
            records: match &change.records {
                Some(plan) => plan.after(),
                None => &self.records,
            },
            homes,
            keys: match &change.keys {
                Some(plan) => plan.after(),
                None => &self.keys,
            },
            zones: numbers,
        }
    }

    /// Puts a change into force. No memory is taken.
    pub(crate) fn apply(&mut self, change: GroundChange)
        requires { IsChangeOf self.old change }
        ensures { self.new ≡ ground_after change self.old }
    {
        let GroundChange {
            records,
            chassis,
            keys,
            zones,
        } = change;
        if let Some(plan) = records {
            apply(&mut self.records, plan);
        }
        if let Some(chassis) = chassis {
            self.chassis = chassis;
        }
        if let Some(plan) = keys {
            self.keys.apply(plan);
        }
        if let Some(patch) = zones {
            self.zones.apply(patch);
        }
    }

    /// Frees all retired keys.
    pub(crate) fn settle(&mut self)
        ensures { self.new ≡ record self.old { keys = settled self.old.keys } }
    {
        self.keys.settle();
    }
}
