//! The flows of a chassis around its pipelines, from the records, the keys and the homes.
ghost use Rattle.std.specs.Prelude.{◌≡◌, ◌++◌, [], ◌∷◌, map, Some, IfOk, OnOk};
ghost use Rattle.std.specs.Option.{option_copied, option_map};
ghost use Rattle.ovn_base.specs.names.ByName.{at, IsByName};
ghost use Rattle.physical_flows.specs.Around.{around_everywhere};
ghost use Rattle.nb_records.specs.Routers.{switch_side, router_side, partner_of_switch_port, partner_of_router_port, switch_port_before, peer_by};
ghost use Rattle.nb_records.specs.Switches.{is_virtual, router_port_behind};
ghost use Rattle.net_model.specs.Config.{on, home_if, chassis_home, home_of_router_port, home_of};
ghost use Rattle.physical_flows.specs.Homes.{ArePortsNamed};
ghost use Rattle.physical_flows.specs.Places.{home_at};
ghost use Rattle.physical_flows.specs.Stages.{config_of, zone_of, switch_patch, beyond};
ghost use Rattle.physical_flows.specs.TableList.{bound_rows, homed_rows, way_row, is_group_member, is_other_among, others_among};
ghost use Rattle.physical_flows.specs.PlacedList.{zone_here, placed_at, placed_port, placed_among, placed_homes, placed_members, rows_placed};
ghost use Rattle.physical_flows.specs.Units.{all_units, patch_rows_if, rows_here};
ghost use Rattle.physical_flows.specs.declared.unit.FlowUnit.TheVariants as unit;
ghost use Rattle.physical_flows.specs.Compiling.{basis_of};
ghost use Rattle.physical_flows.specs.RecordKeys.{HaveKeys};

use crate::beyond::Beyond;
use crate::place::{Place, Placed};
use crate::rows::{
    push_common, push_enter, push_exits, push_group, push_local, push_no_peer, push_pass,
    push_patch, push_remote,
};
use crate::unit::FlowUnit;
use conn_zones::homes::Homes;
use conn_zones::numbers::ZoneNumbers;
use flow_table::exact::exact_flow_clone;
use flow_table::flow::{Member, SharedFlow};
use nb_records::addresses::{router_port_behind, takes_unknown};
use nb_records::records::Records;
use nb_records::references::{is_given, is_named};
use nb_records::router::RouterPort;
use nb_records::switch::{PortKind, SwitchPort};
use net_model::crossing::Group;
use net_model::neighbours::peer_of;
use ovn_base::list::List;
use ovn_base::memory::NoMemory;
use ovn_base::name::Name;
use std::alloc::Global;
use tunnel_keys::store::KeyStore;

/// What the flows of a chassis follow from.
#[derive(Clone, Copy)]
pub struct Maps<'a> {
    pub chassis: Name,
    /// All chassis, in order of name.
    pub all: &'a List<Name>,
    pub records: &'a Records,
    /// Where ports are at home: where they are bound.
    pub homes: &'a Homes,
    pub keys: &'a KeyStore,
    pub zones: &'a ZoneNumbers,
}

impl Maps<'_> {
    // The home of a router that has this chassis, or none.
    fn place_on(&self, chassis: &Option<Name>) -> Place
        ensures { home_at result ≡ chassis_home (config_of (basis_of self.now)) chassis.now }
    {
        match chassis {
            None => Place::Everywhere,
            Some(chassis) => self.place_if(chassis),
        }
    }

    // The home of a gateway router that has this chassis.
    fn place_if(&self, chassis: &Name) -> Place
        ensures { home_at result ≡ chassis_home (config_of (basis_of self.now)) (Some chassis.now) }
    {
        if is_named(self.all.as_slice(), chassis) {
            Place::On(*chassis)
        } else {
            Place::Nowhere
        }
    }

    // The home of the router port.
    fn place_of_router_port(&self, port: &RouterPort) -> Place
        ensures { home_at result ≡ home_of_router_port (config_of (basis_of self.now)) port.now }
    {
        match self.records.router(&port.router) {
            Some(router) => self.place_on(&router.chassis),
            None => Place::Nowhere,
        }
    }

    // The home of the router port behind the port.
    fn place_behind(&self, port: &SwitchPort) -> Place
        ensures { home_at result ≡ home_if (home_of_router_port (config_of (basis_of self.now))) (router_port_behind (basis_of self.now).net port.now) }
    {
        match router_port_behind(self.records, port) {
            Some(behind) => self.place_of_router_port(behind),
            None => Place::Nowhere,
        }
    }

    // The chassis to which the port is bound, looked for near the one that was found last.
    fn place_bound(&self, port: &Name, near: &mut usize) -> Place
        ensures { home_at result ≡ home_if on (at (basis_of self.now).bindings port.now) }
    {
        match self.homes.port_near(port, near) {
            Some(home) => Place::On(*home),
            None => Place::Nowhere,
        }
    }

    // The home of the port. That of a virtual one is looked for near the one that was found last.
    fn place_of(&self, port: &SwitchPort, near: &mut usize) -> Place
        ensures { home_at result ≡ home_of (config_of (basis_of self.now)) port.now }
    {
        match port.kind {
            PortKind::Virtual => self.place_bound(&port.name, near),
            PortKind::Router => self.place_behind(port),
        }
    }

    // The zone of a port where it is reached on the chassis, or else 0.
    fn zone_here(&self, here: bool, port: &Name) -> u16
        ensures { result ≡ zone_here (basis_of self.now) here port.now }
    {
        if here {
            self.zones.port(&self.chassis, port).unwrap_or(0)
        } else {
            0
        }
    }

    // What the groups ask of the port with that key and place.
    fn placed_at(&self, name: &Name, key: u16, port: &SwitchPort, place: &Place) -> Placed
        ensures { result ≡ placed_at (basis_of self.now) (name.now, key) port.now (home_at place.now) }
    {
        let here = place.is_reached(false, &self.chassis);
        let zone = self.zone_here(here, name);
        let home = place.chassis();
        Placed {
            member: Member { key, zone },
            home,
            here,
            reached: place.is_reached(true, &self.chassis),
            flood: is_member(Group::Flood, port),
            unknown: is_member(Group::Unknown, port),
        }
    }

    // What the groups ask of the port with that key, whose home is looked for near the one that was found last.
    fn placed_port(&self, name: &Name, key: u16, port: &SwitchPort, near: &mut usize) -> Placed
        ensures { result ≡ placed_port (basis_of self.now) (name.now, key) port.now }
    {
        self.placed_at(name, key, port, &self.place_of(port, near))
    }

    // What the groups ask of each of the ports, in one pass.
    fn placed_among(&self, alloc: Global, ports: &[(Name, u16)]) -> Result<List<Placed>, NoMemory>
        ensures { IfOk result (λ placed. placed ≡ placed_among (basis_of self.now) ports.now) }
    {
        let mut placed = List::new(alloc);
        let mut near = 0;
        'ports: for (name, key) in ports {
            if let Some(port) = self.records.switch_port(name) {
                placed.push(self.placed_port(name, *key, port, &mut near))?;
            }
        }
        Ok(placed)
    }

    // The other chassis among these.
    fn others_among(&self, alloc: Global, homes: &[Name]) -> Result<List<Name>, NoMemory>
        ensures { IfOk result (λ others. others ≡ others_among (basis_of self.now) homes.now) }
    {
        let mut others = List::new(alloc);
        'all: for chassis in self.all.as_slice() {
            if self.is_other(chassis, homes) {
                others.push(*chassis)?;
            }
        }
        Ok(others)
    }

    // Whether the chassis is another one, and among these.
    fn is_other(&self, chassis: &Name, homes: &[Name]) -> bool
        ensures { result ≡ is_other_among (basis_of self.now) homes.now chassis.now }
    {
        *chassis != self.chassis && is_named(homes, chassis)
    }

    // Adds the rows of a group of a switch, which has these ports.
    fn push_group(
        &self,
        alloc: Global,
        dp: u32,
        group: Group,
        ports: &[Placed],
        flows: &mut List<SharedFlow>,
    ) -> Result<(), NoMemory>
        ensures { OnOk result (flows.new ≡ flows.old ++ rows_placed (basis_of self.now) dp group ports.now) }
    {
        let homes = placed_homes(alloc, group, ports)?;
        let others = self.others_among(alloc, homes.as_slice())?;
        let here = placed_members(alloc, group, false, ports)?;
        let reached = placed_members(alloc, group, true, ports)?;
        push_group(
            alloc,
            dp,
            group,
            others.as_slice(),
            here.as_slice(),
            reached.as_slice(),
            flows,
        )
    }

    // Adds the rows that a switch has by who is at home on the chassis.
    fn push_switch_here(
        &self,
        alloc: Global,
        name: &Name,
        flows: &mut List<SharedFlow>,
    ) -> Result<(), NoMemory>
        requires sorted { IsByName (basis_of self.now).net.switch_ports }
        requires named { ArePortsNamed (basis_of self.now).net }
        requires keys { HaveKeys (basis_of self.now).net (basis_of self.now).keys }
        ensures { OnOk result (flows.new ≡ flows.old ++ rows_here (basis_of self.now) (unit.Switch name.now)) }
    {
        if self.records.switch(name).is_none() {
            return Ok(());
        }
        let Some(datapath) = self.keys.datapath(name) else {
            return Ok(());
        };
        let Some(ports) = self.keys.ports(name) else {
            return Ok(());
        };
        let placed = self.placed_among(alloc, ports.list.as_slice())?;
        let ports = placed.as_slice();
        self.push_group(alloc, datapath, Group::Flood, ports, flows)?;
        self.push_group(alloc, datapath, Group::Unknown, ports, flows)
    }

    // Adds the rows around the pipelines that a port has on every chassis.
    fn push_port_around(
        &self,
        alloc: Global,
        name: &Name,
        flows: &mut List<SharedFlow>,
    ) -> Result<(), NoMemory>
        ensures { OnOk result (flows.new ≡ flows.old ++ around_everywhere (basis_of self.now) (unit.Port name.now)) }
    {
        let Some(port) = self.records.switch_port(name) else {
            return Ok(());
        };
        let Some(datapath) = self.keys.datapath(&port.switch) else {
            return Ok(());
        };
        let Some(key) = self.keys.port(name) else {
            return Ok(());
        };
        push_exits(alloc, port.kind.is_virtual(), datapath, *name, key, flows)
    }

    // Adds the rows around the pipelines that a router port has on every chassis.
    fn push_router_port_around(
        &self,
        alloc: Global,
        name: &Name,
        flows: &mut List<SharedFlow>,
    ) -> Result<(), NoMemory>
        ensures { OnOk result (flows.new ≡ flows.old ++ around_everywhere (basis_of self.now) (unit.RouterPort name.now)) }
    {
        let Some(port) = self.records.router_port(name) else {
            return Ok(());
        };
        let Some(datapath) = self.keys.datapath(&port.router) else {
            return Ok(());
        };
        let Some(key) = self.keys.port(name) else {
            return Ok(());
        };
        push_exits(alloc, false, datapath, *name, key, flows)
    }

    // Adds the rows that a port has by its home and by where it leads.
    fn push_port_here(
        &self,
        alloc: Global,
        name: &Name,
        flows: &mut List<SharedFlow>,
    ) -> Result<(), NoMemory>
        ensures { OnOk result (flows.new ≡ flows.old ++ rows_here (basis_of self.now) (unit.Port name.now)) }
    {
        let Some(port) = self.records.switch_port(name) else {
            return Ok(());
        };
        let Some(datapath) = self.keys.datapath(&port.switch) else {
            return Ok(());
        };
        let Some(key) = self.keys.port(name) else {
            return Ok(());
        };
        self.push_bound(alloc, datapath, name, key, flows)?;
        self.push_leading(alloc, datapath, port, key, flows)
    }

    // Adds the rows that a router port has by its home and by where it leads.
    fn push_router_port_here(
        &self,
        alloc: Global,
        name: &Name,
        flows: &mut List<SharedFlow>,
    ) -> Result<(), NoMemory>
        ensures { OnOk result (flows.new ≡ flows.old ++ rows_here (basis_of self.now) (unit.RouterPort name.now)) }
    {
        let Some(port) = self.records.router_port(name) else {
            return Ok(());
        };
        let Some(datapath) = self.keys.datapath(&port.router) else {
            return Ok(());
        };
        let Some(key) = self.keys.port(name) else {
            return Ok(());
        };
        self.push_homed(alloc, datapath, key, self.place_of_router_port(port), flows)?;
        self.push_way(alloc, datapath, key, self.way_of_router_port(port), flows)
    }

    // Adds the rows of a port of a switch that leads to a router.
    fn push_leading(
        &self,
        alloc: Global,
        dp: u32,
        port: &SwitchPort,
        key: u16,
        flows: &mut List<SharedFlow>,
    ) -> Result<(), NoMemory>
        ensures { OnOk result (flows.new ≡ flows.old ++ patch_rows_if (is_virtual port.now) (basis_of self.now) (switch_patch (basis_of self.now) port.now dp key)) }
    {
        match port.kind {
            PortKind::Virtual => Ok(()),
            PortKind::Router => {
                self.push_homed(alloc, dp, key, self.place_of(port, &mut 0), flows)?;
                self.push_way(alloc, dp, key, self.way_of(port), flows)
            }
        }
    }

    // Adds the row that a port which leads into another datapath has by its home.
    fn push_homed(
        &self,
        alloc: Global,
        dp: u32,
        key: u16,
        place: Place,
        flows: &mut List<SharedFlow>,
    ) -> Result<(), NoMemory>
        ensures { OnOk result (flows.new ≡ flows.old ++ homed_rows (basis_of self.now).chassis (home_at place) dp key) }
    {
        match place {
            Place::Nowhere => Ok(()),
            Place::On(home) => {
                if home == self.chassis {
                    push_pass(alloc, dp, key, flows)
                } else {
                    push_remote(alloc, dp, key, home, flows)
                }
            }
            Place::Everywhere => push_enter(alloc, dp, key, flows),
        }
    }

    // Adds the row by which packets pass into the other datapath, where there is one.
    fn push_way(
        &self,
        alloc: Global,
        dp: u32,
        key: u16,
        to: Option<Beyond>,
        flows: &mut List<SharedFlow>,
    ) -> Result<(), NoMemory>
        ensures { OnOk result (flows.new ≡ flows.old ++ way_row dp key to ∷ []) }
    {
        match to {
            Some(to) => push_patch(alloc, dp, key, to, flows),
            None => push_no_peer(alloc, dp, key, flows),
        }
    }

    // Where a packet comes in that passes into a switch by its port.
    fn into_switch(&self, port: &SwitchPort) -> Beyond
        ensures { result ≡ beyond (basis_of self.now) (switch_side port.now) }
    {
        Beyond {
            dp: self.keys.datapath(&port.switch).unwrap_or(0),
            in_port: self.keys.port(&port.name).unwrap_or(0),
            z_dnat: 0,
            z_snat: 0,
        }
    }

    // Where a packet comes in that passes into a router by its port.
    fn into_router(&self, port: &RouterPort) -> Beyond
        ensures { result ≡ beyond (basis_of self.now) (router_side port.now) }
    {
        Beyond {
            dp: self.keys.datapath(&port.router).unwrap_or(0),
            in_port: self.keys.port(&port.name).unwrap_or(0),
            z_dnat: self.zones.dnat(&self.chassis, &port.router).unwrap_or(0),
            z_snat: self.zones.snat(&self.chassis, &port.router).unwrap_or(0),
        }
    }

    // Where packets go on that leave a switch by its port.
    fn way_of(&self, port: &SwitchPort) -> Option<Beyond>
        ensures { result ≡ option_map (beyond (basis_of self.now)) (partner_of_switch_port (basis_of self.now).net port.now) }
    {
        match router_port_behind(self.records, port) {
            Some(behind) => Some(self.into_router(behind)),
            None => None,
        }
    }

    // Where packets go on that leave a router by its port: by the switch port before it, or else by its peer.
    fn way_of_router_port(&self, port: &RouterPort) -> Option<Beyond>
        ensures { result ≡ option_map (beyond (basis_of self.now)) (partner_of_router_port (basis_of self.now).net port.now) }
    {
        match port_before(self.records, port) {
            Some(before) => Some(self.into_switch(before)),
            None => self.way_to_peer(port),
        }
    }

    // By its peer.
    fn way_to_peer(&self, port: &RouterPort) -> Option<Beyond>
        ensures { result ≡ option_map (beyond (basis_of self.now)) (option_map router_side (peer_by (basis_of self.now).net port.now.name port.now.peer)) }
    {
        match peer_of(self.records, port) {
            Some(peer) => Some(self.into_router(peer)),
            None => None,
        }
    }

    // Adds the rows that a port has by its home, with the keys of its switch and its own.
    fn push_bound(
        &self,
        alloc: Global,
        dp: u32,
        name: &Name,
        key: u16,
        flows: &mut List<SharedFlow>,
    ) -> Result<(), NoMemory>
        ensures { OnOk result (flows.new ≡ flows.old ++ bound_rows (basis_of self.now).chassis
            (at (basis_of self.now).bindings name.now) (zone_of (basis_of self.now) name.now) dp name.now key) }
    {
        let Some(home) = self.homes.port(name) else {
            return Ok(());
        };
        if *home != self.chassis {
            return push_remote(alloc, dp, key, *home, flows);
        }
        match self.zones.port(&self.chassis, name) {
            Some(zone) => push_local(alloc, dp, *name, key, zone, flows),
            None => Ok(()),
        }
    }

    // The rows around the pipelines that a unit has on every chassis.
    fn rows_around(&self, alloc: Global, unit: &FlowUnit) -> Result<List<SharedFlow>, NoMemory>
        ensures { IfOk result (λ rows. rows ≡ around_everywhere (basis_of self.now) unit.now) }
    {
        let mut rows = List::new(alloc);
        match unit {
            FlowUnit::Common => push_common(alloc, &mut rows)?,
            FlowUnit::Switch(_) => {}
            FlowUnit::Port(name) => self.push_port_around(alloc, name, &mut rows)?,
            FlowUnit::RouterPort(name) => self.push_router_port_around(alloc, name, &mut rows)?,
        }
        Ok(rows)
    }

    /// The units, each with those of its rows around the pipelines that are the same on every chassis.
    pub fn around(
        &self,
        alloc: Global,
        units: &[FlowUnit],
    ) -> Result<List<(FlowUnit, List<SharedFlow>)>, NoMemory>
        ensures { IfOk result (λ rows. rows ≡ map (λ u. (u, around_everywhere (basis_of self.now) u)) units.now) }
    {
        let mut rows = List::new(alloc);
        'units: for unit in units {
            rows.push((*unit, self.rows_around(alloc, unit)?))?;
        }
        Ok(rows)
    }

    /// All rows of a unit, of which those are given that are the same on every chassis.
    pub(crate) fn rows_of(
        &self,
        alloc: Global,
        unit: &FlowUnit,
        everywhere: &List<SharedFlow>,
    ) -> Result<List<SharedFlow>, NoMemory>
        requires sorted { IsByName (basis_of self.now).net.switch_ports }
        requires named { ArePortsNamed (basis_of self.now).net }
        requires keys { HaveKeys (basis_of self.now).net (basis_of self.now).keys }
        ensures { IfOk result (λ rows. rows ≡ everywhere.now ++ rows_here (basis_of self.now) unit.now) }
    {
        exact_flow_clone();
        let mut rows = everywhere.copy()?;
        match unit {
            FlowUnit::Common => {}
            FlowUnit::Switch(name) => self.push_switch_here(alloc, name, &mut rows)?,
            FlowUnit::Port(name) => self.push_port_here(alloc, name, &mut rows)?,
            FlowUnit::RouterPort(name) => self.push_router_port_here(alloc, name, &mut rows)?,
        }
        Ok(rows)
    }

    /// All units that have rows.
    pub fn units(&self, alloc: Global) -> Result<List<FlowUnit>, NoMemory>
        ensures { IfOk result (λ units. units ≡ all_units (basis_of self.now).net) }
    {
        let mut units = List::new(alloc);
        units.push(FlowUnit::Common)?;
        'switches: for (name, _switch) in self.records.switches() {
            units.push(FlowUnit::Switch(*name))?;
        }
        'ports: for (name, _port) in self.records.switch_ports() {
            units.push(FlowUnit::Port(*name))?;
        }
        'router_ports: for (name, _port) in self.records.router_ports() {
            units.push(FlowUnit::RouterPort(*name))?;
        }
        Ok(units)
    }
}

// Whether the port is in the group of its switch.
fn is_member(group: Group, port: &SwitchPort) -> bool
    ensures { result ≡ is_group_member group port.now }
{
    match group {
        Group::Flood => port.enabled,
        Group::Unknown => port.enabled && takes_unknown(port.addresses.as_slice()),
    }
}

// The chassis on which a member of the group is at home.
fn placed_homes(alloc: Global, group: Group, ports: &[Placed]) -> Result<List<Name>, NoMemory>
    ensures { IfOk result (λ homes. homes ≡ placed_homes group ports.now) }
{
    let mut homes = List::new(alloc);
    'ports: for port in ports {
        if let Some(home) = port.home_in(group) {
            homes.push(home)?;
        }
    }
    Ok(homes)
}

// The members of the group that are reached on the chassis.
fn placed_members(
    alloc: Global,
    group: Group,
    arrived: bool,
    ports: &[Placed],
) -> Result<List<Member>, NoMemory>
    ensures { IfOk result (λ members. members ≡ placed_members group arrived ports.now) }
{
    let mut members = List::new(alloc);
    'ports: for port in ports {
        if port.is_reached_in(group, arrived) {
            members.push(port.member)?;
        }
    }
    Ok(members)
}

// The switch port behind which the router port is.
fn port_before<'a>(records: &'a Records, port: &RouterPort) -> Option<&'a SwitchPort>
    ensures { option_copied result ≡ switch_port_before records.now port.now }
{
    'ports: for (_name, before) in records.switch_ports() {
        if is_given(&port.name, &before.router_port) {
            return Some(before);
        }
    }
    None
}
