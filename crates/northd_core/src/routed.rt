//! The units that routers and balancers have.
ghost use Rattle.std.specs.Prelude.{◌≡◌, OnOk, map};
ghost use Rattle.std.specs.Map.{keys_of};
ghost use Rattle.logical_flows.specs.declared.unit.UnitId.TheVariants.{Nat, Port, Route, Router};
ghost use Rattle.stage_rows.specs.Units.{balancer_units, units_of_balancer};
ghost use Rattle.northd_core.specs.Listing.{HaveJoined};
ghost use Rattle.northd_core.specs.Routed.{routed_units, served_units};

use crate::neighbours::put_neighbours;
use logical_flows::exact::exact_unit_order;
use logical_flows::unit::UnitId;
use nb_records::balancer::LoadBalancer;
use nb_records::records::Records;
use nb_records::references::serves;
use ovn_base::memory::NoMemory;
use ovn_base::name::Name;
use std::alloc::Global;
use std::collections::BTreeSet;

// Puts the ports of routers among the units.
fn put_router_ports(records: &Records, units: &mut BTreeSet<UnitId>) -> Result<(), NoMemory>
    ensures { OnOk result (HaveJoined (map Port (keys_of records.now.router_ports)) units.old.keys units.new.keys) }
{
    exact_unit_order();
    for (name, _) in records.router_ports() {
        units.insert(UnitId::Port(*name))?;
    }
    Ok(())
}

// Puts the routes among the units.
fn put_routes(records: &Records, units: &mut BTreeSet<UnitId>) -> Result<(), NoMemory>
    ensures { OnOk result (HaveJoined (map Route (keys_of records.now.routes)) units.old.keys units.new.keys) }
{
    exact_unit_order();
    for (name, _) in records.routes() {
        units.insert(UnitId::Route(*name))?;
    }
    Ok(())
}

// Puts the rows of NAT among the units.
fn put_nats(records: &Records, units: &mut BTreeSet<UnitId>) -> Result<(), NoMemory>
    ensures { OnOk result (HaveJoined (map Nat (keys_of records.now.nats)) units.old.keys units.new.keys) }
{
    exact_unit_order();
    for (name, _) in records.nats() {
        units.insert(UnitId::Nat(*name))?;
    }
    Ok(())
}

// Puts the routers among the units.
fn put_routers(records: &Records, units: &mut BTreeSet<UnitId>) -> Result<(), NoMemory>
    ensures { OnOk result (HaveJoined (map Router (keys_of records.now.routers)) units.old.keys units.new.keys) }
{
    exact_unit_order();
    for (name, _) in records.routers() {
        units.insert(UnitId::Router(*name))?;
    }
    Ok(())
}

// Puts the balancer on each switch that it serves among the units.
fn put_on_switches(
    records: &Records,
    name: &Name,
    balancer: &LoadBalancer,
    units: &mut BTreeSet<UnitId>,
) -> Result<(), NoMemory>
    ensures { OnOk result (HaveJoined (served_units name.now balancer.now (keys_of records.now.switches)) units.old.keys units.new.keys) }
{
    exact_unit_order();
    for (datapath, _) in records.switches() {
        if serves(balancer, datapath) {
            units.insert(UnitId::Balancer {
                balancer: *name,
                datapath: *datapath,
            })?;
        }
    }
    Ok(())
}

// Puts it on each router that it serves among them.
fn put_on_routers(
    records: &Records,
    name: &Name,
    balancer: &LoadBalancer,
    units: &mut BTreeSet<UnitId>,
) -> Result<(), NoMemory>
    ensures { OnOk result (HaveJoined (served_units name.now balancer.now (keys_of records.now.routers)) units.old.keys units.new.keys) }
{
    exact_unit_order();
    for (datapath, _) in records.routers() {
        if serves(balancer, datapath) {
            units.insert(UnitId::Balancer {
                balancer: *name,
                datapath: *datapath,
            })?;
        }
    }
    Ok(())
}

// Puts it on all that it serves among them.
fn put_balancer(
    records: &Records,
    name: &Name,
    balancer: &LoadBalancer,
    units: &mut BTreeSet<UnitId>,
) -> Result<(), NoMemory>
    ensures { OnOk result (HaveJoined (units_of_balancer records.now (name.now, balancer.now)) units.old.keys units.new.keys) }
{
    put_on_switches(records, name, balancer, units)?;
    put_on_routers(records, name, balancer, units)?;
    Ok(())
}

// Puts the balancers among the units.
fn put_balancers(records: &Records, units: &mut BTreeSet<UnitId>) -> Result<(), NoMemory>
    ensures { OnOk result (HaveJoined (balancer_units records.now) units.old.keys units.new.keys) }
{
    for (name, balancer) in records.load_balancers() {
        put_balancer(records, name, balancer, units)?;
    }
    Ok(())
}

/// Puts the units that routers and balancers have among the units.
pub(crate) fn put_routed(
    alloc: Global,
    records: &Records,
    units: &mut BTreeSet<UnitId>,
) -> Result<(), NoMemory>
    ensures { OnOk result (HaveJoined (routed_units records.now) units.old.keys units.new.keys) }
{
    put_router_ports(records, units)?;
    put_routes(records, units)?;
    put_neighbours(alloc, records, units)?;
    put_nats(records, units)?;
    put_balancers(records, units)?;
    put_routers(records, units)?;
    Ok(())
}
