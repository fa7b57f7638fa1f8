//! What the ports of routers reach without a hop between, as units.
ghost use Rattle.std.specs.Prelude.{◌≡◌, ◌++◌, OnOk, [], ◌∷◌, filter, flat_map};
ghost use Rattle.std.specs.Map.{keys_of};
ghost use Rattle.nb_records.specs.Routers.{partner_of_router_port, peer_by};
ghost use Rattle.nb_records.specs.Switches.{enabled_ports, is_virtual, router_port_behind};
ghost use Rattle.stage_rows.specs.Facts.{answered_if, port_ips};
ghost use Rattle.stage_rows.specs.Units.{bound_ips, ips_beyond, neighbour_units};
ghost use Rattle.northd_core.specs.Listing.{HaveJoined};
ghost use Rattle.northd_core.specs.Routed.{ips_on_switch, neighbours_named, reached_units};

use logical_flows::exact::exact_unit_order;
use logical_flows::unit::UnitId;
use nb_records::addresses::ips_in_entry;
use nb_records::records::Records;
use nb_records::router::RouterPort;
use nb_records::switch::SwitchPort;
use net_model::neighbours::{neighbour, peer_of, switch_before};
use ovn_base::address::Ip4;
use ovn_base::list::List;
use ovn_base::memory::NoMemory;
use ovn_base::name::Name;
use stage_rows::answered::{answered_behind, answered_ips};
use std::alloc::Global;
use std::collections::BTreeSet;

// ---- the addresses that a port may reach

// Adds the addresses to which the port is bound.
fn push_bound(records: &Records, port: &RouterPort, ips: &mut List<Ip4>) -> Result<(), NoMemory>
    ensures { OnOk result (ips.new ≡ ips.old ++ bound_ips records.now port.now) }
{
    'bindings: for (_name, binding) in records.static_macs() {
        if binding.port == port.name {
            ips.push(binding.ip)?;
        }
    }
    Ok(())
}

// Adds the IPv4 addresses of the port's entries.
fn push_port_ips(port: &SwitchPort, ips: &mut List<Ip4>) -> Result<(), NoMemory>
    ensures { OnOk result (ips.new ≡ ips.old ++ port_ips port.now) }
{
    'entries: for entry in port.addresses.as_slice() {
        ips.extend_from_slice(ips_in_entry(entry))?;
    }
    Ok(())
}

// Adds those of the switch's enabled virtual ports.
fn push_virtual(records: &Records, switch: &Name, ips: &mut List<Ip4>) -> Result<(), NoMemory>
    ensures { OnOk result (ips.new ≡ ips.old ++ flat_map port_ips (filter is_virtual (enabled_ports records.now switch.now))) }
{
    'ports: for (_name, port) in records.switch_ports() {
        if port.switch == *switch {
            if port.enabled {
                if port.kind.is_virtual() {
                    push_port_ips(port, ips)?;
                }
            }
        }
    }
    Ok(())
}

// Adds those that the router ports behind the switch's enabled ports answer.
fn push_behind(
    alloc: Global,
    records: &Records,
    switch: &Name,
    ips: &mut List<Ip4>,
) -> Result<(), NoMemory>
    ensures { OnOk result (ips.new ≡ ips.old ++ flat_map (λ q. answered_if records.now (router_port_behind records.now q)) (enabled_ports records.now switch.now)) }
{
    'ports: for (_name, port) in records.switch_ports() {
        if port.switch == *switch {
            if port.enabled {
                ips.append(answered_behind(alloc, records, port)?)?;
            }
        }
    }
    Ok(())
}

// Adds those on the switch.
fn push_on_switch(
    alloc: Global,
    records: &Records,
    switch: &Name,
    ips: &mut List<Ip4>,
) -> Result<(), NoMemory>
    ensures { OnOk result (ips.new ≡ ips.old ++ ips_on_switch records.now switch.now) }
{
    push_virtual(records, switch, ips)?;
    push_behind(alloc, records, switch, ips)?;
    Ok(())
}

// Adds those that the router port which the port is joined to answers, if there is one.
fn push_joined(
    alloc: Global,
    records: &Records,
    port: &RouterPort,
    ips: &mut List<Ip4>,
) -> Result<(), NoMemory>
    ensures { OnOk result (ips.new ≡ ips.old ++ answered_if records.now (peer_by records.now port.now.name port.now.peer)) }
{
    match peer_of(records, port) {
        Some(peer) => ips.append(answered_ips(alloc, records, peer)?),
        None => Ok(()),
    }
}

// Adds those that the port may reach by its partner.
fn push_beyond(
    alloc: Global,
    records: &Records,
    port: &RouterPort,
    ips: &mut List<Ip4>,
) -> Result<(), NoMemory>
    ensures { OnOk result (ips.new ≡ ips.old ++ ips_beyond records.now (partner_of_router_port records.now port.now)) }
{
    match switch_before(records, port) {
        Some(switch) => {
            push_on_switch(alloc, records, &switch, ips)?;
            Ok(())
        }
        None => {
            push_joined(alloc, records, port, ips)?;
            Ok(())
        }
    }
}

// ---- those that it reaches

// Puts the address among the units, if the router port of that name reaches it.
#[tactic(auto, using(crate::proofs::ReachedUnits::one_reached, crate::proofs::ReachedUnits::none_reached))]
fn put_if_reached(
    records: &Records,
    port: &Name,
    ip: Ip4,
    units: &mut BTreeSet<UnitId>,
) -> Result<(), NoMemory>
    ensures { OnOk result (HaveJoined (reached_units records.now port.now (ip ∷ [])) units.old.keys units.new.keys) }
{
    exact_unit_order();
    match neighbour(records, port, ip) {
        Some(_) => {
            units.insert(UnitId::Neighbour { port: *port, ip })?;
            Ok(())
        }
        None => Ok(()),
    }
}

// Puts those of the addresses among the units that the router port of that name reaches.
fn put_reached(
    records: &Records,
    port: &Name,
    ips: &[Ip4],
    units: &mut BTreeSet<UnitId>,
) -> Result<(), NoMemory>
    ensures { OnOk result (HaveJoined (reached_units records.now port.now ips.now) units.old.keys units.new.keys) }
{
    'ips: for ip in ips {
        put_if_reached(records, port, *ip, units)?;
    }
    Ok(())
}

// Puts what the router port reaches among the units.
fn put_neighbours_of(
    alloc: Global,
    records: &Records,
    name: &Name,
    units: &mut BTreeSet<UnitId>,
) -> Result<(), NoMemory>
    ensures { OnOk result (HaveJoined (neighbours_named records.now name.now) units.old.keys units.new.keys) }
{
    match records.router_port(name) {
        Some(port) => {
            let mut ips = List::new(alloc);
            push_bound(records, port, &mut ips)?;
            push_beyond(alloc, records, port, &mut ips)?;
            put_reached(records, name, ips.as_slice(), units)?;
            Ok(())
        }
        None => Ok(()),
    }
}

// Puts what each router port reaches among the units, by name.
fn put_named(alloc: Global, records: &Records, units: &mut BTreeSet<UnitId>) -> Result<(), NoMemory>
    ensures { OnOk result (HaveJoined (flat_map (neighbours_named records.now) (keys_of records.now.router_ports)) units.old.keys units.new.keys) }
{
    for (name, _) in records.router_ports() {
        put_neighbours_of(alloc, records, name, units)?;
    }
    Ok(())
}

/// Puts what each router port reaches among the units.
pub(crate) fn put_neighbours(
    alloc: Global,
    records: &Records,
    units: &mut BTreeSet<UnitId>,
) -> Result<(), NoMemory>
    ensures { OnOk result (HaveJoined (neighbour_units records.now) units.old.keys units.new.keys) }
{
    records.hold();
    put_named(alloc, records, units)?;
    Ok(())
}
