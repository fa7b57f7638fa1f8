//! The datapaths and ports by which records differ.
ghost use Rattle.std.specs.Prelude.{◌≡◌, ◌==◌, ◌&&◌, ◌++◌, [], ◌∷◌, flat_map, IfOk, OnOk};
ghost use Rattle.ovn_base.specs.names.ByName.{at};
ghost use Rattle.ovn_base.specs.names.SameName.{same_name};
ghost use Rattle.net_model.specs.Owners.{owners_only_in, switch_owner, router_owner, router_port_owner, switch_port_owner};
ghost use Rattle.nb_edits.specs.Owners as spec;
ghost use Rattle.nb_edits.specs.Touched.{AgreeBut};

use nb_records::records::Records;
use ovn_base::list::List;
use ovn_base::memory::NoMemory;
use ovn_base::name::Name;
use std::alloc::Global;
use std::collections::BTreeSet;
use tunnel_keys::owner::KeyOwner;

// What stands at the owner's name has its birth, and a port is of its datapath.
fn has_owner(records: &Records, owner: &KeyOwner) -> bool
    ensures { result ≡ spec.has_owner records.now owner.now }
{
    match owner {
        KeyOwner::Datapath { name, birth } => {
            is_switch(records, name, birth.0) || is_router(records, name, birth.0)
        }
        KeyOwner::Port {
            datapath,
            name,
            birth,
        } => {
            is_router_port(records, datapath, name, birth.0)
                || is_switch_port(records, datapath, name, birth.0)
        }
    }
}

fn is_switch(records: &Records, name: &Name, birth: u64) -> bool
    ensures { result ≡ spec.passes (λ r. r.birth.0 == birth) (at records.now.switches name.now) }
{
    match records.switch(name) {
        Some(switch) => switch.birth.0 == birth,
        None => false,
    }
}

fn is_router(records: &Records, name: &Name, birth: u64) -> bool
    ensures { result ≡ spec.passes (λ r. r.birth.0 == birth) (at records.now.routers name.now) }
{
    match records.router(name) {
        Some(router) => router.birth.0 == birth,
        None => false,
    }
}

fn is_router_port(records: &Records, datapath: &Name, name: &Name, birth: u64) -> bool
    ensures { result ≡ spec.passes (λ r. same_name r.router datapath.now && (r.birth.0 == birth)) (at records.now.router_ports name.now) }
{
    match records.router_port(name) {
        Some(port) => port.router == *datapath && port.birth.0 == birth,
        None => false,
    }
}

fn is_switch_port(records: &Records, datapath: &Name, name: &Name, birth: u64) -> bool
    ensures { result ≡ spec.passes (λ r. same_name r.switch datapath.now && (r.birth.0 == birth)) (at records.now.switch_ports name.now) }
{
    match records.switch_port(name) {
        Some(port) => port.switch == *datapath && port.birth.0 == birth,
        None => false,
    }
}

// ---- those that other records don't have

// Adds the owner, if the records don't have it.
fn push_new(records: &Records, owner: KeyOwner, owners: &mut List<KeyOwner>) -> Result<(), NoMemory>
    ensures { OnOk result (owners.new ≡ owners.old ++ spec.only_in records.now (owner ∷ [])) }
{
    if has_owner(records, &owner) {
        return Ok(());
    }
    owners.push(owner)
}

// Adds the switch at the name, if one is there that the records don't have.
fn push_switch(
    records: &Records,
    others: &Records,
    name: &Name,
    owners: &mut List<KeyOwner>,
) -> Result<(), NoMemory>
    ensures { OnOk result (owners.new ≡ owners.old ++ spec.new_at records.now switch_owner others.now.switches name.now) }
{
    match others.switch(name) {
        Some(switch) => push_new(
            records,
            KeyOwner::Datapath {
                name: *name,
                birth: switch.birth,
            },
            owners,
        ),
        None => Ok(()),
    }
}

fn push_switches(
    records: &Records,
    others: &Records,
    names: &BTreeSet<Name>,
    owners: &mut List<KeyOwner>,
) -> Result<(), NoMemory>
    ensures { OnOk result (owners.new ≡ owners.old ++ flat_map (spec.new_at records.now switch_owner others.now.switches) names.now.keys) }
{
    'names: for name in names {
        push_switch(records, others, name, owners)?;
    }
    Ok(())
}

// Adds the router at the name, if one is there that the records don't have.
fn push_router(
    records: &Records,
    others: &Records,
    name: &Name,
    owners: &mut List<KeyOwner>,
) -> Result<(), NoMemory>
    ensures { OnOk result (owners.new ≡ owners.old ++ spec.new_at records.now router_owner others.now.routers name.now) }
{
    match others.router(name) {
        Some(router) => push_new(
            records,
            KeyOwner::Datapath {
                name: *name,
                birth: router.birth,
            },
            owners,
        ),
        None => Ok(()),
    }
}

fn push_routers(
    records: &Records,
    others: &Records,
    names: &BTreeSet<Name>,
    owners: &mut List<KeyOwner>,
) -> Result<(), NoMemory>
    ensures { OnOk result (owners.new ≡ owners.old ++ flat_map (spec.new_at records.now router_owner others.now.routers) names.now.keys) }
{
    'names: for name in names {
        push_router(records, others, name, owners)?;
    }
    Ok(())
}

// Adds the router port at the name, if one is there that the records don't have.
fn push_router_port(
    records: &Records,
    others: &Records,
    name: &Name,
    owners: &mut List<KeyOwner>,
) -> Result<(), NoMemory>
    ensures { OnOk result (owners.new ≡ owners.old ++ spec.new_at records.now router_port_owner others.now.router_ports name.now) }
{
    match others.router_port(name) {
        Some(port) => push_new(
            records,
            KeyOwner::Port {
                datapath: port.router,
                name: *name,
                birth: port.birth,
            },
            owners,
        ),
        None => Ok(()),
    }
}

fn push_router_ports(
    records: &Records,
    others: &Records,
    names: &BTreeSet<Name>,
    owners: &mut List<KeyOwner>,
) -> Result<(), NoMemory>
    ensures { OnOk result (owners.new ≡ owners.old ++ flat_map (spec.new_at records.now router_port_owner others.now.router_ports) names.now.keys) }
{
    'names: for name in names {
        push_router_port(records, others, name, owners)?;
    }
    Ok(())
}

// Adds the switch port at the name, if one is there that the records don't have.
fn push_switch_port(
    records: &Records,
    others: &Records,
    name: &Name,
    owners: &mut List<KeyOwner>,
) -> Result<(), NoMemory>
    ensures { OnOk result (owners.new ≡ owners.old ++ spec.new_at records.now switch_port_owner others.now.switch_ports name.now) }
{
    match others.switch_port(name) {
        Some(port) => push_new(
            records,
            KeyOwner::Port {
                datapath: port.switch,
                name: *name,
                birth: port.birth,
            },
            owners,
        ),
        None => Ok(()),
    }
}

fn push_switch_ports(
    records: &Records,
    others: &Records,
    names: &BTreeSet<Name>,
    owners: &mut List<KeyOwner>,
) -> Result<(), NoMemory>
    ensures { OnOk result (owners.new ≡ owners.old ++ flat_map (spec.new_at records.now switch_port_owner others.now.switch_ports) names.now.keys) }
{
    'names: for name in names {
        push_switch_port(records, others, name, owners)?;
    }
    Ok(())
}

/// Of the other records' owners those that the records don't have. Both have the same records at each name but these.
pub(crate) fn new_owners(
    alloc: Global,
    records: &Records,
    others: &Records,
    names: &BTreeSet<Name>,
) -> Result<List<KeyOwner>, NoMemory>
    requires { AgreeBut names.now.keys records.now others.now }
    ensures { IfOk result (λ l. l ≡ owners_only_in others.now records.now) }
{
    records.hold();
    others.hold();
    let _many = names.len();
    let mut owners = List::new(alloc);
    push_switches(records, others, names, &mut owners)?;
    push_routers(records, others, names, &mut owners)?;
    push_router_ports(records, others, names, &mut owners)?;
    push_switch_ports(records, others, names, &mut owners)?;
    Ok(owners)
}
