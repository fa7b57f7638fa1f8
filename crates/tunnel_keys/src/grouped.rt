//! Values by the name that they go under.
ghost use Rattle.std.specs.Prelude.{◌≡◌, ◌≢◌, ◌++◌, ◌∷◌, [], IfOk, OnOk, cond};
ghost use Rattle.std.specs.List.{filter, cons_option};
ghost use Rattle.ovn_base.specs.declared.name.Name.{Name};
ghost use Rattle.tunnel_keys.specs.Grouped.{grouped_under, listed_on};
ghost use Rattle.ovn_base.specs.names.SameName.{same_name};
ghost use Rattle.tunnel_keys.specs.Owners.{as_port_of, ports_in};
ghost use Rattle.tunnel_keys.specs.Keys.{ports_on};

use crate::owner::{HeldPort, KeyOwner, PortKey};
use ovn_base::address::Birth;
use ovn_base::list::List;
use ovn_base::memory::NoMemory;
use ovn_base::name::Name;
use ovn_base::ports::Ports;
use std::alloc::Global;
use std::collections::BTreeMap;

// The values under the name.
pub(crate) fn under<'a, V>(groups: &'a BTreeMap<Name, List<V>>, name: &Name) -> &'a [V]
    ensures { result.now ≡ grouped_under groups.now.entries name.now }
{
    match groups.get(name) {
        Some(list) => list.as_slice(),
        None => &[],
    }
}

// The ports in the list of the datapath.
pub(crate) fn listed<'a>(lists: &'a BTreeMap<Name, Ports>, datapath: &Name) -> &'a [(Name, u16)]
    ensures { result.now ≡ listed_on lists.now.entries datapath.now }
{
    match lists.get(datapath) {
        Some(ports) => ports.list.as_slice(),
        None => &[],
    }
}

// Puts the value behind the others under the name.
fn push_under<V: Drop>(
    alloc: Global,
    groups: &mut BTreeMap<Name, List<V>>,
    name: Name,
    value: V,
) -> Result<(), NoMemory>
    ensures { OnOk result ((n : Name) → grouped_under groups.new.entries n ≡ grouped_under groups.old.entries n ++ cond (same_name n name) (value ∷ []) []) }
{
    if let Some(list) = groups.get_mut(&name) {
        list.push(value)?;
        return Ok(());
    }
    let mut list = List::new(alloc);
    list.push(value)?;
    groups.insert(name, list)?;
    Ok(())
}

// The ports among the owners by the name of their datapath.
pub(crate) fn ports_by_datapath(
    alloc: Global,
    owners: &[KeyOwner],
) -> Result<BTreeMap<Name, List<(Name, Birth)>>, NoMemory>
    ensures { IfOk result (λ m. (d : Name) → grouped_under m.entries d ≡ ports_in d owners.now) }
{
    let mut groups = BTreeMap::new(alloc);
    for owner in owners {
        push_port(alloc, &mut groups, owner)?;
    }
    Ok(groups)
}

// Puts the owner under its datapath, if it is a port.
fn push_port(
    alloc: Global,
    groups: &mut BTreeMap<Name, List<(Name, Birth)>>,
    owner: &KeyOwner,
) -> Result<(), NoMemory>
    ensures { OnOk result ((d : Name) → grouped_under groups.new.entries d ≡ grouped_under groups.old.entries d ++ cons_option (as_port_of d owner.now) []) }
{
    match owner {
        KeyOwner::Datapath { .. } => Ok(()),
        KeyOwner::Port {
            datapath,
            name,
            birth,
        } => push_under(alloc, groups, *datapath, (*name, *birth)),
    }
}

// The ports that come and go by the name of their datapath.
pub(crate) fn changed_by_datapath(
    alloc: Global,
    added: &[KeyOwner],
    removed: &[KeyOwner],
) -> Result<BTreeMap<Name, List<(Name, Birth)>>, NoMemory>
    ensures { IfOk result (λ m. (d : Name) → grouped_under m.entries d ≡ ports_in d added.now ++ ports_in d removed.now) }
{
    let mut groups = ports_by_datapath(alloc, added)?;
    for owner in removed {
        push_port(alloc, &mut groups, owner)?;
    }
    Ok(groups)
}

// The live keys of ports by the name of their datapath, of those datapaths under whose name there are others.
pub(crate) fn live_by_datapath(
    alloc: Global,
    ports: &BTreeMap<Name, PortKey>,
    others: &BTreeMap<Name, List<(Name, Birth)>>,
) -> Result<BTreeMap<Name, List<(Name, u16)>>, NoMemory>
    ensures { IfOk result (λ m. (d : Name) → grouped_under others.now.entries d ≢ [] → grouped_under m.entries d ≡ ports_on ports.now.entries d) }
{
    let mut groups = BTreeMap::new(alloc);
    for (name, port) in ports {
        push_live(alloc, &mut groups, others, name, port)?;
    }
    Ok(groups)
}

// Puts the live key under its datapath, if there are others under that name.
fn push_live(
    alloc: Global,
    groups: &mut BTreeMap<Name, List<(Name, u16)>>,
    others: &BTreeMap<Name, List<(Name, Birth)>>,
    name: &Name,
    port: &PortKey,
) -> Result<(), NoMemory>
    ensures { OnOk result ((d : Name) → grouped_under others.now.entries d ≢ [] → grouped_under groups.new.entries d ≡ grouped_under groups.old.entries d ++ cond (same_name d port.now.datapath) ((name.now, port.now.key) ∷ []) []) }
{
    if under(others, &port.datapath).is_empty() {
        return Ok(());
    }
    push_under(alloc, groups, port.datapath, (*name, port.key))
}

// The retired keys of ports by the name of their datapath.
pub(crate) fn retired_by_datapath(
    alloc: Global,
    retired: &[HeldPort],
) -> Result<BTreeMap<Name, List<HeldPort>>, NoMemory>
    ensures { IfOk result (λ m. (d : Name) → grouped_under m.entries d ≡ filter (λ h. same_name d h.datapath.name) retired.now) }
{
    let mut groups = BTreeMap::new(alloc);
    for held in retired {
        push_under(alloc, &mut groups, held.datapath.name, *held)?;
    }
    Ok(groups)
}
