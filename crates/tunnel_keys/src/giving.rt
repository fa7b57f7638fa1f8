//! How added owners get keys.
ghost use Rattle.std.specs.Prelude.{◌≡◌, ◌<◌, ◌≤◌, ◌^◌, [], IfOk, OnOk, IfErr, length};
ghost use Rattle.std.specs.List.{AllByRecursion};
ghost use Rattle.ovn_base.specs.declared.name.Name.{Name};
ghost use Rattle.ovn_base.specs.names.ByName.{in_order};
ghost use Rattle.tunnel_keys.specs.Grouped.{grouped_under, listed_on};
ghost use Rattle.tunnel_keys.specs.Owners.{as_datapath, datapaths_in};
ghost use Rattle.tunnel_keys.specs.Keys.{free_in, taken_datapaths, ports_on};
ghost use Rattle.tunnel_keys.specs.Giving.{put_option, with_keys, new_datapath_key, new_port_key, taken_on, given_datapaths, given_ports, HasEnough, IsDatapathFault, IsPortFaultOn, IsPortFault, lists_of};

use crate::fault::KeyFault;
use crate::free::{free_keys, taken_by_datapaths, taken_by_ports};
use crate::grouped::{listed, live_by_datapath, ports_by_datapath, retired_by_datapath, under};
use crate::owner::{DatapathKey, HeldDatapath, HeldPort, Identity, KeyOwner, PortKey};
use crate::retiring::put_each;
use ovn_base::address::Birth;
use ovn_base::list::List;
use ovn_base::memory::NoMemory;
use ovn_base::name::Name;
use ovn_base::ports::Ports;
use std::alloc::Global;
use std::collections::BTreeMap;

// The datapaths among the owners, in order of name.
fn new_datapaths(alloc: Global, added: &[KeyOwner]) -> Result<BTreeMap<Name, Birth>, NoMemory>
    ensures { IfOk result (λ m. m.entries ≡ in_order (datapaths_in added.now)) }
{
    let mut arrivals = BTreeMap::new(alloc);
    for owner in added {
        put_datapath(&mut arrivals, owner)?;
    }
    Ok(arrivals)
}

// Puts the owner among the others, if it is a datapath.
fn put_datapath(arrivals: &mut BTreeMap<Name, Birth>, owner: &KeyOwner) -> Result<(), NoMemory>
    ensures { OnOk result (arrivals.new.entries ≡ put_option arrivals.old.entries (as_datapath owner.now)) }
{
    match owner {
        KeyOwner::Datapath { name, birth } => {
            arrivals.insert(*name, *birth)?;
            Ok(())
        }
        KeyOwner::Port { .. } => Ok(()),
    }
}

// The owners in order of name.
fn by_name(alloc: Global, owners: &[(Name, Birth)]) -> Result<BTreeMap<Name, Birth>, NoMemory>
    ensures { IfOk result (λ m. m.entries ≡ in_order owners.now) }
{
    let mut arrivals = BTreeMap::new(alloc);
    for (name, birth) in owners {
        arrivals.insert(*name, *birth)?;
    }
    Ok(arrivals)
}

// Each datapath with its key, as far as there are keys.
fn datapaths_with_keys(
    alloc: Global,
    arrivals: &BTreeMap<Name, Birth>,
    keys: &[u32],
) -> Result<List<(Name, DatapathKey)>, NoMemory>
    ensures { IfOk result (λ l. l ≡ with_keys new_datapath_key arrivals.now.entries keys.now) }
{
    let mut given = List::new(alloc);
    let mut next = 0;
    for (name, birth) in arrivals {
        if next == keys.len() {
            return Ok(given);
        }
        given.push((
            *name,
            DatapathKey {
                birth: *birth,
                key: keys[next],
            },
        ))?;
        next += 1;
    }
    Ok(given)
}

// Each port with its key, as far as there are keys.
fn ports_with_keys(
    alloc: Global,
    datapath: &Name,
    arrivals: &BTreeMap<Name, Birth>,
    keys: &[u32],
) -> Result<List<(Name, PortKey)>, NoMemory>
    requires { AllByRecursion (λ key. key < 2 ^ 16) keys.now }
    ensures { IfOk result (λ l. l ≡ with_keys (new_port_key datapath.now) arrivals.now.entries keys.now) }
{
    let mut given = List::new(alloc);
    let mut next = 0;
    for (name, birth) in arrivals {
        if next == keys.len() {
            return Ok(given);
        }
        given.push((
            *name,
            PortKey {
                birth: *birth,
                datapath: *datapath,
                key: keys[next] as u16,
            },
        ))?;
        next += 1;
    }
    Ok(given)
}

// The added datapaths with their keys, each the least that is left.
pub(crate) fn give_datapath_keys(
    range: u32,
    live: &BTreeMap<Name, DatapathKey>,
    retired: &List<HeldDatapath>,
    added: &[KeyOwner],
) -> Result<List<(Name, DatapathKey)>, KeyFault>
    ensures given { IfOk result (λ l. l ≡ given_datapaths range live.now.entries retired.now added.now) }
    ensures enough { IfOk result (λ l. length (in_order (datapaths_in added.now)) ≤ length (free_in range (taken_datapaths live.now.entries retired.now))) }
    ensures fault { IfErr result (IsDatapathFault (free_in range (taken_datapaths live.now.entries retired.now)) (in_order (datapaths_in added.now))) }
{
    let alloc = retired.allocator();
    let arrivals = new_datapaths(alloc, added)?;
    let taken = taken_by_datapaths(alloc, live, retired.as_slice())?;
    let free = free_keys(alloc, range, taken.as_slice(), arrivals.len())?;
    if free.len() < arrivals.len() {
        return Err(KeyFault::NoDatapathKey);
    }
    let given = datapaths_with_keys(alloc, &arrivals, free.as_slice())?;
    Ok(given)
}

// The ports that are added to a datapath with their keys, each the least that is left beside the live and the retired ones.
fn give_keys_on(
    alloc: Global,
    range: u16,
    live: &[(Name, u16)],
    retired: &[HeldPort],
    added: &[(Name, Birth)],
    datapath: &Identity,
) -> Result<List<(Name, PortKey)>, KeyFault>
    ensures given { IfOk result (λ l. l ≡ with_keys (new_port_key datapath.now.name) (in_order added.now) (free_in range (taken_on live.now retired.now datapath.now))) }
    ensures enough { IfOk result (λ l. length (in_order added.now) ≤ length (free_in range (taken_on live.now retired.now datapath.now))) }
    ensures fault { IfErr result (IsPortFaultOn datapath.now.name (free_in range (taken_on live.now retired.now datapath.now)) (in_order added.now)) }
{
    let arrivals = by_name(alloc, added)?;
    if arrivals.is_empty() {
        return Ok(List::new(alloc));
    }
    let taken = taken_by_ports(alloc, live, retired, datapath)?;
    let free = free_keys(alloc, range as u32, taken.as_slice(), arrivals.len())?;
    if free.len() < arrivals.len() {
        return Err(KeyFault::NoPortKey(datapath.name));
    }
    let given = ports_with_keys(alloc, &datapath.name, &arrivals, free.as_slice())?;
    Ok(given)
}

// The added ports with their keys, on one datapath after the other, in order of name.
pub(crate) fn give_port_keys(
    range: u16,
    live: &BTreeMap<Name, PortKey>,
    retired: &List<HeldPort>,
    added: &[KeyOwner],
    datapaths: &BTreeMap<Name, DatapathKey>,
) -> Result<List<(Name, PortKey)>, KeyFault>
    ensures given { IfOk result (λ l. l ≡ given_ports range live.now.entries retired.now added.now datapaths.now.entries) }
    ensures enough { IfOk result (λ l. AllByRecursion (HasEnough range live.now.entries retired.now added.now) datapaths.now.entries) }
    ensures fault { IfErr result (IsPortFault range live.now.entries retired.now added.now datapaths.now.entries) }
{
    let alloc = retired.allocator();
    let arrivals = ports_by_datapath(alloc, added)?;
    let staying = live_by_datapath(alloc, live, &arrivals)?;
    let gone = retired_by_datapath(alloc, retired.as_slice())?;
    let mut given = List::new(alloc);
    for (name, datapath) in datapaths {
        let come = under(&arrivals, name);
        if !come.is_empty() {
            let on = Identity {
                name: *name,
                birth: datapath.birth,
            };
            let here = under(&staying, name);
            let left = under(&gone, name);
            let more = give_keys_on(alloc, range, here, left, come, &on)?;
            given.append(more)?;
        }
    }
    Ok(given)
}

// The ports of each datapath, in order of name. Where none of them has changed the list is the one that was before.
pub(crate) fn listed_ports(
    alloc: Global,
    before: &BTreeMap<Name, Ports>,
    changed: &BTreeMap<Name, List<(Name, Birth)>>,
    datapaths: &BTreeMap<Name, DatapathKey>,
    ports: &BTreeMap<Name, PortKey>,
) -> Result<BTreeMap<Name, Ports>, NoMemory>
    requires unchanged { (d : Name) → grouped_under changed.now.entries d ≡ [] → listed_on before.now.entries d ≡ ports_on ports.now.entries d }
    ensures { IfOk result (λ m. m.entries ≡ in_order (lists_of ports.now.entries datapaths.now.entries)) }
{
    let groups = live_by_datapath(alloc, ports, changed)?;
    let mut lists = List::new(alloc);
    for (name, _) in datapaths {
        let here = if under(changed, name).is_empty() {
            listed(before, name)
        } else {
            under(&groups, name)
        };
        let list = List::from_slice(alloc, here)?;
        lists.push((*name, Ports { list }))?;
    }
    put_each(BTreeMap::new(alloc), lists)
}
