//! What becomes of the keys of removed owners.
ghost use Rattle.std.specs.Prelude.{◌≡◌, ◌↔◌, ◌++◌, ◌∷◌, [], IfOk, OnOk, cond, map, not};
ghost use Rattle.std.specs.List.{filter, filter_map, cons_option};
ghost use Rattle.std.specs.List.Sorted.{IsStrictlySortedBy};
ghost use Rattle.std.specs.declared.cmp.Ordering.TheVariants.{Equal};
ghost use Rattle.ovn_base.specs.lists.Among.{Among};
ghost use Rattle.ovn_base.specs.names.ByName.{put_all, in_order, IsByName};
ghost use Rattle.tunnel_keys.specs.Owners.{is_listed};
ghost use Rattle.tunnel_keys.specs.Keys.{datapath_owner, port_owner, held_datapath, held_port};

use crate::owner::{DatapathKey, HeldDatapath, HeldPort, Identity, KeyOwner, PortKey, is_listed};
use crate::store::copy_of;
use ovn_base::list::List;
use ovn_base::memory::NoMemory;
use ovn_base::name::Name;
use std::alloc::Global;
use std::collections::{BTreeMap, BTreeSet};

// Puts each of the others among the entries, in order of name.
pub(crate) fn put_each<V: Drop>(
    entries: BTreeMap<Name, V>,
    others: List<(Name, V)>,
) -> Result<BTreeMap<Name, V>, NoMemory>
    ensures { IfOk result (λ m. m.entries ≡ put_all entries.entries others) }
{
    let mut all = entries;
    for (name, value) in others {
        all.insert(name, value)?;
    }
    Ok(all)
}

// The same, the lesser before the greater.
pub(crate) fn in_order<H: Ord + Copy + Drop>(alloc: Global, held: &[H]) -> Result<List<H>, NoMemory>
    requires exact { (a b : H) → H.cmp a b ≡ Equal → a ≡ b }
    ensures order { IfOk result (λ l. IsStrictlySortedBy H.cmp l) }
    ensures same { IfOk result (λ l. (h : H) → Among h l ↔ Among h held.now) }
{
    let mut sorted = BTreeSet::new(alloc);
    for key in held {
        sorted.insert(*key)?;
    }
    let mut all = List::new(alloc);
    for key in &sorted {
        all.push(*key)?;
    }
    Ok(all)
}

// The names of a map's entries ascend. It does nothing.
fn names_ascend<V>(entries: &BTreeMap<Name, V>)
    ensures { IsByName entries.now.entries }
{
    let _len = entries.len();
}

// Whether the datapath is not removed.
fn is_staying_datapath(removed: &[KeyOwner], name: &Name, datapath: &DatapathKey) -> bool
    ensures { result ≡ not (is_listed removed.now (datapath_owner (name.now, datapath.now))) }
{
    let owner = KeyOwner::Datapath {
        name: *name,
        birth: datapath.birth,
    };
    !is_listed(removed, &owner)
}

// Takes the removed datapaths away.
fn keep_datapaths(datapaths: &mut BTreeMap<Name, DatapathKey>, removed: &[KeyOwner])
    ensures { datapaths.new.entries ≡ filter (λ e. not (is_listed removed.now (datapath_owner e))) datapaths.old.entries }
{
    if removed.is_empty() {
        return;
    }
    datapaths.retain(|name, datapath| is_staying_datapath(removed, name, &*datapath));
}

// The datapaths that are not removed.
pub(crate) fn staying_datapaths(
    datapaths: &BTreeMap<Name, DatapathKey>,
    removed: &[KeyOwner],
) -> Result<BTreeMap<Name, DatapathKey>, NoMemory>
    ensures { IfOk result (λ m. m.entries ≡ in_order (filter (λ e. not (is_listed removed.now (datapath_owner e))) datapaths.now.entries)) }
{
    let mut staying = copy_of(datapaths)?;
    keep_datapaths(&mut staying, removed);
    names_ascend(&staying);
    Ok(staying)
}

// Whether the port is not removed.
fn is_staying_port(removed: &[KeyOwner], name: &Name, port: &PortKey) -> bool
    ensures { result ≡ not (is_listed removed.now (port_owner (name.now, port.now))) }
{
    let owner = KeyOwner::Port {
        datapath: port.datapath,
        name: *name,
        birth: port.birth,
    };
    !is_listed(removed, &owner)
}

// Takes the removed ports away.
fn keep_ports(ports: &mut BTreeMap<Name, PortKey>, removed: &[KeyOwner])
    ensures { ports.new.entries ≡ filter (λ e. not (is_listed removed.now (port_owner e))) ports.old.entries }
{
    if removed.is_empty() {
        return;
    }
    ports.retain(|name, port| is_staying_port(removed, name, &*port));
}

// The ports that are not removed.
pub(crate) fn staying_ports(
    ports: &BTreeMap<Name, PortKey>,
    removed: &[KeyOwner],
) -> Result<BTreeMap<Name, PortKey>, NoMemory>
    ensures { IfOk result (λ m. m.entries ≡ in_order (filter (λ e. not (is_listed removed.now (port_owner e))) ports.now.entries)) }
{
    let mut staying = copy_of(ports)?;
    keep_ports(&mut staying, removed);
    names_ascend(&staying);
    Ok(staying)
}

// The retired keys of datapaths, with those of the removed ones.
pub(crate) fn retired_datapaths(
    retired: &List<HeldDatapath>,
    datapaths: &BTreeMap<Name, DatapathKey>,
    removed: &[KeyOwner],
) -> Result<List<HeldDatapath>, NoMemory>
    ensures { IfOk result (λ l. l ≡ retired.now ++ map held_datapath (filter (λ e. is_listed removed.now (datapath_owner e)) datapaths.now.entries)) }
{
    let mut all = retired.copy()?;
    if removed.is_empty() {
        return Ok(all);
    }
    for (name, datapath) in datapaths {
        push_retired_datapath(&mut all, removed, name, datapath)?;
    }
    Ok(all)
}

// Puts the datapath's key behind the others, if the datapath is removed.
fn push_retired_datapath(
    all: &mut List<HeldDatapath>,
    removed: &[KeyOwner],
    name: &Name,
    datapath: &DatapathKey,
) -> Result<(), NoMemory>
    ensures { OnOk result (all.new ≡ all.old ++ cond (is_listed removed.now (datapath_owner (name.now, datapath.now))) (held_datapath (name.now, datapath.now) ∷ []) []) }
{
    let owner = Identity {
        name: *name,
        birth: datapath.birth,
    };
    let listed = KeyOwner::Datapath {
        name: *name,
        birth: datapath.birth,
    };
    if is_listed(removed, &listed) {
        all.push(HeldDatapath {
            owner,
            key: datapath.key,
        })?;
        return Ok(());
    }
    Ok(())
}

// The retired keys of ports, with those of the removed ones.
pub(crate) fn retired_ports(
    retired: &List<HeldPort>,
    datapaths: &BTreeMap<Name, DatapathKey>,
    ports: &BTreeMap<Name, PortKey>,
    removed: &[KeyOwner],
) -> Result<List<HeldPort>, NoMemory>
    ensures { IfOk result (λ l. l ≡ retired.now ++ filter_map (held_port datapaths.now.entries) (filter (λ e. is_listed removed.now (port_owner e)) ports.now.entries)) }
{
    let mut all = retired.copy()?;
    if removed.is_empty() {
        return Ok(all);
    }
    for (name, port) in ports {
        push_retired_port(&mut all, datapaths, removed, name, port)?;
    }
    Ok(all)
}

// Puts the port's key behind the others, if the port is removed.
fn push_retired_port(
    all: &mut List<HeldPort>,
    datapaths: &BTreeMap<Name, DatapathKey>,
    removed: &[KeyOwner],
    name: &Name,
    port: &PortKey,
) -> Result<(), NoMemory>
    ensures { OnOk result (all.new ≡ all.old ++ cond (is_listed removed.now (port_owner (name.now, port.now))) (cons_option (held_port datapaths.now.entries (name.now, port.now)) []) []) }
{
    let listed = KeyOwner::Port {
        datapath: port.datapath,
        name: *name,
        birth: port.birth,
    };
    if is_listed(removed, &listed) {
        return push_held_port(all, datapaths, name, port);
    }
    Ok(())
}

// Puts the port's key, as one of the datapath that has the name, behind the others.
fn push_held_port(
    all: &mut List<HeldPort>,
    datapaths: &BTreeMap<Name, DatapathKey>,
    name: &Name,
    port: &PortKey,
) -> Result<(), NoMemory>
    ensures { OnOk result (all.new ≡ all.old ++ cons_option (held_port datapaths.now.entries (name.now, port.now)) []) }
{
    match datapaths.get(&port.datapath) {
        Some(datapath) => {
            let owner = Identity {
                name: *name,
                birth: port.birth,
            };
            let on = Identity {
                name: port.datapath,
                birth: datapath.birth,
            };
            all.push(HeldPort {
                owner,
                datapath: on,
                key: port.key,
            })?;
            Ok(())
        }
        None => Ok(()),
    }
}
