//! What address sets and port groups stand for, and which of them an edit changes.
use crate::edits::{name, planned};
use address_sets::changed::{ChangedSets, changed};
use address_sets::expand::expand;
use match_cubes::sets::Sets;
use nb_edits::edit::apply;
use nb_records::records::Records;
use ovn_base::address::{Cidr, Ip4, SetEntry};
use ovn_base::list::List;
use ovn_base::memory::NoMemory;
use ovn_base::name::Name;
use std::alloc::Global;
use std::test::Fail;

const NETWORK: &str =
    r#"{"edit":[{"add":"switch","name":"s0"},{"add":"switch_port","name":"p1","switch":"s0"},{"add":"switch_port","name":"p2","switch":"s0"},{"add":"address_set","name":"web","addresses":["10.0.0.1","10.0.1.0/24"]},{"add":"address_set","name":"db","addresses":["10.0.0.2"]},{"add":"port_group","name":"pair","ports":["p2","p1"]}]}"#;

// The records that the line adds.
fn records(alloc: Global, line: &str) -> Result<Records, NoMemory> {
    let mut records = Records::new(alloc)?;
    let plan = planned(alloc, &mut records, line, 1)?;
    apply(&mut records, plan);
    Ok(records)
}

fn entry(addr: u32, len: u8) -> SetEntry {
    SetEntry::Ip(Cidr {
        addr: Ip4(addr),
        len,
    })
}

/// What the names of the network stand for, in order of name.
pub(crate) fn sets(alloc: Global) -> Result<Sets, NoMemory> {
    let db = List::from_slice(alloc, &[entry(0x0a00_0002, 32)])?;
    let web = List::from_slice(alloc, &[entry(0x0a00_0001, 32), entry(0x0a00_0100, 24)])?;
    let mut addresses = List::new(alloc);
    addresses.push((name("db")?, db))?;
    addresses.push((name("web")?, web))?;
    let pair = List::from_slice(alloc, &[name("p2")?, name("p1")?])?;
    let mut groups = List::new(alloc);
    groups.push((name("pair")?, pair))?;
    Ok(Sets { addresses, groups })
}

#[test]
fn members_stand_in_order(rt: HostRuntime) -> Result<(), Fail> {
    let alloc = rt.alloc();
    let records = records(alloc, NETWORK)?;
    assert_eq!(rt; expand(alloc, &records)?, sets(alloc)?);
    Ok(())
}

// The set web has the addresses that it had, db has another, new is new, and the group has its ports in another order.
const AFTER: &str =
    r#"{"edit":[{"add":"switch","name":"s0"},{"add":"switch_port","name":"p1","switch":"s0"},{"add":"switch_port","name":"p2","switch":"s0"},{"add":"address_set","name":"web","addresses":["10.0.0.1","10.0.1.0/24"]},{"add":"address_set","name":"new","addresses":["10.0.0.2"]},{"add":"address_set","name":"db","addresses":["10.0.0.3"]},{"add":"port_group","name":"pair","ports":["p1","p2"]}]}"#;

fn names(alloc: Global, texts: &[&str]) -> Result<List<Name>, NoMemory> {
    let mut names = List::new(alloc);
    for text in texts {
        names.push(name(text)?)?;
    }
    Ok(names)
}

#[test]
fn members_differ(rt: HostRuntime) -> Result<(), Fail> {
    let alloc = rt.alloc();
    let before = records(alloc, NETWORK)?;
    let after = records(alloc, AFTER)?;
    let wanted = ChangedSets {
        sets: names(alloc, &["db", "new"])?,
        groups: names(alloc, &["pair"])?,
    };
    assert_eq!(rt; changed(alloc, &before, &after)?, wanted);
    Ok(())
}
