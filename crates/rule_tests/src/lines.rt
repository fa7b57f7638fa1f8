//! Edits as lines spell them, and faults in words.

use edit_reader::event::Event;
use edit_reader::read::read_event;
use nb_edits::edit::{apply, plan};
use nb_edits::plan::{EditFault, EditPlan};
use nb_records::change::Op;
use nb_records::records::Records;
use nb_rules::check::check;
use nb_rules::fault::{Address, Limited, SchemaFault};
use ovn_base::address::{Ip4, Mac};
use ovn_base::list::List;
use ovn_base::memory::NoMemory;
use ovn_base::name::Name;
use std::alloc::Global;

/// The name of that text.
pub(crate) fn name(text: &str) -> Result<Name, NoMemory> {
    Name::read(text.as_bytes()).ok_or(NoMemory)
}

/// The operations of the edit, which are given with commas between them.
pub(crate) fn operations(alloc: Global, ops: &str) -> Result<List<Op>, NoMemory> {
    let line = format!(in alloc; "{{\"edit\":[{ops}]}}")?;
    match read_event(alloc, line.as_bytes()) {
        Ok(Event::Edit(ops)) => Ok(ops),
        _ => Err(NoMemory),
    }
}

/// The edit by the event of that number, or what is wrong with it.
pub(crate) fn planned(
    alloc: Global,
    records: &mut Records,
    ops: &str,
    number: u64,
) -> Result<Result<EditPlan, SchemaFault>, NoMemory> {
    let ops = operations(alloc, ops)?;
    match plan(alloc, records, ops.as_slice(), number) {
        Ok(plan) => Ok(Ok(plan)),
        Err(EditFault::Schema(fault)) => Ok(Err(fault)),
        Err(EditFault::Memory) => Err(NoMemory),
    }
}

/// Makes the edit, and tells what is wrong with it, or `ok`.
pub(crate) fn edit(
    alloc: Global,
    records: &mut Records,
    ops: &str,
    number: u64,
) -> Result<String, NoMemory> {
    match planned(alloc, records, ops, number)? {
        Ok(plan) => {
            apply(records, plan);
            Ok(format!(in alloc; "ok")?)
        }
        Err(fault) => told(alloc, fault),
    }
}

/// Tells what is wrong with the second edit, behind a first one that is made on no records; or `ok`.
pub(crate) fn answer(alloc: Global, first: &str, second: &str) -> Result<String, NoMemory> {
    let mut records = Records::new(alloc)?;
    edit(alloc, &mut records, first, 1)?;
    edit(alloc, &mut records, second, 2)
}

/// Tells what is wrong with two edits, one after the other, that are made on these records.
pub(crate) fn answers(
    alloc: Global,
    records: Result<Records, NoMemory>,
    first: &str,
    second: &str,
) -> Result<String, NoMemory> {
    let mut records = records?;
    both_told(alloc, &mut records, first, second)
}

fn both_told(
    alloc: Global,
    records: &mut Records,
    first: &str,
    second: &str,
) -> Result<String, NoMemory> {
    let one = edit(alloc, records, first, 2)?;
    let other = edit(alloc, records, second, 3)?;
    Ok(format!(in alloc; "{one}, {other}")?)
}

/// What is there, an edit, and what is wrong with it.
pub(crate) type Row = (&'static str, &'static str, &'static str);

/// Tells of the first row of which the answer is another; nothing, where there is none.
pub(crate) fn differing(alloc: Global, rows: &[Row]) -> Result<String, NoMemory> {
    for (before, ops, wanted) in rows {
        let told = answer(alloc, before, ops)?;
        if told.as_str() != *wanted {
            return Ok(format!(in alloc; "{told} of {ops}")?);
        }
    }
    Ok(String::new(alloc))
}

// Puts the records that the operations add, and answers whether they do nothing else.
fn put_all(alloc: Global, records: &mut Records, ops: &str) -> Result<bool, NoMemory> {
    let ops = operations(alloc, ops)?;
    for op in ops.as_slice() {
        match op {
            Op::Add(record) => records.put(record.copy()?)?,
            _ => return Ok(false),
        }
    }
    Ok(true)
}

// Tells what is wrong with the records that both edits add, as they stand; nothing, where one does something else.
fn checked(alloc: Global, first: &str, second: &str) -> Result<Option<String>, NoMemory> {
    let mut records = Records::new(alloc)?;
    if !put_all(alloc, &mut records, first)? || !put_all(alloc, &mut records, second)? {
        return Ok(None);
    }
    match check(&records) {
        Ok(()) => Ok(Some(format!(in alloc; "ok")?)),
        Err(fault) => Ok(Some(told(alloc, fault)?)),
    }
}

/// Tells of the first row of which the answer is another, or to its records as they stand; nothing, where there is none.
pub(crate) fn differing_rule(alloc: Global, rows: &[Row]) -> Result<String, NoMemory> {
    for (before, ops, wanted) in rows {
        if let Some(told) = checked(alloc, before, ops)? {
            if told.as_str() != *wanted {
                return Ok(format!(in alloc; "{told} of the records of {ops}")?);
            }
        }
    }
    differing(alloc, rows)
}

fn ip_text(alloc: Global, ip: Ip4) -> Result<String, NoMemory> {
    let [a, b, c, d] = ip.0.to_be_bytes();
    Ok(format!(in alloc; "{a}.{b}.{c}.{d}")?)
}

fn mac_text(alloc: Global, mac: Mac) -> Result<String, NoMemory> {
    let [a, b, c, d, e, f] = mac.0;
    Ok(format!(in alloc; "{a:02x}:{b:02x}:{c:02x}:{d:02x}:{e:02x}:{f:02x}")?)
}

fn address_text(alloc: Global, address: Address) -> Result<String, NoMemory> {
    match address {
        Address::Ether(mac) => mac_text(alloc, mac),
        Address::Ip(ip) => ip_text(alloc, ip),
    }
}

fn limit_word(what: Limited) -> &'static str {
    match what {
        Limited::Datapath => "datapath",
        Limited::Port => "port",
        Limited::Acl => "acl",
        Limited::Cubes => "cubes",
    }
}

/// The name of the fault, and what it is about.
pub(crate) fn told(alloc: Global, fault: SchemaFault) -> Result<String, NoMemory> {
    let text = match fault {
        SchemaFault::DuplicateName(name) => format!(in alloc; "DuplicateName {name}")?,
        SchemaFault::NoSuch(name) => format!(in alloc; "NoSuch {name}")?,
        SchemaFault::BadDirection(name) => format!(in alloc; "BadDirection {name}")?,
        SchemaFault::StillUsed(name) => format!(in alloc; "StillUsed {name}")?,
        SchemaFault::BadAddress(name) => format!(in alloc; "BadAddress {name}")?,
        SchemaFault::BadPeer(name) => format!(in alloc; "BadPeer {name}")?,
        SchemaFault::DuplicateAddress { address, holder } => {
            let address = address_text(alloc, address)?;
            format!(in alloc; "DuplicateAddress {address} {holder}")?
        }
        SchemaFault::DuplicatePrefix(name) => format!(in alloc; "DuplicatePrefix {name}")?,
        SchemaFault::NoNetworkForNexthop(name) => format!(in alloc; "NoNetworkForNexthop {name}")?,
        SchemaFault::NatNeedsChassis(name) => format!(in alloc; "NatNeedsChassis {name}")?,
        SchemaFault::TooWide(width) => format!(in alloc; "TooWide {width}")?,
        SchemaFault::Limit(what) => {
            let what = limit_word(what);
            format!(in alloc; "Limit {what}")?
        }
    };
    Ok(text)
}
