//! The operations of an edit, one after another.
ghost use Rattle.std.specs.Prelude.{◌≡◌, None, IfOk, OnOk, IfErr};
ghost use Rattle.std.specs.BTreeSet.{insert_key};
ghost use Rattle.std.specs.Cmp.Lexicographic.{slice_cmp};
ghost use Rattle.std.specs.Ordering.{nat_cmp};
ghost use Rattle.nb_records.specs.Editing.{operated, accepted};
ghost use Rattle.nb_records.specs.Network as net;
ghost use Rattle.nb_records.specs.declared.change.Op.TheVariants as form;
ghost use Rattle.nb_edits.specs.OpFaults as spec;
ghost use Rattle.nb_edits.specs.Plans.{Refuses};
ghost use Rattle.nb_edits.specs.Touched.{touched_name, touched_names};

use crate::born::born;
use crate::change::changed;
use crate::direction::misdirects;
use crate::marks::drop_unlisted;
use crate::plan::EditFault;
use nb_records::change::{Change, Op};
use nb_records::kinds::Kind;
use nb_records::record::Record;
use nb_records::records::Records;
use nb_rules::fault::SchemaFault;
use ovn_base::memory::NoMemory;
use ovn_base::name::Name;
use std::collections::BTreeSet;

fn kind_of(row: &Record) -> Kind
    ensures { result ≡ net.kind_of row.now }
{
    match row {
        Record::Switch(_) => Kind::Switch,
        Record::Router(_) => Kind::Router,
        Record::RouterPort(_) => Kind::RouterPort,
        Record::SwitchPort(_) => Kind::SwitchPort,
        Record::AddressSet(_) => Kind::AddressSet,
        Record::PortGroup(_) => Kind::PortGroup,
        Record::Acl(_) => Kind::Acl,
        Record::Route(_) => Kind::Route,
        Record::Nat(_) => Kind::Nat,
        Record::LoadBalancer(_) => Kind::LoadBalancer,
        Record::StaticMac(_) => Kind::StaticMac,
    }
}

fn name_of(row: &Record) -> Name
    ensures { result ≡ net.name_of row.now }
{
    match row {
        Record::Switch(r) => r.name,
        Record::Router(r) => r.name,
        Record::RouterPort(r) => r.name,
        Record::SwitchPort(r) => r.name,
        Record::AddressSet(r) => r.name,
        Record::PortGroup(r) => r.name,
        Record::Acl(r) => r.name,
        Record::Route(r) => r.name,
        Record::Nat(r) => r.name,
        Record::LoadBalancer(r) => r.name,
        Record::StaticMac(r) => r.name,
    }
}

// A record of the kind's namespace has the name: switches and routers are one, and so are the ports of both.
fn is_taken(records: &Records, kind: Kind, name: &Name) -> bool
    ensures { result ≡ spec.is_taken_for records.now kind name.now }
{
    match kind {
        Kind::Switch | Kind::Router => {
            records.is_there(Kind::Switch, name) || records.is_there(Kind::Router, name)
        }
        Kind::RouterPort | Kind::SwitchPort => {
            records.is_there(Kind::RouterPort, name) || records.is_there(Kind::SwitchPort, name)
        }
        _ => records.is_there(kind, name),
    }
}

fn is_misdirected(row: &Record) -> bool
    ensures { result ≡ spec.is_misdirected row.now }
{
    match row {
        Record::Acl(rule) => misdirects(rule.direction, &rule.matching),
        _ => false,
    }
}

fn is_misdirecting(change: &Change, row: &Record) -> bool
    ensures { result ≡ spec.is_misdirecting change.now (Some row.now) }
{
    match (change, row) {
        (
            Change::Acl {
                matching: Some(matching),
                ..
            },
            Record::Acl(rule),
        ) => misdirects(rule.direction, matching),
        _ => false,
    }
}

// The record of the kind and name, in memory of its own.
fn record_at(records: &Records, kind: Kind, name: &Name) -> Result<Option<Record>, NoMemory>
    ensures { IfOk result (λ r. r ≡ net.record_at records.now kind name.now) }
{
    match kind {
        Kind::Switch => Ok(records.switch(name).map(|r| Record::Switch(*r))),
        Kind::Router => Ok(records.router(name).map(|r| Record::Router(*r))),
        Kind::RouterPort => match records.router_port(name) {
            Some(r) => Ok(Some(Record::RouterPort(r.copy()?))),
            None => Ok(None),
        },
        Kind::SwitchPort => match records.switch_port(name) {
            Some(r) => Ok(Some(Record::SwitchPort(r.copy()?))),
            None => Ok(None),
        },
        Kind::AddressSet => match records.address_set(name) {
            Some(r) => Ok(Some(Record::AddressSet(r.copy()?))),
            None => Ok(None),
        },
        Kind::PortGroup => match records.port_group(name) {
            Some(r) => Ok(Some(Record::PortGroup(r.copy()?))),
            None => Ok(None),
        },
        Kind::Acl => match records.acl(name) {
            Some(r) => Ok(Some(Record::Acl(r.copy()?))),
            None => Ok(None),
        },
        Kind::Route => Ok(records.route(name).map(|r| Record::Route(*r))),
        Kind::Nat => Ok(records.nat(name).map(|r| Record::Nat(*r))),
        Kind::LoadBalancer => match records.load_balancer(name) {
            Some(r) => Ok(Some(Record::LoadBalancer(r.copy()?))),
            None => Ok(None),
        },
        Kind::StaticMac => Ok(records.static_mac(name).map(|r| Record::StaticMac(*r))),
    }
}

// Adds the record, and answers its name.
fn add(records: &mut Records, row: &Record, number: u64) -> Result<Name, EditFault>
    ensures touched { IfOk result (λ q. q ≡ touched_name records.old (form.Add row.now)) }
    ensures ok { OnOk result (spec.op_fault records.old (form.Add row.now) ≡ None) }
    ensures after { OnOk result (records.new ≡ operated records.old (form.Add row.now) number) }
    ensures err { IfErr result (λ e. Refuses e (spec.op_fault records.old (form.Add row.now))) }
{
    let name = name_of(row);
    if is_taken(records, kind_of(row), &name) {
        return Err(EditFault::Schema(SchemaFault::DuplicateName(name)));
    }
    if is_misdirected(row) {
        return Err(EditFault::Schema(SchemaFault::BadDirection(name)));
    }
    records.put(born(row, number)?)?;
    Ok(name)
}

// Gives the record the values of the change, and answers the record's own name.
fn set(
    records: &mut Records,
    kind: Kind,
    name: &Name,
    change: &Change,
    number: u64,
) -> Result<Name, EditFault>
    ensures touched { IfOk result (λ q. q ≡ touched_name records.old (form.Set kind name.now change.now)) }
    ensures ok { OnOk result (spec.op_fault records.old (form.Set kind name.now change.now) ≡ None) }
    ensures after { OnOk result (records.new ≡ operated records.old (form.Set kind name.now change.now) number) }
    ensures err { IfErr result (λ e. Refuses e (spec.op_fault records.old (form.Set kind name.now change.now))) }
{
    let Some(record) = record_at(records, kind, name)? else {
        return Err(EditFault::Schema(SchemaFault::NoSuch(*name)));
    };
    if is_misdirecting(change, &record) {
        return Err(EditFault::Schema(SchemaFault::BadDirection(*name)));
    }
    records.put(changed(change, &record)?)?;
    drop_unlisted(records)?;
    Ok(name_of(&record))
}

// Takes the record out, and answers its name.
fn remove(records: &mut Records, kind: Kind, name: &Name, number: u64) -> Result<Name, EditFault>
    ensures touched { IfOk result (λ q. q ≡ touched_name records.old (form.Remove kind name.now)) }
    ensures ok { OnOk result (spec.op_fault records.old (form.Remove kind name.now) ≡ None) }
    ensures after { OnOk result (records.new ≡ operated records.old (form.Remove kind name.now) number) }
    ensures err { IfErr result (λ e. Refuses e (spec.op_fault records.old (form.Remove kind name.now))) }
{
    if !records.remove(kind, name) {
        return Err(EditFault::Schema(SchemaFault::NoSuch(*name)));
    }
    drop_unlisted(records)?;
    Ok(*name)
}

// Does the operation, and answers the name of the only records that it can change.
fn operate(records: &mut Records, op: &Op, number: u64) -> Result<Name, EditFault>
    ensures touched { IfOk result (λ q. q ≡ touched_name records.old op.now) }
    ensures ok { OnOk result (spec.op_fault records.old op.now ≡ None) }
    ensures after { OnOk result (records.new ≡ operated records.old op.now number) }
    ensures err { IfErr result (λ e. Refuses e (spec.op_fault records.old op.now)) }
{
    match op {
        Op::Add(record) => add(records, record, number),
        Op::Set { kind, name, change } => set(records, *kind, name, change, number),
        Op::Remove { kind, name } => remove(records, *kind, name, number),
        Op::Health {
            balancer,
            backend,
            online,
        } => {
            records.mark(balancer, *backend, *online)?;
            Ok(*balancer)
        }
    }
}

fn touch(names: &mut BTreeSet<Name>, name: Name) -> Result<(), NoMemory>
    ensures { OnOk result (names.new.keys ≡ insert_key (slice_cmp nat_cmp) names.old.keys name) }
{
    names.insert(name)?;
    Ok(())
}

/// The operations one after another, up to the first that has a fault. The names come to the others of which they can change records.
pub(crate) fn operate_all(
    records: &mut Records,
    ops: &[Op],
    number: u64,
    names: &mut BTreeSet<Name>,
) -> Result<(), EditFault>
    ensures touched { OnOk result (names.new.keys ≡ touched_names records.old names.old.keys ops.now number) }
    ensures ok { OnOk result (spec.ops_fault records.old ops.now number ≡ None) }
    ensures after { OnOk result (records.new ≡ accepted records.old ops.now number) }
    ensures err { IfErr result (λ e. Refuses e (spec.ops_fault records.old ops.now number)) }
{
    let Some((op, others)) = ops.split_first() else {
        return Ok(());
    };
    match operate(records, op, number) {
        Ok(name) => {
            touch(names, name)?;
            operate_all(records, others, number, names)
        }
        Err(fault) => Err(fault),
    }
}
