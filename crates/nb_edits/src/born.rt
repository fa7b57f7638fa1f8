//! Records with the number of the event that adds them.
ghost use Rattle.std.specs.Prelude.{◌≡◌, IfOk};
ghost use Rattle.nb_records.specs.Editing as spec;

use nb_records::balancer::LoadBalancer;
use nb_records::record::Record;
use nb_records::router::{Nat, Route, Router, RouterPort, StaticMac};
use nb_records::rule::{Acl, AddressSet, PortGroup};
use nb_records::switch::{Switch, SwitchPort};
use ovn_base::address::Birth;
use ovn_base::memory::NoMemory;

/// The record, added by the event of this number.
pub(crate) fn born(row: &Record, number: u64) -> Result<Record, NoMemory>
    ensures { IfOk result (λ r. r ≡ spec.born number row.now) }
{
    let birth = Birth(number);
    match row {
        Record::Switch(r) => Ok(Record::Switch(Switch { birth, ..*r })),
        Record::Router(r) => Ok(Record::Router(Router { birth, ..*r })),
        Record::RouterPort(r) => Ok(Record::RouterPort(RouterPort { birth, ..r.copy()? })),
        Record::SwitchPort(r) => Ok(Record::SwitchPort(SwitchPort { birth, ..r.copy()? })),
        Record::AddressSet(r) => Ok(Record::AddressSet(AddressSet { birth, ..r.copy()? })),
        Record::PortGroup(r) => Ok(Record::PortGroup(PortGroup { birth, ..r.copy()? })),
        Record::Acl(r) => Ok(Record::Acl(Acl { birth, ..r.copy()? })),
        Record::Route(r) => Ok(Record::Route(Route { birth, ..*r })),
        Record::Nat(r) => Ok(Record::Nat(Nat { birth, ..*r })),
        Record::LoadBalancer(r) => Ok(Record::LoadBalancer(LoadBalancer { birth, ..r.copy()? })),
        Record::StaticMac(r) => Ok(Record::StaticMac(StaticMac { birth, ..*r })),
    }
}
