//! Only gateway routers translate.
ghost use Rattle.std.specs.Prelude.{◌≡◌};
ghost use Rattle.std.specs.List.{list_any};
ghost use Rattle.nb_records.specs.declared.record.Record.TheVariants as row;
ghost use Rattle.nb_rules.specs.Gateways as spec;

use crate::fault::SchemaFault;
use crate::first::{Clause, first_of};
use nb_records::balancer::LoadBalancer;
use nb_records::records::Records;
use nb_records::router::Nat;
use ovn_base::name::Name;

fn is_distributed(records: &Records, router: &Name) -> bool
    ensures { result ≡ spec.is_distributed records.now router.now }
{
    match records.router(router) {
        Some(router) => router.chassis.is_none(),
        None => false,
    }
}

fn any_is_distributed(records: &Records, routers: &[Name]) -> bool
    ensures { result ≡ list_any (spec.is_distributed records.now) routers.now }
{
    routers.iter().any(|router| is_distributed(records, router))
}

#[derive(Drop)]
struct NeedsChassis<'a>(&'a Records);

impl Clause<Nat> for NeedsChassis<'_> {
    ghost broken = { λ c r. spec.chassis_fault c.0.now (row.Nat r) };

    fn broken(&self, nat: &Nat) -> Option<SchemaFault> {
        if is_distributed(self.0, &nat.router) {
            Some(SchemaFault::NatNeedsChassis(nat.name))
        } else {
            None
        }
    }
}

impl Clause<LoadBalancer> for NeedsChassis<'_> {
    ghost broken = { λ c r. spec.chassis_fault c.0.now (row.LoadBalancer r) };

    fn broken(&self, balancer: &LoadBalancer) -> Option<SchemaFault> {
        if any_is_distributed(self.0, balancer.routers.as_slice()) {
            Some(SchemaFault::NatNeedsChassis(balancer.name))
        } else {
            None
        }
    }
}

/// The first translation or balancer of a distributed router.
#[tactic(auto, using(crate::proofs::EachKind::all_translations))]
pub(crate) fn nat_needs_chassis(records: &Records) -> Option<SchemaFault>
    ensures { result ≡ spec.nat_needs_chassis records.now }
{
    let clause = NeedsChassis(records);
    if let Some(fault) = first_of(&clause, records.nats()) {
        return Some(fault);
    }
    first_of(&clause, records.load_balancers())
}
