//! Which routers translate.
ghost use Rattle.std.specs.Prelude.{◌≡◌};
ghost use Rattle.std.specs.List.{list_any};
ghost use Rattle.ovn_base.specs.names.SameName.{same_name};
ghost use Rattle.nb_records.specs.Routers as spec;
ghost use Rattle.nb_records.specs.Switches.{has_some};

use nb_records::records::Records;
use nb_records::router::Router;
use ovn_base::name::Name;
use stage_rows::balancers::has_balancer;

// Some row of NAT is one of the router.
fn some_translate(records: &Records, router: &Name) -> bool
    ensures { result ≡ list_any (λ e. same_name e.1.router router.now) records.now.nats }
{
    'rows: for (_name, row) in records.nats() {
        if row.router == *router {
            return true;
        }
    }
    false
}

// The router has a row of NAT.
#[tactic(auto, using(crate::proofs::Gateways::nats_are))]
fn has_nat(records: &Records, router: &Name) -> bool
    ensures { result ≡ has_some (spec.nats_of records.now router.now) }
{
    some_translate(records, router)
}

/// Whether the router is a gateway with a row of NAT or a balancer.
pub(crate) fn translates(records: &Records, router: &Router) -> bool
    ensures { result ≡ spec.translates records.now router.now }
{
    router.chassis.is_some()
        && (has_nat(records, &router.name) || has_balancer(records, &router.name))
}
