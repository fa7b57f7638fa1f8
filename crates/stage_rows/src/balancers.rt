//! Which switches and routers have a balancer.
ghost use Rattle.std.specs.Prelude.{◌≡◌};
ghost use Rattle.std.specs.List.{list_any};
ghost use Rattle.nb_records.specs.Switches as spec;

use nb_records::records::Records;
use nb_records::references::serves;
use ovn_base::name::Name;

// Some balancer serves it.
fn some_serve(records: &Records, datapath: &Name) -> bool
    ensures { result ≡ list_any (λ e. spec.serves_at datapath.now e.1) records.now.load_balancers }
{
    'balancers: for (_name, balancer) in records.load_balancers() {
        if serves(balancer, datapath) {
            return true;
        }
    }
    false
}

/// Whether a balancer serves the switch or router.
#[tactic(auto, using(crate::proofs::SomeTests::balanced_is))]
pub fn has_balancer(records: &Records, datapath: &Name) -> bool
    ensures { result ≡ spec.has_balancer records.now datapath.now }
{
    some_serve(records, datapath)
}
