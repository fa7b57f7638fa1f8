//! Backends of load balancers that are marked.
ghost use Rattle.std.specs.Prelude.{◌≡◌};
ghost use Rattle.world_setup.specs.Refusing.{cause_of_mark};

use event_lines::refusal::Refusal;
use nb_edits::marks::lists_backend;
use nb_records::records::Records;
use ovn_base::address::Backend;
use ovn_base::name::Name;

/// Why the backend can't be marked, if it can't.
pub(crate) fn refusal_of_mark(
    records: &Records,
    balancer: &Name,
    backend: Backend,
) -> Option<Refusal>
    ensures { result ≡ cause_of_mark records.now balancer.now backend }
{
    match records.load_balancer(balancer) {
        None => Some(Refusal::NoSuch(*balancer)),
        Some(record) if !lists_backend(record, backend) => Some(Refusal::NoSuchBackend(backend)),
        Some(_) => None,
    }
}
