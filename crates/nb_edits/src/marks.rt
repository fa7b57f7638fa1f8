//! Backends that balancers list, and marks of those that none lists any more.
ghost use Rattle.std.specs.Prelude.{◌≡◌, not, OnOk};
ghost use Rattle.std.specs.List.{find, list_any};
ghost use Rattle.nb_records.specs.Editing as spec;
ghost use Rattle.nb_records.specs.Network.{same_backend};
ghost use Rattle.nb_edits.specs.OpFaults.{is_kept_mark};

use nb_records::balancer::{LoadBalancer, OfflineMark};
use nb_records::records::Records;
use ovn_base::address::Backend;
use ovn_base::memory::NoMemory;

fn has_backend(backends: &[Backend], backend: Backend) -> bool
    ensures { result ≡ list_any (same_backend backend) backends.now }
{
    backends.iter().any(|other| backend.ip.0 == other.ip.0 && backend.port == other.port)
}

/// Whether a vip of the balancer lists the backend.
pub fn lists_backend(balancer: &LoadBalancer, backend: Backend) -> bool
    ensures { result ≡ spec.lists_backend backend (Some balancer.now) }
{
    balancer
        .vips
        .iter()
        .any(|vip| has_backend(vip.backends.as_slice(), backend))
}

fn is_kept(records: &Records, mark: &OfflineMark) -> bool
    ensures { result ≡ is_kept_mark records.now mark.now }
{
    match records.load_balancer(&mark.balancer) {
        Some(balancer) => lists_backend(balancer, mark.backend),
        None => false,
    }
}

// The first mark of a backend that its balancer doesn't list.
fn first_unlisted(records: &Records) -> Option<OfflineMark>
    ensures { result ≡ find (λ m. not (is_kept_mark records.now m)) records.now.offline }
{
    'marks: for mark in records.offline() {
        if !is_kept(records, mark) {
            return Some(*mark);
        }
    }
    None
}

/// Takes out the marks of backends that no vip of their balancer lists.
pub(crate) fn drop_unlisted(records: &mut Records) -> Result<(), NoMemory>
    ensures { OnOk result (records.new ≡ spec.with_listed_marks records.old) }
{
    'marks: while let Some(mark) = first_unlisted(records) {
        records.mark(&mark.balancer, mark.backend, true)?;
    }
    Ok(())
}
