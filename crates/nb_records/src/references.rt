//! Fields that name other records.
ghost use Rattle.std.specs.Prelude.{◌≡◌};
ghost use Rattle.nb_records.specs.Switches as spec;

use crate::balancer::LoadBalancer;
use ovn_base::name::Name;

/// Whether the name is among the names.
pub fn is_named(names: &[Name], name: &Name) -> bool
    ensures { result ≡ spec.is_named name.now names.now }
{
    names.iter().any(|other| *other == *name)
}

/// Whether the name is the one that is given.
pub fn is_given(name: &Name, given: &Option<Name>) -> bool
    ensures { result ≡ spec.is_given name.now given.now }
{
    match given {
        Some(given) => *given == *name,
        None => false,
    }
}

/// Whether the balancer serves the switch or router of that name.
pub fn serves(balancer: &LoadBalancer, datapath: &Name) -> bool
    ensures { result ≡ spec.serves_at datapath.now balancer.now }
{
    is_named(balancer.switches.as_slice(), datapath)
        || is_named(balancer.routers.as_slice(), datapath)
}
