//! The turns of the configuration that are built.

use nb_records::change::Op;
use ovn_base::address::Backend;
use ovn_base::list::List;
use ovn_base::name::Name;

/// A turn of the configuration that is built. Each variant is the event of that name.
#[derive(Clone, Copy)]
pub enum TurnEvent<'a> {
    Edit(&'a List<Op>),
    Bind {
        port: Name,
        chassis: Name,
    },
    AddChassis(Name),
    Health {
        balancer: Name,
        backend: Backend,
        online: bool,
    },
}
