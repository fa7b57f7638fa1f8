//! What holds the flows of a chassis.
ghost use Rattle.ovn_base.specs.lists.Once.{EachOnce};
ghost use Rattle.std.specs.Prelude.{IfOk};
ghost use Rattle.world_setup.specs.Holding.{HaveSame};

use flow_table::flow::SharedFlow;
use flow_table::lookup::Lookup;
use ovn_base::delta::Delta;
use ovn_base::list::List;
use ovn_base::memory::NoMemory;
use std::alloc::Global;
use tuple_space::space::TupleSpace;

/// The classifier of each chassis.
pub type Held = TupleSpace;

// A classifier that holds these flows.
pub(crate) fn holding(alloc: Global, flows: List<SharedFlow>) -> Result<Held, NoMemory>
    requires { EachOnce flows }
    ensures { IfOk result (λ held. HaveSame flows (⟦<Held as Lookup>⟧.flows held)) }
{
    let mut held = Held::new(alloc)?;
    let delta = Delta {
        added: flows,
        removed: List::new(alloc),
    };
    held.prepare(&delta)?;
    held.replace(delta);
    let _first = held.flow(0);
    Ok(held)
}
