//! A port of a router.
ghost use Rattle.std.specs.Prelude.{◌≡◌, ◌++◌, IfOk, OnOk, OnErr};
ghost use Rattle.ovn_base.specs.numbers.Steps.{after_steps};
ghost use Rattle.logical_flows.specs.declared.unit.UnitId.TheVariants.{Port};
ghost use Rattle.stage_rows.specs.Reads as reads;
ghost use Rattle.stage_rows.specs.Units.{rows_of};
ghost use Rattle.router_stages.specs.RouterLists.{port_list};
ghost use Rattle.router_stages.specs.UnitLaws.{AdmitsRouterPort, port_law};

use crate::stages::admit::push_port_admit;
use crate::stages::input::push_port_input;
use crate::stages::own::push_port_own;
use crate::stages::routing::push_port_route;
use logical_flows::flow::LFlow;
use logical_flows::stage_unit::StageUnit;
use nb_records::records::Records;
use nb_records::router::RouterPort;
use ovn_base::list::List;
use ovn_base::memory::NoMemory;
use ovn_base::name::Name;
use ovn_base::steps::Steps;
use std::alloc::Global;

/// A port of a router.
#[derive(Clone, Copy, PartialEq, Eq, Debug)]
pub struct RouterPortUnit {
    pub port: Name,
}

/// The rows of the port, in the order of the stages.
pub fn port_rows(
    alloc: Global,
    records: &Records,
    port: &RouterPort,
) -> Result<List<LFlow>, NoMemory>
    ensures { IfOk result (λ l. l ≡ port_list records.now port.now) }
{
    let mut rows = List::new(alloc);
    push_port_admit(alloc, port, &mut rows)?;
    push_port_input(alloc, records, port, &mut rows)?;
    push_port_own(alloc, port, &mut rows)?;
    push_port_route(alloc, port, &mut rows)?;
    Ok(rows)
}

impl StageUnit for RouterPortUnit {
    type Facts = Records;

    ghost flows_of = { λ u net. rows_of net (Port u.port) };

    ghost reads_of = { λ u net. reads.reads_of net (Port u.port) };

    ghost Agree = { reads.Agree };

    ghost fits = { λ u net. AdmitsRouterPort net u.port };

    #[tactic(auto, using(crate::proofs::PortUnits::is_found))]
    fn translate<L>(
        &self,
        alloc: Global,
        facts: &Records,
        out: &mut List<LFlow>,
        steps: &mut Steps<L>,
    ) -> Result<(), NoMemory> {
        steps.tick();
        match facts.router_port(&self.port) {
            Some(port) => out.append(port_rows(alloc, facts, port)?),
            None => Ok(()),
        }
    }

    ghost law = { λ u f g a b same. port_law f g u.port a b same };
}
