//! What a router has beside its ports.
ghost use Rattle.std.specs.Prelude.{◌≡◌, ◌++◌, IfOk, OnOk, OnErr};
ghost use Rattle.ovn_base.specs.numbers.Steps.{after_steps};
ghost use Rattle.logical_flows.specs.declared.unit.UnitId.TheVariants.{Router};
ghost use Rattle.stage_rows.specs.Admitting.{AdmitsRouter};
ghost use Rattle.stage_rows.specs.Reads as reads;
ghost use Rattle.stage_rows.specs.Units.{rows_of};
ghost use Rattle.router_stages.specs.RouterLists.{ingress_rows, egress_rows, router_list};
ghost use Rattle.router_stages.specs.UnitLaws.{router_law};

use crate::facts::gateways::translates;
use crate::stages::admit::push_router_admit;
use crate::stages::input::push_router_input;
use crate::stages::neighbours::push_router_neighbour;
use crate::stages::routing::push_router_route;
use crate::stages::translations::{push_find, push_router_dnat, push_router_snat, push_undo};
use logical_flows::flow::LFlow;
use logical_flows::stage::Stage;
use logical_flows::stage_unit::StageUnit;
use nb_records::records::Records;
use ovn_base::list::List;
use ovn_base::memory::NoMemory;
use ovn_base::name::Name;
use ovn_base::steps::Steps;
use stage_rows::rows::push_base;
use std::alloc::Global;

/// What a router has beside its ports: the rows by which a packet goes on or drops where nothing else is said of it, and those that
/// translate by known connections.
#[derive(Clone, Copy, PartialEq, Eq, Debug)]
pub struct RouterUnit {
    pub router: Name,
}

// Adds the rows of ingress.
fn push_ingress(alloc: Global, translating: bool, out: &mut List<LFlow>) -> Result<(), NoMemory>
    ensures { OnOk result (out.new ≡ out.old ++ ingress_rows translating) }
{
    push_router_admit(alloc, out)?;
    push_router_input(alloc, out)?;
    push_undo(alloc, translating, out)?;
    push_router_dnat(alloc, out)?;
    push_base(alloc, Stage::RouterOwn, out)?;
    push_router_route(alloc, out)?;
    push_router_neighbour(alloc, out)
}

// Adds the rows of egress.
fn push_egress(alloc: Global, translating: bool, out: &mut List<LFlow>) -> Result<(), NoMemory>
    ensures { OnOk result (out.new ≡ out.old ++ egress_rows translating) }
{
    push_find(alloc, translating, out)?;
    push_router_snat(alloc, out)
}

/// The rows of a router that translates or doesn't, in the order of the stages.
pub fn router_rows(alloc: Global, translating: bool) -> Result<List<LFlow>, NoMemory>
    ensures { IfOk result (λ l. l ≡ router_list translating) }
{
    let mut rows = List::new(alloc);
    push_ingress(alloc, translating, &mut rows)?;
    push_egress(alloc, translating, &mut rows)?;
    Ok(rows)
}

impl StageUnit for RouterUnit {
    type Facts = Records;

    ghost flows_of = { λ u net. rows_of net (Router u.router) };

    ghost reads_of = { λ u net. reads.reads_of net (Router u.router) };

    ghost Agree = { reads.Agree };

    ghost fits = { λ u net. AdmitsRouter net u.router };

    #[tactic(auto, using(crate::proofs::RouterUnits::is_found, crate::proofs::RouterUnits::rows_of_found))]
    fn translate<L>(
        &self,
        alloc: Global,
        facts: &Records,
        out: &mut List<LFlow>,
        steps: &mut Steps<L>,
    ) -> Result<(), NoMemory> {
        steps.tick();
        match facts.router(&self.router) {
            Some(router) => out.append(router_rows(alloc, translates(facts, router))?),
            None => Ok(()),
        }
    }

    ghost law = { λ u f g a b same. router_law f g u.router a b same };
}
