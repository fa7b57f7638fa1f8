//! A static route.
ghost use Rattle.std.specs.Prelude.{◌≡◌, ◌++◌, IfOk, OnOk, OnErr};
ghost use Rattle.ovn_base.specs.numbers.Steps.{after_steps};
ghost use Rattle.logical_flows.specs.declared.unit.UnitId.TheVariants.{Route};
ghost use Rattle.stage_rows.specs.Admitting.{AdmitsRoute};
ghost use Rattle.stage_rows.specs.Reads as reads;
ghost use Rattle.stage_rows.specs.RouterRows.{routed_rows};
ghost use Rattle.stage_rows.specs.Units.{rows_of};
ghost use Rattle.router_stages.specs.UnitLaws.{route_law};

use crate::facts::exits::exit_towards;
use crate::stages::routing::route_row;
use logical_flows::flow::LFlow;
use logical_flows::stage_unit::StageUnit;
use nb_records::records::Records;
use nb_records::router::Route;
use ovn_base::list::List;
use ovn_base::memory::NoMemory;
use ovn_base::name::Name;
use ovn_base::steps::Steps;
use stage_rows::terms::only;
use std::alloc::Global;

/// A static route: it leaves by the port with the longest network that holds its next hop.
#[derive(Clone, Copy, PartialEq, Eq, Debug)]
pub struct RouteUnit {
    pub route: Name,
}

/// The row of the route, or none where no network of its router holds its next hop.
#[tactic(auto, using(crate::proofs::RouteUnits::routed_by_exit))]
pub fn route_rows(alloc: Global, records: &Records, route: &Route) -> Result<List<LFlow>, NoMemory>
    ensures { IfOk result (λ l. l ≡ routed_rows records.now route.now) }
{
    match exit_towards(records, &route.router, route.nexthop) {
        Some(exit) => only(alloc, route_row(alloc, route, &exit)?),
        None => Ok(List::new(alloc)),
    }
}

impl StageUnit for RouteUnit {
    type Facts = Records;

    ghost flows_of = { λ u net. rows_of net (Route u.route) };

    ghost reads_of = { λ u net. reads.reads_of net (Route u.route) };

    ghost Agree = { reads.Agree };

    ghost fits = { λ u net. AdmitsRoute net u.route };

    #[tactic(auto, using(crate::proofs::RouteUnits::is_found, crate::proofs::RouteUnits::rows_of_found))]
    fn translate<L>(
        &self,
        alloc: Global,
        facts: &Records,
        out: &mut List<LFlow>,
        steps: &mut Steps<L>,
    ) -> Result<(), NoMemory> {
        steps.tick();
        match facts.route(&self.route) {
            Some(route) => out.append(route_rows(alloc, facts, route)?),
            None => Ok(()),
        }
    }

    ghost law = { λ u f g a b same. route_law f g u.route a b same };
}
