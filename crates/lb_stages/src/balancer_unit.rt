//! A load balancer on a switch or router.
ghost use Rattle.std.specs.Prelude.{◌≡◌, ◌++◌, IfOk, OnOk, OnErr};
ghost use Rattle.ovn_base.specs.numbers.Steps.{after_steps};
ghost use Rattle.logical_flows.specs.declared.unit.UnitId.TheVariants.{Balancer};
ghost use Rattle.nb_records.specs.Network.{is_online};
ghost use Rattle.stage_rows.specs.Admitting.{AdmitsBalancer};
ghost use Rattle.stage_rows.specs.Reads as reads;
ghost use Rattle.stage_rows.specs.Units.{rows_of};
ghost use Rattle.lb_stages.specs.BalancerList.{balancer_list};
ghost use Rattle.lb_stages.specs.BalancerLaw.{balancer_law};

use crate::vip_rows::{push_router_vips, push_switch_vips};
use logical_flows::flow::LFlow;
use logical_flows::stage_unit::StageUnit;
use nb_records::balancer::LoadBalancer;
use nb_records::records::Records;
use nb_records::references::is_named;
use ovn_base::list::List;
use ovn_base::memory::NoMemory;
use ovn_base::name::Name;
use ovn_base::steps::Steps;
use std::alloc::Global;

/// A load balancer on a switch or router that it serves.
#[derive(Clone, Copy, PartialEq, Eq, Debug)]
pub struct BalancerUnit {
    pub balancer: Name,
    pub datapath: Name,
}

/// The rows of the balancer of that name on the switch or router, in the order of the stages.
pub fn balancer_rows(
    alloc: Global,
    records: &Records,
    name: &Name,
    balancer: &LoadBalancer,
    datapath: &Name,
) -> Result<List<LFlow>, NoMemory>
    ensures { IfOk result (λ l. l ≡ balancer_list (is_online records.now name.now) datapath.now balancer.now) }
{
    let mut rows = List::new(alloc);
    if is_named(balancer.routers.as_slice(), datapath) {
        push_router_vips(alloc, records, name, balancer, &mut rows)?;
    }
    if is_named(balancer.switches.as_slice(), datapath) {
        push_switch_vips(alloc, records, name, balancer, &mut rows)?;
    }
    Ok(rows)
}

impl StageUnit for BalancerUnit {
    type Facts = Records;

    ghost flows_of = { λ u net. rows_of net (Balancer u.balancer u.datapath) };

    ghost reads_of = { λ u net. reads.reads_of net (Balancer u.balancer u.datapath) };

    ghost Agree = { reads.Agree };

    ghost fits = { λ u net. AdmitsBalancer net u.balancer u.datapath };

    #[tactic(auto, using(crate::proofs::BalancerUnits::is_found, crate::proofs::BalancerUnits::rows_of_found))]
    fn translate<L>(
        &self,
        alloc: Global,
        facts: &Records,
        out: &mut List<LFlow>,
        steps: &mut Steps<L>,
    ) -> Result<(), NoMemory> {
        steps.tick();
        match facts.load_balancer(&self.balancer) {
            Some(balancer) => {
                out.append(balancer_rows(alloc, facts, &self.balancer, balancer, &self.datapath)?)
            }
            None => Ok(()),
        }
    }

    ghost law = { λ u f g a b same. balancer_law f g u.balancer u.datapath a b same };
}
