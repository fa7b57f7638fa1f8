//! An address that a router's port reaches without a hop between.
ghost use Rattle.std.specs.Prelude.{◌≡◌, ◌++◌, ◌∷◌, [], IfOk, OnOk, OnErr};
ghost use Rattle.ovn_base.specs.numbers.Steps.{after_steps};
ghost use Rattle.logical_flows.specs.declared.unit.UnitId.TheVariants.{Neighbour};
ghost use Rattle.stage_rows.specs.Admitting.{AdmitsNeighbour};
ghost use Rattle.stage_rows.specs.Reads as reads;
ghost use Rattle.stage_rows.specs.RouterRows as spec;
ghost use Rattle.stage_rows.specs.Rows.{on_some};
ghost use Rattle.stage_rows.specs.Units.{rows_of, neighbour_named};
ghost use Rattle.router_stages.specs.UnitLaws.{neighbour_law};

use crate::stages::neighbours::neighbour_row;
use logical_flows::flow::LFlow;
use logical_flows::stage_unit::StageUnit;
use nb_records::records::Records;
use net_model::neighbours::neighbour;
use ovn_base::address::Ip4;
use ovn_base::list::List;
use ovn_base::memory::NoMemory;
use ovn_base::name::Name;
use ovn_base::steps::Steps;
use stage_rows::terms::only;
use std::alloc::Global;

/// An address that a router's port reaches without a hop between: by a static binding, on its switch, or by a direct joint.
#[derive(Clone, Copy, PartialEq, Eq, Debug)]
pub struct NeighbourUnit {
    pub port: Name,
    pub ip: Ip4,
}

/// The row of the address, or none where the router port of that name doesn't reach it.
pub fn neighbour_rows(
    alloc: Global,
    records: &Records,
    port: &Name,
    ip: Ip4,
) -> Result<List<LFlow>, NoMemory>
    ensures { IfOk result (λ l. l ≡ on_some (neighbour_named records.now port.now ip) (λ mac. spec.neighbour_row port.now ip mac ∷ [])) }
{
    match neighbour(records, port, ip) {
        Some(mac) => only(alloc, neighbour_row(alloc, port, ip, mac)?),
        None => Ok(List::new(alloc)),
    }
}

impl StageUnit for NeighbourUnit {
    type Facts = Records;

    ghost flows_of = { λ u net. rows_of net (Neighbour u.port u.ip) };

    ghost reads_of = { λ u net. reads.reads_of net (Neighbour u.port u.ip) };

    ghost Agree = { reads.Agree };

    ghost fits = { λ u net. AdmitsNeighbour net u.port u.ip };

    #[tactic(auto, using(crate::proofs::NeighbourUnits::rows_of_reached))]
    fn translate<L>(
        &self,
        alloc: Global,
        facts: &Records,
        out: &mut List<LFlow>,
        steps: &mut Steps<L>,
    ) -> Result<(), NoMemory> {
        steps.tick();
        out.append(neighbour_rows(alloc, facts, &self.port, self.ip)?)
    }

    ghost law = { λ u f g a b same. neighbour_law f g u.port u.ip a b same };
}
