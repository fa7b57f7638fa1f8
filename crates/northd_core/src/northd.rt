//! The stores of logical flows.
ghost use Rattle.std.specs.Prelude.{◌≡◌, IfOk, option_map, slice_get};
ghost use Rattle.std.specs.Map.{keys_of};
ghost use Rattle.std.specs.Option.{option_copied};
ghost use Rattle.nb_records.specs.Network.{Network, empty_network};
ghost use Rattle.nb_rules.specs.Valid.{IsValid};
ghost use Rattle.northd_core.specs.Held.{StandsFor};
ghost use Rattle.northd_core.specs.Listing.{HasCountedOn};
ghost use Rattle.northd_core.specs.Plans.{IsLeft, IsNorthPlan, IsPlannedOn, ListsEach, IsPairOf};
ghost use Rattle.stage_rows.specs.Units.{IsLogicalFlow};

use crate::exact::{exact_pairs, exact_units};
use crate::listing::{Listed, list_units};
use crate::units::put_units;
use flow_refs::patch::Patch;
use flow_refs::shared::Shared;
use logical_flows::exact::{exact_flow, exact_flow_clone, exact_unit_clone};
use logical_flows::flow::LFlow;
use logical_flows::unit::UnitId;
use nb_edits::plan::EditPlan;
use nb_records::records::Records;
use ovn_base::delta::Delta;
use ovn_base::memory::NoMemory;
use ovn_base::name::{Name, exact_name};
use ovn_base::steps::Steps;
use std::alloc::Global;
use std::collections::BTreeSet;
use std::marker::Model;

/// The logical flows of a network and its pairs of flows and datapaths, each once, with the units that have it.
#[derive(Drop)]
pub struct Northd {
    alloc: Global,
    flows: Shared<LFlow, UnitId>,
    pairs: Shared<(LFlow, Name), UnitId>,
}

impl Model for Northd {
    ghost use Rattle.match_language.specs.contracts.expr.Expr as expr;
    ghost use Rattle.std.specs.Coded.{codes};
    ghost use Rattle.northd_core.specs.Held.{North};

    ghost Value = { North };

    ghost coded = { Prim.hlevel (codes, expr.the_row.coded) };

    ghost view = { λ n. record { flows = n.flows; pairs = n.pairs } };
}

/// What an edit makes of the logical flows, told before it is applied.
#[derive(Drop)]
pub struct NorthPlan {
    flows: Patch<LFlow, UnitId>,
    pairs: Patch<(LFlow, Name), UnitId>,
}

impl Model for NorthPlan {
    ghost use Rattle.match_language.specs.contracts.expr.Expr as expr;
    ghost use Rattle.std.specs.Coded.{codes};
    ghost use Rattle.northd_core.specs.Plans.{Planned};

    ghost Value = { Planned };

    ghost coded = { Prim.hlevel (codes, expr.the_row.coded) };

    ghost view = { λ p. record { flows = p.flows; pairs = p.pairs } };
}

impl NorthPlan {
    /// The pairs of a flow and a datapath that come.
    pub fn come(&self) -> &[(LFlow, Name)]
        ensures { result.now ≡ self.now.pairs.delta.added }
    {
        self.pairs.delta().added.as_slice()
    }

    /// Those that go.
    pub fn gone(&self) -> &[(LFlow, Name)]
        ensures { result.now ≡ self.now.pairs.delta.removed }
    {
        self.pairs.delta().removed.as_slice()
    }
}

impl Northd {
    /// No flow, as the network without records has none.
    #[tactic(auto, using(crate::proofs::NorthPlans::empty_stands))]
    pub fn new(alloc: Global) -> Result<Northd, NoMemory>
        ensures { IfOk result (StandsFor empty_network) }
    {
        Ok(Northd {
            alloc,
            flows: Shared::new(alloc)?,
            pairs: Shared::new(alloc)?,
        })
    }

    /// Makes all ready for the rows of the records as the plan leaves them, where what is held stands for the records before. What is held
    /// is left as it was.
    #[tactic(auto, using(crate::proofs::NorthPlans::left_itself, crate::proofs::Counted::none_counted))]
    pub fn prepare<L>(
        &mut self,
        records: &Records,
        plan: &EditPlan,
        steps: &mut Steps<L>,
    ) -> Result<NorthPlan, NoMemory>
        requires before { IsValid records.now }
        requires after { IsValid plan.now.after }
        requires stands { StandsFor records.now self.old }
        ensures left { IsLeft self.old self.new }
        ensures steps { HasCountedOn steps.old steps.new }
        ensures planned { IfOk result (IsNorthPlan records.now plan.now.after self.new) }
    {
        exact_flow();
        exact_flow_clone();
        exact_name();
        exact_pairs();
        exact_units();
        exact_unit_clone();
        let alloc = self.alloc;
        let mut units = BTreeSet::new(alloc);
        put_units(alloc, records, &mut units)?;
        put_units(alloc, plan.after(), &mut units)?;
        let Listed { flows, pairs } = list_units(alloc, plan.after(), &units, steps)?;
        let flows = self.flows.prepare(flows)?;
        let pairs = self.pairs.prepare(pairs)?;
        Ok(NorthPlan { flows, pairs })
    }

    /// The rows of the plan, which was prepared for what is held. Answers the flows that come and that go. It takes no memory.
    pub fn apply(&mut self, plan: NorthPlan) -> Delta<LFlow>
        requires { IsPlannedOn self.old plan }
        ensures leads { (before after : Network) → IsNorthPlan before after self.old plan → StandsFor after self.new }
        ensures shown { result ≡ plan.flows.delta }
    {
        let NorthPlan { flows, pairs } = plan;
        self.pairs.apply(pairs);
        self.flows.apply(flows)
    }

    /// The held flow at the index, counted from 0; `None` past the last.
    pub fn flow(&self, index: usize) -> Option<&LFlow>
        ensures flow { option_copied result ≡ slice_get (keys_of self.now.flows.counts) index }
        ensures each { (net : Network) → IsValid net → StandsFor net self.now → ListsEach (IsLogicalFlow net) (keys_of self.now.flows.counts) }
    {
        exact_flow();
        self.flows.flow(index)
    }

    /// The held pair at the index, counted from 0; `None` past the last.
    pub fn pair(&self, index: usize) -> Option<(&LFlow, &Name)>
        ensures pair { option_map (λ p. (p.0.now, p.1.now)) result ≡ slice_get (keys_of self.now.pairs.counts) index }
        ensures each { (net : Network) → IsValid net → StandsFor net self.now → ListsEach (IsPairOf net) (keys_of self.now.pairs.counts) }
    {
        exact_pairs();
        let (flow, datapath) = self.pairs.flow(index)?;
        Some((flow, datapath))
    }
}
