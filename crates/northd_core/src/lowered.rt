//! The store of lowered flows: what every chassis has of the network, unit by unit.
ghost use Rattle.std.specs.Prelude.{◌≡◌, IfOk, slice_get};
ghost use Rattle.std.specs.Map.{keys_of};
ghost use Rattle.std.specs.Option.{option_copied};
ghost use Rattle.flow_refs.specs.Store.{IsPreparedFor};
ghost use Rattle.nb_records.specs.Network.{empty_network};
ghost use Rattle.tunnel_keys.specs.Keys.{Keys};
ghost use Rattle.northd_core.specs.Held.{unit_order};
ghost use Rattle.northd_core.specs.Listing.{HasCountedOn};
ghost use Rattle.northd_core.specs.Lowering.{CanCompile, HaveLowered, IsLoweredIn, IsLoweredPlan, LeavesLowered, Lowering, StayLowered, same_lowered};
ghost use Rattle.northd_core.specs.Plans.{ListsEach};

use crate::exact::exact_units;
use crate::lowering::list_lowered;
use crate::units::units_in;
use flow_refs::patch::Patch;
use flow_refs::shared::Shared;
use flow_table::exact::{exact_flow, exact_flow_clone};
use flow_table::flow::SharedFlow;
use logical_flows::exact::exact_unit_clone;
use logical_flows::unit::UnitId;
use nb_edits::plan::EditPlan;
use nb_records::records::Records;
use ovn_base::delta::Delta;
use ovn_base::memory::NoMemory;
use ovn_base::steps::Steps;
use std::alloc::Global;
use std::collections::BTreeSet;
use std::marker::Model;
use tunnel_keys::store::KeyStore;

/// The flows to which the rows of a network are lowered, each once, with the units that have it.
#[derive(Drop)]
pub struct LoweredFlows {
    alloc: Global,
    flows: Shared<SharedFlow, UnitId>,
}

impl Model for LoweredFlows {
    ghost use Rattle.flow_refs.specs.Store.{Store};
    ghost use Rattle.flow_table.specs.declared.flow.Flow.{Flow};
    ghost use Rattle.logical_flows.specs.declared.unit.UnitId.{UnitId};

    ghost Value = { Store Flow UnitId };

    ghost view = { λ l. l.flows };
}

/// What an edit makes of the lowered flows, told before it is applied.
#[derive(Drop)]
pub struct LoweredPlan {
    flows: Patch<SharedFlow, UnitId>,
}

impl Model for LoweredPlan {
    ghost use Rattle.flow_refs.specs.Store.{Prepared};
    ghost use Rattle.flow_table.specs.declared.flow.Flow.{Flow};
    ghost use Rattle.logical_flows.specs.declared.unit.UnitId.{UnitId};

    ghost Value = { Prepared Flow UnitId };

    ghost view = { λ p. p.flows };
}

impl LoweredPlan {
    /// The flows that come and that go: the delta that `apply` will answer.
    pub fn delta(&self) -> &Delta<SharedFlow>
        ensures { result.now ≡ self.now.delta }
    {
        self.flows.delta()
    }
}

impl LoweredFlows {
    /// No flow, as the network without records has none, whatever the keys.
    #[tactic(auto, using(crate::proofs::LoweredStores::none_lowered))]
    pub fn new(alloc: Global) -> Result<LoweredFlows, NoMemory>
        ensures { IfOk result (λ held. (keys : Keys) → HaveLowered (record { net = empty_network; keys = keys }) held) }
    {
        Ok(LoweredFlows {
            alloc,
            flows: Shared::new(alloc)?,
        })
    }

    // Makes all ready for the flows that these units have by the records and keys, where every other unit keeps its own.
    #[tactic(auto, using(crate::proofs::LoweredStores::left_itself, crate::proofs::Counted::none_counted))]
    fn plan_units<L>(
        &mut self,
        records: &Records,
        units: &BTreeSet<UnitId>,
        keys: &KeyStore,
        steps: &mut Steps<L>,
    ) -> Result<LoweredPlan, NoMemory>
        requires { CanCompile (record { net = records.now; keys = keys.now }) }
        ensures left { LeavesLowered self.old self.new }
        ensures steps { HasCountedOn steps.old steps.new }
        ensures planned { IfOk result (λ patch. (before : Lowering) → CanCompile before → HaveLowered before self.old
            → StayLowered before (record { net = records.now; keys = keys.now }) units.now.keys
            → IsLoweredPlan before (record { net = records.now; keys = keys.now }) self.new patch) }
    {
        exact_flow();
        exact_flow_clone();
        exact_units();
        exact_unit_clone();
        let alloc = self.alloc;
        let lowered = list_lowered(alloc, records, units, keys, steps)?;
        let flows = self.flows.prepare(lowered)?;
        Ok(LoweredPlan { flows })
    }

    /// Makes all ready for the flows of the records as the plan leaves them, with the keys as they are then, and lowers the touched units anew.
    /// What is held is left as it was. Where it stands for the records before and every unit that isn't among these is to be lowered to the
    /// flows that it has, the plan leads from there to the records after.
    #[tactic(auto, using(crate::proofs::LoweredStores::left_itself, crate::proofs::Counted::none_counted))]
    pub fn prepare_touched<L>(
        &mut self,
        plan: &EditPlan,
        touched: &[UnitId],
        keys: &KeyStore,
        steps: &mut Steps<L>,
    ) -> Result<LoweredPlan, NoMemory>
        requires { CanCompile (record { net = plan.now.after; keys = keys.now }) }
        ensures left { LeavesLowered self.old self.new }
        ensures steps { HasCountedOn steps.old steps.new }
        ensures planned { IfOk result (λ patch. (before : Lowering) → CanCompile before → HaveLowered before self.old
            → StayLowered before (record { net = plan.now.after; keys = keys.now }) touched.now
            → IsLoweredPlan before (record { net = plan.now.after; keys = keys.now }) self.new patch) }
    {
        let units = units_in(self.alloc, touched)?;
        self.plan_units(plan.after(), &units, keys, steps)
    }

    /// The flows of the plan, which was prepared for what is held. Answers the flows that come and that go. It takes no memory.
    pub fn apply(&mut self, plan: LoweredPlan) -> Delta<SharedFlow>
        requires { IsPreparedFor same_lowered unit_order self.old plan }
        ensures leads { (before after : Lowering) → IsLoweredPlan before after self.old plan → HaveLowered after self.new }
        ensures shown { result ≡ plan.delta }
    {
        let LoweredPlan { flows } = plan;
        self.flows.apply(flows)
    }

    /// The held flow at the index, counted from 0; `None` past the last.
    pub fn flow(&self, index: usize) -> Option<&SharedFlow>
        ensures flow { option_copied result ≡ slice_get (keys_of self.now.counts) index }
        ensures each { (l : Lowering) → CanCompile l → HaveLowered l self.now → ListsEach (IsLoweredIn l) (keys_of self.now.counts) }
    {
        exact_flow();
        self.flows.flow(index)
    }
}
