//! The flows of one chassis, unit by unit.
ghost use Rattle.std.specs.Prelude.{◌≡◌, List, IfOk};
ghost use Rattle.std.specs.List.{AllByRecursion};
ghost use Rattle.std.specs.Map.{keys_of};
ghost use Rattle.ovn_base.specs.lists.Once.{EachOnce};
ghost use Rattle.flow_table.specs.declared.flow.Flow.{Flow};
ghost use Rattle.physical_flows.specs.declared.unit.FlowUnit.{FlowUnit};
ghost use Rattle.ovn_base.specs.names.ByName.{IsByName};
ghost use Rattle.physical_flows.specs.Around.{around_everywhere, around_rows};
ghost use Rattle.physical_flows.specs.Compiling.{basis_of};
ghost use Rattle.physical_flows.specs.Homes.{ArePortsNamed};
ghost use Rattle.physical_flows.specs.RecordKeys.{HaveKeys};
ghost use Rattle.flow_refs.specs.Store.{IsPreparedFor};
ghost use Rattle.physical_flows.specs.Switched.{IsKeyed};
ghost use Rattle.physical_flows.specs.UnitFlows.{AreGiven, HaveRows, IsTablePatch, StayPrepared, rows_held, same_flow, unit_order};
ghost use Rattle.physical_flows.specs.Units.{ChangeOnly, no_rows};

use crate::compile::Maps;
use crate::unit::{FlowUnit, exact_unit};
use flow_refs::patch::Patch;
use flow_refs::shared::Shared;
use flow_table::exact::{exact_flow, exact_flow_clone};
use flow_table::flow::SharedFlow;
use ovn_base::delta::Delta;
use ovn_base::list::List;
use ovn_base::memory::NoMemory;
use std::alloc::Global;
use std::marker::Model;

/// The flows of one chassis, each with the units that have it.
#[derive(Drop)]
pub struct UnitFlows {
    store: Shared<SharedFlow, FlowUnit>,
}

impl Model for UnitFlows {
    ghost use Rattle.physical_flows.specs.UnitFlows.{UnitStore};

    ghost Value = { UnitStore };

    ghost view = { λ s. s.store };
}

/// New rows of some units on one chassis, made by [`UnitFlows::prepare_around`] and put into force by [`UnitFlows::apply`].
#[derive(Drop)]
pub struct TablePatch {
    patch: Patch<SharedFlow, FlowUnit>,
}

impl Model for TablePatch {
    ghost use Rattle.flow_refs.specs.Store.{Prepared};
    ghost use Rattle.flow_table.specs.declared.flow.Flow.{Flow};
    ghost use Rattle.physical_flows.specs.declared.unit.FlowUnit.{FlowUnit};

    ghost Value = { Prepared Flow FlowUnit };

    ghost view = { λ p. p.patch };
}

impl TablePatch {
    /// The flows that come and that go: the delta that `apply` will answer.
    pub fn delta(&self) -> &Delta<SharedFlow>
        ensures { result.now ≡ self.now.delta }
    {
        self.patch.delta()
    }
}

impl UnitFlows {
    /// No unit has a flow.
    pub fn new(alloc: Global) -> Result<UnitFlows, NoMemory>
        ensures { IfOk result (λ held. rows_held held ≡ no_rows) }
    {
        Ok(UnitFlows {
            store: Shared::new(alloc)?,
        })
    }

    // Makes all ready for some units to have the rows that are given, and behind them those that follow from who is at home on the
    // chassis of the maps.
    fn prepare_given(
        &mut self,
        alloc: Global,
        maps: &Maps<'_>,
        given: &[(FlowUnit, List<SharedFlow>)],
    ) -> Result<TablePatch, NoMemory>
        requires sorted { IsByName (basis_of maps.now).net.switch_ports }
        requires named { ArePortsNamed (basis_of maps.now).net }
        requires keys { HaveKeys (basis_of maps.now).net (basis_of maps.now).keys }
        requires once { EachOnce (keys_of given.now) }
        ensures kept { rows_held self.new ≡ rows_held self.old }
        ensures left { StayPrepared self.old self.new }
        ensures prepared { IfOk result (λ patch. (before after : FlowUnit → List Flow) → HaveRows before (rows_held self.old)
            → AreGiven (basis_of maps.now) after given.now → ChangeOnly (keys_of given.now) before after → IsTablePatch before after self.new patch) }
    {
        exact_flow();
        exact_flow_clone();
        exact_unit();
        let mut changes = List::new(alloc);
        'units: for (unit, rows) in given {
            let all = maps.rows_of(alloc, unit, rows)?;
            changes.push((*unit, all))?;
        }
        let patch = self.store.prepare(changes)?;
        Ok(TablePatch { patch })
    }

    /// Makes all ready for some units to have their rows around the pipelines on the chassis of the maps. `around` are these units,
    /// each with those of these rows that are the same on every chassis. What each unit has stays, and what was prepared before
    /// can still be applied.
    pub fn prepare_around(
        &mut self,
        alloc: Global,
        maps: &Maps<'_>,
        around: &[(FlowUnit, List<SharedFlow>)],
    ) -> Result<TablePatch, NoMemory>
        requires keyed { IsKeyed (basis_of maps.now).net (basis_of maps.now).keys }
        requires once { EachOnce (keys_of around.now) }
        requires around { AllByRecursion (λ e. e.1 ≡ around_everywhere (basis_of maps.now) e.0) around.now }
        ensures kept { rows_held self.new ≡ rows_held self.old }
        ensures left { StayPrepared self.old self.new }
        ensures prepared { IfOk result (λ patch. (before : FlowUnit → List Flow) → HaveRows before (rows_held self.old)
            → ChangeOnly (keys_of around.now) before (around_rows (basis_of maps.now)) → IsTablePatch before (around_rows (basis_of maps.now)) self.new patch) }
    {
        self.prepare_given(alloc, maps, around)
    }

    /// Gives the units of a patch their rows, which was prepared for what is held. Answers the flows that come and that go. It
    /// takes no memory.
    pub fn apply(&mut self, patch: TablePatch) -> Delta<SharedFlow>
        requires { IsPreparedFor same_flow unit_order self.old patch }
        ensures leads { (before after : FlowUnit → List Flow) → IsTablePatch before after self.old patch → HaveRows after (rows_held self.new) }
        ensures shown { result ≡ patch.delta }
    {
        let TablePatch { patch } = patch;
        self.store.apply(patch)
    }
}
