//! The ground of the tables, the flows of each chassis, and the turns of both.
ghost use Rattle.std.specs.Prelude.{◌≡◌, ◌≤◌, IfErr, IfOk, IsSome, None, [], map, option_map};
ghost use Rattle.std.specs.Map.{keys_of};
ghost use Rattle.std.specs.BTreeSet.{insert_key};
ghost use Rattle.std.specs.Cmp.Lexicographic.{slice_cmp};
ghost use Rattle.std.specs.Ordering.{nat_cmp};
ghost use Rattle.edit_reader.specs.declared.event.Event.TheVariants as event_of;
ghost use Rattle.event_lines.specs.declared.refusal.Refusal.TheVariants as why;
ghost use Rattle.event_lines.specs.declared.refusal.StepFault.TheVariants as fault_why;
ghost use Rattle.nb_edits.specs.OpFaults.{fault_of};
ghost use Rattle.nb_edits.specs.Plans.{IsPlanBetween};
ghost use Rattle.nb_records.specs.Editing.{accepted};
ghost use Rattle.nb_records.specs.Network.{marked};
ghost use Rattle.nb_rules.specs.Valid.{IsValid};
ghost use Rattle.northd_core.specs.Lowering.{CanCompile, HaveLowered, IsLoweredIn, IsLoweredPlan, Lowering};
ghost use Rattle.northd_core.specs.Plans.{ListsEach};
ghost use Rattle.net_model.specs.State.{State, empty};
ghost use Rattle.ovn_base.specs.declared.name.Name.{Name};
ghost use Rattle.ovn_base.specs.lists.Among.{Among};
ghost use Rattle.ovn_base.specs.lists.Once.{EachOnce};
ghost use Rattle.ovn_base.specs.names.ByName.{at};
ghost use Rattle.physical_flows.specs.ChassisFlows.{AreExactly};
ghost use Rattle.physical_flows.specs.Compiling.{basis_of};
ghost use Rattle.physical_flows.specs.Around.{around_rows};
ghost use Rattle.physical_flows.specs.Switched.{IsKeyed};
ghost use Rattle.physical_flows.specs.UnitFlows.{HaveRows, rows_held};
ghost use Rattle.tunnel_keys.specs.Keys.{settled};
ghost use Rattle.tunnel_keys.specs.Causes.{HasKeys};
ghost use Rattle.tunnel_keys.specs.Edits.{IsAfter, IsKeyEdit};
ghost use Rattle.tuple_space.specs.Bunches.{flows_in};
ghost use Rattle.world_setup.specs.TurnEvents.{event_of_turn};
ghost use Rattle.world_setup.specs.Ground.{GroundView, ground_after, ground_of, IsChangeOf, mark_change};
ghost use Rattle.world_setup.specs.Refusing.{is_virtual_port};
ghost use Rattle.world_setup.specs.Setup.{AreTouched, ComesOver, IsFlowBy, IsLoweredOrDone, IsSetupPatch, IsTurnOfTables, every_delta, both_deltas, lowering_in, units_of};
ghost use Rattle.world_setup.specs.Turning.{IsBare, IsNoTurn, IsPlannedEdit, IsPlannedMark, IsTurn, LacksFor, MayTurn, Tells, fault_of_keys};
ghost use Rattle.sim_laws.specs.journeys.First.{nobody_home};
ghost use Rattle.world_setup.specs.Zones.{home_change};

use crate::backends::refusal_of_mark;
use crate::built::is_built_edit;
use crate::edited::{
    key_effects, key_names, leading_units, row_units, touched_rules, touched_units,
};
use crate::ground::{Ground, GroundChange};
use crate::held::{Held, holding};
use crate::homes::come_home;
use crate::stores::{Stores, apply_each, deltas_of, prepare_each};
use crate::turn_event::TurnEvent;
use chassis_sim::change::SimChange;
use conn_zones::change::HomeChange;
use event_lines::refusal::{Refusal, StepFault};
use flow_table::flow::SharedFlow;
use indexmap::IndexMap;
use nb_edits::edit::plan;
use nb_edits::plan::{EditFault, EditPlan};
use nb_records::change::Op;
use nb_records::records::Records;
use northd_core::laws::untouched_rows_stay;
use northd_core::lowered::{LoweredFlows, LoweredPlan};
use northd_core::touched::touched_rows;
use ovn_base::address::Backend;
use ovn_base::delta::Delta;
use ovn_base::limits::MAX_CHASSIS;
use ovn_base::list::List;
use ovn_base::memory::NoMemory;
use ovn_base::name::Name;
use ovn_base::steps::Steps;
use physical_flows::compile::Maps;
use physical_flows::unit::FlowUnit;
use physical_flows::unit_flows::{TablePatch, UnitFlows};
use std::alloc::Global;
use std::cmp::Ordering;
use std::marker::Model;
use switch_engine::effect::NetEffect;
use tunnel_keys::fault::KeyFault;
use tunnel_keys::store::{KeyPlan, KeyStore};

/// What the tables of the chassis follow from, the flows that every chassis has of the network, and those of each chassis around the
/// pipelines: each unit has its rows there.
#[derive(Drop)]
pub struct Setup {
    ground: Ground,
    lowered: LoweredFlows,
    stores: Stores,
}

impl Model for Setup {
    ghost use Rattle.indexmap.specs.IndexMap.{spare};
    ghost use Rattle.match_language.specs.contracts.expr.Expr as expr;
    ghost use Rattle.std.specs.Coded.{codes};
    ghost use Rattle.world_setup.specs.Setup.{SetupView, StandsForGround};

    ghost Value = { SetupView };

    ghost coded = { Prim.hlevel (codes, expr.the_row.coded) };

    ghost view = { λ s. record { ground = s.ground; lowered = s.lowered; stores = s.stores.entries; room = spare s.stores } };

    ghost invariant = { λ s. StandsForGround s.ground s.lowered s.stores.entries };
}

/// A change of the ground, with what it makes of the flows of each chassis.
#[derive(Drop)]
pub struct SetupPatch {
    /// The change.
    pub change: GroundChange,
    /// What it makes of the flows that every chassis has, where they change.
    pub lowered: Option<LoweredPlan>,
    /// What it makes of the flows around the pipelines, of each chassis that is there.
    pub patches: List<(Name, TablePatch)>,
    /// The chassis that comes, if one does, with its flows around the pipelines.
    pub come: Option<(Name, UnitFlows)>,
}

/// What an event makes of the setup and of the simulated chassis, with its effects: all of it is prepared, and nothing done.
#[derive(Drop)]
pub struct Turn {
    /// The change of the setup.
    pub patch: SetupPatch,
    /// The change of the simulated chassis.
    pub sim: SimChange<Held>,
    /// The keys that it gives.
    pub effects: List<NetEffect>,
}

// All flows that every chassis has.
fn all_lowered(alloc: Global, lowered: &LoweredFlows) -> Result<List<SharedFlow>, NoMemory>
    ensures shown { IfOk result (λ flows. flows ≡ keys_of lowered.now.counts) }
    ensures listed { IfOk result (λ flows. (l : Lowering) → CanCompile l → HaveLowered l lowered.now → ListsEach (IsLoweredIn l) flows) }
{
    let mut flows = List::new(alloc);
    'flows: while let Some(flow) = lowered.flow(flows.len()) {
        flows.push(flow.share()?)?;
    }
    Ok(flows)
}

// The flows of a chassis that comes: those around the pipelines by unit, and all of them in its classifier.
fn tables_of(
    alloc: Global,
    maps: &Maps<'_>,
    lowered: &LoweredFlows,
) -> Result<(UnitFlows, Held), NoMemory>
    requires keyed { IsKeyed (basis_of maps.now).net (basis_of maps.now).keys }
    requires compiled { CanCompile (record { net = (basis_of maps.now).net; keys = (basis_of maps.now).keys }) }
    requires lowered { HaveLowered (record { net = (basis_of maps.now).net; keys = (basis_of maps.now).keys }) lowered.now }
    ensures rows { IfOk result (λ tables. HaveRows (around_rows (basis_of maps.now)) (rows_held tables.0)) }
    ensures flows { IfOk result (λ tables. AreExactly (IsFlowBy (basis_of maps.now)) (flows_in tables.1.bunches)) }
{
    let units = maps.units(alloc)?;
    let everywhere = maps.around(alloc, units.as_slice())?;
    let mut flows = UnitFlows::new(alloc)?;
    let patch = flows.prepare_around(alloc, maps, everywhere.as_slice())?;
    let delta = flows.apply(patch);
    let mut all = all_lowered(alloc, lowered)?;
    all.append(delta.added)?;
    let held = holding(alloc, all)?;
    Ok((flows, held))
}

// Nothing comes and nothing goes.
fn no_delta(alloc: Global) -> Delta<SharedFlow>
    ensures { result ≡ record { added = []; removed = [] } }
{
    Delta {
        added: List::new(alloc),
        removed: List::new(alloc),
    }
}

// What comes to each chassis and goes: to every one what is planned, and then what its own patch says.
fn all_deltas(
    alloc: Global,
    lowered: &Option<LoweredPlan>,
    patches: &[(Name, TablePatch)],
) -> Result<List<(Name, Delta<SharedFlow>)>, NoMemory>
    ensures { IfOk result (λ deltas. deltas ≡ map (λ p. (p.0, both_deltas (every_delta lowered.now) p.1.delta)) patches.now) }
{
    match lowered {
        Some(plan) => deltas_of(alloc, plan.delta(), patches),
        None => deltas_of(alloc, &no_delta(alloc), patches),
    }
}

// Puts into force what is planned for every chassis.
fn apply_lowered(lowered: &mut LoweredFlows, planned: Option<LoweredPlan>)
    requires { (before : GroundView) × (after : GroundView) × IsLoweredOrDone before after lowered.old planned }
    ensures { (before after : GroundView) → HaveLowered (lowering_in before) lowered.old → IsLoweredOrDone before after lowered.old planned → HaveLowered (lowering_in after) lowered.new }
{
    if let Some(plan) = planned {
        lowered.apply(plan);
    }
}

// Changes of the simulated chassis that bind no port, name no key and empty no zone.
fn sim_change(alloc: Global) -> SimChange<Held>
    ensures { result ≡ record { added = []; removed = []; tables = []; emptied = []; bound = []; names = [] } }
{
    SimChange {
        added: List::new(alloc),
        removed: List::new(alloc),
        tables: List::new(alloc),
        emptied: List::new(alloc),
        bound: List::new(alloc),
        names: List::new(alloc),
    }
}

// The names with one more, in order.
fn names_with(alloc: Global, names: &[Name], name: Name) -> Result<List<Name>, NoMemory>
    ensures { IfOk result (λ longer. longer ≡ insert_key (slice_cmp nat_cmp) names.now name) }
{
    let mut longer = List::new(alloc);
    'names: for index in 0..names.len() {
        let other = names[index];
        match name.cmp(&other) {
            Ordering::Less => {
                longer.push(name)?;
                longer.extend_from_slice(&names[index..])?;
                return Ok(longer);
            }
            Ordering::Equal => {
                longer.extend_from_slice(&names[index..])?;
                return Ok(longer);
            }
            Ordering::Greater => longer.push(other)?,
        }
    }
    longer.push(name)?;
    Ok(longer)
}

// The records after an edit, or what is wrong with it.
fn planned(
    alloc: Global,
    records: &mut Records,
    ops: &[Op],
    number: u64,
) -> Result<EditPlan, StepFault>
    ensures kept { records.new ≡ records.old }
    ensures faultless { IfOk result (λ plan. fault_of records.old ops.now number ≡ None) }
    ensures stands { IfOk result (IsPlanBetween records.old (accepted records.old ops.now number)) }
    ensures refused { IfErr result (λ fault. Tells fault (option_map (λ f. why.Schema f) (fault_of records.old ops.now number))) }
{
    match plan(alloc, records, ops, number) {
        Ok(plan) => Ok(plan),
        Err(EditFault::Schema(fault)) => Err(StepFault::Refused(Refusal::Schema(fault))),
        Err(EditFault::Memory) => Err(StepFault::Memory),
    }
}

// The records after a mark.
fn planned_mark(
    alloc: Global,
    records: &mut Records,
    balancer: Name,
    backend: Backend,
    online: bool,
    number: u64,
) -> Result<EditPlan, StepFault>
    requires valid { IsValid records.old }
    ensures kept { records.new ≡ records.old }
    ensures stands { IfOk result (IsPlanBetween records.old (marked records.old balancer backend online)) }
    ensures refused { IfErr result (λ fault. fault ≡ fault_why.Memory) }
{
    let mark = Op::Health {
        balancer,
        backend,
        online,
    };
    planned(alloc, records, std::slice::from_ref(&mark), number)
}

// The fault of an edit that lacks keys.
fn fault_of_keys(lack: &KeyFault) -> StepFault
    ensures { result ≡ fault_of_keys lack.now }
{
    match lack {
        KeyFault::NoDatapathKey => StepFault::Refused(Refusal::NoDatapathKey),
        KeyFault::NoPortKey(datapath) => StepFault::Refused(Refusal::NoPortKey(*datapath)),
        KeyFault::Memory => StepFault::Memory,
    }
}

// The keys after the edit, or which it lacks.
fn keys_for(keys: &mut KeyStore, plan: &EditPlan) -> Result<KeyPlan, StepFault>
    requires fits { IsKeyEdit keys.old plan.now.added plan.now.removed }
    ensures kept { keys.new ≡ keys.old }
    ensures after { IfOk result (IsAfter keys.old plan.now.added plan.now.removed) }
    ensures enough { IfOk result (λ next. HasKeys keys.old plan.now.added plan.now.removed) }
    ensures lacks { IfErr result (LacksFor keys.old plan.now.added plan.now.removed) }
{
    match keys.plan(plan.added(), plan.removed()) {
        Ok(next) => Ok(next),
        Err(lack) => Err(fault_of_keys(&lack)),
    }
}

// The port is at home on the chassis from now on.
fn home_change(alloc: Global, port: Name, chassis: Name) -> Result<HomeChange, NoMemory>
    ensures { IfOk result (λ change. change ≡ home_change port chassis) }
{
    Ok(HomeChange {
        ports: List::from_vec(vec![in alloc; (port, Some(chassis))]?),
        routers: List::new(alloc),
    })
}

// The units whose rows follow from where the port is bound: itself and its switch.
fn units_of(alloc: Global, records: &Records, port: &Name) -> Result<List<FlowUnit>, NoMemory>
    ensures { IfOk result (λ units. units ≡ units_of (at records.now.switch_ports port.now) port.now) }
{
    let mut units = List::new(alloc);
    if let Some(record) = records.switch_port(port) {
        units.push(FlowUnit::Switch(record.switch))?;
    }
    units.push(FlowUnit::Port(*port))?;
    Ok(units)
}

impl Setup {
    /// Nothing is there.
    pub fn new(alloc: Global) -> Result<Setup, NoMemory>
        ensures { IfOk result (λ s. s.ground ≡ ground_of empty nobody_home) }
    {
        Ok(Setup {
            ground: Ground::new(alloc)?,
            lowered: LoweredFlows::new(alloc)?,
            stores: IndexMap::new(alloc),
        })
    }

    /// The records.
    pub fn records(&self) -> &Records
        ensures { result.now ≡ self.now.ground.config.net }
    {
        &self.ground.records
    }

    /// The chassis, in order of name.
    pub fn chassis(&self) -> &List<Name>
        ensures { result.now ≡ self.now.ground.config.chassis }
    {
        &self.ground.chassis
    }

    /// The keys.
    pub fn keys(&self) -> &KeyStore
        ensures { result.now ≡ self.now.ground.keys }
    {
        &self.ground.keys
    }

    /// Whether a virtual port of the name is there.
    pub fn is_virtual_port(&self, port: &Name) -> bool
        ensures { result ≡ is_virtual_port (at self.now.ground.config.net.switch_ports port.now) }
    {
        self.ground.is_virtual_port(port)
    }

    /// Frees all retired keys.
    pub fn settle(&mut self)
        ensures { self.new.ground ≡ record self.old.ground { keys = settled self.old.ground.keys } }
    {
        self.ground.settle();
    }

    // Prepares what a change of the ground makes of the flows: those that every chassis has change as planned; of those around the
    // pipelines, on the chassis that are there, the ones of the touched units alone; and with `come` one more chassis comes, where
    // nothing is planned.
    fn prepare(
        &mut self,
        alloc: Global,
        change: GroundChange,
        lowered: Option<LoweredPlan>,
        touched: &[FlowUnit],
        come: Option<Name>,
    ) -> Result<Turn, NoMemory>
        requires fits { IsChangeOf self.old.ground change }
        requires once { EachOnce self.old.ground.config.chassis }
        requires before { IsKeyed self.old.ground.config.net self.old.ground.keys }
        requires keyed { IsKeyed (ground_after change self.old.ground).config.net (ground_after change self.old.ground).keys }
        requires compiled { CanCompile (lowering_in (ground_after change self.old.ground)) }
        requires planned { IsLoweredOrDone self.old.ground (ground_after change self.old.ground) self.old.lowered lowered }
        requires alone { IsSome come → lowered ≡ None }
        requires touched { AreTouched self.old.ground (ground_after change self.old.ground) touched.now }
        requires chassis { ComesOver self.old.ground.config.chassis come (ground_after change self.old.ground).config.chassis }
        ensures kept { self.new.ground ≡ self.old.ground }
        ensures patch { IfOk result (λ turn. IsSetupPatch self.new turn.patch) }
        ensures change { IfOk result (λ turn. turn.patch.change ≡ change) }
        ensures turned { IfOk result (λ turn. IsTurnOfTables self.old.ground (ground_after change self.old.ground) turn.sim) }
        ensures bare { IfOk result IsBare }
    {
        let patches = prepare_each(alloc, &mut self.stores, &self.ground, &change, touched)?;
        self.stores.reserve(1)?;
        let mut sim = sim_change(alloc);
        sim.tables = all_deltas(alloc, &lowered, patches.as_slice())?;
        let come = match come {
            Some(name) => {
                let maps = self.ground.maps(&change, name);
                let (flows, held) = tables_of(alloc, &maps, &self.lowered)?;
                sim.added.push((name, held))?;
                Some((name, flows))
            }
            None => None,
        };
        Ok(Turn {
            patch: SetupPatch {
                change,
                lowered,
                patches,
                come,
            },
            sim,
            effects: List::new(alloc),
        })
    }

    // Prepares what planned records and keys make of the flows that every chassis has: the rows that the operations touch are lowered anew.
    fn lower<L>(
        &mut self,
        alloc: Global,
        number: u64,
        ops: &[Op],
        records: &EditPlan,
        keys: &KeyPlan,
        steps: &mut Steps<L>,
    ) -> Result<LoweredPlan, NoMemory>
        requires may { (m : State) × MayTurn self.old.ground number (event_of.Edit ops.now) m }
        requires planned { IsPlannedEdit self.old.ground number ops.now records.now keys.now }
        ensures kept { self.new.ground ≡ self.old.ground }
        ensures planned { IfOk result (IsLoweredPlan (lowering_in self.old.ground) (record { net = records.now.after; keys = keys.now }) self.new.lowered) }
        ensures steps { steps.old ≤ steps.new }
    {
        untouched_rows_stay();
        let before = &self.ground.records;
        let after = records.after();
        let touched = touched_units(alloc, before, after, ops)?;
        let units = row_units(alloc, touched.as_slice())?;
        let rules = touched_rules(alloc, before, ops)?;
        let rows = touched_rows(alloc, before, after, units.as_slice(), rules.as_slice())?;
        let plan = self
            .lowered
            .prepare_touched(records, rows.as_slice(), keys.after(), steps)?;
        Ok(plan)
    }

    // What planned records and keys, and the lowered flows of them, make of the setup and of the simulated chassis: gateway routers come
    // home with them.
    fn edited(
        &mut self,
        alloc: Global,
        number: u64,
        ops: &[Op],
        records: EditPlan,
        keys: KeyPlan,
        lowered: LoweredPlan,
    ) -> Result<Turn, NoMemory>
        requires may { (m : State) × MayTurn self.old.ground number (event_of.Edit ops.now) m }
        requires planned { IsPlannedEdit self.old.ground number ops.now records keys }
        requires lowered { IsLoweredPlan (lowering_in self.old.ground) (record { net = records.after; keys = keys }) self.old.lowered lowered }
        ensures kept { self.new.ground ≡ self.old.ground }
        ensures turn { IfOk result (IsTurn self.old.ground self.new number (event_of.Edit ops.now)) }
    {
        let home = come_home(
            alloc,
            &mut self.ground.zones,
            records.after(),
            self.ground.chassis.as_slice(),
        )?;
        let effects = key_effects(alloc, records.added(), keys.after())?;
        let names = key_names(alloc, records.added(), keys.after())?;
        let touched = touched_units(alloc, &self.ground.records, records.after(), ops)?;
        let change = GroundChange {
            records: Some(records),
            chassis: None,
            keys: Some(keys),
            zones: Some(home.zones),
        };
        let mut turn = self.prepare(alloc, change, Some(lowered), touched.as_slice(), None)?;
        turn.effects = effects;
        turn.sim.names = names;
        turn.sim.emptied = home.begun;
        Ok(turn)
    }

    // Prepares what an edit makes of the setup and of the simulated chassis: the records that its operations leave, keys for who
    // comes, the rows of the units that it touches, and the zones of the gateway routers that come home.
    fn edit<L>(
        &mut self,
        alloc: Global,
        number: u64,
        ops: &[Op],
        steps: &mut Steps<L>,
    ) -> Result<Turn, StepFault>
        requires may { (m : State) × MayTurn self.old.ground number (event_of.Edit ops.now) m }
        ensures kept { self.new.ground ≡ self.old.ground }
        ensures turn { IfOk result (IsTurn self.old.ground self.new number (event_of.Edit ops.now)) }
        ensures refused { IfErr result (IsNoTurn self.old.ground number (event_of.Edit ops.now)) }
        ensures steps { steps.old ≤ steps.new }
    {
        if !is_built_edit(ops) {
            return Err(StepFault::Refused(Refusal::NotBuilt));
        }
        let records = planned(alloc, &mut self.ground.records, ops, number)?;
        let keys = keys_for(&mut self.ground.keys, &records)?;
        let lowered = self.lower(alloc, number, ops, &records, &keys, steps)?;
        Ok(self.edited(alloc, number, ops, records, keys, lowered)?)
    }

    // Prepares what a chassis that comes makes of the setup and of the simulated chassis: the gateway routers that wait for it come
    // home, and the rows of all ports that lead into another datapath follow from that.
    fn add_chassis(&mut self, alloc: Global, number: u64, chassis: Name) -> Result<Turn, StepFault>
        requires may { (m : State) × MayTurn self.old.ground number (event_of.AddChassis chassis) m }
        ensures kept { self.new.ground ≡ self.old.ground }
        ensures turn { IfOk result (IsTurn self.old.ground self.new number (event_of.AddChassis chassis)) }
        ensures refused { IfErr result (IsNoTurn self.old.ground number (event_of.AddChassis chassis)) }
    {
        if self.ground.is_chassis(&chassis) {
            return Err(StepFault::Refused(Refusal::DuplicateName(chassis)));
        }
        if self.ground.chassis.len() >= MAX_CHASSIS {
            return Err(StepFault::Refused(Refusal::LimitChassis));
        }
        let all = names_with(alloc, self.ground.chassis.as_slice(), chassis)?;
        let home = come_home(
            alloc,
            &mut self.ground.zones,
            &self.ground.records,
            all.as_slice(),
        )?;
        let touched = leading_units(alloc, &self.ground.records)?;
        let change = GroundChange {
            records: None,
            chassis: Some(all),
            keys: None,
            zones: Some(home.zones),
        };
        let mut turn = self.prepare(alloc, change, None, touched.as_slice(), Some(chassis))?;
        turn.sim.emptied = home.begun;
        Ok(turn)
    }

    // Prepares what a binding makes of the setup and of the simulated chassis: who is at home on the chassis by then has a zone
    // there, and who stays at home keeps its number. The zone of the port is emptied.
    fn bind(
        &mut self,
        alloc: Global,
        number: u64,
        port: Name,
        chassis: Name,
    ) -> Result<Turn, StepFault>
        requires may { (m : State) × MayTurn self.old.ground number (event_of.Bind port chassis) m }
        ensures kept { self.new.ground ≡ self.old.ground }
        ensures turn { IfOk result (IsTurn self.old.ground self.new number (event_of.Bind port chassis)) }
        ensures refused { IfErr result (IsNoTurn self.old.ground number (event_of.Bind port chassis)) }
    {
        if !self.ground.is_virtual_port(&port) {
            return Err(StepFault::Refused(Refusal::NoSuch(port)));
        }
        if !self.ground.is_chassis(&chassis) {
            return Err(StepFault::Refused(Refusal::NoSuch(chassis)));
        }
        let zones = self
            .ground
            .zones
            .prepare(&home_change(alloc, port, chassis)?)?;
        let Some(zone) = zones.numbers().port(&chassis, &port) else {
            unreachable!()
        };
        let touched = units_of(alloc, &self.ground.records, &port)?;
        let change = GroundChange {
            records: None,
            chassis: None,
            keys: None,
            zones: Some(zones),
        };
        let mut turn = self.prepare(alloc, change, None, touched.as_slice(), None)?;
        turn.sim.bound.push((port, Some(chassis)))?;
        turn.sim.emptied.push((chassis, zone))?;
        Ok(turn)
    }

    // Prepares what records that are others in their marks alone make of the flows that every chassis has: the rows of routers and
    // balancers are lowered anew.
    fn lower_marked<L>(
        &mut self,
        alloc: Global,
        records: &EditPlan,
        steps: &mut Steps<L>,
    ) -> Result<LoweredPlan, NoMemory>
        requires planned { IsPlannedMark self.old.ground records.now }
        ensures kept { self.new.ground ≡ self.old.ground }
        ensures planned { IfOk result (IsLoweredPlan (lowering_in self.old.ground) (record { net = records.now.after; keys = self.old.ground.keys }) self.new.lowered) }
        ensures steps { steps.old ≤ steps.new }
    {
        untouched_rows_stay();
        let rows = touched_rows(alloc, &self.ground.records, records.after(), &[], &[])?;
        let plan = self
            .lowered
            .prepare_touched(records, rows.as_slice(), &self.ground.keys, steps)?;
        Ok(plan)
    }

    // Prepares what planned records that are others in their marks alone make of the setup and of the simulated chassis.
    fn marked<L>(
        &mut self,
        alloc: Global,
        records: EditPlan,
        steps: &mut Steps<L>,
    ) -> Result<Turn, NoMemory>
        requires planned { IsPlannedMark self.old.ground records }
        ensures kept { self.new.ground ≡ self.old.ground }
        ensures patch { IfOk result (λ turn. IsSetupPatch self.new turn.patch) }
        ensures change { IfOk result (λ turn. turn.patch.change ≡ mark_change records) }
        ensures turned { IfOk result (λ turn. IsTurnOfTables self.old.ground (ground_after (mark_change records) self.old.ground) turn.sim) }
        ensures bare { IfOk result IsBare }
        ensures steps { steps.old ≤ steps.new }
    {
        let lowered = self.lower_marked(alloc, &records, steps)?;
        let change = GroundChange {
            records: Some(records),
            chassis: None,
            keys: None,
            zones: None,
        };
        self.prepare(alloc, change, Some(lowered), &[], None)
    }

    // Prepares what the mark of a backend makes of the setup and of the simulated chassis: it has no keys and touches no unit of flows.
    fn health<L>(
        &mut self,
        alloc: Global,
        number: u64,
        balancer: Name,
        backend: Backend,
        online: bool,
        steps: &mut Steps<L>,
    ) -> Result<Turn, StepFault>
        requires may { (m : State) × MayTurn self.old.ground number (event_of.Health balancer backend online) m }
        ensures kept { self.new.ground ≡ self.old.ground }
        ensures turn { IfOk result (IsTurn self.old.ground self.new number (event_of.Health balancer backend online)) }
        ensures refused { IfErr result (IsNoTurn self.old.ground number (event_of.Health balancer backend online)) }
        ensures steps { steps.old ≤ steps.new }
    {
        if let Some(why) = refusal_of_mark(&self.ground.records, &balancer, backend) {
            return Err(StepFault::Refused(why));
        }
        let records = &mut self.ground.records;
        let records = planned_mark(alloc, records, balancer, backend, online, number)?;
        Ok(self.marked(alloc, records, steps)?)
    }

    /// Prepares what a turn of the configuration, as the event of this number, makes of the setup and of the simulated chassis.
    pub fn turn<L>(
        &mut self,
        alloc: Global,
        number: u64,
        event: &TurnEvent<'_>,
        steps: &mut Steps<L>,
    ) -> Result<Turn, StepFault>
        requires may { (m : State) × MayTurn self.old.ground number (event_of_turn event.now) m }
        ensures kept { self.new.ground ≡ self.old.ground }
        ensures turn { IfOk result (IsTurn self.old.ground self.new number (event_of_turn event.now)) }
        ensures refused { IfErr result (IsNoTurn self.old.ground number (event_of_turn event.now)) }
        ensures steps { steps.old ≤ steps.new }
    {
        match event {
            TurnEvent::Edit(ops) => self.edit(alloc, number, ops.as_slice(), steps),
            TurnEvent::Bind { port, chassis } => self.bind(alloc, number, *port, *chassis),
            TurnEvent::AddChassis(chassis) => self.add_chassis(alloc, number, *chassis),
            TurnEvent::Health {
                balancer,
                backend,
                online,
            } => self.health(alloc, number, *balancer, *backend, *online, steps),
        }
    }

    /// Puts a patch into force, which was prepared for what is there. No memory is taken.
    pub fn apply(&mut self, patch: SetupPatch)
        requires { IsSetupPatch self.old patch }
        ensures { self.new.ground ≡ ground_after patch.change self.old.ground }
    {
        let SetupPatch {
            change,
            lowered,
            patches,
            come,
        } = patch;
        apply_lowered(&mut self.lowered, lowered);
        apply_each(&mut self.stores, patches);
        if let Some((name, flows)) = come {
            match self.stores.insert(name, flows) {
                Ok(_) => {}
                Err(_) => unreachable!(),
            }
        }
        self.ground.apply(change);
    }
}
