//! The state of the network and of its chassis, and its steps.
ghost use Rattle.std.specs.Prelude.{◌-◌, ◌≡◌, ◌+◌, ◌<◌, ◌≤◌, ◌^◌, ◌++◌, ◌↔◌, [], ◌∷◌, None, Some, true, false, min, length, slice_get, IsTrue, IfErr, IfOk, OnOk, OnErr, List};
ghost use Rattle.std.specs.Option.{option_copied};
ghost use Rattle.ovn_base.specs.declared.limits.TheConstants.{MAX_CLOCK};
ghost use Rattle.ovn_base.specs.lists.Once.{EachOnce};
ghost use Rattle.chassis_sim.specs.State.{flow_at, at_name};
ghost use Rattle.flow_table.specs.declared.flow.Flow.{Flow};
ghost use Rattle.event_lines.specs.Lines.{refused_line};
ghost use Rattle.event_lines.specs.Text.{StartsWith};
ghost use Rattle.edit_reader.specs.Fitting.{IsEventInGrammar};
ghost use Rattle.edit_reader.specs.declared.event.Event.{Event};
ghost use Rattle.edit_reader.specs.declared.event.Event.TheVariants as event_of;
ghost use Rattle.world_setup.specs.TurnEvents.{event_of_turn};
ghost use Rattle.world_core.specs.PacketEvents.{event_of_packets};
ghost use Rattle.world_core.specs.Outcome.{IsAccepted, moves_packets, Outcome};
ghost use Rattle.world_core.specs.StepParts.{IsTaken, Leaves, clocked_world, new_world};
ghost use Rattle.world_setup.specs.Refusing.{refusal};
ghost use Rattle.world_setup.specs.Turning.{Tells};
ghost use Rattle.world_core.specs.WorldView.{IsSound};
ghost use Rattle.net_model.specs.State.{event_count, finished};

use crate::crossing_names::CrossingNames;
use crate::packet_event::PacketEvent;
use chassis_sim::sim::Sim;
use edit_reader::event::Event;
use event_lines::lines::{accepted, refused};
use event_lines::refusal::{Refusal, StepFault};
use flow_table::exact::exact_flow;
use flow_table::flow::Flow;
use ovn_base::address::Backend;
use ovn_base::list::List;
use ovn_base::memory::NoMemory;
use ovn_base::name::Name;
use ovn_base::steps::Steps;
use std::alloc::Global;
use std::collections::BTreeMap;
use std::marker::Model;
use switch_engine::effect::NetEffect;
use switch_engine::walk::Walk;
use world_setup::held::Held;
use world_setup::setup::Setup;
use world_setup::turn_event::TurnEvent;

mod packets;
mod steps;

/// The network and its simulated chassis.
#[derive(Drop)]
pub struct World {
    setup: Setup,
    sim: Sim<Held>,
    // Whom the crossing of each frame that waits names, by the frame's number. The rest of it the frame tells.
    crossings: BTreeMap<u128, CrossingNames>,
    walks: List<Walk>,
    // In seconds.
    clock: u64,
    accepted: u64,
    refused: u64,
    whole: bool,
}

// What an accepted event did: its effects in names, and the walks of its packets.
#[derive(Drop)]
struct Done {
    effects: List<NetEffect>,
    walks: List<Walk>,
    // How many flows were matched in all.
    matched: u128,
}

impl Model for World {
    ghost use Rattle.world_core.specs.WorldView.{WorldView};
    ghost use Rattle.match_language.specs.contracts.expr.Expr as expr;
    ghost use Rattle.std.specs.Coded.{codes};

    ghost Value = { WorldView };

    ghost coded = { Prim.hlevel (codes, expr.the_row.coded) };

    ghost use Rattle.world_core.specs.Inside.{seen_of, IsSoundOnceWhole};

    ghost view = { seen_of };

    ghost invariant = { IsSoundOnceWhole };
}

impl World {
    /// The empty world: no record, no chassis, no event.
    pub fn new(alloc: Global) -> Result<World, NoMemory>
        ensures empty { IfOk result (λ w. w ≡ new_world) }
        ensures sound { IfOk result IsSound }
    {
        Ok(World {
            setup: Setup::new(alloc)?,
            sim: Sim::new(alloc)?,
            crossings: BTreeMap::new(alloc),
            walks: List::new(alloc),
            clock: 0,
            accepted: 0,
            refused: 0,
            whole: true,
        })
    }

    /// How many events there were, accepted or refused.
    pub fn events(&self) -> u64
        ensures { result ≡ min (event_count self.now.state) (2 ^ 64 - 1) }
    {
        self.accepted.saturating_add(self.refused)
    }

    /// Whether the world may take events: no event was left half done for want of memory.
    pub fn is_sound(&self) -> bool
        ensures { IsTrue result ↔ IsSound self.now }
    {
        self.whole
    }

    /// How many frames wait.
    pub fn waiting(&self) -> usize
        ensures { result ≡ length self.now.state.waiting }
    {
        self.crossings.len()
    }

    /// The chassis of this index, in order of name; `None` past the last.
    pub fn chassis(&self, index: usize) -> Option<&Name>
        ensures { option_copied result ≡ slice_get self.now.state.config.chassis index }
    {
        self.setup.chassis().as_slice().get(index)
    }

    /// Each flow that the chassis holds at exactly one index below their number; `None` past the last, and where no such
    /// chassis is there.
    pub fn chassis_flow(&self, chassis: &Name, index: usize) -> Option<&Flow>
        ensures flow { option_copied result ≡ flow_at self.now.sim chassis.now index }
        ensures once { (flows : List Flow) → at_name self.now.sim.chassis chassis.now ≡ Some flows → EachOnce flows }
    {
        match self.sim.flow(chassis, index) {
            Some(flow) => Some(flow.get()),
            None => None,
        }
    }

    /// The simulated chassis, over what holds the flows of each.
    pub fn simulated_chassis(&self) -> &Sim<Held>
        ensures { result.now.state ≡ self.now.sim }
    {
        &self.sim
    }

    /// The flows that the packets of the last event matched; none where it was refused.
    pub fn walks(&self) -> &[Walk]
        ensures { result.now ≡ self.now.walks }
    {
        self.walks.as_slice()
    }

    // Counts an event that is done. Where no frame waits, no key is retired.
    fn finish(&mut self)
        requires taken { self.old.whole ≡ false }
        requires room { event_count self.old.state < 2 ^ 42 }
        ensures { self.new ≡ record self.old { state = finished self.old.state } }
    {
        self.accepted += 1;
        let none_waits = self.crossings.is_empty();
        if none_waits {
            self.setup.settle();
        }
    }

    // Refuses an event, which counts. Without memory nothing changes.
    fn refuse(&mut self, why: &Refusal, text: &mut Vec<u8>) -> Result<(), NoMemory>
        requires room { event_count self.old.state < 2 ^ 42 }
        ensures kept { OnOk result (self.new ≡ record self.old { state = record self.old.state { refused = self.old.state.refused + 1 }; walks = [] }) }
        ensures text { OnOk result (text.new.items ≡ text.old.items ++ refused_line (event_count self.old.state + 1) why.now) }
        ensures same { OnErr result (self.new ≡ self.old) }
        ensures front { OnErr result (text.new.items ≡ text.old.items) }
    {
        refused(why, self.accepted + self.refused + 1, text)?;
        self.refused += 1;
        self.walks.clear();
        Ok(())
    }

    // Does what a turn of the configuration asks for, where it isn't refused. All that may want memory comes first.
    fn turn<L>(
        &mut self,
        event: &TurnEvent<'_>,
        text: &mut Vec<u8>,
        steps: &mut Steps<L>,
    ) -> Result<(), StepFault>
        requires sound { IsSound self.old }
        requires room { event_count self.old.state < 2 ^ 42 }
        requires admitted { IsEventInGrammar (event_of_turn event.now) }
        ensures done { OnOk result (IsAccepted self.old (event_of_turn event.now) text.old.items text.new.items self.new) }
        ensures sound { OnOk result (IsSound self.new) }
        ensures told { IfErr result (λ fault. Tells fault (refusal self.old.state (event_of_turn event.now))) }
        ensures same { OnErr result (self.new ≡ self.old) }
        ensures front { OnErr result (text.new.items ≡ text.old.items) }
        ensures steps { steps.old ≤ steps.new }
    {
        exact_flow();
        let alloc = self.walks.allocator();
        let number = self.accepted + self.refused + 1;
        let turn = self.setup.turn(alloc, number, event, steps)?;
        self.sim.prepare(&turn.sim)?;
        accepted(turn.effects.as_slice(), 0, number, text)?;
        self.setup.apply(turn.patch);
        self.sim.apply(turn.sim);
        self.walks.clear();
        self.accepted += 1;
        if self.crossings.is_empty() {
            self.setup.settle();
        }
        Ok(())
    }

    // Takes a turn of the configuration.
    fn take_turn<L>(
        &mut self,
        event: &TurnEvent<'_>,
        text: &mut Vec<u8>,
        steps: &mut Steps<L>,
    ) -> Result<(), StepFault>
        requires sound { IsSound self.old }
        requires room { event_count self.old.state < 2 ^ 42 }
        requires admitted { IsEventInGrammar (event_of_turn event.now) }
        ensures outcome { Outcome result self.old (event_of_turn event.now) text.old.items text.new.items self.new }
        ensures steps { steps.old ≤ steps.new }
    {
        match self.turn(event, text, steps) {
            Ok(()) => Ok(()),
            Err(StepFault::Refused(why)) => self.take_refused(why, text),
            Err(StepFault::Memory) => Err(StepFault::Memory),
        }
    }

    // Takes the mark of a backend.
    fn take_mark<L>(
        &mut self,
        balancer: Name,
        backend: Backend,
        online: bool,
        text: &mut Vec<u8>,
        steps: &mut Steps<L>,
    ) -> Result<(), StepFault>
        requires sound { IsSound self.old }
        requires room { event_count self.old.state < 2 ^ 42 }
        requires admitted { IsEventInGrammar (event_of.Health balancer backend online) }
        ensures outcome { Outcome result self.old (event_of.Health balancer backend online) text.old.items text.new.items self.new }
        ensures steps { steps.old ≤ steps.new }
    {
        let event = TurnEvent::Health {
            balancer,
            backend,
            online,
        };
        self.take_turn(&event, text, steps)
    }

    // Takes an event that is refused and moves no packets, whichever it is.
    fn take_refused(&mut self, why: Refusal, text: &mut Vec<u8>) -> Result<(), StepFault>
        requires sound { IsSound self.old }
        requires room { event_count self.old.state < 2 ^ 42 }
        ensures { (event : Event) → moves_packets event ≡ false → refusal self.old.state event ≡ Some why
            → Outcome result self.old event text.old.items text.new.items self.new }
    {
        self.refuse(&why, text)?;
        Err(StepFault::Refused(why))
    }

    // Takes a frame that waits away.
    fn take_loss(&mut self, frame: u64, text: &mut Vec<u8>) -> Result<(), StepFault>
        requires sound { IsSound self.old }
        requires room { event_count self.old.state < 2 ^ 42 }
        ensures { Outcome result self.old (event_of.Lose frame) text.old.items text.new.items self.new }
    {
        if let Some(why) = self.refusal_of_frame(frame) {
            return self.take_refused(why, text);
        }
        accepted(&[], 0, self.accepted + self.refused + 1, text)?;
        self.whole = false;
        self.lose(u128::from(frame));
        self.walks.clear();
        self.finish();
        self.whole = true;
        Ok(())
    }

    // The clock goes on, and on all chassis connections end that are idle then.
    fn tick(&mut self, seconds: u64)
        requires taken { IsTaken self.old }
        requires room { event_count self.old.state < 2 ^ 42 }
        requires few { seconds ≤ MAX_CLOCK }
        ensures { self.new ≡ clocked_world self.old seconds }
    {
        self.clock += seconds;
        self.sim.expire(self.clock);
    }

    // Takes the clock on.
    fn take_clock(&mut self, seconds: u64, text: &mut Vec<u8>) -> Result<(), StepFault>
        requires sound { IsSound self.old }
        requires room { event_count self.old.state < 2 ^ 42 }
        requires few { seconds ≤ MAX_CLOCK }
        ensures { Outcome result self.old (event_of.Clock seconds) text.old.items text.new.items self.new }
    {
        accepted(&[], 0, self.accepted + self.refused + 1, text)?;
        self.whole = false;
        self.tick(seconds);
        self.walks.clear();
        self.finish();
        self.whole = true;
        Ok(())
    }

    /// Takes one event, and adds its whole text: the lines of what it did, or of why it is refused. Without memory an event that
    /// moves no packets changes neither the world nor the text; after want of memory in one that does the world isn't sound, and
    /// the text keeps what it held.
    pub fn step<L>(
        &mut self,
        event: &Event,
        text: &mut Vec<u8>,
        steps: &mut Steps<L>,
    ) -> Result<(), StepFault>
        requires sound { IsSound self.old }
        requires room { event_count self.old.state < 2 ^ 42 }
        requires admitted { IsEventInGrammar event.now }
        ensures outcome { Outcome result self.old event.now text.old.items text.new.items self.new }
        ensures steps { steps.old ≤ steps.new }
    {
        match event {
            Event::Edit(ops) => self.take_turn(&TurnEvent::Edit(ops), text, steps),
            Event::Bind { port, chassis } => {
                let event = TurnEvent::Bind {
                    port: *port,
                    chassis: *chassis,
                };
                self.take_turn(&event, text, steps)
            }
            Event::AddChassis(name) => {
                self.take_turn(&TurnEvent::AddChassis(*name), text, steps)
            }
            Event::Health {
                balancer,
                backend,
                online,
            } => self.take_mark(*balancer, *backend, *online, text, steps),
            Event::Unbind { .. } | Event::RemoveChassis(_) | Event::Keys { .. } => {
                self.take_refused(Refusal::NotBuilt, text)
            }
            Event::Clock { seconds } => self.take_clock(*seconds, text),
            Event::Lose { frame } => self.take_loss(*frame, text),
            Event::Unread(fault) => self.take_refused(Refusal::Read(fault.copy()?), text),
            Event::Inject { port, frame } => {
                self.take_packets(&PacketEvent::Inject { port: *port, frame }, text)
            }
            Event::Deliver { frame } => {
                self.take_packets(&PacketEvent::Deliver { frame: *frame }, text)
            }
            Event::Repeat { frame } => {
                self.take_packets(&PacketEvent::Repeat { frame: *frame }, text)
            }
            Event::Drain => self.take_packets(&PacketEvent::Drain, text),
            Event::Packet { port, frame } => {
                self.take_packets(&PacketEvent::Packet { port: *port, frame }, text)
            }
        }
    }

    // Takes an event that moves packets.
    fn take_packets(&mut self, event: &PacketEvent<'_>, text: &mut Vec<u8>) -> Result<(), StepFault>
        requires sound { IsSound self.old }
        requires room { event_count self.old.state < 2 ^ 42 }
        ensures { Outcome result self.old (event_of_packets event.now) text.old.items text.new.items self.new }
    {
        self.whole = false;
        match self.take(event, text) {
            Ok(()) => {
                self.whole = true;
                Ok(())
            }
            Err(StepFault::Refused(why)) => {
                self.whole = true;
                Err(StepFault::Refused(why))
            }
            Err(StepFault::Memory) => {
                self.whole = false;
                Err(StepFault::Memory)
            }
        }
    }

    // Takes an event that moves packets while the world is marked as being changed.
    fn take(&mut self, event: &PacketEvent<'_>, text: &mut Vec<u8>) -> Result<(), StepFault>
        requires taken { IsTaken self.old }
        requires room { event_count self.old.state < 2 ^ 42 }
        ensures { Leaves result self.old (event_of_packets event.now) text.old.items text.new.items self.new }
    {
        let alloc = self.walks.allocator();
        let number = self.accepted + self.refused + 1;
        match self.accept(alloc, event) {
            Ok(done) => {
                accepted(done.effects.as_slice(), done.matched, number, text)?;
                self.walks = done.walks;
                Ok(())
            }
            Err(StepFault::Refused(why)) => {
                self.refuse(&why, text)?;
                Err(StepFault::Refused(why))
            }
            Err(StepFault::Memory) => Err(StepFault::Memory),
        }
    }
}
