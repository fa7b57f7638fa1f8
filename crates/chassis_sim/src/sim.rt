//! The simulated chassis.
ghost use Rattle.std.specs.Prelude.{◌≡◌, ◌+◌, ◌<◌, ◌≤◌, ◌^◌, List, Some, IfOk, OnOk, is_some, length, map};
ghost use Rattle.std.specs.Option.{option_copied};
ghost use Rattle.std.specs.Map.{keys_of};
ghost use Rattle.ovn_base.specs.lists.Once.{EachOnce};
ghost use Rattle.inet_packet.specs.Whole.{IsWhole};
ghost use Rattle.flow_table.specs.declared.flow.Flow.{Flow};
ghost use Rattle.chassis_sim.specs.Changing.{AllAreDeltas, IsApplied, IsPrepared, IsProperChange, StaysPrepared};
ghost use Rattle.chassis_sim.specs.Holding.{IsSimState};
ghost use Rattle.chassis_sim.specs.InNames.{name_of};
ghost use Rattle.chassis_sim.specs.Passing.{AnswersInject, AnswersArrive, AnswersLose};
ghost use Rattle.chassis_sim.specs.State.{nothing_held, at_name, flow_at};
ghost use Rattle.chassis_sim.specs.Tables.{rooms_held, seen_by, zones_held};
ghost use Rattle.switch_engine.specs.Zones.{all_expired};

use crate::change::SimChange;
use crate::chassis::{add_each, bind_each, make_ready, name_each, remove_each, replace_each};
use crate::frames::opened;
use crate::names::{Names, name_at, tell};
use crate::out::{SimFault, SimOut};
use crate::passing::pass;
use crate::underlay::Underlay;
use crate::zones::{ZoneMap, empty_each, expire_each};
use flow_table::flow::SharedFlow;
use flow_table::lookup::Lookup;
use indexmap::IndexMap;
use inet_packet::packet::Packet;
use ovn_base::list::List;
use ovn_base::memory::NoMemory;
use ovn_base::name::Name;
use std::alloc::Global;
use std::marker::Model;
use switch_engine::effect::Entry;
use switch_engine::walk::Start;
use switch_engine::zones::Zones;

/// The tables and the zones of each chassis, the chassis to which ports are bound, and the frames that wait between chassis.
///
/// It holds over any proper tables and any zones, and isn't handed the records from which they were made.
#[derive(Drop)]
pub struct Sim<T: Lookup> {
    chassis: IndexMap<Name, T>,
    zones: ZoneMap,
    // Zones for the chassis that come by the change that was prepared.
    fresh: List<Zones>,
    bindings: IndexMap<Name, Name>,
    names: Names,
    underlay: Underlay,
}

impl<T: Lookup> Model for Sim<T> {
    ghost use Rattle.indexmap.specs.IndexMap.{spare};
    ghost use Rattle.chassis_sim.specs.State.{SimView};
    ghost use Rattle.chassis_sim.specs.Holding.{AreChassis};
    ghost use Rattle.chassis_sim.specs.Tables.{flows_held, zones_held};

    ghost Value = { SimView T };

    ghost view = { λ s. record { state = record { chassis = flows_held T.flows s.chassis.entries; zones = zones_held s.zones.entries; bindings = s.bindings.entries; names = s.names.entries; waiting = s.underlay.waiting; next = s.underlay.next }; room = record { chassis = spare s.chassis; zoned = spare s.zones; bindings = spare s.bindings; names = spare s.names; tables = s.chassis.entries; zones = s.zones.entries; fresh = s.fresh } } };

    ghost invariant = { λ s. AreChassis (flows_held T.flows s.chassis.entries) (zones_held s.zones.entries) };
}

impl<T: Lookup + Drop> Sim<T> {
    /// No chassis, no binding, no name, and no frame.
    pub fn new(alloc: Global) -> Result<Sim<T>, NoMemory>
        ensures { IfOk result (λ sim. sim.state ≡ nothing_held) }
    {
        Ok(Sim {
            chassis: IndexMap::new(alloc),
            zones: IndexMap::new(alloc),
            fresh: List::new(alloc),
            bindings: IndexMap::new(alloc),
            names: IndexMap::new(alloc),
            underlay: Underlay::new(alloc),
        })
    }

    /// How many frames wait.
    pub fn waiting(&self) -> usize
        ensures { result ≡ length self.now.state.waiting }
    {
        self.underlay.len()
    }

    /// The number of the next frame.
    pub fn next_frame(&self) -> u128
        ensures { result ≡ self.now.state.next }
    {
        self.underlay.next()
    }

    /// The name of the datapath that has the key, for the port key 0, or of its port that has the port key; `-` where the pair of
    /// keys was given none. No memory is taken.
    pub fn name(&self, datapath: u32, port: u16) -> Name
        ensures { result ≡ name_of self.now.state.names datapath port }
    {
        name_at(&self.names, datapath, port)
    }

    /// Whether the port is bound to a chassis. No memory is taken.
    pub fn is_bound(&self, port: &Name) -> bool
        ensures { result ≡ is_some (at_name self.now.state.bindings port.now) }
    {
        self.bindings.contains_key(port)
    }

    /// Each flow of the chassis at exactly one index below their number; `None` past the last, and where no such chassis is
    /// held. No memory is taken.
    pub fn flow(&self, chassis: &Name, index: usize) -> Option<&SharedFlow>
        ensures flow { option_copied result ≡ flow_at self.now.state chassis.now index }
        ensures once { (flows : List Flow) → at_name self.now.state.chassis chassis.now ≡ Some flows → EachOnce flows }
    {
        match self.chassis.get(chassis) {
            Some(tables) => tables.flow(index),
            None => None,
        }
    }

    /// What always holds: the flows are proper, just the chassis that are held have zones, and each frame that waits carries
    /// a whole packet and has a number below the next one; and the zones that have room are those with the connection lists. It
    /// does nothing.
    pub fn state_holds(&self)
        ensures state { IsSimState self.now.state }
        ensures zones { zones_held self.now.room.zones ≡ self.now.state.zones }
    {
        self.underlay.holds();
    }

    /// Makes ready for the change, by which no tables change twice, and each as what they hold allows. What is held stays, also
    /// without memory.
    pub fn prepare(&mut self, change: &SimChange<T>) -> Result<(), NoMemory>
        requires once { EachOnce (keys_of change.now.tables) }
        requires deltas { AllAreDeltas self.old.state.chassis change.now.tables }
        ensures kept { self.new.state ≡ self.old.state }
        ensures prepared { OnOk result (IsPrepared T.ready self.new.room change.now) }
    {
        self.bindings.reserve(change.bound.len())?;
        self.names.reserve(change.names.len())?;
        let fresh = make_ready(&mut self.chassis, &mut self.zones, change)?;
        self.fresh = fresh;
        Ok(())
    }

    /// Makes the change, which was prepared and nothing was changed since: tables are changed by their deltas, chassis go and
    /// come, zones are emptied, ports are bound, and pairs of keys get their names. No memory is taken.
    ///
    /// The flows that come must be proper. The waiting frames stay, also those to a chassis that goes.
    pub fn apply(&mut self, change: SimChange<T>)
        requires prepared { IsPrepared T.ready self.old.room change }
        requires proper { IsProperChange T.flows change }
        ensures { IsApplied T.flows self.old.state change self.new.state }
    {
        let SimChange {
            added,
            removed,
            tables,
            emptied,
            bound,
            names,
        } = change;
        replace_each(&mut self.chassis, tables);
        remove_each(&mut self.chassis, &mut self.zones, removed);
        add_each(&mut self.chassis, &mut self.zones, &mut self.fresh, added);
        empty_each(&mut self.zones, emptied);
        bind_each(&mut self.bindings, bound);
        name_each(&mut self.names, names);
    }

    /// Ends the connections on all chassis that weren't used for as long as they may be idle at the time. A change that was
    /// prepared stays so. No memory is taken.
    pub fn expire(&mut self, now: u64)
        ensures state { self.new.state ≡ record self.old.state { zones = map (seen_by (all_expired now)) self.old.state.zones } }
        ensures kept { self.new.room ≡ record self.old.room { zones = self.new.room.zones; zoned = self.new.room.zoned } }
        ensures prepared { StaysPrepared T.ready self.old.room self.new.room }
    {
        expire_each(&mut self.zones, now);
    }

    /// Takes a whole packet at the port through the tables and the zones of the chassis to which the port is bound, and adds
    /// what came of it: the effects in names, and the walk. The frames among the effects take the next numbers in order, and
    /// wait. Where the chassis isn't held the packet meets no flow. A change that was prepared stays so, but for want of memory.
    ///
    /// `NotBound` comes exactly where the port has no binding, and leaves everything as it was. Without memory the zones of
    /// the chassis, the waiting frames and the next number may have changed, and `out` keeps what it held, with a part of
    /// what came.
    pub fn inject(
        &mut self,
        port: &Name,
        packet: Packet,
        now: u64,
        out: &mut SimOut,
    ) -> Result<(), SimFault>
        requires whole { IsWhole packet }
        requires room { self.old.state.next < 2 ^ 127 }
        ensures answer { AnswersInject result self.old port.now now packet out.old out.new self.new }
        ensures few { self.new.state.next + length out.old.effects ≤ self.old.state.next + length out.new.effects }
        ensures kept { self.new.room ≡ record self.old.room { zones = self.new.room.zones } }
        ensures rooms { rooms_held self.new.room.zones ≡ rooms_held self.old.room.zones }
        ensures prepared { OnOk result (StaysPrepared T.ready self.old.room self.new.room) }
    {
        let Some(&chassis) = self.bindings.get(port) else {
            return Err(SimFault::NotBound(*port));
        };
        let entry = Entry::Vif(*port);
        let run = pass(
            &self.chassis,
            &mut self.zones,
            &chassis,
            &entry,
            packet,
            now,
        )?;
        let start = Start::Port(*port);
        tell(&self.names, &mut self.underlay, chassis, &start, run, out)?;
        Ok(())
    }

    /// Takes the frame of this number through the tables and the zones of the chassis to which it goes, and adds what came of
    /// it, as [`Sim::inject`] does. Afterwards the frame still waits exactly where `keep` is true. Where the chassis is gone
    /// the frame is lost, and the walk has no step. A change that was prepared stays so, but for want of memory.
    ///
    /// `NoFrame` comes exactly where no frame of this number waits, and leaves everything as it was. Without memory the zones
    /// of the chassis, the waiting frames and the next number may have changed, and `out` keeps what it held, with a part of
    /// what came.
    pub fn arrive(
        &mut self,
        frame: u128,
        keep: bool,
        now: u64,
        out: &mut SimOut,
    ) -> Result<(), SimFault>
        requires room { self.old.state.next < 2 ^ 127 }
        ensures answer { AnswersArrive result self.old frame keep now out.old out.new self.new }
        ensures few { self.new.state.next + length out.old.effects ≤ self.old.state.next + length out.new.effects }
        ensures kept { self.new.room ≡ record self.old.room { zones = self.new.room.zones } }
        ensures rooms { rooms_held self.new.room.zones ≡ rooms_held self.old.room.zones }
        ensures prepared { OnOk result (StaysPrepared T.ready self.old.room self.new.room) }
    {
        let Some(arriving) = self.underlay.frame(frame) else {
            return Err(SimFault::NoFrame(frame));
        };
        let chassis = arriving.to;
        let alloc = *self.chassis.allocator();
        let (entry, packet) = opened(alloc, arriving.bytes.as_slice())?;
        let run = pass(
            &self.chassis,
            &mut self.zones,
            &chassis,
            &entry,
            packet,
            now,
        )?;
        self.underlay.arrived(frame, keep);
        let start = Start::Frame(frame);
        tell(&self.names, &mut self.underlay, chassis, &start, run, out)?;
        Ok(())
    }

    /// Takes the frame of this number away. `NoFrame` is the only fault: it comes exactly where no frame of this number waits,
    /// and leaves everything as it was. No memory is taken.
    pub fn lose(&mut self, frame: u128) -> Result<(), SimFault>
        ensures { AnswersLose result self.old frame self.new }
    {
        if self.underlay.frame(frame).is_none() {
            return Err(SimFault::NoFrame(frame));
        }
        self.underlay.take(frame);
        Ok(())
    }
}
