//! Packets that go through the simulated chassis of a world.
ghost use Rattle.std.specs.Prelude.{◌≡◌, ◌↔◌, ◌<◌, ◌+◌, ◌*◌, ◌^◌, ◌++◌, ℕ, List, true, false, IfOk, OnOk, IsSome, IsTrue, Some};
ghost use Rattle.std.specs.BTreeMap.{insert_entry};
ghost use Rattle.std.specs.Ordering.{nat_cmp};
ghost use Rattle.ovn_base.specs.declared.name.Name.{Name};
ghost use Rattle.ovn_base.specs.names.ByName.{at};
ghost use Rattle.chassis_sim.specs.InNames.{frames_sent};
ghost use Rattle.chassis_sim.specs.State.{numbered, without};
ghost use Rattle.inet_packet.specs.Whole.{IsWhole};
ghost use Rattle.sim_laws.specs.journeys.Refining.{waiting_on, without_crossing};
ghost use Rattle.sim_laws.specs.journeys.UnderWay.{IsUnderWay};
ghost use Rattle.world_core.specs.Draining.{HasBegun, IsUnnamed};
ghost use Rattle.world_core.specs.WorldView.{AreHeld, WorldView};
ghost use Rattle.sim_laws.specs.Sound.{AreCrossings};
ghost use Rattle.world_core.specs.Packets.{AreGone, CanBeKept, HasArrived, HasEntered, IsNumberOf, IsPortNumber, IsSentAs, IsSwitchNumber, sent_among};
ghost use Rattle.world_core.specs.Waiting.{AreWaiting, crossing_of, frame_under, names_of};
ghost use Rattle.sim_laws.specs.Held.{HaveOwnersNames};
ghost use Rattle.sim_laws.specs.Naming.{HasDatapathKey};
ghost use Rattle.nb_rules.specs.Valid.{IsValid};
ghost use Rattle.physical_flows.specs.RecordKeys.{HaveKeys};
ghost use Rattle.net_model.specs.declared.crossing.Aim.{Aim};
ghost use Rattle.net_model.specs.declared.crossing.Crossing.{Crossing};
ghost use Rattle.tunnel_keys.specs.declared.owner.Identity.{Identity};

use crate::crossing_names::CrossingNames;
use crate::world::World;
use chassis_sim::out::{SimFault, SimOut};
use geneve_frames::read;
use inet_packet::packet::Packet;
use net_model::crossing::{Aim, Group};
use ovn_base::limits::{FLOOD_KEY, MAX_ARRIVALS, UNKNOWN_KEY};
use ovn_base::memory::NoMemory;
use ovn_base::name::Name;
use sim_laws::journeys::journeys_refine;
use switch_engine::effect::NetEffect;
use tunnel_keys::owner::Identity;

// Whether one frame was sent where none waited before, by the numbers of the next frame before and after.
fn sent_one(none_waits: bool, first: u128, next: u128) -> bool
    requires { first < 2 ^ 127 }
    ensures { IsTrue result ↔ ((none_waits ≡ true) × (next ≡ first + 1)) }
{
    none_waits && next == first + 1
}

impl World {
    // The switch that has the key, where one has it.
    fn switch_of_key(&self, datapath: u32) -> Option<Identity>
        requires names { HaveOwnersNames self.now.state.keys self.now.sim }
        ensures { (id : Identity) → IsSwitchNumber self.now.state datapath id → result ≡ Some id }
    {
        let name = self.sim.name(datapath, 0);
        let Some(switch) = self.setup.records().switch(&name) else {
            return None;
        };
        Some(Identity {
            name,
            birth: switch.birth,
        })
    }

    // The port of a switch that has the key in the datapath, where one has it.
    fn port_of_key(&self, datapath: u32, key: u16) -> Option<Identity>
        requires names { HaveOwnersNames self.now.state.keys self.now.sim }
        ensures { (switch : Name) (id : Identity) → HasDatapathKey self.now.state.keys switch datapath
            → IsPortNumber self.now.state switch key id → result ≡ Some id }
    {
        let name = self.sim.name(datapath, key);
        let Some(port) = self.setup.records().switch_port(&name) else {
            return None;
        };
        Some(Identity {
            name,
            birth: port.birth,
        })
    }

    // To whom a packet in the datapath goes, by the key of the port or group.
    fn aim(&self, datapath: u32, key: u16) -> Option<Aim>
        requires keys { HaveKeys self.now.state.config.net self.now.state.keys }
        requires names { HaveOwnersNames self.now.state.keys self.now.sim }
        ensures { (switch : Name) (aim : Aim) → HasDatapathKey self.now.state.keys switch datapath
            → IsNumberOf self.now.state switch key aim → result ≡ Some aim }
    {
        if key == FLOOD_KEY {
            return Some(Aim::ToGroup(Group::Flood));
        }
        if key == UNKNOWN_KEY {
            return Some(Aim::ToGroup(Group::Unknown));
        }
        let Some(port) = self.port_of_key(datapath, key) else {
            return None;
        };
        Some(Aim::ToPort(port))
    }

    // Whom the crossing names that the frame spells.
    fn crossing(&self, bytes: &[u8]) -> CrossingNames
        requires valid { IsValid self.now.state.config.net }
        requires keys { HaveKeys self.now.state.config.net self.now.state.keys }
        requires names { HaveOwnersNames self.now.state.keys self.now.sim }
        requires sent { (to : Name) × (x : Crossing) × IsSentAs self.now.state to bytes.now x }
        ensures { (to : Name) (x : Crossing) → IsSentAs self.now.state to bytes.now x → result ≡ names_of x }
    {
        let Ok(view) = read(bytes) else {
            unreachable!()
        };
        let Some(datapath) = self.switch_of_key(view.vni) else {
            unreachable!()
        };
        let Some(in_port) = self.port_of_key(view.vni, view.in_key) else {
            unreachable!()
        };
        let Some(aim) = self.aim(view.vni, view.out_key) else {
            unreachable!()
        };
        CrossingNames {
            datapath,
            in_port,
            aim,
        }
    }

    // Keeps whom a crossing names under the number of its frame, which waits.
    fn keep(
        &mut self,
        frame: u128,
        datapath: Identity,
        in_port: Identity,
        aim: Aim,
    ) -> Result<(), NoMemory>
        requires taken { self.old.whole ≡ false }
        ensures { OnOk result (self.new ≡ record self.old {
          state = record self.old.state {
            waiting = insert_entry nat_cmp self.old.state.waiting frame
                (crossing_of (record { datapath = datapath; in_port = in_port; aim = aim }) (frame_under self.old.sim.waiting frame));
          };
        }) }
    {
        let names = CrossingNames {
            datapath,
            in_port,
            aim,
        };
        self.crossings.insert(frame, names)?;
        Ok(())
    }

    // Keeps whom the crossings name of the frames among the effects, which wait.
    fn keep_crossings(&mut self, effects: &[NetEffect]) -> Result<(), NoMemory>
        requires taken { self.old.whole ≡ false }
        requires valid { IsValid self.old.state.config.net }
        requires keys { HaveKeys self.old.state.config.net self.old.state.keys }
        requires names { HaveOwnersNames self.old.state.keys self.old.sim }
        requires sent { (ws : List (ℕ × Crossing)) × CanBeKept self.old.state effects.now ws }
        requires waiting { AreWaiting self.old.sim (frames_sent effects.now) }
        ensures { OnOk result ((ws : List (ℕ × Crossing)) → CanBeKept self.old.state effects.now ws
            → self.new ≡ record self.old { state = record self.old.state { waiting = self.old.state.waiting ++ ws } }) }
    {
        'effects: for effect in effects {
            if let NetEffect::Tunnel { frame, bytes, .. } = effect {
                let names = self.crossing(bytes.as_slice());
                self.keep(*frame, names.datapath, names.in_port, names.aim)?;
            }
        }
        Ok(())
    }

    // Takes a packet from its port through the chassis.
    pub(super) fn enter(
        &mut self,
        port: &Name,
        packet: Packet,
        out: &mut SimOut,
    ) -> Result<(), NoMemory>
        requires under_way { IsUnderWay self.old.state self.old.zones (sent_among out.old.effects) }
        requires held { AreHeld self.old.state self.old.zones self.old.sim }
        requires taken { self.old.whole ≡ false }
        requires bound { IsSome (at self.old.state.config.bindings port.now) }
        requires whole { IsWhole packet }
        ensures { OnOk result (HasEntered self.old port.now packet out.old out.new self.new) }
    {
        journeys_refine();
        // No list in memory has 2^64 elements, so that so many frames weren't sent.
        let _sent = out.effects.iter();
        let before = out.effects.len();
        match self.sim.inject(port, packet, self.clock, out) {
            Ok(()) => {}
            Err(SimFault::Memory) => return Err(NoMemory),
            Err(SimFault::NotBound(_)) => unreachable!(),
            Err(SimFault::NoFrame(_)) => unreachable!(),
        }
        self.keep_crossings(&out.effects.as_slice()[before..])?;
        Ok(())
    }

    // Takes the frame of this number, that waits alone and is unnamed, through the chassis to which it goes. It waits no more, and
    // the frames that are sent for it do.
    fn arrive_unnamed(&mut self, frame: u128, out: &mut SimOut) -> Result<(), NoMemory>
        requires taken { self.old.whole ≡ false }
        requires unnamed { (w : WorldView) × IsUnnamed w frame out.old self.old }
        ensures { OnOk result ((w : WorldView) → IsUnnamed w frame out.old self.old → HasArrived w frame false out.old out.new self.new) }
    {
        journeys_refine();
        // No list in memory has 2^64 elements, so that so many frames weren't sent.
        let _sent = out.effects.iter();
        let before = out.effects.len();
        match self.sim.arrive(frame, false, self.clock, out) {
            Ok(()) => {}
            Err(SimFault::Memory) => return Err(NoMemory),
            Err(SimFault::NotBound(_)) => unreachable!(),
            Err(SimFault::NoFrame(_)) => unreachable!(),
        }
        self.keep_crossings(&out.effects.as_slice()[before..])?;
        Ok(())
    }

    // Takes a packet from its port through the chassis. Where it sends one frame and no other waits, that one arrives at once, and
    // needn't be named, which no clause says, since none speaks of cost. How many frames may arrive still.
    pub(super) fn enter_and_cross(
        &mut self,
        port: &Name,
        packet: Packet,
        out: &mut SimOut,
    ) -> Result<usize, NoMemory>
        requires under_way { IsUnderWay self.old.state self.old.zones (sent_among out.old.effects) }
        requires held { AreHeld self.old.state self.old.zones self.old.sim }
        requires taken { self.old.whole ≡ false }
        requires bound { IsSome (at self.old.state.config.bindings port.now) }
        requires whole { IsWhole packet }
        ensures { IfOk result (λ left. HasBegun self.old port.now packet out.old out.new left self.new) }
    {
        journeys_refine();
        // No list in memory has 2^64 elements, so that so many frames weren't sent.
        let _sent = out.effects.iter();
        let before = out.effects.len();
        let none_waits = self.crossings.is_empty();
        let first = self.sim.next_frame();
        match self.sim.inject(port, packet, self.clock, out) {
            Ok(()) => {}
            Err(SimFault::Memory) => return Err(NoMemory),
            Err(SimFault::NotBound(_)) => unreachable!(),
            Err(SimFault::NoFrame(_)) => unreachable!(),
        }
        if sent_one(none_waits, first, self.sim.next_frame()) {
            self.arrive_unnamed(first, out)?;
            return Ok(MAX_ARRIVALS - 1);
        }
        self.keep_crossings(&out.effects.as_slice()[before..])?;
        Ok(MAX_ARRIVALS)
    }

    // A frame that arrived waits on where it is kept.
    fn let_go(&mut self, frame: u128, keep: bool)
        requires taken { self.old.whole ≡ false }
        ensures { self.new ≡ record self.old { state = record self.old.state { waiting = waiting_on keep frame self.old.state.waiting } } }
    {
        if !keep {
            self.crossings.remove(&frame);
        }
    }

    // Takes a frame that waits through the chassis to which it goes. It waits on where it is kept, and so do the frames that are
    // sent for it.
    pub(super) fn arrive(
        &mut self,
        frame: u128,
        keep: bool,
        out: &mut SimOut,
    ) -> Result<(), NoMemory>
        requires under_way { IsUnderWay self.old.state self.old.zones (sent_among out.old.effects) }
        requires held { AreHeld self.old.state self.old.zones self.old.sim }
        requires taken { self.old.whole ≡ false }
        requires waits { IsSome (numbered self.old.state.waiting frame) }
        ensures { OnOk result (HasArrived self.old frame keep out.old out.new self.new) }
    {
        journeys_refine();
        // No list in memory has 2^64 elements, so that so many frames weren't sent.
        let _sent = out.effects.iter();
        let before = out.effects.len();
        match self.sim.arrive(frame, keep, self.clock, out) {
            Ok(()) => {}
            Err(SimFault::Memory) => return Err(NoMemory),
            Err(SimFault::NotBound(_)) => unreachable!(),
            Err(SimFault::NoFrame(_)) => unreachable!(),
        }
        self.let_go(frame, keep);
        self.keep_crossings(&out.effects.as_slice()[before..])?;
        Ok(())
    }

    // Takes a frame that waits away.
    pub(super) fn lose(&mut self, frame: u128)
        requires crossings { AreCrossings self.old.state }
        requires held { AreHeld self.old.state self.old.zones self.old.sim }
        requires taken { self.old.whole ≡ false }
        requires waits { IsSome (numbered self.old.state.waiting frame) }
        ensures { self.new ≡ record self.old { state = without_crossing self.old.state frame; sim = without self.old.sim frame } }
    {
        match self.sim.lose(frame) {
            Ok(()) => {}
            Err(SimFault::Memory) => unreachable!(),
            Err(SimFault::NotBound(_)) => unreachable!(),
            Err(SimFault::NoFrame(_)) => unreachable!(),
        }
        self.crossings.remove(&frame);
    }

    // The lowest frame arrives again and again, until none waits or so many arrived.
    pub(super) fn drain(&mut self, most: usize, out: &mut SimOut) -> Result<(), NoMemory>
        requires under_way { IsUnderWay self.old.state self.old.zones (sent_among out.old.effects) }
        requires held { AreHeld self.old.state self.old.zones self.old.sim }
        requires taken { self.old.whole ≡ false }
        ensures { OnOk result (AreGone most self.old out.old out.new self.new) }
    {
        let mut left = most;
        'arrivals: while left > 0 {
            let Some((&frame, _)) = self.crossings.first_key_value() else {
                return Ok(());
            };
            self.arrive(frame, false, out)?;
            left -= 1;
        }
        Ok(())
    }
}
