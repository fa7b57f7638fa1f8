//! The steps of a world that move packets, one for each kind of event.
ghost use Rattle.std.specs.Prelude.{cond, is_none, length, ◌≡◌, ◌<◌, ◌^◌, None, IfErr, IfOk};
ghost use Rattle.edit_reader.specs.declared.event.Event.TheVariants as event_of;
ghost use Rattle.world_core.specs.PacketEvents.{event_of_packets};
ghost use Rattle.world_core.specs.Packets.{IsPacketOf};
ghost use Rattle.world_core.specs.StepParts.{IsTaken, IsTried, IsDone};
ghost use Rattle.world_core.specs.Outcome.{matched};
ghost use Rattle.world_setup.specs.Turning.{Tells};
ghost use Rattle.world_setup.specs.Refusing.{cause_of_entry, is_virtual_port, no_frame, too_many_wait};
ghost use Rattle.net_model.specs.State.{event_count};
ghost use Rattle.ovn_base.specs.names.ByName.{at};

use crate::frames::{Entering, read_entering};
use crate::packet_event::PacketEvent;
use crate::world::{Done, World};
use chassis_sim::out::SimOut;
use event_lines::refusal::{Refusal, StepFault};
use inet_packet::packet::Packet;
use ovn_base::limits::{MAX_ARRIVALS, MAX_WAITING};
use ovn_base::list::Bytes;
use ovn_base::memory::NoMemory;
use ovn_base::name::Name;
use std::alloc::Global;
use switch_engine::walk::Walk;

// How many flows were matched in all.
fn matched_in(walks: &[Walk]) -> u128
    ensures { result ≡ matched walks.now }
{
    let mut count: u128 = 0;
    'walks: for walk in walks {
        count += walk.steps.len() as u128;
    }
    count
}

// What came of packets.
fn done_from(out: SimOut) -> Done
    ensures effects { result.effects ≡ out.effects }
    ensures walks { result.walks ≡ out.walks }
    ensures matched { result.matched ≡ matched out.walks }
    ensures few { length out.effects < 2 ^ 64 }
{
    let SimOut { effects, walks } = out;
    // No list in memory has 2^64 elements, so that so many frames weren't sent.
    let _sent = effects.iter();
    let matched = matched_in(walks.as_slice());
    Done {
        effects,
        walks,
        matched,
    }
}

impl World {
    // Why no frame of the number can be taken.
    pub(super) fn refusal_of_frame(&self, frame: u64) -> Option<Refusal>
        ensures { result ≡ no_frame self.now.state frame }
    {
        let frame = u128::from(frame);
        if self.crossings.get(&frame).is_none() {
            return Some(Refusal::NoFrame(frame));
        }
        None
    }

    // Why no event may add to the frames that wait.
    fn too_many_wait(&self) -> Option<Refusal>
        ensures { result ≡ too_many_wait self.now.state }
    {
        if self.crossings.len() >= MAX_WAITING {
            return Some(Refusal::TooManyFrames);
        }
        None
    }

    // Whether a virtual port of the name is there. One that is bound is, so that nobody looks for its record.
    #[tactic(auto, using(crate::proofs::BoundPorts::bound_is_virtual))]
    fn is_virtual_port(&self, port: &Name, unbound: bool) -> bool
        requires taken { IsTaken self.now }
        requires unbound { unbound ≡ is_none (at self.now.state.config.bindings port.now) }
        ensures { result ≡ is_virtual_port (at self.now.state.config.net.switch_ports port.now) }
    {
        if !unbound {
            return true;
        }
        self.setup.is_virtual_port(port)
    }

    // Whether the port of the name is bound to no chassis. The simulated chassis find it by its hash.
    #[tactic(auto, using(crate::proofs::BoundPorts::bound_as_held))]
    fn is_unbound(&self, port: &Name) -> bool
        requires taken { IsTaken self.now }
        ensures { result ≡ is_none (at self.now.state.config.bindings port.now) }
    {
        !self.sim.is_bound(port)
    }

    // The packet of the frame, which may enter at the port, or why it may not.
    fn packet_for(&self, alloc: Global, port: &Name, frame: &[u8]) -> Result<Packet, StepFault>
        requires taken { IsTaken self.now }
        ensures allowed { IfOk result (λ packet. cause_of_entry self.now.state port.now frame.now ≡ None) }
        ensures packet { IfOk result (λ packet. IsPacketOf packet frame.now) }
        ensures refused { IfErr result (λ fault. Tells fault (cause_of_entry self.now.state port.now frame.now)) }
    {
        let unbound = self.is_unbound(port);
        if !self.is_virtual_port(port, unbound) {
            return Err(StepFault::Refused(Refusal::NoSuch(*port)));
        }
        if unbound {
            return Err(StepFault::Refused(Refusal::NotBound(*port)));
        }
        let packet = match read_entering(alloc, frame)? {
            Entering::Whole(packet) => packet,
            Entering::Short => return Err(StepFault::Refused(Refusal::TooShort)),
            Entering::Big => return Err(StepFault::Refused(Refusal::TooBig)),
            Entering::BadIp4 => return Err(StepFault::Refused(Refusal::BadIp4)),
        };
        if let Some(why) = self.too_many_wait() {
            return Err(StepFault::Refused(why));
        }
        Ok(packet)
    }

    // A packet that enters, whose frames wait.
    fn inject(&mut self, alloc: Global, port: &Name, frame: &Bytes) -> Result<Done, StepFault>
        requires taken { IsTaken self.old }
        requires room { event_count self.old.state < 2 ^ 42 }
        ensures { IsTried result self.old (event_of.Inject port.now frame.now) self.new }
    {
        let packet = self.packet_for(alloc, port, frame.as_slice())?;
        let mut out = SimOut::new(alloc);
        self.enter(port, packet, &mut out)?;
        self.finish();
        Ok(done_from(out))
    }

    // A packet that enters, and then all frames that wait arrive.
    fn send(&mut self, alloc: Global, port: &Name, frame: &Bytes) -> Result<Done, StepFault>
        requires taken { IsTaken self.old }
        requires room { event_count self.old.state < 2 ^ 42 }
        ensures { IsTried result self.old (event_of.Packet port.now frame.now) self.new }
    {
        let packet = self.packet_for(alloc, port, frame.as_slice())?;
        let mut out = SimOut::new(alloc);
        let left = self.enter_and_cross(port, packet, &mut out)?;
        self.drain(left, &mut out)?;
        self.finish();
        Ok(done_from(out))
    }

    // A frame that waits and arrives, and waits on where it is kept.
    fn take_arrival(&mut self, alloc: Global, frame: u64, keep: bool) -> Result<Done, NoMemory>
        requires taken { IsTaken self.old }
        requires room { event_count self.old.state < 2 ^ 42 }
        requires waits { no_frame self.old.state frame ≡ None }
        ensures { IfOk result (λ done. IsDone self.old (cond keep (event_of.Repeat frame) (event_of.Deliver frame)) done.effects done.walks done.matched self.new) }
    {
        let mut out = SimOut::new(alloc);
        self.arrive(u128::from(frame), keep, &mut out)?;
        self.finish();
        Ok(done_from(out))
    }

    // A frame that arrives, and waits no more.
    fn deliver(&mut self, alloc: Global, frame: u64) -> Result<Done, StepFault>
        requires taken { IsTaken self.old }
        requires room { event_count self.old.state < 2 ^ 42 }
        ensures { IsTried result self.old (event_of.Deliver frame) self.new }
    {
        if let Some(why) = self.refusal_of_frame(frame) {
            return Err(StepFault::Refused(why));
        }
        Ok(self.take_arrival(alloc, frame, false)?)
    }

    // A frame that arrives, and still waits.
    fn repeat(&mut self, alloc: Global, frame: u64) -> Result<Done, StepFault>
        requires taken { IsTaken self.old }
        requires room { event_count self.old.state < 2 ^ 42 }
        ensures { IsTried result self.old (event_of.Repeat frame) self.new }
    {
        if let Some(why) = self.refusal_of_frame(frame) {
            return Err(StepFault::Refused(why));
        }
        if let Some(why) = self.too_many_wait() {
            return Err(StepFault::Refused(why));
        }
        Ok(self.take_arrival(alloc, frame, true)?)
    }

    // All frames that wait arrive.
    fn take_drain(&mut self, alloc: Global) -> Result<Done, NoMemory>
        requires taken { IsTaken self.old }
        requires room { event_count self.old.state < 2 ^ 42 }
        ensures { IfOk result (λ done. IsDone self.old event_of.Drain done.effects done.walks done.matched self.new) }
    {
        let mut out = SimOut::new(alloc);
        self.drain(MAX_ARRIVALS, &mut out)?;
        self.finish();
        Ok(done_from(out))
    }

    /// Does what an event that moves packets asks for, or tells why it is refused.
    pub(super) fn accept(
        &mut self,
        alloc: Global,
        event: &PacketEvent<'_>,
    ) -> Result<Done, StepFault>
        requires taken { IsTaken self.old }
        requires room { event_count self.old.state < 2 ^ 42 }
        ensures { IsTried result self.old (event_of_packets event.now) self.new }
    {
        match event {
            PacketEvent::Inject { port, frame } => self.inject(alloc, port, frame),
            PacketEvent::Deliver { frame } => self.deliver(alloc, *frame),
            PacketEvent::Repeat { frame } => self.repeat(alloc, *frame),
            PacketEvent::Drain => Ok(self.take_drain(alloc)?),
            PacketEvent::Packet { port, frame } => self.send(alloc, port, frame),
        }
    }
}
