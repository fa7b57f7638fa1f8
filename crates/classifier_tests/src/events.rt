//! A world, and a simulation over any classifier that is given what the chassis of the world hold. Both take the same events.
ghost use Rattle.edit_reader.specs.Fitting.{IsEventInGrammar};

use crate::sims::{Empty, arrive, bind, come, drain, enter, follow};
use chassis_sim::out::{SimFault, SimOut};
use chassis_sim::sim::Sim;
use edit_reader::event::Event;
use edit_reader::read::{read_event, read_is_in_grammar};
use event_lines::lines::{accepted, refused};
use event_lines::refusal::{Refusal, StepFault};
use flow_table::flow::SharedFlow;
use ovn_base::list::List;
use ovn_base::memory::NoMemory;
use ovn_base::name::Name;
use ovn_base::steps::Steps;
use std::alloc::Global;
use world_core::world::World;

// Names the count of the events that were taken.
struct Events;

/// What the world and the simulation write of packets.
#[derive(Drop)]
pub struct Texts {
    pub world: Vec<u8>,
    pub sim: Vec<u8>,
}

// Takes an event of packets as a world does, and adds its lines.
fn take<T: Empty>(
    alloc: Global,
    sim: &mut Sim<T>,
    event: &Event,
    number: u64,
    text: &mut Vec<u8>,
) -> Result<(), NoMemory> {
    let mut out = SimOut::new(alloc);
    let done = match event {
        Event::Inject { port, frame } => enter(alloc, sim, port, frame.as_slice(), &mut out),
        Event::Deliver { frame } => arrive(sim, u128::from(*frame), false, &mut out),
        Event::Repeat { frame } => arrive(sim, u128::from(*frame), true, &mut out),
        Event::Lose { frame } => sim.lose(u128::from(*frame)),
        Event::Drain => drain(sim, &mut out),
        Event::Packet { port, frame } => {
            match enter(alloc, sim, port, frame.as_slice(), &mut out) {
                Ok(()) => drain(sim, &mut out),
                Err(fault) => Err(fault),
            }
        }
        _ => Ok(()),
    };
    match done {
        Ok(()) => accepted(out.effects.as_slice(), matched(&out), number, text),
        Err(SimFault::NoFrame(frame)) => refused(&Refusal::NoFrame(frame), number, text),
        Err(_) => Err(NoMemory),
    }
}

// How many flows were matched.
fn matched(out: &SimOut) -> u128 {
    let mut count: u128 = 0;
    for walk in out.walks.as_slice() {
        count = count.saturating_add(walk.steps.len() as u128);
    }
    count
}

// Whether the event is one of packets or frames.
fn is_of_packets(event: &Event) -> bool {
    match event {
        Event::Inject { .. }
        | Event::Deliver { .. }
        | Event::Repeat { .. }
        | Event::Lose { .. }
        | Event::Drain
        | Event::Packet { .. } => true,
        _ => false,
    }
}

// Each chassis holds what it holds in the world.
fn follow_all<T: Empty>(alloc: Global, world: &World, sim: &mut Sim<T>) -> Result<(), NoMemory> {
    for index in 0..64 {
        let Some(chassis) = world.chassis(index) else {
            return Ok(());
        };
        let flows = flows_of(alloc, world, chassis)?;
        follow(alloc, sim, *chassis, &flows)?;
    }
    Ok(())
}

// Has the world take the event.
fn step(world: &mut World, event: &Event, text: &mut Vec<u8>) -> Result<(), NoMemory>
    requires { IsEventInGrammar event.now }
{
    if !world.is_sound() || world.events() >= 1 << 42 {
        return Err(NoMemory);
    }
    let mut steps: Steps<Events> = Steps::new();
    match world.step(event, text, &mut steps) {
        Ok(()) | Err(StepFault::Refused(_)) => Ok(()),
        Err(StepFault::Memory) => Err(NoMemory),
    }
}

// Has both take an event of packets.
fn pass<T: Empty>(
    alloc: Global,
    world: &mut World,
    sim: &mut Sim<T>,
    event: &Event,
    texts: &mut Texts,
) -> Result<(), NoMemory>
    requires { IsEventInGrammar event.now }
{
    step(world, event, &mut texts.world)?;
    take(alloc, sim, event, world.events(), &mut texts.sim)
}

// Has the world take another event, and gives the simulation what came of it.
fn change<T: Empty>(
    alloc: Global,
    world: &mut World,
    sim: &mut Sim<T>,
    event: &Event,
) -> Result<(), NoMemory>
    requires { IsEventInGrammar event.now }
{
    let mut skipped = Vec::new(alloc);
    step(world, event, &mut skipped)?;
    match event {
        Event::AddChassis(chassis) => come(alloc, sim, *chassis)?,
        Event::Bind { port, chassis } => bind(alloc, sim, *port, *chassis)?,
        _ => {}
    }
    follow_all(alloc, world, sim)
}

// Has both take the event.
fn take_event<T: Empty>(
    alloc: Global,
    world: &mut World,
    sim: &mut Sim<T>,
    event: &Event,
    texts: &mut Texts,
) -> Result<(), NoMemory>
    requires { IsEventInGrammar event.now }
{
    if is_of_packets(event) {
        pass(alloc, world, sim, event, texts)
    } else {
        change(alloc, world, sim, event)
    }
}

/// Has both take the event of the line.
pub fn take_line<T: Empty>(
    alloc: Global,
    world: &mut World,
    sim: &mut Sim<T>,
    line: &str,
    texts: &mut Texts,
) -> Result<(), NoMemory> {
    let Ok(event) = read_event(alloc, line.as_bytes()) else {
        return Err(NoMemory);
    };
    read_is_in_grammar();
    take_event(alloc, world, sim, &event, texts)
}

// The flows that the chassis holds.
fn flows_of(alloc: Global, world: &World, chassis: &Name) -> Result<List<SharedFlow>, NoMemory> {
    let mut flows = List::new(alloc);
    for index in 0..10_000 {
        match world.simulated_chassis().flow(chassis, index) {
            Some(flow) => flows.push(flow.share()?)?,
            None => return Ok(flows),
        }
    }
    Ok(flows)
}
