//! The events of an input, taken one after another.
ghost use Rattle.ovn_base.specs.declared.limits.TheConstants.{MAX_INPUT};
ghost use Rattle.ovn_base.specs.streams.Causes.{Rose};
ghost use Rattle.std.specs.Io.KnownBytes.{append_known, IsAtEnd};
ghost use Rattle.std.specs.Prelude.{◌≡◌, ◌<◌, ◌≤◌, ◌+◌, ◌^◌, [], cond, false, Err, IfErr, IfOk, IfSome, OnOk};
ghost use Rattle.event_lines.specs.Lines.{end_line};
ghost use Rattle.edit_reader.specs.Fitting.{IsEventInGrammar};
ghost use Rattle.world_core.specs.StepParts.{new_world};
ghost use Rattle.world_core.specs.WorldView.{IsSound, WorldView};
ghost use Rattle.net_model.specs.State.{event_count};
ghost use Rattle.ovnsim.specs.Answers.{GainsTexts, GainsWhole};
ghost use Rattle.ovnsim.specs.Stops.{CutsShort, HasCauses, StandsAt};
ghost use Rattle.ovnsim.specs.Taking.{GainsCut, GainsText, TakesWith, WasCut};

use crate::next_event::{Next, next_event};
use edit_reader::event::Event;
use edit_reader::read::read_is_in_grammar;
use event_lines::lines::end;
use event_lines::refusal::StepFault;
use ovn_base::line_buf::LineBuf;
use ovn_base::memory::{Failed, NoMemory};
use ovn_base::sink::Sink;
use ovn_base::source::Source;
use ovn_base::steps::Steps;
use std::alloc::Global;
use world_core::world::World;

/// Why a run stops before the end of its input.
#[derive(Clone, Copy, PartialEq, Eq, Debug)]
pub enum Stop {
    /// The source failed.
    ReadFault,
    /// The sink failed.
    WriteFault,
    /// Memory was wanted and not found.
    Memory,
    /// The input has no end within 2^40 bytes.
    InputTooLong,
}

impl From<NoMemory> for Stop {
    ghost use Rattle.std.specs.Prelude.{◌≡◌};
    ghost use Rattle.ovnsim.specs.declared.run.Stop.TheVariants.{Memory};

    ghost from_gives = { λ _ stop. stop ≡ Memory };

    fn from(_error: NoMemory) -> Self {
        Stop::Memory
    }
}

impl From<Failed> for Stop {
    ghost use Rattle.std.specs.Prelude.{◌≡◌};
    ghost use Rattle.ovnsim.specs.declared.run.Stop.TheVariants.{WriteFault};

    ghost from_gives = { λ _ stop. stop ≡ WriteFault };

    fn from(_error: Failed) -> Self {
        Stop::WriteFault
    }
}

/// How many events were accepted, and how many were refused.
#[derive(Clone, Copy, PartialEq, Eq, Debug)]
pub struct Counts {
    accepted: u64,
    refused: u64,
}

impl Counts {
    /// Counts one event more.
    fn add(&mut self, is_accepted: bool)
        requires { self.old.accepted + self.old.refused < 2 ^ 63 }
        ensures accepted { self.new.accepted ≡ self.old.accepted + cond is_accepted 1 0 }
        ensures refused { self.new.refused ≡ self.old.refused + cond is_accepted 0 1 }
    {
        if is_accepted {
            self.accepted += 1;
        } else {
            self.refused += 1;
        }
    }
}

/// Names the count of the events that were taken.
struct Events;

/// Takes one event, and answers whether it was accepted. `text` holds its text then.
fn step(event: &Event, world: &mut World, text: &mut Vec<u8>) -> Result<bool, NoMemory>
    requires sound { IsSound world.old }
    requires room { event_count world.old.state < 2 ^ 42 }
    requires admitted { IsEventInGrammar event.now }
    ensures { IfOk result (λ is_accepted. TakesWith is_accepted world.old event.now text.new.items world.new) }
{
    let mut steps: Steps<Events> = Steps::new();
    text.clear();
    match world.step(event, text, &mut steps) {
        Ok(()) => Ok(true),
        Err(StepFault::Refused(_)) => Ok(false),
        Err(StepFault::Memory) => Err(NoMemory),
    }
}

/// Takes one event, which is not needed any more, and answers whether it was accepted. `text` holds its text then.
fn take_event(event: Event, world: &mut World, text: &mut Vec<u8>) -> Result<bool, NoMemory>
    requires sound { IsSound world.old }
    requires room { event_count world.old.state < 2 ^ 42 }
    requires admitted { IsEventInGrammar event }
    ensures { IfOk result (λ is_accepted. TakesWith is_accepted world.old event text.new.items world.new) }
{
    step(&event, world, text)
}

/// Takes one event and gives its text, and answers whether it was accepted.
fn run_event<K: Sink>(
    event: Event,
    world: &mut World,
    text: &mut Vec<u8>,
    sink: &mut K,
) -> Result<bool, Stop>
    requires sound { IsSound world.old }
    requires room { event_count world.old.state < 2 ^ 42 }
    requires admitted { IsEventInGrammar event }
    ensures ok { IfOk result (λ is_accepted.
        GainsText is_accepted world.old event (K.gone sink.old) (K.gone sink.new) world.new) }
    ensures stopped { IfErr result (λ stop.
        CutsShort stop (GainsCut world.old event) (K.gone sink.old) (K.gone sink.new)) }
    ensures write_rose { result ≡ Err Stop.WriteFault → Rose (K.faults sink.old) (K.faults sink.new) }
    ensures faults { K.faults sink.old ≤ K.faults sink.new }
{
    let is_accepted = take_event(event, world, text)?;
    sink.give(text.as_slice())?;
    Ok(is_accepted)
}

/// Takes each event of the source and gives its text, and answers how many were accepted and refused.
fn run_lines<S: Source, K: Sink>(
    alloc: Global,
    source: &mut S,
    sink: &mut K,
    buf: &mut LineBuf,
    world: &mut World,
    text: &mut Vec<u8>,
) -> Result<Counts, Stop>
    requires unread { buf.old ≡ record { given = 0; text = []; held = []; ended = false; faulted = false } }
    requires empty { world.old ≡ new_world }
    requires sound { IsSound world.old }
    ensures texts { OnOk result
        (IfSome (S.left source.old) (GainsTexts (K.gone sink.old) (K.gone sink.new) world.new)) }
    ensures accepted { IfOk result (λ counts. counts.accepted ≡ world.new.state.accepted) }
    ensures refused { IfOk result (λ counts. counts.refused ≡ world.new.state.refused) }
    ensures few { OnOk result (event_count world.new.state ≤ MAX_INPUT) }
    ensures at_end { OnOk result (IsAtEnd (S.left source.new)) }
    ensures stopped { IfErr result (λ stop.
        StandsAt stop (S.left source.old) (S.left source.new) (K.gone sink.old) (K.gone sink.new)) }
    ensures causes { HasCauses (S.faults source.old) (S.faults source.new) (K.faults sink.old) (K.faults sink.new) result }
{
    read_is_in_grammar();
    let mut counts = Counts {
        accepted: 0,
        refused: 0,
    };
    'lines: loop {
        match next_event(alloc, source, buf)? {
            Next::Found(event) => {
                let is_accepted = run_event(event, world, text, sink)?;
                counts.add(is_accepted);
            }
            Next::Blank => {}
            Next::End => return Ok(counts),
        }
    }
}

/// Gives the last line.
fn give_end<K: Sink>(
    counts: Counts,
    waiting: usize,
    text: &mut Vec<u8>,
    sink: &mut K,
) -> Result<(), Stop>
    requires { counts.accepted + counts.refused < 2 ^ 64 }
    ensures ok { OnOk result (K.gone sink.new ≡ append_known (K.gone sink.old)
        (end_line (counts.accepted + counts.refused) counts.accepted counts.refused waiting)) }
    ensures stopped { IfErr result (λ stop. CutsShort stop
        (WasCut (end_line (counts.accepted + counts.refused) counts.accepted counts.refused waiting))
        (K.gone sink.old) (K.gone sink.new)) }
    ensures write_rose { result ≡ Err Stop.WriteFault → Rose (K.faults sink.old) (K.faults sink.new) }
    ensures faults { K.faults sink.old ≤ K.faults sink.new }
{
    text.clear();
    let events = counts.accepted + counts.refused;
    end(events, counts.accepted, counts.refused, waiting, text)?;
    sink.give(text.as_slice())?;
    Ok(())
}

/// Takes each event of the source and gives its text, and then the last line. It answers whether an event was refused.
fn run_whole<S: Source, K: Sink>(
    alloc: Global,
    source: &mut S,
    sink: &mut K,
    buf: &mut LineBuf,
    world: &mut World,
    text: &mut Vec<u8>,
) -> Result<bool, Stop>
    requires unread { buf.old ≡ record { given = 0; text = []; held = []; ended = false; faulted = false } }
    requires empty { world.old ≡ new_world }
    requires sound { IsSound world.old }
    ensures whole { IfOk result
        (λ refused. IfSome (S.left source.old) (GainsWhole refused (K.gone sink.old) (K.gone sink.new))) }
    ensures at_end { OnOk result (IsAtEnd (S.left source.new)) }
    ensures stopped { IfErr result (λ stop.
        StandsAt stop (S.left source.old) (S.left source.new) (K.gone sink.old) (K.gone sink.new)) }
    ensures causes { HasCauses (S.faults source.old) (S.faults source.new) (K.faults sink.old) (K.faults sink.new) result }
{
    let counts = run_lines(alloc, source, sink, buf, world, text)?;
    give_end(counts, world.waiting(), text, sink)?;
    Ok(counts.refused > 0)
}

/// Takes each event of the source and gives its text, and then the last line. It answers whether an event was refused.
///
/// # Errors
///
/// The first fault stops the run: a failure of the source or the sink, want of memory, or 2^40 bytes without an end.
/// No last line is given then.
pub fn replay<S: Source, K: Sink>(alloc: Global, source: &mut S, sink: &mut K) -> Result<bool, Stop>
    ensures whole { IfOk result
        (λ refused. IfSome (S.left source.old) (GainsWhole refused (K.gone sink.old) (K.gone sink.new))) }
    ensures at_end { OnOk result (IsAtEnd (S.left source.new)) }
    ensures stopped { IfErr result (λ stop.
        StandsAt stop (S.left source.old) (S.left source.new) (K.gone sink.old) (K.gone sink.new)) }
    ensures causes { HasCauses (S.faults source.old) (S.faults source.new) (K.faults sink.old) (K.faults sink.new) result }
{
    let mut buf = LineBuf::new(alloc)?;
    let mut world = World::new(alloc)?;
    let mut text = Vec::new(alloc);
    run_whole(alloc, source, sink, &mut buf, &mut world, &mut text)
}
