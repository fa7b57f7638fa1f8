//! An input and the picks that its output names have one run.
ghost use Rattle.std.specs.Prelude.{◌≡◌, List, ℕ};
ghost use Rattle.std.specs.List.{AllByRecursion};
ghost use Rattle.edit_reader.specs.declared.event.Event.{Event};
ghost use Rattle.event_lines.specs.Picks.{Pick};
ghost use Rattle.edit_reader.specs.Fitting.{IsEventInGrammar};
ghost use Rattle.world_core.specs.StepParts.{new_world};
ghost use Rattle.world_core.specs.Picks.{Fate, Run};
ghost use Rattle.world_core.specs.WorldView.{WorldView};
ghost use Rattle.net_model.specs.State.{empty};
ghost use Rattle.ovnsim.specs.Events.{AreEvents, AsksFor};
ghost use Rattle.ovnsim.specs.Runs.{AreTexts, Runs, RunsLines};

use edit_reader::read::read_is_in_grammar;
use sim_laws::one_count::{events_count, packets_count};

/// A line asks for at most one event, and so lines have one list of events. Events and picks have at most one run, as far
/// as texts, states and zones go; and so have lines and picks. The states of a run are those of a run of the logical
/// network with the same picks, and its texts are the lines of what became of the events there. The events of lines are ones
/// that a world takes, so that their effects and refusals are determined too (`one_run` of `world_core`).
pub fn one_run()
    ensures of_line { (line : List ℕ) (a b : Event) → AsksFor line a → AsksFor line b → a ≡ b }
    ensures of_lines { (lines : List (List ℕ)) (events others : List Event)
        → AreEvents lines events → AreEvents lines others → events ≡ others }
    ensures of_events { (events : List Event) (picks : List Pick) (text other : List ℕ) (last end : WorldView)
        → Runs new_world events picks text last → Runs new_world events picks other end
        → (text ≡ other) × (last.state ≡ end.state) × (last.zones ≡ end.zones) }
    ensures of_input { (lines : List (List ℕ)) (picks : List Pick) (text other : List ℕ) (last end : WorldView)
        → RunsLines lines picks text last → RunsLines lines picks other end
        → (text ≡ other) × (last.state ≡ end.state) × (last.zones ≡ end.zones) }
    ensures admitted { (lines : List (List ℕ)) (events : List Event) → AreEvents lines events → AllByRecursion IsEventInGrammar events }
    ensures network { (events : List Event) (picks : List Pick) (text : List ℕ) (last : WorldView)
        → Runs new_world events picks text last
        → (fates : List Fate) × Run empty events picks fates last.state × AreTexts 1 fates text }
{
    read_is_in_grammar();
    packets_count();
    events_count();
}
