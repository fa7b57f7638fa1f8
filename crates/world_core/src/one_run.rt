//! Events and picks have one run.
ghost use Rattle.std.specs.Prelude.{◌≡◌, List};
ghost use Rattle.edit_reader.specs.declared.event.Event.{Event};
ghost use Rattle.event_lines.specs.Picks.{Pick, picks_of};
ghost use Rattle.switch_engine.specs.declared.effect.NetEffect.{NetEffect};
ghost use Rattle.world_core.specs.Picks.{Fate, Run};
ghost use Rattle.net_model.specs.State.{State};
ghost use Rattle.world_setup.specs.Step.{NetworkStep};

/// An event and what was picked for it, keys and backends and source ports, determine its effects and the state after it. So
/// events and picks determine a run: which events are refused and why, the effects of the others, and the states.
pub fn one_run()
    ensures step { (m : State) (event : Event) (effects others : List NetEffect) (after later : State)
        → NetworkStep m event effects after → NetworkStep m event others later
        → picks_of effects ≡ picks_of others → (effects ≡ others) × (after ≡ later) }
    ensures run { (m : State) (events : List Event) (picks : List Pick) (fates others : List Fate) (last end : State)
        → Run m events picks fates last → Run m events picks others end → (fates ≡ others) × (last ≡ end) }
{}
