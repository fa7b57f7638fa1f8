//! What the ends of journeys tell of, in the whole logical network. Each function does nothing: call it, and its clause is a fact of the call.
ghost use Rattle.std.specs.Prelude.{◌≡◌, List, []};
ghost use Rattle.nb_rules.specs.Valid.{IsValid};
ghost use Rattle.net_model.specs.Journey.{Traffic, Travels};
ghost use Rattle.net_model.specs.State.{State};
ghost use Rattle.net_model.specs.Trail.{End, choices_in};
ghost use Rattle.sim_laws.specs.EndNames.{AreNamedEnds, HasNames, OffersNoChoice};

use net_model::laws::choices_determine_ends;

/// Where the records are valid, and chassis and crossings have names, so have the ends of all packets of an event: each name in them is one
/// of the grammar, each backend and virtual address is one too, and each port that is picked is one of 1 to 65,535. The crossings that
/// wait afterwards have names too.
pub fn ends_are_named()
    ensures { (m : State) (traffic : Traffic) (ends : List End) (after : State)
        → IsValid m.config.net → HasNames m → Travels m traffic ends after → AreNamedEnds ends × HasNames after }
{}

/// The choices of which ends tell determine the ends and the state that is left.
pub fn choices_determine_all()
    ensures { (m : State) (traffic : Traffic) (es fs : List End) (a b : State)
        → Travels m traffic es a → Travels m traffic fs b → choices_in es ≡ choices_in fs → (es ≡ fs) × (a ≡ b) }
{
    choices_determine_ends();
}

/// In a network without NAT rows and balancers, with routers or without, no end tells of a choice; so what an event asks of packets
/// determines their ends and the state that is left.
pub fn nothing_to_choose()
    ensures none { (m : State) (traffic : Traffic) (ends : List End) (after : State)
        → OffersNoChoice m.config.net → Travels m traffic ends after → choices_in ends ≡ [] }
    ensures determined { (m : State) (traffic : Traffic) (es fs : List End) (a b : State)
        → OffersNoChoice m.config.net → Travels m traffic es a → Travels m traffic fs b → (es ≡ fs) × (a ≡ b) }
{
    choices_determine_all();
}
