//! Laws of the logical network, each on a function that does nothing: call it, and its clause is a fact of the call.
ghost use Rattle.std.specs.Prelude.{◌≡◌, ◌++◌, ℕ, List};
ghost use Rattle.conn_table.specs.Picks.{Choice};
ghost use Rattle.net_model.specs.Arrival.{arrival};
ghost use Rattle.net_model.specs.Entry.{Scene};
ghost use Rattle.net_model.specs.Journey.{Journey, Traffic, Places, travel, Travels};
ghost use Rattle.net_model.specs.Leads.{Leads, IsLater};
ghost use Rattle.net_model.specs.ListsAt.{AreListsAt};
ghost use Rattle.net_model.specs.State.{State, clocked};
ghost use Rattle.net_model.specs.Transition.{Turn, turned_by};
ghost use Rattle.net_model.specs.Trail.{Trail, End, choices_in};
ghost use Rattle.net_model.specs.Visit.{visit};

use crate::crossing::Crossing;
use inet_packet::packet::Packet;
use nb_records::switch::SwitchPort;

/// A packet's way from its entry adds ends, begins connections that are new, changes entries that are there, and makes choices, of
/// which others may be left; and it does nothing else.
#[tactic(auto, using(crate::proofs::VisitLeads::visit_leads))]
pub fn visits_lead_on()
    ensures { (s : Scene) (i : SwitchPort) (t : Trail) (p : Packet) → Leads s.now t (visit s i t p) }
{}

/// Nor does its way from its arrival.
#[tactic(auto, using(crate::proofs::VisitLeads::arrival_leads))]
pub fn arrivals_lead_on()
    ensures { (s : Scene) (n : ℕ) (x : Crossing) (t : Trail) → Leads s.now t (arrival s n x t) }
{}

/// On its way from its entry ends only grow, what was not legal stays so, and who has connection lists stays.
#[tactic(auto, using(crate::proofs::VisitLeads::visit_later))]
pub fn visits_only_add()
    ensures { (s : Scene) (i : SwitchPort) (t : Trail) (p : Packet) → IsLater t (visit s i t p) }
{}

/// And so on its way from its arrival.
pub fn arrivals_only_add()
    ensures { (s : Scene) (n : ℕ) (x : Crossing) (t : Trail) → IsLater t (arrival s n x t) }
{}

/// And so with all packets of an event.
#[tactic(auto, using(crate::proofs::JourneyLaws::travel_later))]
pub fn journeys_only_add()
    ensures { (places : Places) (traffic : Traffic) (j : Journey) → IsLater j.trail (travel places traffic j).trail }
{}

/// What an event asks of packets and the choices determine the packets' ends, the state that they leave, and how many of the choices are
/// made: those that are left are for later events.
pub fn choices_determine_ends()
    ensures { (m : State) (traffic : Traffic) (es fs : List End) (a b : State) (left more : List Choice)
        → Travels m traffic es a → Travels m traffic fs b → choices_in es ++ left ≡ choices_in fs ++ more → (es ≡ fs) × (a ≡ b) × (left ≡ more) }
{}

/// The packets of an event leave each owner's connection list one, with no last use after the clock.
pub fn journeys_keep_lists()
    ensures { (m : State) (traffic : Traffic) (ends : List End) (after : State)
        → Travels m traffic ends after → AreListsAt m.clock m.lists → AreListsAt after.clock after.lists }
{}

/// So does a change of the records, of the chassis or of the homes of ports.
pub fn turns_keep_lists()
    ensures { (turn : Turn) (m : State) → AreListsAt m.clock m.lists → AreListsAt m.clock (turned_by turn m).lists }
{}

/// And so does the clock as it goes on.
pub fn clock_keeps_lists()
    ensures { (seconds : ℕ) (m : State) → AreListsAt m.clock m.lists → AreListsAt (clocked seconds m).clock (clocked seconds m).lists }
{}
