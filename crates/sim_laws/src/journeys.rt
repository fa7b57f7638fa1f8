//! What the simulated chassis do with packets is what the network does, over rows and connection lists. Each function does nothing: call it, and
//! its clauses are facts of the call.
ghost use Rattle.sim_laws.specs.journeys.AtRest.{BeginsLaw, FinishesLaw};
ghost use Rattle.sim_laws.specs.journeys.Events.{AllArriveLaw, DrainLaw, EnterAndDrainLaw, GoesThroughLaw, TravelLaw};
ghost use Rattle.sim_laws.specs.journeys.Filling.{FillingLaw};
ghost use Rattle.sim_laws.specs.journeys.First.{FirstLaw};
ghost use Rattle.sim_laws.specs.journeys.Premises.{ReadyLaw, SoundOnLaw};
ghost use Rattle.sim_laws.specs.journeys.Refining.{ArrivalJourneyLaw, EntryJourneyLaw, LossJourneyLaw};
ghost use Rattle.sim_laws.specs.journeys.SeenLists.{SeenListsLaw};
ghost use Rattle.sim_laws.specs.journeys.Ticking.{TickLaw};
ghost use Rattle.sim_laws.specs.journeys.Turning.{DeltaLaw, TurnLaw};
ghost use Rattle.sim_laws.specs.journeys.TurnedZones.{BindingLaw, ComingChassisLaw, ComingHomeLaw, EditingLaw, TurnedAtHomeLaw};
ghost use Rattle.sim_laws.specs.routers.Passing.{IntoSwitchLaw, PassingLaw};
ghost use Rattle.sim_laws.specs.routers.Visits.{RoutedArrivalLaw, RoutedVisitLaw};
ghost use Rattle.flow_table.specs.declared.flow.Flow.{Flow};
ghost use Rattle.std.specs.Prelude.{List, ℕ};

use crate::routers::router_passes;
use crate::switches::{switch_passes, switches_lead_on};
use flow_table::exact::exact_flow;
use row_laws::rows::rows_can_be_lowered;

/// Whatever walk takes on a copy that leaves a datapath for another, or comes into a switch from there, does what the network says of its whole way,
/// whatever passes are left, whether routers translate or not. So what becomes of a packet that comes in at a port is its visit, and of one
/// that comes out of a tunnel its arrival.
pub fn routed_passes()
    ensures passes { (left : ℕ) → PassingLaw left }
    ensures enters { (left : ℕ) → IntoSwitchLaw left }
    ensures visits { RoutedVisitLaw }
    ensures arrives { RoutedArrivalLaw }
{
    router_passes();
    switches_lead_on();
}

/// A sound state of the network gives what the laws of passes ask of keys, zones and crossings, on each of its chassis; and each chassis that is
/// held has all that they ask.
pub fn premises_of_sound()
    ensures sound { SoundOnLaw }
    ensures ready { ReadyLaw }
{
    tables_filled();
}

/// What the simulated chassis do with a packet, and with a frame that arrives, is a journey of the network, with the effects and the choices of
/// which its ends tell; they hold the state that it leaves, in networks of switches and of routers, distributed or on their chassis, with NAT and
/// load balancers or without. So they do with a packet and all frames that wait, one after another.
pub fn journeys_refine()
    ensures enters { EntryJourneyLaw }
    ensures arrives { ArrivalJourneyLaw }
    ensures loses { LossJourneyLaw }
    ensures all_arrive { AllArriveLaw }
    ensures goes_through { GoesThroughLaw }
{
    tables_filled();
    switch_passes();
    routed_passes();
}

/// Moves of packets in a state are the network's travels, and come one after another.
pub fn moves_travel()
    ensures travels { TravelLaw }
    ensures drains { DrainLaw }
    ensures enters_and_drains { EnterAndDrainLaw }
{}

/// The state in which nothing is there is sound, and the simulated chassis hold it that hold nothing. An event begins in a sound state, and leaves one: it
/// is counted, and where nothing waits no key is retired. The chassis hold that state too.
pub fn events_end()
    ensures first { FirstLaw }
    ensures begins { BeginsLaw }
    ensures finishes { FinishesLaw }
{}

/// Flows that are exactly those of a chassis, the lowered rows of the network and those around the pipelines, are in its tables.
pub fn tables_filled()
    ensures { FillingLaw }
{
    rows_can_be_lowered();
}

/// The connection lists of the network are those in the zones of the chassis.
pub fn lists_are_in_zones()
    ensures { SeenListsLaw }
{}

/// The clock goes on in the network as on the simulated chassis: idle connections go in both.
pub fn clock_ticks()
    ensures { TickLaw }
{}

/// A turn of the configuration changes what the chassis hold, whatever their tables `T` are: once it is made, they hold the state after it. The deltas
/// of which it tells them are ones of the flows that they hold.
pub fn turns_hold<T>()
    ensures holds { (flows_of : T → List Flow) → TurnLaw flows_of }
    ensures deltas { (flows_of : T → List Flow) → DeltaLaw flows_of }
{
    exact_flow();
}

/// After a turn of the configuration who is at home has lists. Gateway routers that come home with a turn begin with their zones, and where nobody else
/// comes or goes all others keep theirs: so it is with an edit under which bound ports and routers stay, and with a chassis that comes. A port that is
/// bound begins with its zone.
pub fn zones_turn()
    ensures at_home { TurnedAtHomeLaw }
    ensures comes_home { ComingHomeLaw }
    ensures edits { EditingLaw }
    ensures chassis_come { ComingChassisLaw }
    ensures binds { BindingLaw }
{}
