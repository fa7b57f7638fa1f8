//! How many flows packets match is determined by the network, and by the choices that are made. Each function does nothing: call it, and its
//! clauses are facts of the call.
ghost use Rattle.sim_laws.specs.journeys.Counts.{ChassisAgreeLaw, ChassisWalksLaw, EntryCountLaw, ArrivalCountLaw, DrainCountLaw, ThroughCountLaw};

use crate::journeys::{journeys_refine, tables_filled};

/// Two flows of a chassis that may be taken for one packet have equal actions, whatever the packet and the registers. So two walks of one packet
/// through these flows, in whatever order they stand, that begin with the same lists in zones and make the same choices have the same effects, leave the
/// same lists in zones and have equally many steps.
pub fn flows_agree()
    ensures agree { ChassisAgreeLaw }
    ensures walks { ChassisWalksLaw }
{
    row_laws::anywhere::flows_agree();
    tables_filled();
}

/// In two simulations that hold one state, with the same lists in their zones, a packet that goes in matches as many flows on both where the same choices
/// are made; so does the packet of a frame that arrives. The same lists are left.
pub fn packets_count()
    ensures enters { EntryCountLaw }
    ensures arrives { ArrivalCountLaw }
{
    flows_agree();
}

/// So it is with all frames that wait, which arrive one after another, and with a packet that goes in before: the choices of all of them together tell
/// how many flows were matched.
pub fn events_count()
    ensures drains { DrainCountLaw }
    ensures through { ThroughCountLaw }
{
    flows_agree();
    journeys_refine();
}
