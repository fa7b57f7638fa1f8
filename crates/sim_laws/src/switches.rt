//! The laws of a switch's two pipelines, of a pass and of a visit, on functions that do nothing: call one, and its clauses are facts of the call.
ghost use Rattle.sim_laws.specs.passes.Arriving.{ArrivingLaw, ArrivingOnLaw};
ghost use Rattle.sim_laws.specs.passes.Sending.{SendingLaw, SendingOnLaw};
ghost use Rattle.sim_laws.specs.passes.Visiting.{ThroughSwitchLaw, VisitLaw, VisitOnLaw};
ghost use Rattle.sim_laws.specs.passes.Whole.{WholeWalkLaw};
ghost use Rattle.sim_laws.specs.pipelines.Egress.{EgressLaw};
ghost use Rattle.sim_laws.specs.pipelines.FirstTable.{FirstTableLaw};
ghost use Rattle.sim_laws.specs.pipelines.Ingress.{IngressLaw};

use row_laws::stages::tables_do_so;

/// Whatever walk takes on a copy through the tables of a switch's pipelines does what the network says, with the connection lists that
/// zones hold and the choices that the walk tells of: the copy is let in and gets its target, and is let out. It stands before the first
/// table with the keys of its switch and its port.
pub fn switch_pipelines()
    ensures first { FirstTableLaw }
    ensures in_as_told { IngressLaw }
    ensures out_as_told { EgressLaw }
{
    tables_do_so();
}

/// Whatever walk takes on a copy that has its target in a switch does what the network says of the packet that is sent there, up to its last end, where
/// it does so of what leaves by the ports that lead to routers. So it is with a copy that comes into the switch, with a packet that comes in at a port, which
/// is its visit, and with one that comes out of a tunnel, which is its arrival.
pub fn switches_lead_on()
    ensures sends { SendingOnLaw }
    ensures enters { ThroughSwitchLaw }
    ensures visits { VisitOnLaw }
    ensures arrives { ArrivingOnLaw }
{
    switch_pipelines();
}

/// So it is where no port of the switch leads to a router; and a whole walk tells just that.
pub fn switch_passes()
    ensures sends { SendingLaw }
    ensures visits { VisitLaw }
    ensures arrives { ArrivingLaw }
    ensures whole { WholeWalkLaw }
{
    switches_lead_on();
}
