//! The laws of routers, be they ones that translate or not, each on a function that does nothing: call it, and its clauses are facts of the call.
ghost use Rattle.sim_laws.specs.routers.Passing.{JourneysPassLaw};
ghost use Rattle.sim_laws.specs.routers.Patches.{PatchLaw};
ghost use Rattle.sim_laws.specs.routers.RouterPass.{RouterPassLaw};
ghost use Rattle.sim_laws.specs.routers.RouterStanding.{FirstRouterTableLaw};
ghost use Rattle.sim_laws.specs.routers.RouterWays.{RouterEgressLaw, RouterIngressLaw, RouterWayLaw};
ghost use Rattle.sim_laws.specs.routers.TranslatingLists.{UndoesLaw, DnatLaw, SeeksLaw, SnatLaw};

use row_laws::routers::router_stages_are_the_way;
use row_laws::translating::tables_of_any_router_do_so;

/// What the actions of the stages of NAT do with a copy and the router's connection lists, in whatever row they stand, is what the network says of the
/// packet: a translation of its source is undone, its destination is translated, and, where it leaves, its source. The zones hold the network's lists
/// after it as before.
pub fn router_lists_translate()
    ensures undoes { UndoesLaw }
    ensures destinations { DnatLaw }
    ensures seeks { SeeksLaw }
    ensures sources { SnatLaw }
{}

/// Whatever walk takes on a copy through the tables of a router's pipelines does what the network says: the copy is answered, translated, routed or
/// dropped, and comes to the output by the port of its way. It stands before the first table of all with the keys of its router and its port.
pub fn router_pipelines()
    ensures first { FirstRouterTableLaw }
    ensures in_as_told { RouterIngressLaw }
    ensures out_as_told { RouterEgressLaw }
    ensures whole { RouterWayLaw }
{
    tables_of_any_router_do_so();
    router_stages_are_the_way();
}

/// Whatever walk takes on a copy that is to leave by a port that leads into another datapath brings it to the first table there, with one pass more,
/// or drops it where the port has no partner or no pass is left; and a copy that goes to a port of a router that is at home on the chassis
/// comes to the output at that port, with its source translated. So, where switches do with a copy what the network says, by what becomes of
/// what leaves them, it does what the network says of its whole way, whether routers translate or not.
pub fn router_passes()
    ensures patches { PatchLaw }
    ensures through { RouterPassLaw }
    ensures on_and_on { JourneysPassLaw }
{
    router_pipelines();
}
