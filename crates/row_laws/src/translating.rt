//! The laws of the stages of any router, be it one that translates or not, on functions that do nothing: call one, and its clause is a fact
//! of the call.
ghost use Rattle.row_laws.specs.AgreeTranslating.{AnyRouterAgreesAnywhereLaw};
ghost use Rattle.row_laws.specs.routers.RouterLaws.{OfEachRouterStage};
ghost use Rattle.row_laws.specs.routers.TranslatingLaws as spec;

/// In each stage an unbeaten row that holds of a packet has exactly the actions that the network tells, also of the stages of NAT: what is
/// looked up, undone, translated and dropped.
pub fn taken_rows_of_any_router()
    ensures { OfEachRouterStage spec.AnyRouterStageLaw }
{}

/// Two unbeaten rows that hold of one packet have equal actions.
pub fn rows_of_any_router_agree()
    ensures { OfEachRouterStage spec.AnyRouterAgreeLaw }
{}

/// In numbers: a table that holds the rows has a flow for each packet on a router, and each that may be taken does what the network tells.
pub fn tables_of_any_router_do_so()
    ensures { OfEachRouterStage spec.AnyRouterTableLaw }
{}

/// On a router that translates nothing this is what is told of such routers.
pub fn plain_routers_translate_nothing()
    ensures { OfEachRouterStage spec.PlainActionsLaw }
{}

/// In each stage of a router two unbeaten rows that hold of one packet have equal actions, whatever its registers, the port at which it came
/// in and the one by which it leaves.
pub fn any_router_agrees()
    ensures { OfEachRouterStage AnyRouterAgreesAnywhereLaw }
{}
