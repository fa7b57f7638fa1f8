//! The laws of the stages of a router, on functions that do nothing: call one, and its clauses are facts of the call.
ghost use Rattle.row_laws.specs.routers.RouterLaws as spec;
ghost use Rattle.row_laws.specs.routers.RouterNumbers.{RouterPortStandsLaw, NoRouterPortStandsLaw};
ghost use Rattle.row_laws.specs.routers.RouterThrough.{ThroughLaw, TranslatesNothingLaw, IntakeLaw};

/// In each stage an unbeaten row that holds of a packet has exactly the actions that the network tells: what is for the router and what is
/// not, its answers, its routes and its neighbours. Of the stages of NAT it says so where the router translates nothing.
pub fn taken_router_rows()
    ensures { spec.OfEachRouterStage spec.RouterStageLaw }
{}

/// In each stage some row holds of every packet on a router.
pub fn some_router_row_holds()
    ensures { spec.OfEachRouterStage spec.RouterBaseLaw }
{}

/// Two unbeaten rows that hold of one packet have equal actions.
pub fn router_rows_agree()
    ensures { spec.OfEachRouterStage spec.RouterAgreeLaw }
{}

/// In numbers: a table that holds the rows has a flow for each packet on a router, and each that may be taken does what the network tells.
pub fn router_tables_do_so()
    ensures { spec.OfEachRouterStage spec.RouterTableLaw }
{}

/// The best way of a router to a destination is the network's route to it: it leads by a port of the router to the next hop.
pub fn best_way_is_the_route()
    ensures { spec.BestWayLaw }
{}

/// In a register, the live key of a router's port stands for that port, and what is no key of a port for none.
pub fn numbers_stand_for_router_ports()
    ensures port { RouterPortStandsLaw }
    ensures none { NoRouterPortStandsLaw }
{}

/// Where a router translates nothing, its stages, one after another, take a packet through as the model says; and it has neither NAT nor a
/// balancer.
pub fn router_stages_are_the_way()
    ensures through { ThroughLaw }
    ensures translates_nothing { TranslatesNothingLaw }
    ensures intake { IntakeLaw }
{}
