//! Laws of the definitions, each on a function that does nothing: call it, and its clauses are facts of the call.
ghost use Rattle.physical_flows.specs.Around.{around_rows};
ghost use Rattle.physical_flows.specs.AroundLaws.{AroundAlikeLaw, AroundDecidedLaw, AroundProperLaw, AroundSetLaw, AroundTablesLaw, AroundUnitsLaw, UnitsOnceLaw};
ghost use Rattle.physical_flows.specs.RouterHomes.{RouterHomesFoundLaw, RouterHomesLaw, RouterHomesOrderLaw, RouterNamesLaw, ZonesFitLaw};
ghost use Rattle.physical_flows.specs.Switched.{VirtualPortsLaw};
ghost use Rattle.physical_flows.specs.Touching.{BindTouches, ChassisTouches, EditTouches};

use flow_table::exact::exact_flow;

/// All ports of switches are virtual where no router port is there for one to lead to.
pub fn ports_are_virtual()
    ensures { VirtualPortsLaw }
{}

/// Of valid records with their keys, the rows around the pipelines of all units are exactly the flows of those tables, and each flow
/// is one of them or isn't. They are proper where records have their keys and the numbers of zones are in range.
pub fn flows_around()
    ensures set { AroundSetLaw }
    ensures decided { AroundDecidedLaw }
    ensures tables { AroundTablesLaw }
    ensures proper { AroundProperLaw }
{
    exact_flow();
}

/// The units of the records alone have rows around the pipelines, and each stands once. Those of the rows that are the same on every
/// chassis don't follow from it.
pub fn units_around()
    ensures units { AroundUnitsLaw }
    ensures once { UnitsOnceLaw }
    ensures alike { AroundAlikeLaw }
{}

/// An edit of records that leaves bindings and the zones of ports as they are changes the rows around the pipelines of those units
/// alone beside which all stays, a port that is bound its own and its switch's, and a chassis that comes, on the others, those of the
/// ports that lead into another datapath and of their switches.
pub fn around_touched()
    ensures edit { EditTouches around_rows }
    ensures bind { BindTouches around_rows }
    ensures chassis { ChassisTouches around_rows }
{}

/// The homes of gateway routers are in order of name: exactly the routers whose home is one chassis, each with that, and these are the
/// ones that have connection lists. Of valid records, no chassis has more zones, of ports that are bound and of gateway routers, than
/// there are numbers.
pub fn router_homes_are()
    ensures order { RouterHomesOrderLaw }
    ensures found { RouterHomesFoundLaw }
    ensures homes { RouterHomesLaw }
    ensures names { RouterNamesLaw }
    ensures zones_fit { ZonesFitLaw }
{}
