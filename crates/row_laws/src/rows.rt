//! The law of a row, on functions that do nothing: call one, and its clauses are facts of the call.
ghost use Rattle.row_laws.specs.BestRow as spec;
ghost use Rattle.row_laws.specs.CanLower.{CanLowerLaw, NarrowLaw, NamedPortsLaw};
ghost use Rattle.row_laws.specs.Numbers.{PortStandsLaw, NoneStandsLaw};
ghost use Rattle.row_laws.specs.ProperRows.{ProperRowsLaw};

/// Of a table that holds the rows of a network, the flow that a packet takes comes from a row of its datapath that holds and that no row
/// which holds outranks, and does what that does. Some flow matches exactly where some row holds.
pub fn best_row()
    ensures best { spec.BestRowLaw }
    ensures some { spec.SomeMatchesLaw }
    ensures none { spec.NoneMatchesLaw }
{}

/// The rows of valid records can be lowered, where each datapath of the records has a live key: the values of their matches stand with
/// their fields.
pub fn rows_can_be_lowered()
    ensures { CanLowerLaw }
{}

/// No match of a row of valid records has more cubes than a match may have.
pub fn rows_are_narrow()
    ensures { NarrowLaw }
{}

/// The flows to which rows of valid records are lowered go on at later tables alone, and set each register to a number that lies within it.
pub fn lowered_rows_are_proper()
    ensures { ProperRowsLaw }
{}

/// Each port to which a row of valid records sends has a live key, where each datapath and port of the records has one.
pub fn named_ports_are_live()
    ensures { NamedPortsLaw }
{}

/// In a register, the live key of a switch's port stands for that port, and what is no key of a port for none.
pub fn numbers_stand_for_ports()
    ensures port { PortStandsLaw }
    ensures none { NoneStandsLaw }
{}
