//! Laws of records and what they are compiled with, each on a function that does nothing: call it, and its clause is a fact of the call.
ghost use Rattle.northd_core.specs.Lowering.{SetsLaw};
ghost use Rattle.northd_core.specs.Touched.{TouchedLaw};
ghost use Rattle.northd_core.specs.Untouched.{UntouchedLaw};

/// The sets with which the rows of records are lowered have the members that the records give for their names.
pub fn sets_are_of_records()
    ensures { SetsLaw }
{}

/// A unit whose reads, keys and names are the same by other records and keys is lowered to the same flows.
pub fn untouched_units_stay()
    ensures { UntouchedLaw }
{}

/// An edit leaves every unit lowered to the same flows but those that `touched_rows` lists by the ports, switches and rules that it names.
pub fn untouched_rows_stay()
    ensures { TouchedLaw }
{}
