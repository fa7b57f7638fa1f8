//! The laws of the stages of a switch, on functions that do nothing: call one, and its clauses are facts of the call.
ghost use Rattle.row_laws.specs.Passages.{PassLaw};
ghost use Rattle.row_laws.specs.StageLaws as spec;
ghost use Rattle.row_laws.specs.Ways.{EnterLaw, TargetLaw, ExitLaw};

/// In each stage an unbeaten row that holds of a packet has exactly the actions that the network tells: its causes to
/// drop, what it tracks, its verdicts and connections, its answers and its targets.
pub fn taken_rows()
    ensures { spec.OfEachStage spec.StageLaw }
{}

/// In each stage some row holds of every packet on a switch.
pub fn some_row_holds()
    ensures { spec.OfEachStage spec.BaseLaw }
{}

/// Two unbeaten rows that hold of one packet have equal actions.
pub fn rows_agree()
    ensures { spec.OfEachStage spec.AgreeLaw }
{}

/// In numbers: a table that holds the rows has a flow for each packet on a switch, and each that may be taken does what the network tells.
pub fn tables_do_so()
    ensures { spec.OfEachStage spec.TableLaw }
{}

/// What the network tells of the stages of state, carried out on a port's connections, is what the model says of a packet that passes the
/// port.
pub fn state_stages_let_pass()
    ensures { PassLaw }
{}

/// So the stages of a switch, one after another, let packets in, find their targets and let them out as the model says.
pub fn stages_are_the_way()
    ensures in_as_told { EnterLaw }
    ensures target { TargetLaw }
    ensures out_as_told { ExitLaw }
{}
