//! Rows that agree wherever a packet is, on functions that do nothing: call one, and its clause is a fact of the call.
ghost use Rattle.row_laws.specs.AgreeAnywhere.{AgreeAnywhereLaw, FlowsAgreeLaw};
ghost use Rattle.row_laws.specs.StageLaws.{OfEachStage};

/// In each stage of a switch two unbeaten rows that hold of one packet have equal actions, whatever its registers, the port at which it came in and
/// its target.
pub fn rows_agree()
    ensures { OfEachStage AgreeAnywhereLaw }
{}

/// So in numbers, whether routers translate or not: two flows of a stage's table that may be taken have equal actions, whatever the
/// packet and whatever the registers. No cube asks for a bit above its field.
pub fn flows_agree()
    ensures { OfEachStage FlowsAgreeLaw }
{}
