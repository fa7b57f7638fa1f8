//! Laws of lowered flows, each on a function that does nothing: call it, and its clause is a fact of the call.
ghost use Rattle.flow_lowering.specs.LoweringLaw as spec;

/// Some lowered flow matches a packet with its registers exactly where the logical flow does on the datapath: the packet is on it,
/// each register that the logical flow asks for has the number, and its matching holds.
#[tactic(auto, using(crate::proofs::LoweringLaws::matches_alike))]
pub fn matches_alike()
    ensures { spec.MatchesAlike }
{}

/// Each lowered flow stands in the logical flow's table, has its priority and its rank, and does what it does.
pub fn each_is_lowered()
    ensures { spec.EachIsLowered }
{}
