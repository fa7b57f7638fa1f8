//! Laws of rows, each on a function that does nothing: call it, and its clause is a fact of the call.
ghost use Rattle.stage_rows.specs.Reads as spec;

/// A unit that two networks have, and of which all facts that it reads have the same values in both, reads the same facts in both,
/// and has the same rows.
#[tactic(auto, using(crate::proofs::ReadsLaws::reads_law))]
pub fn reads_law()
    ensures { spec.ReadsLaw }
{}
