//! Rows of balancers, each on a function that does nothing: its clauses say that the definitions come to the row's lines.
ghost use Rattle.model_rows.specs.Balancers as row;
ghost use Rattle.model_rows.specs.Frames.{AreFramesOf};
ghost use Rattle.model_rows.specs.Play.{ComesOut};

/// The packets of these rows have the frames that the rows write.
#[tactic(auto, using(crate::proofs::BalancerRows::frames))]
pub fn frames()
    ensures { AreFramesOf row.balancer_frames }
{}

/// A connection goes to a backend that is online, and stays with it.
#[tactic(auto, using(crate::proofs::BalancerRows::balancer_row))]
pub fn balancer()
    ensures { ComesOut row.balancer_row }
{}
