//! Rows of routers, each on a function that does nothing: its clauses say that the definitions come to the row's lines.
ghost use Rattle.model_rows.specs.Frames.{AreFramesOf};
ghost use Rattle.model_rows.specs.Play.{ComesOut};
ghost use Rattle.model_rows.specs.Routers as row;

/// The packets of these rows have the frames that the rows write.
#[tactic(auto, using(crate::proofs::RouterRows::frames))]
pub fn frames()
    ensures { AreFramesOf row.router_frames }
{}

/// A packet goes round between two routers until its passes are used up, and nowhere without a route.
#[tactic(auto, using(crate::proofs::RouterRows::hop_limit, crate::proofs::RouterRows::no_route))]
pub fn ways()
    ensures hop_limit { ComesOut row.hop_limit }
    ensures no_route { ComesOut row.no_route }
{}

/// A gateway router translates sources, with other ports where they clash, and destinations.
#[tactic(auto, using(crate::proofs::RouterRows::snat_row, crate::proofs::RouterRows::dnat_row, crate::proofs::RouterRows::no_free_port))]
pub fn translations()
    ensures snat { ComesOut row.snat_row }
    ensures dnat { ComesOut row.dnat_row }
    ensures no_free_port { ComesOut row.no_free_port }
{}
