//! The logical flows of the network and the flows to which they are lowered: what each unit has, held once however many units have it.
#![tactic(auto)]

mod exact;
pub mod laws;
mod listing;
pub mod lowered;
mod lowering;
mod neighbours;
pub mod northd;
mod routed;
mod rows;
pub mod touched;
mod units;
