//! The logical network: where a packet goes in it, what it leaves behind, and what events make of its state.
#![tactic(auto)]

pub mod crossing;
pub mod hops;
pub mod laws;
pub mod neighbours;
