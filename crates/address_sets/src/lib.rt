//! The address sets and port groups of the records, as matches read them, and which of them differ between two states of the
//! records.
#![tactic(auto)]

pub mod changed;
pub mod expand;
pub mod laws;
mod members;
