//! The lines that an event writes.
#![tactic(auto)]

pub mod lines;
pub mod picks;
mod put;
pub mod refusal;
mod refusals;
