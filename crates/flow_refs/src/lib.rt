//! Flows that are counted by the origins from which they come.
#![tactic(auto)]

mod counting;
mod difference;
pub mod patch;
mod placing;
mod putting;
pub mod shared;

pub use ovn_base::delta::Delta;
