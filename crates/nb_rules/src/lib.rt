//! What valid records are, and the first rule that records break.
#![tactic(auto)]

pub mod addresses;
pub mod check;
mod claims;
pub mod fault;
mod first;
mod gateways;
mod holders;
pub mod laws;
mod least;
mod peers;
mod prefixes;
mod references;
pub mod sets;
mod shared;
mod vips;
mod widths;
