//! The keys by which tunnelled frames name a datapath and its ports.
#![tactic(auto)]

pub mod fault;
mod free;
mod giving;
mod grouped;
pub mod laws;
pub mod owner;
mod retiring;
pub mod store;
