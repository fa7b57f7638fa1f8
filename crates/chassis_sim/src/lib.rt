//! The chassis as they are simulated: their tables, and the frames between them.
//!
//! A [`Sim`](sim::Sim) is handed tables and no records: it takes packets and frames through whatever proper tables
//! and zones its chassis hold.
#![tactic(auto)]

pub mod change;
mod chassis;
mod copies;
mod frames;
pub mod laws;
mod names;
pub mod out;
mod passing;
pub mod sim;
pub mod underlay;
mod zones;
