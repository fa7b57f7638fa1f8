//! Takes packets through the tables of a chassis.
#![tactic(auto)]

pub mod actions;
pub mod carried;
mod commits;
pub mod effect;
pub mod engine;
mod headers;
pub mod laws;
mod registers;
mod tracking;
pub mod walk;
pub mod zones;
