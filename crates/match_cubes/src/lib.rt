//! Matches as cubes of packets with their registers: when a match holds, its cubes, and its width.
#![tactic(auto)]

mod asked;
pub mod cubes;
pub mod fault;
mod inwards;
pub mod laws;
mod meet;
mod points;
mod ranges;
pub mod sets;
pub mod ternary;
pub mod width;
