//! The stages of NAT: a row of NAT as a unit of the compiler.
#![tactic(auto)]

pub mod nat_unit;
