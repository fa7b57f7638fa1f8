//! Tests of the rows of switches and of their ports, as the tables of stages write them.
#![tactic(auto)]

pub mod lines;
#[cfg(test)]
mod tests;
