//! The stages of rules: a rule on a switch as a unit of the compiler.
#![tactic(auto)]

pub mod rule_unit;
#[cfg(test)]
mod tests;
