//! Tests of lowering, with keys that are looked up: that flows are lowered where memory is, and which.
#![tactic(auto)]

#[cfg(test)]
mod rows;
#[cfg(test)]
mod tests;
