//! Tests of the records from outside them, over a gateway router whose answers are known.
#![tactic(auto)]

#[cfg(test)]
mod tests;
