//! Tests of the counted store from outside it: flows of several origins, and the deltas by which they change.
#![tactic(auto)]

#[cfg(test)]
mod tests;
