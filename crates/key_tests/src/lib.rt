//! Tests of the key store from outside it, of what no clause says: that there are plans where memory is, and which key is taken.
#![tactic(auto)]

pub mod register;
#[cfg(test)]
mod tests;
