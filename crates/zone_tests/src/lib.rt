//! Tests of homes and zone numbers from outside them, with numbers that the rules of giving them come to.
#![tactic(auto)]

#[cfg(test)]
mod register;
#[cfg(test)]
mod tests;
