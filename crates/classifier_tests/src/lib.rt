//! Tests that it doesn't show which classifier holds the flows of the chassis.
#![tactic(auto)]

#[cfg(test)]
mod events;
#[cfg(test)]
mod lines;
#[cfg(test)]
mod sims;
#[cfg(test)]
mod tests;
