//! Tests of the cubes and widths of matches, over tables of matches and packets.
#![tactic(auto)]

#[cfg(test)]
mod tables;
#[cfg(test)]
mod tests;
