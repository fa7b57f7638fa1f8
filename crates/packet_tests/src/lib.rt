//! Frames and sums that are known from outside, read, rewritten and written.
#![tactic(auto)]

#[cfg(test)]
mod tests;
#[cfg(test)]
mod tunnels;
