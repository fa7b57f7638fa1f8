//! Tests of `event_lines`.
#![tactic(auto)]

#[cfg(test)]
mod tests;
