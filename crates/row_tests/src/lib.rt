//! The rows of small networks are the lines that the stage tables write, each on a function that does nothing; and tests of the lines
//! of flows, as the formats write them.
#![tactic(auto)]

#[cfg(test)]
mod flow_lines;
pub mod router_rows;
pub mod switch_rows;
