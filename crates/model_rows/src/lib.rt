//! Rows whose lines are known from outside, computed from the definitions of the logical network; and tests of next hops and neighbours.
#![tactic(auto)]

pub mod arrivals;
pub mod balancers;
#[cfg(test)]
mod neighbours;
pub mod routers;
pub mod rules;
pub mod switch;
