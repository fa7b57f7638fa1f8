//! The stages of load balancers: a balancer on a switch or router as a unit of the compiler.
#![tactic(auto)]

pub mod balancer_unit;
mod vip_rows;
