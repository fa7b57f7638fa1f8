//! The stages of switches: a switch and a port of a switch as units of the compiler. Their rows are made stage by stage.
#![tactic(auto)]

pub mod facts;
pub mod port_unit;
mod stages;
pub mod switch_unit;
