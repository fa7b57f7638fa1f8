//! Logical flows: the rows of the stages that a packet passes in a switch or router, with names in place of keys, the units of the
//! network that have them, and their texts.
#![tactic(auto)]

pub mod action;
pub mod exact;
pub mod fact;
pub mod flow;
pub mod print_action;
pub mod print_flow;
pub mod print_match;
pub mod stage;
pub mod stage_unit;
pub mod unit;
mod words;
