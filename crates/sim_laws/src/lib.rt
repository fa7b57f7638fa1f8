//! Laws over definitions alone: that walks through the tables of the chassis mean the logical network.
#![tactic(auto)]

pub mod end_names;
pub mod journeys;
pub mod one_count;
pub mod routers;
pub mod switches;
