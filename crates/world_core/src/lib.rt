//! The network as a whole: its events taken through records, keys and tables, and its packets through the simulated chassis.
#![tactic(auto)]

mod crossing_names;
mod frames;
pub mod one_run;
mod packet_event;
pub mod world;
