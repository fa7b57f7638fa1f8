//! The flows of a chassis, and which of them a packet matches.
#![tactic(auto)]

pub mod exact;
pub mod few;
pub mod flow;
mod flow_list;
pub mod lookup;
pub mod matching;
pub mod tables;

pub use inet_packet::regs::Regs;
