//! The logical flows of the network: its units, the rows of each in each stage as definitions, the facts that each reads, and the parts
//! of which rows are made.
#![tactic(auto)]

pub mod answered;
pub mod balancers;
pub mod laws;
pub mod priorities;
pub mod rows;
pub mod terms;
