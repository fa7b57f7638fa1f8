//! The flows of the tables around the pipelines of a chassis: what the records, the keys and the homes of ports make of them.
#![tactic(auto)]

mod beyond;
pub mod compile;
pub mod laws;
mod place;
mod priorities;
mod rows;
pub mod unit;
pub mod unit_flows;
