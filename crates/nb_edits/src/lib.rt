//! Edits that are all or none: what is wrong with an edit, and what it leaves.
#![tactic(auto)]

mod born;
mod change;
mod direction;
pub mod edit;
pub mod laws;
pub mod marks;
mod operate;
mod owners;
pub mod plan;
