//! Laws of rows and stages, over definitions alone: which row is taken is told in names, and it does what the network says.
#![tactic(auto)]

pub mod anywhere;
pub mod routers;
pub mod rows;
pub mod stages;
pub mod translating;
