//! The northbound records, each kind in order of name, and what follows from them.
#![tactic(auto)]

pub mod addresses;
pub mod answers;
pub mod balancer;
pub mod change;
pub mod exact;
pub mod kinds;
pub mod record;
pub mod records;
pub mod references;
pub mod router;
pub mod rule;
pub mod scopes;
pub mod switch;
