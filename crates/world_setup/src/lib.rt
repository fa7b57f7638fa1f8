//! What a turn of the configuration makes of records, keys, zones and the flows of each chassis: all of it is prepared, and then applied.
#![tactic(auto)]

mod backends;
mod built;
mod edited;
pub mod ground;
pub mod held;
mod homes;
pub mod setup;
mod stores;
pub mod turn_event;
