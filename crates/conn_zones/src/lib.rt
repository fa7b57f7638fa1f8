//! Zones of connection lists: where ports and gateway routers are at home, and the numbers of their zones there.
#![tactic(auto)]

pub mod change;
mod giving;
pub mod homes;
mod keeping;
pub mod laws;
mod moving;
mod name_map;
pub mod numbers;
pub mod zones;
