//! Tests of `switch_engine`, over tables that they make themselves.
#![tactic(auto)]

#[cfg(test)]
mod actions;
#[cfg(test)]
mod connections;
#[cfg(test)]
mod full;
#[cfg(test)]
mod groups;
#[cfg(test)]
mod hops;
pub mod packets;
pub mod proper;
pub mod rows;
#[cfg(test)]
mod strays;
#[cfg(test)]
mod tables;
