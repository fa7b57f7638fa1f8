//! Tests of `chassis_sim`, over tables that no records stand behind.
#![tactic(auto)]

#[cfg(test)]
mod actions;
#[cfg(test)]
mod connections;
#[cfg(test)]
mod cubes;
#[cfg(test)]
mod frames;
#[cfg(test)]
mod packets;
#[cfg(test)]
mod sims;
#[cfg(test)]
mod zones;
