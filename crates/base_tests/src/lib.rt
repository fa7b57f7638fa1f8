//! Tests of `ovn_base`.
#![tactic(auto)]

#[cfg(test)]
mod addresses;
#[cfg(test)]
mod lines;
#[cfg(test)]
mod lists;
#[cfg(test)]
mod names;
#[cfg(test)]
mod sinks;
