//! Tests of lists of connections from outside them: tuples of frames, connections both ways, their ends, ports that are picked, and
//! frames before and after translation.
#![tactic(auto)]

#[cfg(test)]
mod frames;
#[cfg(test)]
mod lists;
#[cfg(test)]
mod ports;
#[cfg(test)]
mod tables;
#[cfg(test)]
mod tracker;
#[cfg(test)]
mod tuples;
