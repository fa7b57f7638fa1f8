//! Tests of the rules on records and of edits from outside them, with edits as lines spell them and faults in words.
#![tactic(auto)]

#[cfg(test)]
mod edits;
#[cfg(test)]
mod limits;
#[cfg(test)]
mod lines;
#[cfg(test)]
mod rules;
