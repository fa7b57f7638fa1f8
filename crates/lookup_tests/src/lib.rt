//! Tests of what holds flows, the list and the classifier by masks, from outside them.
#![tactic(auto)]

#[cfg(test)]
mod flows;
#[cfg(test)]
mod tests;
#[cfg(test)]
mod whole_list;
