//! Tests that public calls which may want memory succeed where there is enough, of calls that no other test makes: what address
//! sets stand for, the logical flows of a network and what an edit makes of them, copies, and texts of matches and actions.
#![tactic(auto)]

#[cfg(test)]
mod compiler;
#[cfg(test)]
mod copies;
#[cfg(test)]
mod edits;
#[cfg(test)]
mod pairs;
#[cfg(test)]
mod sets;
#[cfg(test)]
mod texts;
