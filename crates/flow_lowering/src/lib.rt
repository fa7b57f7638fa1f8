//! Logical flows as flows of tables: one for each cube of what they match on a datapath, with keys in place of names.
#![tactic(auto)]

pub mod laws;
pub mod lower;
mod registers;
