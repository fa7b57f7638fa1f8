//! The match language of rules and flows: texts as expressions, and expressions as texts.
#![tactic(auto)]

mod constant;
mod cursor;
pub mod exact;
pub mod expr;
pub mod fault;
pub mod field;
pub mod prefix;
pub mod printer;
pub mod reader;
mod token;
mod value;
