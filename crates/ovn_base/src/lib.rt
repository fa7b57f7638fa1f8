//! The base of all crates: names and addresses, lists that contracts see as lists, and the lines of an input.
#![tactic(auto)]

pub mod address;
pub mod boxed;
pub mod counted;
pub mod delta;
pub mod equality;
pub mod limits;
pub mod line_buf;
pub mod list;
pub mod memory;
pub mod memory_sink;
pub mod memory_source;
pub mod name;
pub mod next_line;
pub mod number;
pub mod ports;
pub mod print_address;
pub mod read_address;
pub mod sink;
pub mod source;
pub mod stages;
pub mod steps;
mod window;
