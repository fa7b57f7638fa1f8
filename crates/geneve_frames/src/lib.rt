//! Geneve frames between chassis (RFC 8926): an inner frame with its network and the keys of its in and out port.
//!
//! [`read`] tells the parts of a frame or the first fault that its bytes show, and [`write`] writes the one spelling.
#![tactic(auto)]

mod fault;
mod laws;
mod layout;
mod reading;
mod survey;
mod writing;

pub use fault::GeneveFault;
pub use laws::{one_fault, one_reading, reads_back};
pub use reading::{View, read};
pub use writing::write;
