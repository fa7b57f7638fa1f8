//! Connections: the tuples of packets, and lists of the connections that were seen.
#![tactic(auto)]

pub mod connection;
pub mod held_ports;
pub mod idle;
pub mod ports;
pub mod rewrite;
pub mod tuple;
pub mod zone;
