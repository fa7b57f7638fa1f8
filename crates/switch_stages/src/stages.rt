//! The rows of switches and of their ports, a file for each group of stages.
pub(crate) mod admit;
pub(crate) mod arp;
pub(crate) mod lookup;
pub(crate) mod port_security;
pub(crate) mod security_out;
pub(crate) mod state;
pub(crate) mod track;
