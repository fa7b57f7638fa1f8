//! Packets, the registers that they carry through the tables, and the cubes that match both.
#![tactic(auto)]

pub mod cube;
pub mod decode;
pub mod encode;
pub mod exact;
pub mod fields;
pub mod fits;
pub mod frame;
mod frame_ip4;
mod frame_sums;
pub mod packet;
pub mod regs;
pub mod rewrite;
