//! Which ports are picked for new connections.

/// The least port that is picked: lesser ones are those of servers.
pub const FIRST_PORT: u16 = 1_024;

/// The greatest port that is picked.
pub const LAST_PORT: u16 = 65_535;

/// What is learnt about held ports is kept for so many ports together, from a multiple of this number on.
pub const BLOCK_PORTS: u32 = 256;

/// How many ports there are: what is learnt is kept for all of them together, too.
pub const ALL_PORTS: u32 = 65_536;
