//! The limits of a world, of an edit and of an input.

/// The most switches and routers of a world, together.
pub const MAX_DATAPATHS: usize = 1_024;

/// The most ports of a world, those of switches and of routers together.
pub const MAX_PORTS: usize = 10_000;

/// The most chassis of a world.
pub const MAX_CHASSIS: usize = 64;

/// The most rules (ACLs) of a world.
pub const MAX_ACLS: usize = 16_384;

/// The most operations of an edit.
pub const MAX_OPERATIONS: usize = 64;

/// Where so many frames wait between the chassis as an event begins, it sends none.
pub const MAX_WAITING: usize = 65_536;

/// The most frames that arrive in one event.
pub const MAX_ARRIVALS: usize = 65_536;

/// The most entries of a connection list.
pub const MAX_CONNECTIONS: usize = 65_536;

/// The most times that a copy of a packet passes into another datapath, within one entry or arrival.
pub const MAX_HOPS: u8 = 64;

/// The most levels of negations and parentheses in a match.
pub const MAX_DEPTH: u8 = 64;

/// The greatest width of a match, in cubes, and of all rules on all switches together.
pub const MAX_WIDTH: u128 = 65_536;

/// The most bytes of a line, its line feed not counted.
pub const MAX_LINE: usize = 1_048_576;

/// The number of bytes within which an input must end: 2^40.
pub const MAX_INPUT: u64 = 1_099_511_627_776;

/// The fewest bytes of a frame: those of its Ethernet header.
pub const MIN_FRAME: usize = 14;

/// The most bytes of a frame.
pub const MAX_FRAME: usize = 9_216;

/// The greatest key of a datapath, of 24 bits.
pub const MAX_DATAPATH_KEY: u32 = 16_777_215;

/// The greatest key of a port, of 15 bits.
pub const MAX_PORT_KEY: u16 = 32_767;

/// The greatest priority of a rule, of 15 bits.
pub const MAX_ACL_PRIORITY: u16 = 32_767;

/// The most seconds that pass in one event.
pub const MAX_CLOCK: u64 = 1_000_000;

/// The key of all ports of a switch.
pub const FLOOD_KEY: u16 = 32_768;

/// The key of the ports of a switch that take unknown addresses.
pub const UNKNOWN_KEY: u16 = 32_769;
