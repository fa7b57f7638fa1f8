//! How long connections last that aren't used.

/// How long a TCP connection lasts that isn't used, in seconds.
pub const TCP_IDLE: u64 = 300;

/// How long a UDP connection lasts that isn't used, in seconds.
pub const UDP_IDLE: u64 = 60;

/// How long any other connection lasts that isn't used, in seconds.
pub const OTHER_IDLE: u64 = 30;
