//! The priorities of flows. Of two rows of one table that both match, the one with the greater priority is taken.

/// What a packet meets where nothing else matches.
pub const BASE_PRIORITY: u16 = 0;

/// Ports and groups at home here and elsewhere, in the tables around the pipelines.
pub const PHYSICAL_PRIORITY: u16 = 100;
