//! What the rows follow from, read from the records.
pub(crate) mod addresses;
pub mod switches;
