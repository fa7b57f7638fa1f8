//! What the rows follow from, read from the records.
pub(crate) mod exits;
pub(crate) mod gateways;
