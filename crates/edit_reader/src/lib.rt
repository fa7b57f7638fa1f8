//! Events, and the lines of JSON that they are read from.
#![tactic(auto)]

mod addresses;
mod changes;
pub mod event;
mod events;
mod field;
mod field_names;
mod form;
mod object;
mod operations;
pub mod read;
mod router_records;
mod switch_records;
mod values;
mod vips;
mod words;
