//! The flows of a chassis in hash maps, by the fields that they ask for.
#![tactic(auto)]

mod bucket;
mod buckets;
mod fields;
mod line;
mod marks;
mod mask;
mod masks;
mod number;
mod place;
mod sieve;
mod sieves;
pub mod space;
mod turn;
mod turn_list;
mod turns;
