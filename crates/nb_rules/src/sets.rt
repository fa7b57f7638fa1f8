//! The records as what the names of address sets and port groups stand for.
ghost use Rattle.nb_rules.specs.Widths.{members_in};

use match_cubes::sets::{SetEntry, SetSource};
use nb_records::records::Records;
use ovn_base::name::Name;

/// The address sets and port groups of the records. No look-up takes memory.
#[derive(Drop)]
pub struct RecordSets<'a>(pub &'a Records);

impl SetSource for RecordSets<'_> {
    ghost members = { λ s. members_in s.0.now };

    fn entry(&self, set: &Name, index: usize) -> Option<SetEntry> {
        match self.0.address_set(set) {
            Some(set) => set.addresses.as_slice().get(index).copied(),
            None => None,
        }
    }

    fn member(&self, group: &Name, index: usize) -> Option<&Name> {
        match self.0.port_group(group) {
            Some(group) => group.ports.as_slice().get(index),
            None => None,
        }
    }
}
