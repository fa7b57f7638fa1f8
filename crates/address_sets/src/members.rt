//! The members of address sets and port groups.
ghost use Rattle.std.specs.Prelude.{◌≡◌, List};

use nb_records::rule::{AddressSet, PortGroup};
use ovn_base::address::SetEntry;
use ovn_base::name::Name;

// A record that stands for its members.
pub(crate) trait HasMembers {
    type Member: Eq + Copy + Drop;

    ghost members: { Self → List Self.Member };

    // In the order in which they were given.
    fn members(&self) -> &[Self::Member]
        ensures { result.now ≡ members self.now };
}

impl HasMembers for AddressSet {
    type Member = SetEntry;

    ghost members = { λ s. s.addresses };

    fn members(&self) -> &[SetEntry] {
        self.addresses.as_slice()
    }
}

impl HasMembers for PortGroup {
    type Member = Name;

    ghost members = { λ g. g.ports };

    fn members(&self) -> &[Name] {
        self.ports.as_slice()
    }
}
