//! Address sets and port groups, by their names.
ghost use Rattle.std.specs.Prelude.{◌≡◌, ◌<◌, ◌^◌, IfOk, length, slice_get, option_copied};
ghost use Rattle.match_cubes.specs.Points as spec;

pub use ovn_base::address::SetEntry;
use ovn_base::list::List;
use ovn_base::memory::NoMemory;
use ovn_base::name::Name;

/// What the names of address sets and port groups stand for.
#[derive(Clone, PartialEq, Eq, Hash, Debug, Drop)]
pub struct Sets {
    /// Address sets, each with its entries.
    pub addresses: List<(Name, List<SetEntry>)>,
    /// Port groups, each with the names of its ports.
    pub groups: List<(Name, List<Name>)>,
}

/// Where the names of address sets and port groups are looked up. No look-up takes memory.
pub trait SetSource {
    ghost use Rattle.match_cubes.specs.Points.{Members};

    ghost members: { Self → Members };

    /// The entry of the address set at the index.
    fn entry(&self, set: &Name, index: usize) -> Option<SetEntry>
        ensures value { result ≡ slice_get ((members self.now).entries set.now) index }
        ensures few { length ((members self.now).entries set.now) < 2 ^ 64 };

    /// The port of the group at the index.
    fn member(&self, group: &Name, index: usize) -> Option<&Name>
        ensures value { option_copied result ≡ slice_get ((members self.now).ports group.now) index }
        ensures few { length ((members self.now).ports group.now) < 2 ^ 64 };
}

/// What stands at the name, first of all.
#[tactic(auto, unfolding(crate::specs::Points::named))]
pub(crate) fn named<'a, T>(entries: &'a [(Name, T)], text: &[u8]) -> Option<&'a T>
    ensures { option_copied result ≡ spec.named entries.now text.now }
{
    for (name, value) in entries {
        if name.text() == text {
            return Some(value);
        }
    }
    None
}

impl Sets {
    /// Equal sets in memory of their own.
    pub fn copy(&self) -> Result<Sets, NoMemory>
        ensures { IfOk result (λ s. s ≡ self.now) }
    {
        Ok(Sets {
            addresses: self.addresses.copy()?,
            groups: self.groups.copy()?,
        })
    }

    /// The entries of the address set; none where no set has the name.
    pub fn entries(&self, set: &Name) -> &[SetEntry]
        ensures { result.now ≡ (spec.members_of self.now).entries set.now }
    {
        match named(self.addresses.as_slice(), set.text()) {
            Some(entries) => entries.as_slice(),
            None => &[],
        }
    }

    /// The ports of the group; none where no group has the name.
    pub fn ports(&self, group: &Name) -> &[Name]
        ensures { result.now ≡ (spec.members_of self.now).ports group.now }
    {
        match named(self.groups.as_slice(), group.text()) {
            Some(ports) => ports.as_slice(),
            None => &[],
        }
    }
}

impl SetSource for Sets {
    ghost members = { spec.members_of };

    fn entry(&self, set: &Name, index: usize) -> Option<SetEntry> {
        self.entries(set).get(index).copied()
    }

    fn member(&self, group: &Name, index: usize) -> Option<&Name> {
        self.ports(group).get(index)
    }
}
