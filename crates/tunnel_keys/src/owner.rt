//! Who has a key.
ghost use Rattle.std.specs.Prelude.{◌≡◌};
ghost use Rattle.std.specs.Cmp.{partial_equiv_from_equiv};
ghost use Rattle.tunnel_keys.specs.Same.{same_owner, same_owner_equiv};
ghost use Rattle.tunnel_keys.specs.Owners.{is_listed};

use ovn_base::address::Birth;
use ovn_base::name::Name;

/// A record by its name and by the event that added it: one that is removed and added again is another.
#[derive(Clone, Copy, PartialEq, Eq, PartialOrd, Ord, Debug)]
pub struct Identity {
    pub name: Name,
    pub birth: Birth,
}

/// A datapath or a port that has a key, or is to have one.
#[derive(Clone, Copy, Debug)]
pub enum KeyOwner {
    /// A switch or a router.
    Datapath {
        name: Name,
        birth: Birth,
    },
    /// A port of a switch or of a router, with the name of that.
    Port {
        datapath: Name,
        name: Name,
        birth: Birth,
    },
}

impl PartialEq for KeyOwner {
    ghost eq = { same_owner };

    ghost laws = { partial_equiv_from_equiv same_owner_equiv };

    fn eq(&self, other: &Self) -> bool {
        match (self, other) {
            (KeyOwner::Datapath { name: a, birth: b }, KeyOwner::Datapath { name: c, birth: d }) =>
                *a == *c && b.0 == d.0,
            (
                KeyOwner::Port {
                    datapath: a,
                    name: b,
                    birth: c,
                },
                KeyOwner::Port {
                    datapath: d,
                    name: e,
                    birth: f,
                },
            ) => *a == *d && *b == *e && c.0 == f.0,
            _ => false,
        }
    }
}

impl Eq for KeyOwner {
    ghost laws = { same_owner_equiv };
}

/// The key of a datapath that is there. Its name stands beside it.
#[derive(Clone, Copy, PartialEq, Eq, Debug)]
pub struct DatapathKey {
    pub birth: Birth,
    pub key: u32,
}

/// The key of a port that is there, with the name of its datapath. Its own name stands beside it.
#[derive(Clone, Copy, PartialEq, Eq, Debug)]
pub struct PortKey {
    pub birth: Birth,
    pub datapath: Name,
    pub key: u16,
}

/// A key and the datapath that has or had it.
#[derive(Clone, Copy, PartialEq, Eq, PartialOrd, Ord, Debug)]
pub struct HeldDatapath {
    pub owner: Identity,
    pub key: u32,
}

/// A key, the port that has or had it, and the datapath among whose keys it is or was.
#[derive(Clone, Copy, PartialEq, Eq, PartialOrd, Ord, Debug)]
pub struct HeldPort {
    pub owner: Identity,
    pub datapath: Identity,
    pub key: u16,
}

// Whether the owner is one of them.
pub(crate) fn is_listed(owners: &[KeyOwner], owner: &KeyOwner) -> bool
    ensures { result ≡ is_listed owners.now owner.now }
{
    owners.contains(owner)
}
