ghost use Rattle.std.specs.Prelude.{◌≡◌, ◌↔◌, ◌<◌, ◌^◌, true, IsTrue, Some, nat_eq, refl};
ghost use Rattle.std.specs.BTreeMap.{is_at};
ghost use Rattle.std.specs.Cmp.{partial_equiv_from_equiv, on_po, unsigned_po, unsigned_ties};
ghost use Rattle.std.specs.Hash as fed;
ghost use Rattle.std.specs.Hash.{same_Alike};
ghost use Rattle.std.specs.Ordering.{nat_cmp};
ghost use Rattle.std.proofs.lemmas.Cmp.{on_equiv, on_total, nat_eq_equiv, nat_cmp_total};
ghost use Rattle.ovn_base.specs.addresses.EtherAddress.{mac_number, mac_bytes, is_multicast_mac, same_ether_decides};

use std::cmp::Ordering;
use std::hash::{Hash, Hasher};
use std::marker::Model;

/// An Ethernet address, its first byte first. A contract sees its number, of 48 bits.
#[derive(Clone, Copy, Debug)]
pub struct Mac(pub [u8; 6]);

impl Model for Mac {
    ghost use Rattle.ovn_base.specs.addresses.EtherAddress.{EtherAddress, ether_code, mac_of_bytes};

    ghost Value = { EtherAddress };

    ghost coded = { ether_code };

    ghost use Rattle.ovn_base.specs.addresses.SixBytes.{AreSixBytes, bytes_of, bytes_of-six};

    ghost view = { λ m. mac_of_bytes m.0 };

    ghost invariant = { AreSixBytes };

    ghost inverse = { bytes_of };

    ghost inverse_ok = { bytes_of-six };
}

impl PartialEq for Mac {
    ghost eq = { λ a b. nat_eq a.number b.number };

    ghost laws = { partial_equiv_from_equiv (on_equiv mac_number nat_eq_equiv) };

    fn eq(&self, other: &Self) -> bool {
        self.number() == other.number()
    }
}

impl Eq for Mac {
    ghost laws = { on_equiv mac_number nat_eq_equiv };
}

impl PartialOrd for Mac {
    ghost partial_cmp = { λ a b. Some (nat_cmp a.number b.number) };

    ghost laws = { on_po mac_number unsigned_po };

    fn partial_cmp(&self, other: &Self) -> Option<Ordering> {
        Some(self.cmp(other))
    }
}

impl Ord for Mac {
    ghost cmp = { λ a b. nat_cmp a.number b.number };

    ghost total = { on_total mac_number nat_cmp_total };

    ghost matches_partial_cmp = { λ a b. refl };

    ghost matches_eq = { λ a b. unsigned_ties a.number b.number };

    fn cmp(&self, other: &Self) -> Ordering {
        self.number().cmp(&other.number())
    }
}

impl Hash for Mac {
    ghost hash_input = { λ m. fed.u64 m.number };

    ghost respects_eq = { (same_Alike (λ m. fed.u64 m.number) same_ether_decides).fed };

    fn hash<H: Hasher>(&self, state: &mut H) {
        self.number().hash(state);
    }
}

/// An IPv4 address as a number, its first byte the highest.
#[derive(Clone, Copy, PartialEq, Eq, PartialOrd, Ord, Hash, Debug)]
pub struct Ip4(pub u32);

/// An IPv4 address with the length of a prefix, 0 to 32 bits.
#[derive(Clone, Copy, PartialEq, Eq, PartialOrd, Ord, Hash, Debug)]
pub struct Cidr {
    pub addr: Ip4,
    pub len: u8,
}

/// The number of the event that added a record.
#[derive(Clone, Copy, PartialEq, Eq, PartialOrd, Ord, Hash, Debug)]
pub struct Birth(pub u64);

/// A server behind a balancer: its address and its port.
#[derive(Clone, Copy, PartialEq, Eq, PartialOrd, Ord, Hash, Debug)]
pub struct Backend {
    pub ip: Ip4,
    pub port: u16,
}

/// An entry of an address set: the IPv4 addresses of a prefix, or one Ethernet address.
#[derive(Clone, Copy, PartialEq, Eq, Hash, Debug)]
pub enum SetEntry {
    Ip(Cidr),
    Ether(Mac),
}

impl Mac {
    /// The address as a number of 48 bits, its first byte the highest.
    pub fn number(&self) -> u64
        ensures number { result ≡ self.now.number }
        ensures below { result < 2 ^ 48 }
    {
        let [a, b, c, d, e, f] = self.0;
        u64::from_be_bytes([0, 0, a, b, c, d, e, f])
    }

    /// The six bytes of the address, the first the highest.
    pub fn bytes(&self) -> [u8; 6]
        ensures { result ≡ mac_bytes self.now }
    {
        self.0
    }

    /// Whether the address is one of a group, broadcast among them: the lowest bit of its first byte (IEEE 802-2014 section 8.2).
    pub fn is_multicast(&self) -> bool
        ensures { result ≡ is_multicast_mac self.now }
    {
        self.number() >> 40 & 1 == 1
    }

    /// Whether all bytes are 0.
    pub fn is_zero(&self) -> bool
        ensures { IsTrue result ↔ (self.now.number ≡ 0) }
    {
        self.number() == 0
    }
}

/// Equal Ethernet addresses are the same, by `==`, by their order and by a clone.
pub fn exact_mac()
    ensures equal { (a b : Mac) → (⟦<Mac as PartialEq>⟧.eq a b ≡ true) ↔ (a ≡ b) }
    ensures order { (a b : Mac) → (is_at (⟦<Mac as Ord>⟧.cmp a) b ≡ true) ↔ (a ≡ b) }
    ensures clone { (a b : Mac) → ⟦<Mac as Clone>⟧.is_clone a b → b ≡ a }
{}

/// Equal IPv4 addresses are the same, by `==`, by their order and by a clone.
pub fn exact_ip4()
    ensures equal { (a b : Ip4) → (⟦<Ip4 as PartialEq>⟧.eq a b ≡ true) ↔ (a ≡ b) }
    ensures order { (a b : Ip4) → (is_at (⟦<Ip4 as Ord>⟧.cmp a) b ≡ true) ↔ (a ≡ b) }
    ensures clone { (a b : Ip4) → ⟦<Ip4 as Clone>⟧.is_clone a b → b ≡ a }
{}

/// Equal prefixes are the same, by `==`, by their order and by a clone.
pub fn exact_cidr()
    ensures equal { (a b : Cidr) → (⟦<Cidr as PartialEq>⟧.eq a b ≡ true) ↔ (a ≡ b) }
    ensures order { (a b : Cidr) → (is_at (⟦<Cidr as Ord>⟧.cmp a) b ≡ true) ↔ (a ≡ b) }
    ensures clone { (a b : Cidr) → ⟦<Cidr as Clone>⟧.is_clone a b → b ≡ a }
{}

/// Equal births are the same, by `==`, by their order and by a clone.
pub fn exact_birth()
    ensures equal { (a b : Birth) → (⟦<Birth as PartialEq>⟧.eq a b ≡ true) ↔ (a ≡ b) }
    ensures order { (a b : Birth) → (is_at (⟦<Birth as Ord>⟧.cmp a) b ≡ true) ↔ (a ≡ b) }
    ensures clone { (a b : Birth) → ⟦<Birth as Clone>⟧.is_clone a b → b ≡ a }
{}

/// Equal backends are the same, by `==`, by their order and by a clone.
pub fn exact_backend()
    ensures equal { (a b : Backend) → (⟦<Backend as PartialEq>⟧.eq a b ≡ true) ↔ (a ≡ b) }
    ensures order { (a b : Backend) → (is_at (⟦<Backend as Ord>⟧.cmp a) b ≡ true) ↔ (a ≡ b) }
    ensures clone { (a b : Backend) → ⟦<Backend as Clone>⟧.is_clone a b → b ≡ a }
{}

/// Equal entries of address sets are the same, by `==` and by a clone.
pub fn exact_set_entry()
    ensures equal { (a b : SetEntry) → (⟦<SetEntry as PartialEq>⟧.eq a b ≡ true) ↔ (a ≡ b) }
    ensures clone { (a b : SetEntry) → ⟦<SetEntry as Clone>⟧.is_clone a b → b ≡ a }
{
    exact_cidr();
    exact_mac();
}
