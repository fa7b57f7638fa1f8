//! Laws of `==` and of clones of packets and cubes, each on a function that does nothing: call it, and its clause is a
//! fact of the call. And copies, which are equal.
ghost use Rattle.std.specs.Prelude.{◌≡◌, ◌↔◌, true, IfOk};

use crate::cube::{Bits, Cube};
use crate::packet::{Arp, Body, Ip4Packet, Packet, Part};
use crate::regs::{At, Reg, RegFlags};
use ovn_base::equality::equal_where_same;
use ovn_base::memory::NoMemory;

impl Packet {
    /// An equal packet in memory of its own.
    pub fn copy(&self) -> Result<Packet, NoMemory>
        ensures { IfOk result (λ p. p ≡ self.now) }
    {
        Ok(Packet {
            dst: self.dst,
            src: self.src,
            body: self.body.copy()?,
            tail: self.tail.copy()?,
        })
    }
}

impl Body {
    fn copy(&self) -> Result<Body, NoMemory>
        ensures { IfOk result (λ b. b ≡ self.now) }
    {
        match self {
            Body::Arp(arp) => Ok(Body::Arp(*arp)),
            Body::Ip4(packet) => Ok(Body::Ip4(packet.copy()?)),
            Body::Other { ether_type } => Ok(Body::Other {
                ether_type: *ether_type,
            }),
        }
    }
}

impl Ip4Packet {
    fn copy(&self) -> Result<Ip4Packet, NoMemory>
        ensures { IfOk result (λ p. p ≡ self.now) }
    {
        Ok(Ip4Packet {
            tos: self.tos,
            total: self.total,
            ident: self.ident,
            frag: self.frag,
            ttl: self.ttl,
            proto: self.proto,
            sum: self.sum,
            src: self.src,
            dst: self.dst,
            options: self.options.copy()?,
            part: self.part,
        })
    }
}

/// Entries are equal exactly where they are the same.
pub fn exact_at()
    ensures { (a b : At) → (⟦<At as PartialEq>⟧.eq a b ≡ true) ↔ (a ≡ b) }
{}

/// Flags are equal exactly where they are the same.
pub fn exact_reg_flags()
    ensures { (a b : RegFlags) → (⟦<RegFlags as PartialEq>⟧.eq a b ≡ true) ↔ (a ≡ b) }
{}

/// Registers are equal exactly where they are the same.
pub fn exact_reg()
    ensures { (a b : Reg) → (⟦<Reg as PartialEq>⟧.eq a b ≡ true) ↔ (a ≡ b) }
{}

/// Values with their masks are equal exactly where they are the same.
pub fn exact_bits()
    ensures { (a b : Bits) → (⟦<Bits as PartialEq>⟧.eq a b ≡ true) ↔ (a ≡ b) }
{}

/// Cubes are equal exactly where they are the same.
pub fn exact_cube()
    ensures { (a b : Cube) → (⟦<Cube as PartialEq>⟧.eq a b ≡ true) ↔ (a ≡ b) }
{
    exact_at();
    exact_bits();
    equal_where_same::<Cube>();
}

/// A clone of a cube is the cube.
pub fn exact_cube_clone()
    ensures { (a b : Cube) → ⟦<Cube as Clone>⟧.is_clone a b → b ≡ a }
{}

/// Fields of ARP packets are equal exactly where they are the same.
pub fn exact_arp()
    ensures { (a b : Arp) → (⟦<Arp as PartialEq>⟧.eq a b ≡ true) ↔ (a ≡ b) }
{
    equal_where_same::<Arp>();
}

/// Transport headers are equal exactly where they are the same.
pub fn exact_part()
    ensures { (a b : Part) → (⟦<Part as PartialEq>⟧.eq a b ≡ true) ↔ (a ≡ b) }
{}

/// IPv4 packets are equal exactly where they are the same.
pub fn exact_ip4_packet()
    ensures { (a b : Ip4Packet) → (⟦<Ip4Packet as PartialEq>⟧.eq a b ≡ true) ↔ (a ≡ b) }
{
    exact_part();
    equal_where_same::<Ip4Packet>();
}

/// Bodies are equal exactly where they are the same.
pub fn exact_body()
    ensures { (a b : Body) → (⟦<Body as PartialEq>⟧.eq a b ≡ true) ↔ (a ≡ b) }
{
    exact_arp();
    exact_ip4_packet();
    equal_where_same::<Body>();
}

/// Packets are equal exactly where they are the same.
pub fn exact_packet()
    ensures { (a b : Packet) → (⟦<Packet as PartialEq>⟧.eq a b ≡ true) ↔ (a ≡ b) }
{
    exact_body();
    equal_where_same::<Packet>();
}
