//! Values under masks.
ghost use Rattle.std.specs.Prelude.{◌≡◌, ◌≤◌, ◌<◌, ◌++◌, OnOk};
ghost use Rattle.std.specs.Int.{bit_at};
ghost use Rattle.match_cubes.specs.Ternary as spec;

use crate::meet::Meet;
use inet_packet::cube::Bits;
use ovn_base::list::List;
use ovn_base::memory::NoMemory;

/// The number in the bits of the mask.
pub(crate) fn under(number: u64, mask: u64) -> Bits
    ensures { result ≡ spec.under number mask }
{
    Bits {
        value: number & mask,
        mask,
    }
}

/// Whether the bits that count in both have one value.
pub fn agree(a: &Bits, b: &Bits) -> bool
    ensures { result ≡ spec.agree a.now b.now }
{
    a.value & b.mask == b.value & a.mask
}

/// What both ask for: the bits that count in either.
pub fn both_bits(a: &Bits, b: &Bits) -> Bits
    ensures { result ≡ spec.both_bits a.now b.now }
{
    Bits {
        value: a.value | b.value,
        mask: a.mask | b.mask,
    }
}

impl Meet for Bits {
    ghost both = { spec.meet_bits };

    fn meet(&self, other: &Bits) -> Option<Bits> {
        if agree(self, other) {
            Some(both_bits(self, other))
        } else {
            None
        }
    }
}

/// The bit at the place.
pub(crate) fn bit(number: u64, place: u32) -> u64
    requires { place < 64 }
    ensures { result ≡ bit_at number place }
{
    number >> place & 1
}

/// Adds each of the lowest bits that counts, alone and turned.
#[tactic(auto, using(crate::proofs::Shifts::turned_start, crate::proofs::Shifts::turned_next, crate::proofs::Shifts::turned_same))]
pub(crate) fn push_turned(width: u32, bits: &Bits, out: &mut List<Bits>) -> Result<(), NoMemory>
    requires { width ≤ 48 }
    ensures { OnOk result (out.new ≡ out.old ++ spec.turned_bits width bits.now) }
{
    for place in 0..width {
        if bit(bits.mask, place) == 1 {
            out.push(Bits {
                value: (1 - bit(bits.value, place)) << place,
                mask: 1 << place,
            })?;
        }
    }
    Ok(())
}
