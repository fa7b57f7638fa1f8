//! Which masks of one table can have a flow that holds a packet.
ghost use Rattle.std.specs.Prelude.{◌≡◌, ◌<◌, ℕ, List, IfSome};
ghost use Rattle.tuple_space.specs.declared.mask.Asked.{Asked};
ghost use Rattle.tuple_space.specs.Masks.{AllFit};
ghost use Rattle.tuple_space.specs.Sieving.{HasBit, IsLet, IsLetAt, IsLetWhole, asked_value, bit_of, row_place};

use crate::marks::{bit_for, mark, word_at};
use crate::mask::{Asked, Mask};
use crate::turn::Turn;
use inet_packet::cube::Bits;
use ovn_base::memory::NoMemory;
use std::alloc::Global;

// For how many fields and bits a sieve has rows.
const MOST_ASKS: usize = 32;

/// Marks of masks, each of which has a bit. A mask is let through where it is marked, for each of the fields and bits that are asked for,
/// as one that doesn't ask for them, or in the row of the value that is there.
#[derive(Drop)]
pub struct Sieve {
    asks: Vec<Asked>,
    // For each of the asks, the masks with a flow that doesn't ask for it.
    free: Vec<u128>,
    // For each of the asks so many rows, each with the masks that have a flow which wants one of the row's values.
    rows: Vec<u128>,
    many: usize,
    // The masks with a flow.
    seen: u128,
    // How many masks the table had when the sieve was made, and how many flows more it is made for.
    masks: usize,
    left: usize,
}

// The fields and bits that the masks of the turns ask for, or the first of them.
fn asks_for(alloc: Global, masks: &[Mask], turns: &[Turn]) -> Result<Vec<Asked>, NoMemory> {
    let mut asks = Vec::new(alloc);
    for turn in turns {
        if let Some(mask) = masks.get(turn.number) {
            for asked in mask.asks.as_slice() {
                if asks.len() < MOST_ASKS && !asks.contains(asked) {
                    asks.push(*asked)?;
                }
            }
        }
    }
    Ok(asks)
}

// How many rows there are for so many flows of so many masks: a power of two, of four or more for each flow of a mask.
fn rows_for(flows: usize, masks: usize) -> usize {
    let wanted = flows.saturating_mul(4) / masks.max(1);
    for bits in 4..16u32 {
        let rows = 1 << bits;
        if wanted <= rows {
            return rows;
        }
    }
    1 << 16
}

// Where the row of the value is.
#[tactic(auto, unfolding(crate::specs::Sieving::row_place))]
fn place(ask: usize, many: usize, value: u64) -> usize
    ensures { result ≡ row_place ask many value }
{
    let digest = value.wrapping_mul(0x9e37_79b9_7f4a_7c15) >> 32;
    ask.wrapping_mul(many)
        .wrapping_add(digest as usize & many.saturating_sub(1))
}

// What the values have in the field and its bits.
fn value_at(asked: &Asked, values: &[u64; 30]) -> u64
    ensures { result ≡ asked_value asked.now values.now }
{
    match values.get(asked.field) {
        Some(value) => value & asked.bits,
        None => 0,
    }
}

// The value that is wanted in the field, where just these bits are asked for.
fn wanted_at(asked: &Asked, bits: &[Bits; 30]) -> Option<u64>
    ensures { IfSome result (λ v. (xs : List ℕ) → AllFit bits.now xs → asked_value asked.now xs ≡ v) }
{
    match bits.get(asked.field) {
        Some(wanted) if wanted.mask == asked.bits => Some(wanted.value),
        _ => None,
    }
}

impl Sieve {
    /// No flow, for the masks of the turns. It is made for twice so many flows, and some more.
    pub fn new(
        alloc: Global,
        masks: &[Mask],
        turns: &[Turn],
        flows: usize,
        more: usize,
    ) -> Result<Sieve, NoMemory> {
        let asks = asks_for(alloc, masks, turns)?;
        let many = rows_for(flows, turns.len());
        let free = vec![in alloc; 0; asks.len()]?;
        let rows = vec![in alloc; 0; asks.len().saturating_mul(many)]?;
        Ok(Sieve {
            asks,
            free,
            rows,
            many,
            seen: 0,
            masks: turns.len(),
            left: flows.saturating_mul(2).saturating_add(more),
        })
    }

    /// Whether it isn't made for so many masks, or so many flows more.
    pub fn is_small(&self, masks: usize, coming: usize) -> bool {
        self.left < coming || self.masks.saturating_add(self.masks / 4) < masks
    }

    // The masks that are let through at one of the asks.
    fn word(&self, i: usize, asked: &Asked, values: &[u64; 30]) -> u128
        ensures { (bit : ℕ) → bit < 128 → IsLetAt self.now i asked.now values.now bit → HasBit result bit }
    {
        let row = place(i, self.many, value_at(asked, values));
        word_at(self.free.as_slice(), i) | word_at(self.rows.as_slice(), row)
    }

    /// The masks that are let through where the fields have these values.
    pub fn passed(&self, values: &[u64; 30]) -> u128
        ensures { (bit : ℕ) → bit < 128 → IsLet self.now values.now bit → HasBit result bit }
    {
        let mut word = self.seen;
        for i in 0..self.asks.len() {
            word &= self.word(i, &self.asks[i], values);
        }
        word
    }

    // Marks the bit at one of the asks, as that of a mask with a flow that wants this.
    fn note_at(&mut self, i: usize, asked: &Asked, bits: &[Bits; 30], bit: u32)
        requires { bit < 128 }
        ensures asks { self.new.asks.items ≡ self.old.asks.items }
        ensures seen { self.new.seen ≡ self.old.seen }
        ensures kept { (j : ℕ) (a : Asked) (xs : List ℕ) (b : ℕ) → IsLetAt self.old j a xs b → IsLetAt self.new j a xs b }
        ensures noted { (xs : List ℕ) → AllFit bits.now xs → IsLetAt self.new i asked.now xs bit }
    {
        match wanted_at(asked, bits) {
            Some(value) => mark(&mut self.rows, place(i, self.many, value), bit),
            None => mark(&mut self.free, i, bit),
        }
    }

    /// Marks the mask of this number as one with a flow that wants this. No memory is taken.
    pub fn note(&mut self, number: usize, bits: &[Bits; 30])
        ensures kept { (xs : List ℕ) (b : ℕ) → IsLet self.old xs b → IsLet self.new xs b }
        ensures noted { IsLetWhole self.new bits.now (bit_of number) }
    {
        let bit = bit_for(number);
        self.left = self.left.saturating_sub(1);
        self.seen |= 1 << bit;
        for i in 0..self.asks.len() {
            let asked = self.asks[i];
            self.note_at(i, &asked, bits, bit);
        }
    }
}
