//! Masks, and what stands in the fields that they ask for.
ghost use Rattle.std.specs.Prelude.{◌≡◌, ◌↔◌, ◌∷◌, ◌++◌, ◌≤◌, length, IsTrue, IfOk, true};
ghost use Rattle.tuple_space.specs.declared.mask.Asked.{Asked};
ghost use Rattle.tuple_space.specs.declared.mask.Mask.{Mask};
ghost use Rattle.tuple_space.specs.Masks.{asked_fields, is_open, wanted_values, wanted_entry, masked, entry_numbers, entry_under};

use arrayvec::ArrayVec;
use inet_packet::cube::Bits;
use inet_packet::regs::At;
use ovn_base::list::List;

/// A field that is asked for, by its place in the order of fields, and which of its bits.
#[derive(Clone, Copy, Default, PartialEq, Eq, Hash, Debug)]
pub struct Asked {
    pub field: usize,
    pub bits: u64,
}

/// The fields that are asked for, and whether the entry is.
#[derive(PartialEq, Eq, Hash, Debug, Drop)]
pub struct Mask {
    pub asks: List<Asked>,
    pub entry: bool,
}

/// The fields that a cube asks for.
pub type Asks = ArrayVec<Asked, 30>;

/// What stands in the fields that a mask asks for, behind a table and the number of the mask: 30 fields and the entry, which
/// may be a name of 64 bytes.
pub type Key = ArrayVec<u64, 97>;

// Whether nothing is asked for.
fn is_free(bits: &Bits) -> bool
    ensures { result ≡ is_open bits.now }
{
    bits.mask == 0 && bits.value == 0
}

/// The fields that are asked for.
pub fn asks_of(bits: &[Bits; 30]) -> Asks
    ensures asks { result.items ≡ asked_fields bits.now }
    ensures few { length result.items ≤ 30 }
{
    let mut asks = Asks::new();
    for i in 0..30 {
        if !is_free(&bits[i]) {
            asks.push(Asked {
                field: i,
                bits: bits[i].mask,
            });
        }
    }
    asks
}

/// Writes the table, the number, and what is wanted.
pub fn write_wanted(table: u8, number: usize, bits: &[Bits; 30], at: &Option<At>, key: &mut Key)
    ensures { key.new.items ≡ table ∷ number ∷ (wanted_values bits.now ++ wanted_entry at.now) }
{
    key.clear();
    key.push(u64::from(table));
    key.push(number as u64);
    for i in 0..30 {
        if !is_free(&bits[i]) {
            key.push(bits[i].value);
        }
    }
    if let Some(at) = at {
        push_entry(at, key);
    }
}

/// Writes the table, the number, and what the values have in the fields that are asked for.
pub fn write_masked(
    table: u8,
    number: usize,
    mask: &Mask,
    values: &[u64; 30],
    at: &At,
    key: &mut Key,
)
    requires { length mask.now.asks ≤ 30 }
    ensures { key.new.items ≡ table ∷ number ∷ (masked mask.now.asks values.now ++ entry_under mask.now.entry at.now) }
{
    key.clear();
    key.push(u64::from(table));
    key.push(number as u64);
    let asks = mask.asks.as_slice();
    for asked in asks {
        let value = match values.get(asked.field) {
            Some(value) => *value,
            None => 0,
        };
        key.push(value & asked.bits);
    }
    if mask.entry {
        push_entry(at, key);
    }
}

// Writes the entry behind at most 32 numbers.
fn push_entry(at: &At, key: &mut Key)
    requires { length key.old.items ≤ 32 }
    ensures { key.new.items ≡ key.old.items ++ entry_numbers at.now }
{
    match at {
        At::Tunnel => key.push(0),
        At::Local(name) => {
            key.push(1);
            for byte in name.text() {
                key.push(u64::from(*byte));
            }
        }
    }
}
