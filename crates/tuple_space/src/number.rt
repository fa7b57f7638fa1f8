//! Where flows belong, by the numbers of masks.
ghost use Rattle.std.specs.Prelude.{◌≡◌, ℕ, List};
ghost use Rattle.tuple_space.specs.Masks.{cube_bits, cube_mask};
ghost use Rattle.tuple_space.specs.Sieving.{bit_of, IsLet, IsLetWhole};
ghost use Rattle.tuple_space.specs.Space.{mask_number, key_in};

use crate::fields::bits_of;
use crate::mask::{Key, asks_of, write_wanted};
use crate::masks::Masks;
use crate::sieve::Sieve;
use flow_table::flow::SharedFlow;

/// Writes where the flow belongs, and gives the number of its mask.
pub fn write_key(masks: &Masks, flow: &SharedFlow, key: &mut Key) -> usize
    ensures number { result ≡ mask_number masks.now (cube_mask flow.now.cube) }
    ensures key { key.new.items ≡ key_in masks.now flow.now }
{
    let row = flow.get();
    let cube = row.cube.get();
    let bits = bits_of(cube);
    let asks = asks_of(&bits);
    let number = masks.number_of(asks.as_slice(), cube.at.is_some());
    write_wanted(row.table, number, &bits, &cube.at, key);
    number
}

/// Marks the flow's mask in the sieve of the table, if the flow is of this table.
pub fn note_in(sieve: &mut Sieve, masks: &Masks, table: u8, flow: &SharedFlow)
    ensures kept { (xs : List ℕ) (b : ℕ) → IsLet sieve.old xs b → IsLet sieve.new xs b }
    ensures noted { flow.now.table ≡ table → IsLetWhole sieve.new (cube_bits flow.now.cube) (bit_of (mask_number masks.now (cube_mask flow.now.cube))) }
{
    let row = flow.get();
    if row.table != table {
        return;
    }
    let cube = row.cube.get();
    let bits = bits_of(cube);
    let asks = asks_of(&bits);
    let number = masks.number_of(asks.as_slice(), cube.at.is_some());
    sieve.note(number, &bits);
}
