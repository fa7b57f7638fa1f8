//! Marks of masks in words of 128 bits.
ghost use Rattle.std.specs.Prelude.{◌≡◌, ◌↔◌, ◌<◌, ◌%◌, ℕ, IsTrue};
ghost use Rattle.std.specs.Int.{bit_at};
ghost use Rattle.tuple_space.specs.Sieving.{HasBit, IsMarked, bit_of};

/// The bit of the mask of this number.
pub fn bit_for(number: usize) -> u32
    ensures { result ≡ bit_of number }
{
    (number % 128) as u32
}

// The half of the word in which the bit is.
fn half(word: u128, bit: u32) -> u64
    requires { bit < 128 }
    ensures { bit_at result (bit % 64) ≡ bit_at word bit }
{
    if bit < 64 {
        (word % (1 << 64)) as u64
    } else {
        (word >> 64) as u64
    }
}

/// Whether the word has the bit.
pub fn has_bit(word: u128, bit: u32) -> bool
    requires { bit < 128 }
    ensures { IsTrue result ↔ HasBit word bit }
{
    half(word, bit) >> (bit % 64) & 1 == 1
}

/// The word at the place; all bits, where there is none.
pub fn word_at(words: &[u128], place: usize) -> u128
    ensures { (bit : ℕ) → bit < 128 → IsMarked words.now place bit → HasBit result bit }
{
    if place < words.len() {
        words[place]
    } else {
        u128::MAX
    }
}

/// Gives the word at the place the bit, if there is a word.
pub fn mark(words: &mut Vec<u128>, place: usize, bit: u32)
    requires { bit < 128 }
    ensures kept { (p b : ℕ) → IsMarked words.old.items p b → IsMarked words.new.items p b }
    ensures marked { IsMarked words.new.items place bit }
{
    if place < words.len() {
        words[place] |= 1 << bit;
    }
}
