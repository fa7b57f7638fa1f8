ghost use Rattle.std.specs.Prelude.{◌≡◌, ◌↔◌, ◌≤◌, ◌-◌, ◌++◌, ℕ, List, Bool, true, Some, IsSome, IfSome, IsTrue, length, take, replicate, refl};
ghost use Rattle.std.specs.BTreeMap.{is_at};
ghost use Rattle.std.specs.Cmp.{partial_equiv_from_equiv};
ghost use Rattle.std.specs.Cmp.Lexicographic.{pointwise, slice_cmp, texts_po, texts_ties};
ghost use Rattle.std.specs.Hash as fed;
ghost use Rattle.std.specs.Hash.{same_Alike};
ghost use Rattle.std.specs.Ordering.{nat_cmp};
ghost use Rattle.std.proofs.lemmas.Cmp.{nat_list_eq_equiv, nat_list_cmp_total};
ghost use Rattle.std.proofs.Math.Dec.{eqb as nat_eq};
ghost use Rattle.ovn_base.specs.names.SameName.{bytes_decides};
ghost use Rattle.ovn_base.specs.names.NameText as spec;
ghost use Rattle.ovn_base.specs.names.NameText.{IsName, name_byte, spelled_name};

use std::cmp::Ordering;
use std::fmt;
use std::hash::{Hash, Hasher};
use std::marker::Model;

/// A name of 1 to 64 bytes, each a letter, a digit, `_`, `.`, `:` or `-`. It is kept in place. Its length comes first:
/// names are compared by it and by their first bytes, which then stand side by side.
#[derive(Clone, Copy)]
pub struct Name {
    len: usize,
    bytes: [u8; 64],
}

impl Model for Name {
    ghost use Rattle.std.specs.Prelude.{List, ℕ, take};

    ghost Value = { List ℕ };

    ghost use Rattle.ovn_base.specs.names.PaddedName.{IsPadded, fields_of, fields_of-take};

    ghost view = { λ n. take n.len n.bytes };

    ghost invariant = { IsPadded };

    ghost inverse = { fields_of };

    ghost inverse_ok = { fields_of-take };
}

fn is_name_byte(byte: u8) -> bool
    ensures { result ≡ name_byte byte }
{
    byte.is_ascii_alphanumeric() || byte == b'_' || byte == b'.' || byte == b':' || byte == b'-'
}

fn is_name(text: &[u8]) -> bool
    ensures in_grammar { IsTrue result ↔ IsName text.now }
    ensures exact { result ≡ spec.is_name text.now }
{
    !text.is_empty() && text.len() <= 64 && text.iter().all(|byte| is_name_byte(*byte))
}

// The bytes, and zeros after them.
fn padded(text: &[u8]) -> [u8; 64]
    requires { length text.now ≤ 64 }
    ensures { result ≡ text.now ++ replicate (64 - length text.now) 0 }
{
    let mut bytes = [0; 64];
    bytes[..text.len()].copy_from_slice(text);
    bytes
}

impl Name {
    /// The name that the text is, if it is one.
    #[tactic(auto, unfolding(crate::specs::names::NameText::spelled_name))]
    pub fn read(text: &[u8]) -> Option<Name>
        ensures found { IfSome result (λ n. n ≡ text.now) }
        ensures in_grammar { IsSome result ↔ IsName text.now }
        ensures exact { result ≡ spelled_name text.now }
    {
        if is_name(text) {
            Some(Name {
                len: text.len(),
                bytes: padded(text),
            })
        } else {
            None
        }
    }

    /// The bytes of the name.
    pub fn text(&self) -> &[u8]
        ensures text { result.now ≡ self.now }
        ensures is_name { IsName self.now }
        ensures some { 1 ≤ length self.now }
        ensures few { length self.now ≤ 64 }
    {
        &self.bytes[..self.len]
    }
}

impl PartialEq for Name {
    ghost eq = { pointwise nat_eq };

    ghost laws = { partial_equiv_from_equiv nat_list_eq_equiv };

    fn eq(&self, other: &Self) -> bool {
        self.text() == other.text()
    }
}

impl Eq for Name {
    ghost laws = { nat_list_eq_equiv };
}

impl PartialOrd for Name {
    ghost partial_cmp = { λ x y. Some (slice_cmp nat_cmp x y) };

    ghost laws = { texts_po };

    fn partial_cmp(&self, other: &Self) -> Option<Ordering> {
        Some(self.cmp(other))
    }
}

// The order of two texts, byte by byte: that of the first bytes that differ, or else of the lengths.
fn order_of(text: &[u8], other: &[u8]) -> Ordering
    ensures { result ≡ slice_cmp nat_cmp text.now other.now }
{
    'bytes: for at in 0..text.len().min(other.len()) {
        if text[at] != other[at] {
            return text[at].cmp(&other[at]);
        }
    }
    text.len().cmp(&other.len())
}

impl Ord for Name {
    ghost cmp = { slice_cmp nat_cmp };

    ghost total = { nat_list_cmp_total };

    ghost matches_partial_cmp = { λ x y. refl };

    ghost matches_eq = { texts_ties };

    fn cmp(&self, other: &Self) -> Ordering {
        order_of(self.text(), other.text())
    }
}

impl Hash for Name {
    ghost hash_input = { fed.slice fed.u8 };

    ghost respects_eq = { (same_Alike (fed.slice fed.u8) bytes_decides).fed };

    fn hash<H: Hasher>(&self, state: &mut H) {
        self.text().hash(state);
    }
}

impl fmt::Debug for Name {
    ghost debug_output = { λ n. Some n };

    fn fmt<W: fmt::Write>(&self, f: &mut fmt::Formatter<W>) -> fmt::Result {
        fmt::Display::fmt(self, f)
    }
}

impl fmt::Display for Name {
    ghost output = { λ n. Some n };

    fn fmt<W: fmt::Write>(&self, f: &mut fmt::Formatter<W>) -> fmt::Result {
        match str::from_utf8(self.text()) {
            Ok(text) => f.write_str(text),
            Err(_) => Err(fmt::Error),
        }
    }
}

/// Equal names are the same, by `==`, by their order and by a clone: two names are equal exactly where their bytes are.
pub fn exact_name()
    ensures equal { (a b : Name) → (⟦<Name as PartialEq>⟧.eq a b ≡ true) ↔ (a ≡ b) }
    ensures order { (a b : Name) → (is_at (⟦<Name as Ord>⟧.cmp a) b ≡ true) ↔ (a ≡ b) }
    ensures clone { (a b : Name) → ⟦<Name as Clone>⟧.is_clone a b → b ≡ a }
{}
