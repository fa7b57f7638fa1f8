// The values of fields, and the texts in them.
ghost use Rattle.std.specs.Prelude.{◌≡◌, ℕ, List, Option, map, Some, IfOk, IfErr, IfSome};
ghost use Rattle.std.specs.List.{AllByRecursion};
ghost use Rattle.serde_json.specs.Data.{Data};
ghost use Rattle.serde_json.specs.View.{view, items_view};
ghost use Rattle.edit_reader.specs.Outcomes as reading;
ghost use Rattle.edit_reader.specs.Outcomes.{Read, Gives, GivesBy, Fails};
ghost use Rattle.edit_reader.specs.Fields as spec;

use crate::event::{ReadError, ReadRefusal};
use ovn_base::list::{Bytes, List};
use ovn_base::memory::NoMemory;
use serde_json::Value;
use std::alloc::Global;

/// What the values of a field are.
pub trait Field {
    type Of;

    ghost reads: { Self → List ℕ → Data → Read Self.Of };

    /// What holds of each value.
    ghost fits: { Self → Self.Of → Type 0 };

    /// The value, or the fault of the field.
    fn read(&self, alloc: Global, field: &str, value: &Value) -> Result<Self::Of, ReadError>
        ensures value { Gives result (reads self.now field.now (view value.now)) }
        ensures fits { IfOk result (fits self.now) };
}

/// A grammar of texts.
pub trait Grammar {
    type Of;

    ghost spelled: { Self → List ℕ → Option Self.Of };

    /// What holds of each value.
    ghost suits: { Self → Self.Of → Type 0 };

    /// What the text spells.
    fn spelled(&self, alloc: Global, text: &[u8]) -> Result<Option<Self::Of>, NoMemory>
        ensures value { IfOk result (λ found. found ≡ spelled self.now text.now) }
        ensures suits { IfOk result (λ found. IfSome found (suits self.now)) };
}

/// The name of a field, in memory of its own.
pub fn bytes_of(alloc: Global, name: &str) -> Result<Bytes, NoMemory>
    ensures { IfOk result (λ bytes. bytes ≡ name.now) }
{
    List::from_slice(alloc, name.as_bytes())
}

/// The value, where it is of the field's kind.
pub fn of_kind<T: Drop>(alloc: Global, field: &str, found: Option<T>) -> Result<T, ReadError>
    ensures { Gives result (reading.of_kind field.now found) }
{
    match found {
        Some(value) => Ok(value),
        None => Err(ReadError::Refused(ReadRefusal::WrongKind(bytes_of(alloc, field)?))),
    }
}

/// The value, where it is in the field's range.
pub fn in_range<T: Drop>(alloc: Global, field: &str, found: Option<T>) -> Result<T, ReadError>
    ensures value { Gives result (reading.in_range field.now found) }
    ensures found { IfOk result (λ x. found ≡ Some x) }
{
    match found {
        Some(value) => Ok(value),
        None => Err(ReadError::Refused(ReadRefusal::OutOfRange(bytes_of(alloc, field)?))),
    }
}

/// The text that the value is.
pub fn text_in<'v>(alloc: Global, field: &str, value: &'v Value) -> Result<&'v str, ReadError>
    ensures text { IfOk result (λ text. spec.text_in field.now (view value.now) ≡ Ok text.now) }
    ensures err { IfErr result (λ error. Fails error (spec.text_in field.now (view value.now))) }
{
    match value.as_str() {
        Some(text) => Ok(text),
        None => Err(ReadError::Refused(ReadRefusal::WrongKind(bytes_of(alloc, field)?))),
    }
}

/// A text of the grammar.
#[derive(Drop)]
pub struct Text<G>(pub G);

impl<G: Grammar> Field for Text<G>
where
    G::Of: Drop,
{
    type Of = G::Of;

    ghost reads = { λ t. spec.text_by (G.spelled t.0) };

    ghost fits = { λ t. G.suits t.0 };

    #[tactic(auto, unfolding(crate::specs::Fields::text_by))]
    fn read(&self, alloc: Global, field: &str, value: &Value) -> Result<G::Of, ReadError> {
        let text = text_in(alloc, field, value)?;
        in_range(alloc, field, self.0.spelled(alloc, text.as_bytes())?)
    }
}

/// The texts of an array.
pub fn texts_of<'v>(
    alloc: Global,
    field: &str,
    items: &'v [Value],
) -> Result<Vec<&'v [u8]>, ReadError>
    ensures { GivesBy (λ texts. map (λ t. t.now) texts.items) result (spec.texts_of field.now (items_view items.now)) }
{
    let mut texts = Vec::new(alloc);
    'items: for item in items {
        texts.push(text_in(alloc, field, item)?.as_bytes())?;
    }
    Ok(texts)
}

/// What each of the texts spells.
pub fn each_by<G: Grammar>(
    alloc: Global,
    texts: &[&[u8]],
    grammar: &G,
) -> Result<Option<List<G::Of>>, NoMemory>
where
    G::Of: Drop,
    ensures value { IfOk result (λ found. found ≡ spec.each_by (G.spelled grammar.now) (map (λ t. t.now) texts.now)) }
    ensures suits { IfOk result (λ found. IfSome found (AllByRecursion (G.suits grammar.now))) }
{
    let mut each = List::new(alloc);
    'texts: for text in texts {
        match grammar.spelled(alloc, text)? {
            Some(found) => each.push(found)?,
            None => return Ok(None),
        }
    }
    Ok(Some(each))
}

/// Arrays of texts of the grammar.
#[derive(Drop)]
pub struct Texts<G>(pub G);

impl<G: Grammar> Field for Texts<G>
where
    G::Of: Drop,
{
    type Of = List<G::Of>;

    ghost reads = { λ t. spec.texts_by (G.spelled t.0) };

    ghost fits = { λ t xs. AllByRecursion (G.suits t.0) xs };

    #[tactic(auto, unfolding(crate::specs::Fields::texts_by))]
    fn read(&self, alloc: Global, field: &str, value: &Value) -> Result<List<G::Of>, ReadError> {
        let items = of_kind(alloc, field, value.as_array())?;
        let texts = texts_of(alloc, field, items.as_slice())?;
        in_range(alloc, field, each_by(alloc, texts.as_slice(), &self.0)?)
    }
}
