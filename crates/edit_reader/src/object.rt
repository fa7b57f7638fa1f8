// The fields of an object.
ghost use Rattle.std.specs.Prelude.{◌≡◌, ◌==◌, ℕ, List, [], map, Some, IfOk, IfSome};
ghost use Rattle.std.specs.Option.{option_map};
ghost use Rattle.std.specs.Str.{bytes_eq};
ghost use Rattle.std.specs.List.{AllByRecursion, list_any};
ghost use Rattle.serde_json.specs.Data.{Data};
ghost use Rattle.serde_json.specs.View.{view};
ghost use Rattle.edit_reader.specs.Outcomes.{Read, Gives};
ghost use Rattle.edit_reader.specs.Fields as spec;

use crate::event::{ReadError, ReadRefusal};
use crate::field::{Field, Grammar, Texts, bytes_of};
use ovn_base::list::List;
use serde_json::Value;
use std::alloc::Global;

/// The field, which has to be there.
#[tactic(auto, unfolding(crate::specs::Fields::needed))]
pub fn needed<F: Field>(
    alloc: Global,
    object: &Value,
    field: &str,
    reads: &F,
) -> Result<F::Of, ReadError>
    ensures value { Gives result (spec.needed (F.reads reads.now) field.now (view object.now)) }
    ensures fits { IfOk result (F.fits reads.now) }
{
    match object.get(field) {
        Some(value) => reads.read(alloc, field, value),
        None => Err(ReadError::Refused(ReadRefusal::MissingField(bytes_of(alloc, field)?))),
    }
}

/// The field, which may be left out.
#[tactic(auto, unfolding(crate::specs::Fields::given))]
pub fn given<F: Field>(
    alloc: Global,
    object: &Value,
    field: &str,
    reads: &F,
) -> Result<Option<F::Of>, ReadError>
    ensures value { Gives result (spec.given (F.reads reads.now) field.now (view object.now)) }
    ensures fits { IfOk result (λ found. IfSome found (F.fits reads.now)) }
{
    match object.get(field) {
        Some(value) => Ok(Some(reads.read(alloc, field, value)?)),
        None => Ok(None),
    }
}

/// The field, or the default where it is left out.
#[tactic(auto, unfolding(crate::specs::Fields::default_or))]
pub fn default_or<F: Field>(
    alloc: Global,
    object: &Value,
    field: &str,
    reads: &F,
    default: F::Of,
) -> Result<F::Of, ReadError>
where
    F::Of: Drop,
    requires { F.fits reads.now default }
    ensures value { Gives result (spec.default_or (F.reads reads.now) default field.now (view object.now)) }
    ensures fits { IfOk result (F.fits reads.now) }
{
    match object.get(field) {
        Some(value) => reads.read(alloc, field, value),
        None => Ok(default),
    }
}

/// The field, which has to be there where it is asked for, and is passed over elsewhere.
#[tactic(auto, unfolding(crate::specs::Fields::needed_where))]
pub fn needed_where<F: Field>(
    alloc: Global,
    asked: bool,
    object: &Value,
    field: &str,
    reads: &F,
) -> Result<Option<F::Of>, ReadError>
    ensures value { Gives result (spec.needed_where asked (F.reads reads.now) field.now (view object.now)) }
    ensures fits { IfOk result (λ found. IfSome found (F.fits reads.now)) }
{
    if asked {
        Ok(Some(needed(alloc, object, field, reads)?))
    } else {
        Ok(None)
    }
}

/// The texts of the field, none where it is left out.
pub fn listed<G: Grammar>(
    alloc: Global,
    object: &Value,
    field: &str,
    grammar: G,
) -> Result<List<G::Of>, ReadError>
where
    G: Drop,
    G::Of: Drop,
    ensures value { Gives result (spec.default_or (spec.texts_by (G.spelled grammar)) [] field.now (view object.now)) }
    ensures suits { IfOk result (AllByRecursion (G.suits grammar)) }
{
    default_or(alloc, object, field, &Texts(grammar), List::new(alloc))
}

// Whether the name is one of these.
fn is_one_of(name: &str, names: &[&str]) -> bool
    ensures { result ≡ list_any (bytes_eq name.now) (map (λ n. n.now) names.now) }
{
    for other in names {
        if name == *other {
            return true;
        }
    }
    false
}

// The first name of the object's fields that is none of these.
fn first_other<'v>(object: &'v Value, names: &[&str]) -> Option<&'v str>
    ensures { option_map (λ k. k.now) result ≡ spec.first_other (map (λ n. n.now) names.now) (spec.members_in (view object.now)) }
{
    let Value::Object(map) = object else {
        return None;
    };
    let mut members = map.iter();
    'members: while let Some((key, _)) = members.next() {
        if !is_one_of(key.as_str(), names) {
            return Some(key.as_str());
        }
    }
    None
}

/// The object has fields of these names alone.
#[tactic(auto, unfolding(crate::specs::Fields::only))]
pub fn only(alloc: Global, object: &Value, names: &[&str]) -> Result<(), ReadError>
    ensures { Gives result (spec.only (map (λ n. n.now) names.now) (view object.now)) }
{
    match first_other(object, names) {
        None => Ok(()),
        Some(name) => Err(ReadError::Refused(ReadRefusal::UnknownField(bytes_of(alloc, name)?))),
    }
}
