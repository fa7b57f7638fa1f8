// Flags, numbers, networks and matches.
ghost use Rattle.std.specs.Prelude.{◌≡◌, ◌≤◌, ◌^◌, ◌-◌, ◌&&◌, nat_le, IfOk, IfSome, length};
ghost use Rattle.serde_json.specs.View.{view};
ghost use Rattle.match_language.specs.Nesting.{FitsLevels};
ghost use Rattle.ovn_base.specs.declared.limits.TheConstants.{MAX_DEPTH, MAX_ACL_PRIORITY, MAX_DATAPATH_KEY, MAX_PORT_KEY, MAX_CLOCK};
ghost use Rattle.edit_reader.specs.Outcomes.{Gives};
ghost use Rattle.edit_reader.specs.Fields as spec;
ghost use Rattle.edit_reader.specs.Tables as tables;

use crate::addresses::PrefixText;
use crate::event::{ReadError, ReadRefusal};
use crate::field::{Field, bytes_of, each_by, in_range, of_kind, text_in, texts_of};
use match_language::expr::Expr;
use match_language::fault::ParseFault;
use match_language::field::Direction;
use match_language::reader::parse;
use ovn_base::address::Cidr;
use ovn_base::limits::{MAX_ACL_PRIORITY, MAX_CLOCK, MAX_DATAPATH_KEY, MAX_PORT_KEY};
use ovn_base::list::List;
use serde_json::Value;
use std::alloc::Global;

/// `true` and `false`.
pub struct Flag;

impl Field for Flag {
    type Of = bool;

    ghost reads = { λ _. spec.flag };

    ghost fits = { λ _ _. Unit {0} };

    #[tactic(auto, unfolding(crate::specs::Fields::flag))]
    fn read(&self, alloc: Global, field: &str, value: &Value) -> Result<bool, ReadError> {
        of_kind(alloc, field, value.as_bool())
    }
}

fn between(least: u64, most: u64, number: u64) -> Option<u64>
    ensures value { result ≡ spec.between least most number }
    ensures within { IfSome result (λ n. n ≤ most) }
{
    if least <= number && number <= most {
        Some(number)
    } else {
        None
    }
}

// The number, where it is a whole one in the range.
#[tactic(auto, unfolding(crate::specs::Fields::number_in))]
fn number_in(
    alloc: Global,
    least: u64,
    most: u64,
    field: &str,
    value: &Value,
) -> Result<u64, ReadError>
    ensures value { Gives result (spec.number_in least most field.now (view value.now)) }
    ensures within { IfOk result (λ n. n ≤ most) }
{
    let number = of_kind(alloc, field, value.as_u64())?;
    match between(least, most, number) {
        Some(number) => Ok(number),
        None => Err(ReadError::Refused(ReadRefusal::OutOfRange(bytes_of(alloc, field)?))),
    }
}

/// Priorities of rules: 0 to `MAX_ACL_PRIORITY`.
pub struct Priority;

impl Field for Priority {
    type Of = u16;

    ghost reads = { λ _. spec.number_in 0 MAX_ACL_PRIORITY };

    ghost fits = { λ _ n. n ≤ MAX_ACL_PRIORITY };

    fn read(&self, alloc: Global, field: &str, value: &Value) -> Result<u16, ReadError> {
        Ok(number_in(alloc, 0, u64::from(MAX_ACL_PRIORITY), field, value)? as u16)
    }
}

/// The greatest datapath key: 1 to `MAX_DATAPATH_KEY`.
pub struct DatapathKeys;

impl Field for DatapathKeys {
    type Of = u32;

    ghost reads = { λ _. spec.number_in 1 MAX_DATAPATH_KEY };

    ghost fits = { λ _ n. n ≤ MAX_DATAPATH_KEY };

    fn read(&self, alloc: Global, field: &str, value: &Value) -> Result<u32, ReadError> {
        Ok(number_in(alloc, 1, u64::from(MAX_DATAPATH_KEY), field, value)? as u32)
    }
}

/// The greatest port key: 1 to `MAX_PORT_KEY`.
pub struct PortKeys;

impl Field for PortKeys {
    type Of = u16;

    ghost reads = { λ _. spec.number_in 1 MAX_PORT_KEY };

    ghost fits = { λ _ n. n ≤ MAX_PORT_KEY };

    fn read(&self, alloc: Global, field: &str, value: &Value) -> Result<u16, ReadError> {
        Ok(number_in(alloc, 1, u64::from(MAX_PORT_KEY), field, value)? as u16)
    }
}

/// Seconds that pass: 0 to `MAX_CLOCK`.
pub struct Seconds;

impl Field for Seconds {
    type Of = u64;

    ghost reads = { λ _. spec.number_in 0 MAX_CLOCK };

    ghost fits = { λ _ n. n ≤ MAX_CLOCK };

    fn read(&self, alloc: Global, field: &str, value: &Value) -> Result<u64, ReadError> {
        number_in(alloc, 0, MAX_CLOCK, field, value)
    }
}

/// Numbers of frames: any of 64 bits.
pub struct FrameNumber;

impl Field for FrameNumber {
    type Of = u64;

    ghost reads = { λ _. spec.number_in 0 (2 ^ 64 - 1) };

    ghost fits = { λ _ n. n ≤ 2 ^ 64 - 1 };

    fn read(&self, alloc: Global, field: &str, value: &Value) -> Result<u64, ReadError> {
        number_in(alloc, 0, u64::MAX, field, value)
    }
}

// 1 to 16 texts.
fn is_few(texts: &[&[u8]]) -> bool
    ensures { result ≡ (nat_le 1 (length texts.now) && nat_le (length texts.now) 16) }
{
    1 <= texts.len() && texts.len() <= 16
}

/// The networks of a router port: 1 to 16 addresses with the length of a prefix.
pub struct Networks;

impl Field for Networks {
    type Of = List<Cidr>;

    ghost reads = { λ _. tables.networks_in };

    ghost fits = { λ _ _. Unit {0} };

    #[tactic(auto, unfolding(crate::specs::Tables::networks_in))]
    fn read(&self, alloc: Global, field: &str, value: &Value) -> Result<List<Cidr>, ReadError> {
        let items = of_kind(alloc, field, value.as_array())?;
        let texts = texts_of(alloc, field, items.as_slice())?;
        if !is_few(texts.as_slice()) {
            return Err(ReadError::Refused(ReadRefusal::OutOfRange(bytes_of(alloc, field)?)));
        }
        in_range(alloc, field, each_by(alloc, texts.as_slice(), &PrefixText)?)
    }
}

/// Whether the field is there and exactly this text.
pub fn says(object: &Value, field: &str, wanted: &str) -> bool
    ensures { result ≡ tables.says field.now wanted.now (view object.now) }
{
    match object.get(field).and_then(Value::as_str) {
        Some(text) => text == wanted,
        None => false,
    }
}

/// Whether the object has the field.
pub fn has(object: &Value, field: &str) -> bool
    ensures { result ≡ tables.has field.now (view object.now) }
{
    object.get(field).is_some()
}

/// The direction of the rule of which the object is: to-lport where it says none.
pub fn way_in(object: &Value) -> Direction
    ensures { result ≡ tables.way_in (view object.now) }
{
    if says(object, "direction", "from-lport") {
        Direction::FromLport
    } else {
        Direction::ToLport
    }
}

/// Matches of rules of the direction.
#[derive(Drop)]
pub struct Match(pub Direction);

impl Field for Match {
    type Of = Expr;

    ghost reads = { λ m. tables.match_in m.0 };

    ghost fits = { λ m. FitsLevels m.0 MAX_DEPTH };

    #[tactic(auto, unfolding(crate::specs::Tables::match_in))]
    fn read(&self, alloc: Global, field: &str, value: &Value) -> Result<Expr, ReadError> {
        let text = text_in(alloc, field, value)?;
        match parse(alloc, text.as_bytes(), self.0) {
            Ok(expr) => Ok(expr),
            Err(ParseFault::Memory) => Err(ReadError::Memory),
            Err(ParseFault::Bad(fault)) => Err(ReadError::Refused(ReadRefusal::BadMatch(fault))),
        }
    }
}
