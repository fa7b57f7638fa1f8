//! Reads the relation and the values behind a field.
ghost use Rattle.std.specs.Prelude.{◌≡◌};
ghost use Rattle.match_language.specs.Reading as spec;
ghost use Rattle.match_language.specs.Reading.{ReadsAs};
ghost use Rattle.match_language.specs.Values as values;
ghost use Rattle.match_language.specs.Tables.{is_address};
ghost use Rattle.match_language.specs.Input.{token};

use crate::cursor::Cursor;
use crate::expr::{Expr, Rel, Value};
use crate::fault::{MatchFault, ParseFault};
use crate::field::Field;
use crate::prefix::prefix_mask;
use crate::token::Token;
use ovn_base::list::List;
use std::alloc::Global;

/// The fault of a token that can't stand at the place.
pub(crate) fn unexpected(token: &Token, place: usize) -> MatchFault
    ensures { result ≡ spec.unexpected token.now place }
{
    match token {
        Token::Bad => MatchFault::Token(place),
        _ => MatchFault::Syntax(place),
    }
}

fn is_constant(token: &Token) -> bool
    ensures { result ≡ values.is_constant_token token.now }
{
    match token {
        Token::Bit(_) | Token::Number(_) | Token::Hex(_) | Token::Dotted(_) | Token::Ether(_) =>
            true,
        Token::BadConstant => true,
        _ => false,
    }
}

fn decimal_of(token: &Token) -> Option<u64>
    ensures { result ≡ values.decimal_of token.now }
{
    match token {
        Token::Bit(false) => Some(0),
        Token::Bit(true) => Some(1),
        Token::Number(number) => Some(*number),
        _ => None,
    }
}

fn number_of(token: &Token) -> Option<u64>
    ensures { result ≡ values.number_of token.now }
{
    match token {
        Token::Bit(false) => Some(0),
        Token::Bit(true) => Some(1),
        Token::Number(number) | Token::Hex(number) => Some(*number),
        _ => None,
    }
}

fn at_most(most: u64, number: u64) -> Option<u64>
    ensures { result ≡ values.at_most most number }
{
    if number <= most { Some(number) } else { None }
}

fn constant_of(field: Field, token: &Token) -> Option<u64>
    ensures { result ≡ values.constant_of field token.now }
{
    match token {
        Token::Dotted(number) => {
            if field.bits() == 32 {
                at_most(field.max(), *number)
            } else {
                None
            }
        }
        Token::Ether(number) => {
            if field.bits() == 48 {
                at_most(field.max(), *number)
            } else {
                None
            }
        }
        _ => {
            if field.is_port() {
                return None;
            }
            at_most(field.max(), number_of(token)?)
        }
    }
}

fn prefix_of(len: u64) -> Option<u64>
    ensures { result ≡ values.prefix_of len }
{
    if len <= 32 {
        Some(prefix_mask(len))
    } else {
        None
    }
}

fn dotted_mask(field: Field, mask: &Token) -> Option<u64>
    ensures { result ≡ values.dotted_mask field mask.now }
{
    match mask {
        Token::Dotted(number) => at_most(field.max(), *number),
        _ => prefix_of(decimal_of(mask)?),
    }
}

fn ether_mask(field: Field, mask: &Token) -> Option<u64>
    ensures { result ≡ values.ether_mask field mask.now }
{
    match mask {
        Token::Ether(number) => at_most(field.max(), *number),
        _ => None,
    }
}

fn mask_of(field: Field, constant: &Token, mask: &Token) -> Option<u64>
    ensures { result ≡ values.mask_of field constant.now mask.now }
{
    match constant {
        Token::Dotted(_) => dotted_mask(field, mask),
        Token::Ether(_) => ether_mask(field, mask),
        _ => at_most(field.max(), number_of(mask)?),
    }
}

fn is_address(field: Field) -> bool
    ensures { result ≡ is_address field }
{
    field.bits() == 32 || field.bits() == 48
}

#[tactic(auto, unfolding(crate::specs::Reading::relation))]
fn relation(cursor: &mut Cursor<'_>) -> Result<Rel, ParseFault>
    ensures { ReadsAs (spec.relation cursor.old) result cursor.new }
{
    match cursor.peek() {
        Token::Relation(rel) => {
            cursor.advance();
            Ok(rel)
        }
        other => Err(ParseFault::Bad(unexpected(&other, cursor.place()))),
    }
}

// The number under the mask at the cursor. The number's constant stands at the place.
#[tactic(auto, unfolding(crate::specs::Reading::mask))]
fn mask(
    cursor: &mut Cursor<'_>,
    field: Field,
    rel: Rel,
    constant: &Token,
    bits: u64,
    place: usize,
) -> Result<Value, ParseFault>
    ensures { ReadsAs (spec.mask field rel constant.now bits place cursor.old) result cursor.new }
{
    let token = cursor.peek();
    if !is_constant(&token) {
        return Err(ParseFault::Bad(unexpected(&token, cursor.place())));
    }
    if !rel.is_equality() {
        return Err(ParseFault::Bad(MatchFault::BadConstant(cursor.place())));
    }
    let Some(mask) = mask_of(field, constant, &token) else {
        return Err(ParseFault::Bad(MatchFault::BadConstant(cursor.place())));
    };
    if bits & mask != bits {
        return Err(ParseFault::Bad(MatchFault::BadConstant(place)));
    }
    cursor.advance();
    Ok(Value::Number { bits, mask })
}

// The constant at the cursor, and a mask or none.
#[tactic(auto, unfolding(crate::specs::Reading::number))]
fn number(
    cursor: &mut Cursor<'_>,
    field: Field,
    rel: Rel,
    constant: &Token,
) -> Result<Value, ParseFault>
    ensures { ReadsAs (spec.number field rel constant.now cursor.old) result cursor.new }
{
    let place = cursor.place();
    let Some(bits) = constant_of(field, constant) else {
        return Err(ParseFault::Bad(MatchFault::BadConstant(place)));
    };
    cursor.advance();
    match cursor.peek() {
        Token::Slash => {
            cursor.advance();
            mask(cursor, field, rel, constant, bits, place)
        }
        _ => Ok(Value::Number {
            bits,
            mask: field.max(),
        }),
    }
}

// The value, if it is taken there.
fn where_taken(cursor: &mut Cursor<'_>, is_taken: bool, value: Value) -> Result<Value, ParseFault>
    ensures { ReadsAs (spec.where_taken is_taken value cursor.old) result cursor.new }
{
    if is_taken {
        cursor.advance();
        Ok(value)
    } else {
        Err(ParseFault::Bad(MatchFault::BadConstant(cursor.place())))
    }
}

// One value of the field.
#[tactic(auto, unfolding(crate::specs::Reading::one))]
fn one(alloc: Global, cursor: &mut Cursor<'_>, field: Field, rel: Rel) -> Result<Value, ParseFault>
    ensures { ReadsAs (spec.one field rel cursor.old) result cursor.new }
{
    let is_port = field.is_port() && rel.is_equality();
    match cursor.peek() {
        Token::Text => {
            let text = List::from_slice(alloc, cursor.quoted())?;
            where_taken(cursor, is_port, Value::Port(text))
        }
        Token::Group(name) => where_taken(cursor, is_port, Value::Group(name)),
        Token::Set(name) => {
            let is_taken = is_address(field) && rel.is_equality();
            where_taken(cursor, is_taken, Value::Set(name))
        }
        other => {
            if is_constant(&other) {
                number(cursor, field, rel, &other)
            } else {
                Err(ParseFault::Bad(unexpected(&other, cursor.place())))
            }
        }
    }
}

fn closes(token: Token) -> bool
    ensures { result ≡ spec.closes token }
{
    match token {
        Token::CloseBrace => true,
        _ => false,
    }
}

fn opens(token: Token) -> bool
    ensures { result ≡ spec.opens token }
{
    match token {
        Token::OpenBrace => true,
        _ => false,
    }
}

// Behind a comma, if one is there.
fn pass_comma(cursor: &mut Cursor<'_>)
    ensures { cursor.new ≡ spec.past_comma (token cursor.old) cursor.old }
{
    match cursor.peek() {
        Token::Comma => cursor.advance(),
        _ => {}
    }
}

// The values up to the closing brace.
#[tactic(auto, unfolding(crate::specs::Reading::several, crate::specs::Reading::more_values))]
fn several(
    alloc: Global,
    cursor: &mut Cursor<'_>,
    field: Field,
    rel: Rel,
) -> Result<List<Value>, ParseFault>
    ensures { ReadsAs (spec.several field rel cursor.old) result cursor.new }
{
    let mut values = List::new(alloc);
    values.push(one(alloc, cursor, field, rel)?)?;
    for turn in 0..cursor.left() {
        if closes(cursor.peek()) {
            cursor.advance();
            return Ok(values);
        }
        pass_comma(cursor);
        values.push(one(alloc, cursor, field, rel)?)?;
    }
    Err(ParseFault::Bad(MatchFault::Syntax(cursor.place())))
}

// One value, or several in braces.
#[tactic(auto, unfolding(crate::specs::Reading::values))]
fn values(
    alloc: Global,
    cursor: &mut Cursor<'_>,
    field: Field,
    rel: Rel,
) -> Result<List<Value>, ParseFault>
    ensures { ReadsAs (spec.values field rel cursor.old) result cursor.new }
{
    if opens(cursor.peek()) {
        if !rel.is_equality() {
            return Err(ParseFault::Bad(MatchFault::BadConstant(cursor.place())));
        }
        cursor.advance();
        return several(alloc, cursor, field, rel);
    }
    let mut values = List::new(alloc);
    values.push(one(alloc, cursor, field, rel)?)?;
    Ok(values)
}

/// The relation and the values behind the field.
#[tactic(auto, unfolding(crate::specs::Reading::comparison))]
pub(crate) fn comparison(
    alloc: Global,
    cursor: &mut Cursor<'_>,
    field: Field,
) -> Result<Expr, ParseFault>
    ensures { ReadsAs (spec.comparison field cursor.old) result cursor.new }
{
    let rel = relation(cursor)?;
    let values = values(alloc, cursor, field, rel)?;
    Ok(Expr::Compare { field, rel, values })
}
