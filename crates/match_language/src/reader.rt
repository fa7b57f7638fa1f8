//! Reads a text as an expression, by recursive descent: one level for each negation and each pair of parentheses.
ghost use Rattle.std.specs.Prelude.{◌≡◌, ◌⊎◌, ℕ, List, Ok, Err, IfOk};
ghost use Rattle.match_language.specs.Grammar.{SpellsExpr};
ghost use Rattle.match_language.specs.Nesting.{FitsLevels};
ghost use Rattle.match_language.specs.declared.field.Direction.TheVariants.{FromLport, ToLport};
ghost use Rattle.match_language.specs.Faults.{GivesExpr, IfBad};
ghost use Rattle.match_language.specs.FirstFault.{IsFirstFault};
ghost use Rattle.match_language.specs.Reading as spec;
ghost use Rattle.match_language.specs.Reading.{ReadsAs};

use crate::cursor::Cursor;
use crate::expr::Expr;
use crate::fault::{MatchFault, ParseFault};
use crate::field::Direction;
use crate::token::Token;
use crate::value::{comparison, unexpected};
use ovn_base::boxed::Boxed;
use ovn_base::limits::MAX_DEPTH;
use ovn_base::list::List;
use std::alloc::Global;

// A term that holds no other.
#[tactic(auto, unfolding(crate::specs::Reading::leaf))]
fn leaf(alloc: Global, cursor: &mut Cursor<'_>, way: Direction) -> Result<Expr, ParseFault>
    ensures { ReadsAs (spec.leaf way cursor.old) result cursor.new }
{
    match cursor.peek() {
        Token::Bit(truth) => {
            cursor.advance();
            Ok(Expr::Const(truth))
        }
        Token::Predicate(predicate) => {
            cursor.advance();
            Ok(Expr::Is(predicate))
        }
        Token::Field(field) => {
            if !field.stands(way) {
                return Err(ParseFault::Bad(MatchFault::UnknownField(cursor.place())));
            }
            cursor.advance();
            comparison(alloc, cursor, field)
        }
        Token::Unknown => Err(ParseFault::Bad(MatchFault::UnknownField(cursor.place()))),
        other => Err(ParseFault::Bad(unexpected(&other, cursor.place()))),
    }
}

fn is_operator(is_and: bool, token: Token) -> bool
    ensures { result ≡ spec.is_operator is_and token }
{
    match (is_and, token) {
        (true, Token::And) => true,
        (false, Token::Or) => true,
        _ => false,
    }
}

// The terms that an operator joins, of which the first was read.
#[cycle(reader)]
#[tactic(auto, unfolding(crate::specs::Reading::joined_terms, crate::specs::Reading::more))]
fn joined(
    alloc: Global,
    cursor: &mut Cursor<'_>,
    way: Direction,
    levels: u8,
    is_and: bool,
    first: Expr,
) -> Result<List<Expr>, ParseFault>
    ensures { ReadsAs (spec.joined_terms (spec.term way levels) is_and first cursor.old) result cursor.new }
{
    let mut terms = List::new(alloc);
    terms.push(first)?;
    for turn in 0..cursor.left() {
        cursor.advance();
        terms.push(term(alloc, cursor, way, levels)?)?;
        let token = cursor.peek();
        if !is_operator(is_and, token) {
            if is_operator(!is_and, token) {
                return Err(ParseFault::Bad(MatchFault::MixedAndOr(cursor.place())));
            }
            return Ok(terms);
        }
    }
    Err(ParseFault::Bad(MatchFault::Syntax(cursor.place())))
}

// A term, or terms that one operator joins.
#[cycle(reader)]
#[tactic(auto, unfolding(crate::specs::Reading::expression))]
fn expression(
    alloc: Global,
    cursor: &mut Cursor<'_>,
    way: Direction,
    levels: u8,
) -> Result<Expr, ParseFault>
    ensures { ReadsAs (spec.expression (spec.term way levels) cursor.old) result cursor.new }
{
    let first = term(alloc, cursor, way, levels)?;
    match cursor.peek() {
        Token::And => Ok(Expr::All(joined(alloc, cursor, way, levels, true, first)?)),
        Token::Or => Ok(Expr::Any(joined(alloc, cursor, way, levels, false, first)?)),
        _ => Ok(first),
    }
}

// An expression in parentheses.
#[cycle(reader)]
#[tactic(auto, unfolding(crate::specs::Reading::group))]
fn group(
    alloc: Global,
    cursor: &mut Cursor<'_>,
    way: Direction,
    levels: u8,
) -> Result<Expr, ParseFault>
    ensures { ReadsAs (spec.group (spec.term way levels) cursor.old) result cursor.new }
{
    cursor.advance();
    let inner = expression(alloc, cursor, way, levels)?;
    match cursor.peek() {
        Token::Close => {
            cursor.advance();
            Ok(inner)
        }
        other => Err(ParseFault::Bad(unexpected(&other, cursor.place()))),
    }
}

// `!` and a term.
#[cycle(reader)]
#[tactic(auto, unfolding(crate::specs::Reading::negation))]
fn negation(
    alloc: Global,
    cursor: &mut Cursor<'_>,
    way: Direction,
    levels: u8,
) -> Result<Expr, ParseFault>
    ensures { ReadsAs (spec.negation (spec.term way levels) cursor.old) result cursor.new }
{
    cursor.advance();
    let inner = term(alloc, cursor, way, levels)?;
    Ok(Expr::Not(Boxed::new(alloc, inner)?))
}

// A term where nothing may open a level.
#[tactic(auto, unfolding(crate::specs::Reading::flat))]
fn flat(alloc: Global, cursor: &mut Cursor<'_>, way: Direction) -> Result<Expr, ParseFault>
    ensures { ReadsAs (spec.flat way cursor.old) result cursor.new }
{
    match cursor.peek() {
        Token::Bang | Token::Open => Err(ParseFault::Bad(MatchFault::TooDeep(cursor.place()))),
        _ => leaf(alloc, cursor, way),
    }
}

// A term with one level more than the given.
#[cycle(reader)]
#[tactic(auto, unfolding(crate::specs::Reading::deep))]
fn deep(
    alloc: Global,
    cursor: &mut Cursor<'_>,
    way: Direction,
    levels: u8,
) -> Result<Expr, ParseFault>
    ensures { ReadsAs (spec.deep way (spec.term way levels) cursor.old) result cursor.new }
{
    match cursor.peek() {
        Token::Bang => negation(alloc, cursor, way, levels),
        Token::Open => group(alloc, cursor, way, levels),
        _ => leaf(alloc, cursor, way),
    }
}

// A term with at most so many levels of negations and parentheses.
#[cycle(reader)]
#[tactic(auto, unfolding(crate::specs::Reading::term))]
fn term(
    alloc: Global,
    cursor: &mut Cursor<'_>,
    way: Direction,
    levels: u8,
) -> Result<Expr, ParseFault>
    ensures { ReadsAs (spec.term way levels cursor.old) result cursor.new }
{
    if levels == 0 {
        flat(alloc, cursor, way)
    } else {
        deep(alloc, cursor, way, levels - 1)
    }
}

/// The expression that the text spells, or its first fault.
#[tactic(auto, unfolding(crate::specs::Reading::whole))]
pub(crate) fn whole(alloc: Global, text: &[u8], way: Direction) -> Result<Expr, ParseFault>
    ensures { GivesExpr result (spec.whole way text.now) }
{
    let mut cursor = Cursor::new(text);
    let expr = expression(alloc, &mut cursor, way, MAX_DEPTH)?;
    match cursor.peek() {
        Token::End => Ok(expr),
        other => Err(ParseFault::Bad(unexpected(&other, cursor.place()))),
    }
}

/// The expression that the text spells in a rule of the direction, or the first fault of the text.
pub fn parse(alloc: Global, text: &[u8], way: Direction) -> Result<Expr, ParseFault>
    // The answer is a function of the text and the direction, unless memory runs out.
    ensures exact { GivesExpr result (spec.whole way text.now) }
    // What is read is in the grammar.
    ensures found { IfOk result (λ x. SpellsExpr way text.now x) }
    // What is in the grammar is read, unless memory runs out.
    ensures only { (x : Expr) → SpellsExpr way text.now x → GivesExpr result (Ok x) }
    // It nests no deeper than 64 levels, and each value stands with its field.
    ensures fits { IfOk result (λ x. FitsLevels way MAX_DEPTH x) }
    // A fault is the text's first.
    ensures first { IfBad result (λ f. IsFirstFault way text.now f) }
    // A text's first fault is told, unless memory runs out.
    ensures only_first { (f : MatchFault) → IsFirstFault way text.now f → GivesExpr result (Err f) }
{
    whole(alloc, text, way)
}

/// A text spells at most one expression.
pub fn one_expression()
    ensures { (way : Direction) (text : List ℕ) (x y : Expr) → SpellsExpr way text x → SpellsExpr way text y → x ≡ y }
{}

/// A text has at most one first fault.
pub fn one_first_fault()
    ensures { (way : Direction) (text : List ℕ) (f g : MatchFault) → IsFirstFault way text f → IsFirstFault way text g → f ≡ g }
{}

/// A text that spells an expression has no fault.
pub fn spelled_has_none()
    ensures { (way : Direction) (text : List ℕ) (x : Expr) (f : MatchFault) → SpellsExpr way text x → IsFirstFault way text f → ⊥ }
{}

/// Each text spells an expression or has a first fault.
pub fn spelled_or_faulty()
    ensures { (way : Direction) (text : List ℕ) → ((x : Expr) × SpellsExpr way text x) ⊎ ((f : MatchFault) × IsFirstFault way text f) }
{}

/// What a text spells nests at most 64 levels, and each of its values stands with its field.
pub fn spelled_fits()
    ensures { (way : Direction) (text : List ℕ) (x : Expr) → SpellsExpr way text x → FitsLevels way MAX_DEPTH x }
{}

/// What fits in a from-lport rule fits in a to-lport rule.
pub fn fits_to_lport()
    ensures { (n : ℕ) (x : Expr) → FitsLevels FromLport n x → FitsLevels ToLport n x }
{}
