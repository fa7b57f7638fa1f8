//! Writes an expression as a text.
ghost use Rattle.std.specs.Prelude.{◌≡◌, ◌++◌, ℕ, List, map, codes, OnOk, OnErr};
ghost use Rattle.ovn_base.specs.declared.limits.TheConstants.{MAX_DEPTH};
ghost use Rattle.ovn_base.specs.addresses.EtherAddress.{mac_of};
ghost use Rattle.match_language.specs.Grammar.{SpellsExpr};
ghost use Rattle.match_language.specs.Nesting.{FitsLevels};
ghost use Rattle.match_language.specs.Spelling as spec;
ghost use Rattle.match_language.specs.declared.field.Direction.{Direction};
ghost use Rattle.match_language.specs.Spelling.{spelling, inner_spelling};

use crate::expr::{Expr, Rel, Value};
use crate::field::Field;
use crate::prefix::prefix_mask;
use ovn_base::address::{Ip4, Mac};
use ovn_base::memory::NoMemory;
use ovn_base::number::push_number;
use ovn_base::print_address::{push_ip4, push_mac};

// The Ethernet address of the number.
fn mac_of(number: u64) -> Mac
    ensures { result ≡ mac_of number }
{
    let [_, _, a, b, c, d, e, f] = number.to_be_bytes();
    Mac([a, b, c, d, e, f])
}

#[tactic(auto, unfolding(crate::specs::Spelling::number_text))]
fn push_field_number(field: Field, number: u64, out: &mut Vec<u8>) -> Result<(), NoMemory>
    ensures { OnOk result (out.new.items ≡ out.old.items ++ spec.number_text field number) }
{
    if field.bits() == 32 && number <= 0xffff_ffff {
        push_ip4(out, Ip4(number as u32))
    } else if field.bits() == 48 && number <= 0xffff_ffff_ffff {
        push_mac(out, mac_of(number))
    } else {
        push_number(out, number)
    }
}

// The length of the prefix with this mask, if it is less than 32.
#[tactic(auto, using(crate::proofs::Prefixes::below_none, crate::proofs::Prefixes::below_found, crate::proofs::Prefixes::below_passed))]
fn prefix_length(mask: u64) -> Option<u64>
    ensures { result ≡ spec.prefix_below 32 mask }
{
    let mut len = 32;
    while len > 0 {
        len -= 1;
        if prefix_mask(len) == mask {
            return Some(len);
        }
    }
    None
}

// The mask, behind a slash, unless it is all of the field's bits.
#[tactic(auto, unfolding(crate::specs::Spelling::mask_text))]
fn push_mask(field: Field, mask: u64, out: &mut Vec<u8>) -> Result<(), NoMemory>
    ensures { OnOk result (out.new.items ≡ out.old.items ++ spec.mask_text field mask) }
{
    if mask == field.max() {
        return Ok(());
    }
    out.push(b'/')?;
    if field.bits() != 32 {
        return push_field_number(field, mask, out);
    }
    match prefix_length(mask) {
        Some(len) => push_number(out, len),
        None => push_field_number(field, mask, out),
    }
}

#[tactic(auto, unfolding(crate::specs::Spelling::value_text))]
fn push_value(field: Field, value: &Value, out: &mut Vec<u8>) -> Result<(), NoMemory>
    ensures { OnOk result (out.new.items ≡ out.old.items ++ spec.value_text field value.now) }
{
    match value {
        Value::Number { bits, mask } => {
            push_field_number(field, *bits, out)?;
            push_mask(field, *mask, out)
        }
        Value::Port(text) => {
            out.push(b'"')?;
            out.extend_from_slice(text.as_slice())?;
            out.push(b'"')?;
            Ok(())
        }
        Value::Set(name) => {
            out.push(b'$')?;
            out.extend_from_slice(name.text())?;
            Ok(())
        }
        Value::Group(name) => {
            out.push(b'@')?;
            out.extend_from_slice(name.text())?;
            Ok(())
        }
    }
}

// The values with commas between.
fn push_list(field: Field, values: &[Value], out: &mut Vec<u8>) -> Result<(), NoMemory>
    ensures { OnOk result (out.new.items ≡ out.old.items ++ spec.joined_text (codes ", ") (map (spec.value_text field) values.now)) }
{
    let [first, rest @ ..] = values else {
        return Ok(());
    };
    push_value(field, first, out)?;
    for value in rest {
        out.extend_from_slice(b", ")?;
        push_value(field, value, out)?;
    }
    Ok(())
}

// One value alone, several in braces.
#[tactic(auto, unfolding(crate::specs::Spelling::values_text))]
fn push_values(field: Field, values: &[Value], out: &mut Vec<u8>) -> Result<(), NoMemory>
    ensures { OnOk result (out.new.items ≡ out.old.items ++ spec.values_text field values.now) }
{
    match values {
        [value] => push_value(field, value, out),
        _ => {
            out.push(b'{')?;
            push_list(field, values, out)?;
            out.push(b'}')?;
            Ok(())
        }
    }
}

// The terms with the operator between.
#[cycle(printer)]
fn push_joined(terms: &[Expr], operator: &[u8], out: &mut Vec<u8>) -> Result<(), NoMemory>
    ensures { OnOk result (out.new.items ≡ out.old.items ++ spec.joined_text operator.now (map inner_spelling terms.now)) }
{
    let [first, rest @ ..] = terms else {
        return Ok(());
    };
    push_inner(first, out)?;
    for term in rest {
        out.extend_from_slice(operator)?;
        push_inner(term, out)?;
    }
    Ok(())
}

#[tactic(auto, using(crate::proofs::ExprTexts::joined_const, crate::proofs::ExprTexts::joined_is, crate::proofs::ExprTexts::joined_not, crate::proofs::ExprTexts::joined_all, crate::proofs::ExprTexts::joined_any, crate::proofs::ExprTexts::joined_compare))]
fn is_joined(expr: &Expr) -> bool
    ensures { result ≡ spec.is_joined expr.now }
{
    match expr {
        Expr::All(_) | Expr::Any(_) => true,
        Expr::Const(_) | Expr::Is(_) | Expr::Not(_) | Expr::Compare { .. } => false,
    }
}

// An expression within another.
#[cycle(printer)]
#[tactic(auto, unfolding(crate::specs::Spelling::inner_spelling, crate::specs::Spelling::spelling))]
fn push_inner(expr: &Expr, out: &mut Vec<u8>) -> Result<(), NoMemory>
    ensures { OnOk result (out.new.items ≡ out.old.items ++ inner_spelling expr.now) }
{
    if is_joined(expr) {
        out.push(b'(')?;
        push_expr(expr, out)?;
        out.push(b')')?;
        Ok(())
    } else {
        push_expr(expr, out)
    }
}

fn push_comparison(
    field: Field,
    rel: Rel,
    values: &[Value],
    out: &mut Vec<u8>,
) -> Result<(), NoMemory>
    ensures { OnOk result (out.new.items ≡ out.old.items ++ spec.comparison_text field rel values.now) }
{
    out.extend_from_slice(field.name())?;
    out.push(b' ')?;
    out.extend_from_slice(rel.text())?;
    out.push(b' ')?;
    push_values(field, values, out)
}

// An expression alone.
#[cycle(printer)]
#[tactic(auto, using(crate::proofs::ExprTexts::spells_const, crate::proofs::ExprTexts::spells_is, crate::proofs::ExprTexts::spells_not, crate::proofs::ExprTexts::spells_all, crate::proofs::ExprTexts::spells_any, crate::proofs::ExprTexts::spells_compare))]
fn push_expr(expr: &Expr, out: &mut Vec<u8>) -> Result<(), NoMemory>
    ensures { OnOk result (out.new.items ≡ out.old.items ++ spelling expr.now) }
{
    match expr {
        Expr::Const(false) => {
            out.push(b'0')?;
            Ok(())
        }
        Expr::Const(true) => {
            out.push(b'1')?;
            Ok(())
        }
        Expr::Is(predicate) => {
            out.extend_from_slice(predicate.name())?;
            Ok(())
        }
        Expr::Not(term) => {
            out.push(b'!')?;
            push_inner(term.get(), out)
        }
        Expr::All(terms) => push_joined(terms.as_slice(), b" && ", out),
        Expr::Any(terms) => push_joined(terms.as_slice(), b" || ", out),
        Expr::Compare { field, rel, values } => push_comparison(
            *field,
            *rel,
            values.as_slice(),
            out,
        ),
    }
}

/// Writes the expression behind what `out` has. Where memory is wanting nothing is written.
pub fn print(expr: &Expr, out: &mut Vec<u8>) -> Result<(), NoMemory>
    ensures text { OnOk result (out.new.items ≡ out.old.items ++ spelling expr.now) }
    ensures unchanged { OnErr result (out.new.items ≡ out.old.items) }
    // What some text spells is spelled by its own text.
    ensures again { (way : Direction) (text : List ℕ) → SpellsExpr way text expr.now → SpellsExpr way (spelling expr.now) expr.now }
    // So is what was built, if its values stand with their fields and it nests no deeper than a text may.
    ensures built { (way : Direction) → FitsLevels way MAX_DEPTH expr.now → SpellsExpr way (spelling expr.now) expr.now }
{
    let mut text = Vec::new(*out.allocator());
    push_expr(expr, &mut text)?;
    out.extend_from_slice(text.as_slice())?;
    Ok(())
}
