//! The width of a match.
ghost use Rattle.std.specs.Prelude.{◌≡◌, ◌<◌, ◌^◌, if◌then◌else◌, [], ◌∷◌, map, length};
ghost use Rattle.match_cubes.specs.Cubes.{ordered};
ghost use Rattle.match_cubes.specs.Asked as asked;
ghost use Rattle.match_cubes.specs.Steps as steps;
ghost use Rattle.match_cubes.specs.Width as spec;
ghost use Rattle.match_cubes.specs.Width.{saturated};

use crate::asked::width as field_width;
use crate::inwards::turned_rel;
use crate::ranges::prefix_count;
use crate::sets::{SetEntry, SetSource};
use match_language::expr::{Expr, Rel, Value};
use match_language::field::{Field, Predicate};
use match_language::prefix::prefix_mask;
use ovn_base::name::Name;

// A width with a value of so many bits more.
fn grow(is_equal: bool, so_far: u128, weight: u32) -> u128
    ensures { result ≡ saturated (steps.grown is_equal so_far (weight ∷ [])) }
{
    if is_equal {
        so_far.saturating_add(1)
    } else {
        so_far.saturating_mul(u128::from(weight))
    }
}

fn entry_weight(field: Field, entry: &SetEntry) -> u32
    ensures { result ≡ spec.entry_weight field entry.now }
{
    match entry {
        SetEntry::Ip(cidr) => {
            if field_width(field) == 32 {
                prefix_mask(u64::from(cidr.len)).count_ones()
            } else {
                1
            }
        }
        SetEntry::Ether(_) => { if field_width(field) == 48 { 48 } else { 1 } }
    }
}

fn grow_set<S: SetSource>(is_equal: bool, so_far: u128, field: Field, set: &Name, sets: &S) -> u128
    ensures { result ≡ saturated (steps.grown is_equal so_far (map (spec.entry_weight field) ((S.members sets.now).entries set.now))) }
{
    let mut width = so_far;
    let mut index: usize = 0;
    while let Some(entry) = sets.entry(set, index) {
        width = grow(is_equal, width, entry_weight(field, &entry));
        index += 1;
    }
    width
}

fn grow_group<S: SetSource>(is_equal: bool, so_far: u128, group: &Name, sets: &S) -> u128
    ensures { result ≡ saturated (steps.grown is_equal so_far (map (λ p. 16) ((S.members sets.now).ports group.now))) }
{
    let mut width = so_far;
    let mut index: usize = 0;
    while let Some(_port) = sets.member(group, index) {
        width = grow(is_equal, width, 16);
        index += 1;
    }
    width
}

// A width with the values for which one value of the text stands.
fn grow_value<S: SetSource>(
    is_equal: bool,
    so_far: u128,
    field: Field,
    value: &Value,
    sets: &S,
) -> u128
    ensures { result ≡ saturated (steps.grown is_equal so_far (spec.weights_of (S.members sets.now) field value.now)) }
{
    match value {
        Value::Number { mask, .. } => grow(is_equal, so_far, mask.count_ones()),
        Value::Port(_) => grow(is_equal, so_far, 16),
        Value::Set(name) => grow_set(is_equal, so_far, field, name, sets),
        Value::Group(name) => grow_group(is_equal, so_far, name, sets),
    }
}

#[tactic(auto, using(crate::proofs::WidthSteps::grown_at_each, crate::proofs::WidthSteps::grown_done_each), unfolding(crate::specs::Width::weights))]
fn values_width<S: SetSource>(is_equal: bool, field: Field, values: &[Value], sets: &S) -> u128
    ensures { result ≡ saturated (steps.grown is_equal (steps.first_count is_equal) (spec.weights (S.members sets.now) field values.now)) }
{
    let mut width: u128 = if is_equal { 0 } else { 1 };
    for value in values {
        width = grow_value(is_equal, width, field, value, sets);
    }
    width
}

// How many prefixes are less or greater than the one value.
fn order_width(field: Field, rel: Rel, values: &[Value]) -> u128
    ensures value { result ≡ length (ordered (asked.bit_width field) rel values.now) }
    ensures below { result < 2 ^ 128 }
{
    match values {
        [Value::Number { bits, .. }] => { u128::from(prefix_count(field_width(field), rel, *bits)) }
        _ => 0,
    }
}

#[tactic(auto, using(crate::proofs::WidthSteps::compare_order, crate::proofs::WidthSteps::compare_equal, crate::proofs::WidthSteps::compare_unlike, crate::proofs::WidthSteps::saturated_is))]
fn compare_width<S: SetSource>(field: Field, rel: Rel, values: &[Value], sets: &S) -> u128
    ensures { result ≡ saturated (spec.compare_width (S.members sets.now) field rel values.now) }
{
    match rel {
        Rel::Eq => values_width(true, field, values, sets),
        Rel::Ne => values_width(false, field, values, sets),
        _ => order_width(field, rel, values),
    }
}

fn predicate_width(predicate: Predicate, positive: bool) -> u128
    ensures { result ≡ (if positive then steps.predicate_weight predicate else steps.negated_weight predicate) }
{
    match (predicate, positive) {
        (Predicate::Ip, true) => 2,
        (_, true) => 1,
        (Predicate::Ip4 | Predicate::Ip6 | Predicate::Arp, false) => 16,
        (Predicate::Ip, false) => 256,
        (Predicate::Tcp | Predicate::Udp | Predicate::Icmp4, false) => 24,
        (Predicate::EthBcast, false) => 48,
        (Predicate::EthMcast, false) => 1,
        (Predicate::Ip4Mcast, false) => 20,
    }
}

// A width with that of a term more.
fn widen(is_every: bool, so_far: u128, width: u128) -> u128
    ensures { result ≡ saturated (steps.widened is_every so_far (width ∷ [])) }
{
    if is_every {
        so_far.saturating_mul(width)
    } else {
        so_far.saturating_add(width)
    }
}

/// The width of terms that `&&` joins, or `||`.
#[cycle(widths)]
#[tactic(auto, using(crate::proofs::WidthSteps::widened_at, crate::proofs::WidthSteps::widened_done), unfolding(crate::specs::Steps::width_joined))]
pub(crate) fn joined_width<S: SetSource>(
    terms: &[Expr],
    is_every: bool,
    positive: bool,
    sets: &S,
) -> u128
    ensures { result ≡ saturated (steps.width_joined (S.members sets.now) is_every positive terms.now) }
{
    let mut width: u128 = if is_every { 1 } else { 0 };
    for term in terms {
        width = widen(is_every, width, width_in(term, positive, sets));
    }
    width
}

// The width of the match, or of its negation.
#[cycle(widths)]
#[tactic(auto, using(crate::proofs::WidthSteps::width_const, crate::proofs::WidthSteps::width_is_weight, crate::proofs::WidthSteps::width_not, crate::proofs::WidthSteps::width_all, crate::proofs::WidthSteps::width_any, crate::proofs::WidthSteps::width_compare))]
fn width_in<S: SetSource>(expr: &Expr, positive: bool, sets: &S) -> u128
    ensures { result ≡ saturated (spec.width_in (S.members sets.now) expr.now positive) }
{
    match expr {
        Expr::Const(_) => 1,
        Expr::Is(predicate) => predicate_width(*predicate, positive),
        Expr::Not(term) => width_in(term.get(), !positive, sets),
        Expr::All(terms) => joined_width(terms.as_slice(), positive, positive, sets),
        Expr::Any(terms) => joined_width(terms.as_slice(), !positive, positive, sets),
        Expr::Compare { field, rel, values } => {
            compare_width(*field, turned_rel(positive, *rel), values.as_slice(), sets)
        }
    }
}

/// The width of the match, or the greatest number where it is wider.
pub fn width<S: SetSource>(expr: &Expr, sets: &S) -> u128
    ensures { result ≡ saturated (spec.width_of (S.members sets.now) expr.now) }
{
    width_in(expr, true, sets)
}
