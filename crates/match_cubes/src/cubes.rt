//! The cubes of a match.
ghost use Rattle.std.specs.Prelude.{◌≡◌, ◌≤◌, ◌++◌, [], ◌∷◌, true, IfOk, OnOk, map, flat_map, length, option_to_list};
ghost use Rattle.std.specs.List.{list_any};
ghost use Rattle.match_cubes.specs.Answer as answer;
ghost use Rattle.match_cubes.specs.Cubes as spec;
ghost use Rattle.match_cubes.specs.Inwards as inwards;
ghost use Rattle.match_cubes.specs.Points.{members_of, setting};
ghost use Rattle.match_cubes.specs.Steps as steps;
ghost use Rattle.match_cubes.specs.Suited.{are_suited};
ghost use Rattle.match_cubes.specs.Ternary.{any_bits};
ghost use Rattle.match_cubes.specs.Width.{width_of};

use crate::asked::{ask, width as field_width};
use crate::fault::CubeFault;
use crate::inwards::{asks_all, tests, turn, turned_rel};
use crate::meet::meets;
use crate::points::points;
use crate::ranges::push_prefixes;
use crate::sets::Sets;
use crate::ternary::{push_turned, under};
use crate::width::{joined_width, width};
use inet_packet::cube::{Bits, Cube};
use inet_packet::regs::At;
use match_language::expr::{Expr, Rel, Value};
use match_language::field::{Field, Predicate};
use ovn_base::limits::MAX_WIDTH;
use ovn_base::list::List;
use ovn_base::memory::NoMemory;
use ovn_base::ports::Ports;
use std::alloc::Global;

// What is other than the value.
fn other(alloc: Global, width: u32, point: &Option<Bits>) -> Result<List<Bits>, NoMemory>
    requires { width ≤ 48 }
    ensures { IfOk result (λ all. all ≡ spec.other width point.now) }
{
    let mut all = List::new(alloc);
    match point {
        Some(bits) => push_turned(width, bits, &mut all)?,
        None => all.push(Bits::ANY)?,
    }
    Ok(all)
}

// Whether nothing is other than the value.
fn asks_nothing(point: &Option<Bits>) -> bool
    ensures { result ≡ steps.asks_nothing point.now }
{
    match point {
        Some(bits) => bits.mask == 0,
        None => false,
    }
}

// Whether nothing is other than one of the values.
fn one_asks_nothing(points: &[Option<Bits>]) -> bool
    ensures { result ≡ list_any steps.asks_nothing points.now }
{
    for point in points {
        if asks_nothing(point) {
            return true;
        }
    }
    false
}

// What is none of the values; no list on the way is longer than the comparison is wide.
#[tactic(auto, using(crate::proofs::Empty::nothing_unlike), unfolding(crate::specs::Cubes::unlike))]
fn unlike(alloc: Global, width: u32, points: &[Option<Bits>]) -> Result<List<Bits>, NoMemory>
    requires { width ≤ 48 }
    ensures { IfOk result (λ all. all ≡ spec.unlike width (any_bits ∷ []) points.now) }
{
    if one_asks_nothing(points) {
        return Ok(List::new(alloc));
    }
    let mut all = List::new(alloc);
    all.push(Bits::ANY)?;
    for point in points {
        let others = other(alloc, width, point)?;
        all = meets(alloc, all.as_slice(), others.as_slice())?;
    }
    Ok(all)
}

// What is one of the values.
fn equal(alloc: Global, points: &[Option<Bits>]) -> Result<List<Bits>, NoMemory>
    ensures { IfOk result (λ all. all ≡ flat_map option_to_list points.now) }
{
    let mut all = List::new(alloc);
    for point in points {
        if let Some(bits) = point {
            all.push(*bits)?;
        }
    }
    Ok(all)
}

// What is less or greater than the one value.
fn ordered(alloc: Global, width: u32, rel: Rel, values: &[Value]) -> Result<List<Bits>, NoMemory>
    requires { width ≤ 48 }
    ensures { IfOk result (λ all. all ≡ spec.ordered width rel values.now) }
{
    let mut all = List::new(alloc);
    match values {
        [Value::Number { bits, .. }] => push_prefixes(width, rel, *bits, &mut all)?,
        _ => {}
    }
    Ok(all)
}

// The values under masks that stand in the relation.
#[tactic(auto, using(crate::proofs::OrderRelations::alternatives_order), unfolding(crate::specs::Cubes::alternatives))]
fn alternatives(
    alloc: Global,
    field: Field,
    rel: Rel,
    values: &[Value],
    sets: &Sets,
    ports: &Ports,
) -> Result<List<Bits>, NoMemory>
    ensures { IfOk result (λ all. all ≡ spec.alternatives (setting sets.now ports.now) field rel values.now) }
{
    match rel {
        Rel::Eq => {
            let points = points(alloc, field, values, sets, ports)?;
            equal(alloc, points.as_slice())
        }
        Rel::Ne => {
            let points = points(alloc, field, values, sets, ports)?;
            unlike(alloc, field_width(field), points.as_slice())
        }
        _ => ordered(alloc, field_width(field), rel, values),
    }
}

// Has the cube ask for each of these too.
fn ask_all(cube: &mut Cube, tests: &[(Field, Bits)])
    ensures { cube.new ≡ spec.ask_all cube.old tests.now }
{
    for (field, bits) in tests {
        ask(cube, *field, *bits);
    }
}

// The cube that asks for the prerequisite, and this of the field.
#[tactic(auto, unfolding(crate::specs::Cubes::comparing))]
fn comparing(field: Field, bits: Bits) -> Cube
    ensures { result ≡ spec.comparing field bits }
{
    let mut cube = Cube::EVERYTHING;
    match field.prerequisite() {
        Some(predicate) => ask_all(&mut cube, tests(predicate)),
        None => {}
    }
    ask(&mut cube, field, bits);
    cube
}

// Each of them, beside the prerequisite.
fn compared(alloc: Global, field: Field, all: &[Bits]) -> Result<List<Cube>, NoMemory>
    ensures { IfOk result (λ cubes. cubes ≡ map (spec.comparing field) all.now) }
{
    let mut cubes = List::new(alloc);
    for bits in all {
        let cube = comparing(field, *bits);
        let _entry: &Option<At> = &cube.at;
        cubes.push(cube)?;
    }
    Ok(cubes)
}

fn comparison_cubes(
    alloc: Global,
    field: Field,
    rel: Rel,
    values: &[Value],
    sets: &Sets,
    ports: &Ports,
) -> Result<List<Cube>, NoMemory>
    ensures { IfOk result (λ cubes. cubes ≡ map (spec.comparing field) (spec.alternatives (setting sets.now ports.now) field rel values.now)) }
{
    let all = alternatives(alloc, field, rel, values, sets, ports)?;
    compared(alloc, field, all.as_slice())
}

// The cube of all packets, or none.
fn constant_cubes(alloc: Global, truth: bool) -> Result<List<Cube>, NoMemory>
    ensures { IfOk result (λ cubes. cubes ≡ spec.constant_cubes truth) }
{
    let mut cubes = List::new(alloc);
    if truth {
        let cube = Cube::EVERYTHING;
        let _entry: &Option<At> = &cube.at;
        cubes.push(cube)?;
    }
    Ok(cubes)
}

// One list more, that `&&` joins or `||`.
fn join(
    alloc: Global,
    is_every: bool,
    so_far: List<Cube>,
    cubes: List<Cube>,
) -> Result<List<Cube>, NoMemory>
    ensures { IfOk result (λ all. all ≡ steps.join_one is_every so_far cubes) }
{
    if is_every {
        meets(alloc, so_far.as_slice(), cubes.as_slice())
    } else {
        let mut all = so_far;
        all.append(cubes)?;
        Ok(all)
    }
}

// The cubes of a test of a predicate, or of its negation.
#[tactic(auto, unfolding(crate::specs::Steps::test_in))]
fn test_cubes(
    alloc: Global,
    field: Field,
    bits: &Bits,
    positive: bool,
) -> Result<List<Cube>, NoMemory>
    ensures { IfOk result (λ cubes. cubes ≡ steps.test_in positive (field, bits.now)) }
{
    let mut all = List::new(alloc);
    let point = under(bits.value, bits.mask);
    if positive {
        all.push(point)?;
        return compared(alloc, field, all.as_slice());
    }
    all.push(Bits::ANY)?;
    let mut others = List::new(alloc);
    push_turned(field_width(field), &point, &mut others)?;
    let met = meets(alloc, all.as_slice(), others.as_slice())?;
    compared(alloc, field, met.as_slice())
}

#[tactic(auto, using(crate::proofs::Joins::join_at, crate::proofs::Joins::join_done), unfolding(crate::specs::Steps::predicate_in))]
fn predicate_cubes(
    alloc: Global,
    predicate: Predicate,
    positive: bool,
) -> Result<List<Cube>, NoMemory>
    ensures { IfOk result (λ cubes. cubes ≡ steps.predicate_in predicate positive) }
{
    let is_every = turn(positive, asks_all(predicate));
    let mut all = constant_cubes(alloc, is_every)?;
    for (field, bits) in tests(predicate) {
        let cubes = test_cubes(alloc, *field, bits, positive)?;
        all = join(alloc, is_every, all, cubes)?;
    }
    Ok(all)
}

// The cubes of terms that `&&` joins, or `||`; no list on the way is longer than its width.
#[cycle(cubes)]
#[tactic(auto, using(crate::proofs::Joins::join_done, crate::proofs::Empty::joined_none), unfolding(crate::specs::Steps::joined_in))]
fn joined_cubes(
    alloc: Global,
    terms: &[Expr],
    is_every: bool,
    positive: bool,
    sets: &Sets,
    ports: &Ports,
) -> Result<List<Cube>, NoMemory>
    ensures { IfOk result (λ all. all ≡ steps.joined_in (setting sets.now ports.now) is_every positive terms.now) }
{
    if is_every && joined_width(terms, true, positive, sets) == 0 {
        return Ok(List::new(alloc));
    }
    let mut all = constant_cubes(alloc, is_every)?;
    for term in terms {
        let cubes = cubes_in(alloc, term, positive, sets, ports)?;
        all = join(alloc, is_every, all, cubes)?;
    }
    Ok(all)
}

// The cubes of the match, or of its negation.
#[cycle(cubes)]
#[tactic(auto, using(crate::proofs::Joins::cubes_const, crate::proofs::Joins::cubes_is, crate::proofs::Joins::cubes_not, crate::proofs::Joins::cubes_all, crate::proofs::Joins::cubes_any, crate::proofs::Joins::cubes_compare))]
fn cubes_in(
    alloc: Global,
    expr: &Expr,
    positive: bool,
    sets: &Sets,
    ports: &Ports,
) -> Result<List<Cube>, NoMemory>
    ensures { IfOk result (λ all. all ≡ spec.cubes_in (setting sets.now ports.now) expr.now positive) }
{
    match expr {
        Expr::Const(truth) => constant_cubes(alloc, turn(positive, *truth)),
        Expr::Is(predicate) => predicate_cubes(alloc, *predicate, positive),
        Expr::Not(term) => cubes_in(alloc, term.get(), !positive, sets, ports),
        Expr::All(terms) => joined_cubes(alloc, terms.as_slice(), positive, positive, sets, ports),
        Expr::Any(terms) => joined_cubes(alloc, terms.as_slice(), !positive, positive, sets, ports),
        Expr::Compare { field, rel, values } => {
            comparison_cubes(
                alloc,
                *field,
                turned_rel(positive, *rel),
                values.as_slice(),
                sets,
                ports,
            )
        }
    }
}

/// The cubes of the match on the datapath that has these live ports.
#[tactic(auto, using(crate::proofs::WidthLaws::cubes_few, crate::proofs::OrderRelations::too_wide, crate::proofs::OrderRelations::not_wide))]
pub fn cubes(
    alloc: Global,
    expr: &Expr,
    sets: &Sets,
    ports: &Ports,
) -> Result<List<Cube>, CubeFault>
    requires suited { are_suited expr.now true ≡ true }
    // They are the cubes of the match.
    ensures cubes { IfOk result (λ all. all ≡ spec.cubes_of (setting sets.now ports.now) expr.now) }
    // There are at most as many as the match is wide.
    ensures few { IfOk result (λ all. length all ≤ width_of (members_of sets.now) expr.now) }
    // A packet with its registers is in one of them exactly where the match holds.
    ensures exact { IfOk result (λ all. answer.AreExact (setting sets.now ports.now) expr.now all) }
    // It is too wide exactly where it is wider than 65,536.
    ensures wide { answer.IsWidth (width_of (members_of sets.now) expr.now) result }
{
    let wide = width(expr, sets);
    if wide > MAX_WIDTH {
        return Err(CubeFault::TooWide(wide));
    }
    match cubes_in(alloc, expr, true, sets, ports) {
        Ok(all) => Ok(all),
        Err(NoMemory) => Err(CubeFault::Memory),
    }
}
