//! Matches that name the port of exit.
ghost use Rattle.std.specs.Prelude.{◌≡◌};
ghost use Rattle.std.specs.List.{list_any};
ghost use Rattle.nb_edits.specs.Directions as spec;

use match_language::expr::Expr;
use match_language::field::{Direction, Field};

// One of the terms names the port of exit.
#[cycle(matches)]
fn any_names_outport(terms: &[Expr]) -> bool
    ensures { result ≡ list_any spec.names_outport terms.now }
{
    for term in terms {
        if names_outport(term) {
            return true;
        }
    }
    false
}

// The match names the port of exit.
#[cycle(matches)]
#[tactic(auto, using(crate::proofs::Outports::outport_const, crate::proofs::Outports::outport_is, crate::proofs::Outports::outport_not, crate::proofs::Outports::outport_all, crate::proofs::Outports::outport_any, crate::proofs::Outports::outport_compare))]
fn names_outport(expr: &Expr) -> bool
    ensures { result ≡ spec.names_outport expr.now }
{
    match expr {
        Expr::Const(_) => false,
        Expr::Is(_) => false,
        Expr::Not(term) => names_outport(term.get()),
        Expr::All(terms) => any_names_outport(terms.as_slice()),
        Expr::Any(terms) => any_names_outport(terms.as_slice()),
        Expr::Compare { field, .. } => is_outport(*field),
    }
}

fn is_outport(field: Field) -> bool
    ensures { result ≡ spec.is_outport field }
{
    match field {
        Field::Outport => true,
        _ => false,
    }
}

/// Whether a rule of the direction can't have the match.
pub(crate) fn misdirects(direction: Direction, matching: &Expr) -> bool
    ensures { result ≡ spec.misdirects direction matching.now }
{
    match direction {
        Direction::FromLport => names_outport(matching),
        Direction::ToLport => false,
    }
}
