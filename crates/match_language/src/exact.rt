//! Laws of `==` and of clones of expressions, each on a function that does nothing: call it, and its clause is a fact of the call.
ghost use Rattle.std.specs.Prelude.{◌≡◌, ◌↔◌, true};

use crate::expr::{Expr, Rel, Value};
use crate::field::{Direction, Field, Predicate};
use ovn_base::equality::equal_where_same;

/// Fields are equal exactly where they are the same.
pub fn exact_field()
    ensures { (a b : Field) → (⟦<Field as PartialEq>⟧.eq a b ≡ true) ↔ (a ≡ b) }
{}

/// Predicates are equal exactly where they are the same.
pub fn exact_predicate()
    ensures { (a b : Predicate) → (⟦<Predicate as PartialEq>⟧.eq a b ≡ true) ↔ (a ≡ b) }
{}

/// Directions are equal exactly where they are the same.
pub fn exact_direction()
    ensures { (a b : Direction) → (⟦<Direction as PartialEq>⟧.eq a b ≡ true) ↔ (a ≡ b) }
{}

/// Relations are equal exactly where they are the same.
pub fn exact_rel()
    ensures { (a b : Rel) → (⟦<Rel as PartialEq>⟧.eq a b ≡ true) ↔ (a ≡ b) }
{}

/// Values are equal exactly where they are the same, by `==` and by a clone.
pub fn exact_value()
    ensures equal { (a b : Value) → (⟦<Value as PartialEq>⟧.eq a b ≡ true) ↔ (a ≡ b) }
    ensures clone { (a b : Value) → ⟦<Value as Clone>⟧.is_clone a b → b ≡ a }
{}

/// Expressions are equal exactly where they are the same, by `==` and by a clone.
pub fn exact_expr()
    ensures equal { (a b : Expr) → (⟦<Expr as PartialEq>⟧.eq a b ≡ true) ↔ (a ≡ b) }
    ensures clone { (a b : Expr) → ⟦<Expr as Clone>⟧.is_clone a b → b ≡ a }
{
    exact_predicate();
    exact_field();
    exact_rel();
    exact_value();
    equal_where_same::<Expr>();
}
