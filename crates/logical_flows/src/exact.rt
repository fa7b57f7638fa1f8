//! Laws of `==`, of orders and of clones of logical flows, units and facts, each on a function that does nothing: call it, and its
//! clause is a fact of the call.
ghost use Rattle.std.specs.Prelude.{◌≡◌, ◌↔◌, true};
ghost use Rattle.std.specs.declared.cmp.Ordering.TheVariants.{Equal};

use crate::action::Action;
use crate::fact::{Fact, FactSet};
use crate::flow::{LFlow, RegIs};
use crate::stage::{Pipeline, Stage};
use crate::unit::UnitId;
use flow_table::exact::{exact_cause, exact_cause_clone, exact_zone_of};
use inet_packet::exact::exact_reg;
use match_language::exact::exact_expr;
use ovn_base::address::{Backend, exact_backend, exact_mac};
use ovn_base::equality::{equal_where_same, exact_list, exact_list_clone, exact_order};
use ovn_base::name::exact_name;

/// Pipelines are equal exactly where they are the same.
pub fn exact_pipeline()
    ensures { (a b : Pipeline) → (⟦<Pipeline as PartialEq>⟧.eq a b ≡ true) ↔ (a ≡ b) }
{}

/// Stages are equal exactly where they are the same.
pub fn exact_stage()
    ensures { (a b : Stage) → (⟦<Stage as PartialEq>⟧.eq a b ≡ true) ↔ (a ≡ b) }
{}

/// Registers with their numbers are equal exactly where they are the same.
pub fn exact_reg_is()
    ensures { (a b : RegIs) → (⟦<RegIs as PartialEq>⟧.eq a b ≡ true) ↔ (a ≡ b) }
{}

/// A clone of a register with its number is that one.
pub fn exact_reg_is_clone()
    ensures { (a b : RegIs) → ⟦<RegIs as Clone>⟧.is_clone a b → b ≡ a }
{}

/// Actions are equal exactly where they are the same.
pub fn exact_action()
    ensures { (a b : Action) → (⟦<Action as PartialEq>⟧.eq a b ≡ true) ↔ (a ≡ b) }
{
    exact_cause();
    exact_mac();
    exact_name();
    exact_reg();
    exact_zone_of();
    exact_backend();
    exact_list::<Backend>();
    equal_where_same::<Action>();
}

/// A clone of an action is that action.
pub fn exact_action_clone()
    ensures { (a b : Action) → ⟦<Action as Clone>⟧.is_clone a b → b ≡ a }
{
    exact_cause_clone();
    exact_backend();
    exact_list_clone::<Backend>();
}

/// Flows are equal exactly where they are the same.
pub fn exact_flow()
    ensures { (a b : LFlow) → (⟦<LFlow as PartialEq>⟧.eq a b ≡ true) ↔ (a ≡ b) }
{
    exact_pipeline();
    exact_stage();
    exact_reg_is();
    exact_expr();
    exact_action();
    equal_where_same::<LFlow>();
}

/// A clone of a flow is that flow.
pub fn exact_flow_clone()
    ensures { (a b : LFlow) → ⟦<LFlow as Clone>⟧.is_clone a b → b ≡ a }
{
    exact_reg_is_clone();
    exact_list_clone::<RegIs>();
    exact_expr();
    exact_action_clone();
    exact_list_clone::<Action>();
}

/// Units are equal exactly where they are the same.
pub fn exact_unit()
    ensures { (a b : UnitId) → (⟦<UnitId as PartialEq>⟧.eq a b ≡ true) ↔ (a ≡ b) }
{}

/// The order of units answers `Equal` only where they are the same.
pub fn exact_unit_order()
    ensures { (a b : UnitId) → ⟦<UnitId as Ord>⟧.cmp a b ≡ Equal → a ≡ b }
{
    exact_unit();
    exact_order::<UnitId>();
}

/// A clone of a unit is that unit.
pub fn exact_unit_clone()
    ensures { (a b : UnitId) → ⟦<UnitId as Clone>⟧.is_clone a b → b ≡ a }
{}

/// Facts are equal exactly where they are the same.
pub fn exact_fact()
    ensures { (a b : Fact) → (⟦<Fact as PartialEq>⟧.eq a b ≡ true) ↔ (a ≡ b) }
{}

/// A clone of a fact is that fact.
pub fn exact_fact_clone()
    ensures { (a b : Fact) → ⟦<Fact as Clone>⟧.is_clone a b → b ≡ a }
{}

/// Sets of facts are equal exactly where they are the same.
pub fn exact_fact_set()
    ensures { (a b : FactSet) → (⟦<FactSet as PartialEq>⟧.eq a b ≡ true) ↔ (a ≡ b) }
{
    exact_fact();
    exact_list::<Fact>();
    equal_where_same::<FactSet>();
}
