//! Laws of `==` and of orders, each on a function that does nothing: call it, and its clauses are facts of the call.
ghost use Rattle.std.specs.Prelude.{◌≡◌, ◌↔◌, true};
ghost use Rattle.std.specs.BTreeMap.{is_at};
ghost use Rattle.logical_flows.specs.declared.flow.LFlow.{LFlow};
ghost use Rattle.logical_flows.specs.declared.unit.UnitId.{UnitId};
ghost use Rattle.ovn_base.specs.declared.name.Name.{Name};
ghost use Rattle.northd_core.specs.Held.{same_pair, unit_order};

use logical_flows::exact::{exact_flow, exact_unit_order};
use logical_flows::unit::UnitId;
use ovn_base::name::exact_name;

// What is the same stands at the same place in the order.
fn same_place<T: Ord>()
    ensures { (x y : T) → x ≡ y → is_at (T.cmp x) y ≡ true }
{}

/// Units that are equal by their order are the same.
pub(crate) fn exact_units()
    ensures { (u v : UnitId) → (is_at (unit_order u) v ≡ true) ↔ (u ≡ v) }
{
    exact_unit_order();
    same_place::<UnitId>();
}

/// Equal pairs of flows and datapaths are the same.
#[tactic(auto, using(crate::proofs::Pairs::exact_pair))]
pub(crate) fn exact_pairs()
    ensures { (p q : LFlow × Name) → (same_pair p q ≡ true) ↔ (p ≡ q) }
{
    exact_flow();
    exact_name();
}
