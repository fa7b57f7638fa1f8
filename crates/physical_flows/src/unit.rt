//! Who flows are made for.
ghost use Rattle.std.specs.Prelude.{◌≡◌, ◌↔◌, true};
ghost use Rattle.std.specs.BTreeMap.{is_at};

use ovn_base::name::{Name, exact_name};

/// Who the flows of a chassis are made for. What a unit's flows follow from is little, so an event changes those of few units.
#[derive(Clone, Copy, PartialEq, Eq, PartialOrd, Ord, Debug)]
pub enum FlowUnit {
    /// The rows that every chassis has.
    Common,
    /// The switch of that name.
    Switch(Name),
    /// The switch port of that name.
    Port(Name),
    /// The router port of that name.
    RouterPort(Name),
}

/// Units that are equal by their order are the same, and a clone of a unit is that unit. It does nothing: call it, and its
/// clauses are facts of the call.
pub fn exact_unit()
    ensures order { (a b : FlowUnit) → (is_at (⟦<FlowUnit as Ord>⟧.cmp a) b ≡ true) ↔ (a ≡ b) }
    ensures clone { (a b : FlowUnit) → ⟦<FlowUnit as Clone>⟧.is_clone a b → b ≡ a }
{
    exact_name();
}
