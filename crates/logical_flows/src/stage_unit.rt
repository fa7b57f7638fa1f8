//! What the compiler asks of each kind of unit.
ghost use Rattle.std.specs.Prelude.{◌≡◌, ◌++◌, List, OnOk, OnErr};
ghost use Rattle.ovn_base.specs.lists.Among.{Among};
ghost use Rattle.ovn_base.specs.numbers.Steps.{after_steps};
ghost use Rattle.logical_flows.specs.declared.fact.Fact.{Fact};
ghost use Rattle.logical_flows.specs.declared.flow.LFlow.{LFlow};

use crate::flow::LFlow;
use ovn_base::list::List;
use ovn_base::memory::NoMemory;
use ovn_base::steps::Steps;
use std::alloc::Global;

/// A unit of the network: it has rows, which follow from the facts that it reads.
pub trait StageUnit {
    /// What the facts are read from.
    type Facts;

    /// Its rows.
    ghost flows_of: { Self → Self.Facts → List LFlow };

    /// The facts that it reads.
    ghost reads_of: { Self → Self.Facts → List Fact };

    /// The fact has the same value in both.
    ghost Agree: { Self.Facts → Self.Facts → Fact → Type 0 };

    /// The facts admit the unit.
    ghost fits: { Self → Self.Facts → Type 0 };

    /// Adds the unit's rows behind those of `out`, and counts one step. Without memory `out` stays as it was.
    fn translate<L>(
        &self,
        alloc: Global,
        facts: &Self::Facts,
        out: &mut List<LFlow>,
        steps: &mut Steps<L>,
    ) -> Result<(), NoMemory>
        requires { fits self.now facts.now }
        ensures rows { OnOk result (out.new ≡ out.old ++ flows_of self.now facts.now) }
        ensures unchanged { OnErr result (out.new ≡ out.old) }
        ensures steps { steps.new ≡ after_steps 1 steps.old };

    /// Where the facts that a unit reads have the same values elsewhere, it reads the same facts there and has the same rows.
    ghost law: { (u : Self) (f g : Self.Facts) → fits u f → fits u g → ((fact : Fact) → Among fact (reads_of u f) → Agree f g fact) → (reads_of u f ≡ reads_of u g) × (flows_of u f ≡ flows_of u g) };
}
