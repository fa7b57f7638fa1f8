//! Meets: what is in one of some and in one of others.
ghost use Rattle.std.specs.Prelude.{◌≡◌, ◌++◌, List, IfOk, OnOk, flat_map, option_to_list};
ghost use Rattle.match_cubes.specs.Ternary as spec;

use ovn_base::list::List;
use ovn_base::memory::NoMemory;
use std::alloc::Global;

/// What may meet another of its kind.
pub(crate) trait Meet: Drop {
    ghost both: { Self → Self → List Self };

    /// What is in both, if anything is.
    fn meet(&self, other: &Self) -> Option<Self>
        ensures { option_to_list result ≡ both self.now other.now };
}

fn push_meets<T: Meet>(one: &T, others: &[T], out: &mut List<T>) -> Result<(), NoMemory>
    ensures { OnOk result (out.new ≡ out.old ++ flat_map (T.both one.now) others.now) }
{
    for other in others {
        if let Some(both) = one.meet(other) {
            out.push(both)?;
        }
    }
    Ok(())
}

/// The meets of one of each.
#[tactic(auto, unfolding(crate::specs::Ternary::meets))]
pub(crate) fn meets<T: Meet>(alloc: Global, ones: &[T], others: &[T]) -> Result<List<T>, NoMemory>
    ensures { IfOk result (λ all. all ≡ spec.meets T.both ones.now others.now) }
{
    let mut all = List::new(alloc);
    for one in ones {
        push_meets(one, others, &mut all)?;
    }
    Ok(all)
}
