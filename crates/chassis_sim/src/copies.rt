//! Copies of lists of effects and of walks.
ghost use Rattle.std.specs.Prelude.{◌≡◌, IfOk};

use ovn_base::list::List;
use ovn_base::memory::NoMemory;
use switch_engine::effect::NetEffect;
use switch_engine::walk::Walk;

// Equal effects in memory of their own.
pub(crate) fn copy_effects(effects: &List<NetEffect>) -> Result<List<NetEffect>, NoMemory>
    ensures { IfOk result (λ e. e ≡ effects.now) }
{
    let mut copy = List::new(effects.allocator());
    'effects: for effect in effects.as_slice() {
        copy.push(effect.copy()?)?;
    }
    Ok(copy)
}

// Equal walks, which share what their flows match and do.
pub(crate) fn copy_walks(walks: &List<Walk>) -> Result<List<Walk>, NoMemory>
    ensures { IfOk result (λ w. w ≡ walks.now) }
{
    let mut copy = List::new(walks.allocator());
    'walks: for walk in walks.as_slice() {
        copy.push(walk.copy()?)?;
    }
    Ok(copy)
}
