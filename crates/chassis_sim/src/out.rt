//! What the chassis answer.
ghost use Rattle.std.specs.Prelude.{◌≡◌, [], IfOk};

use crate::copies::{copy_effects, copy_walks};
use ovn_base::list::List;
use ovn_base::memory::NoMemory;
use ovn_base::name::Name;
use std::alloc::Global;
use switch_engine::effect::NetEffect;
use switch_engine::walk::Walk;

/// What packets came to, in names.
#[derive(PartialEq, Eq, Debug, Drop)]
pub struct SimOut {
    /// The effects, in the order in which they happened.
    pub effects: List<NetEffect>,
    /// A walk for each packet at a port and for each frame that arrived.
    pub walks: List<Walk>,
}

impl SimOut {
    /// Nothing yet.
    pub fn new(alloc: Global) -> Self
        ensures effects { result.effects ≡ [] }
        ensures walks { result.walks ≡ [] }
    {
        SimOut {
            effects: List::new(alloc),
            walks: List::new(alloc),
        }
    }

    /// Equal effects in memory of their own, and equal walks.
    pub fn copy(&self) -> Result<Self, NoMemory>
        ensures { IfOk result (λ o. o ≡ self.now) }
    {
        Ok(SimOut {
            effects: copy_effects(&self.effects)?,
            walks: copy_walks(&self.walks)?,
        })
    }
}

/// Why a packet or a frame isn't taken.
#[derive(Clone, Copy, PartialEq, Eq, Debug)]
pub enum SimFault {
    /// The port is bound to no chassis.
    NotBound(Name),
    /// No frame of this number waits.
    NoFrame(u128),
    /// Memory was wanted and not found.
    Memory,
}

impl From<NoMemory> for SimFault {
    ghost use Rattle.std.specs.Prelude.{◌≡◌};
    ghost use Rattle.chassis_sim.specs.declared.out.SimFault.TheVariants.{Memory};

    ghost from_gives = { λ x y. y ≡ Memory };

    fn from(_error: NoMemory) -> Self {
        SimFault::Memory
    }
}
