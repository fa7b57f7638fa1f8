//! The ports of a datapath, with their keys.
ghost use Rattle.std.specs.Prelude.{◌≡◌, IfOk};

use crate::list::List;
use crate::memory::NoMemory;
use crate::name::Name;

/// Ports of one datapath, each with its key there.
#[derive(Debug, Clone, PartialEq, Eq, Hash, Drop)]
pub struct Ports {
    pub list: List<(Name, u16)>,
}

impl Ports {
    /// Equal ports in memory of their own.
    pub fn copy(&self) -> Result<Ports, NoMemory>
        ensures { IfOk result (λ p. p ≡ self.now) }
    {
        Ok(Ports {
            list: self.list.copy()?,
        })
    }
}
