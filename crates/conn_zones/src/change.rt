//! Homes that change.
ghost use Rattle.std.specs.Prelude.{◌≡◌, IfOk};

use ovn_base::list::List;
use ovn_base::memory::NoMemory;
use ovn_base::name::Name;

/// New homes: of each port or gateway router whose identity or home changes, or whose list is emptied, with the chassis where it
/// is at home from now on; `None` where it is at home nowhere.
#[derive(Drop)]
pub struct HomeChange {
    pub ports: List<(Name, Option<Name>)>,
    pub routers: List<(Name, Option<Name>)>,
}

impl HomeChange {
    /// An equal change in memory of its own.
    pub fn copy(&self) -> Result<HomeChange, NoMemory>
        ensures { IfOk result (λ c. c ≡ self.now) }
    {
        Ok(HomeChange {
            ports: self.ports.copy()?,
            routers: self.routers.copy()?,
        })
    }
}
