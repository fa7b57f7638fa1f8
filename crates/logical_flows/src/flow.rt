ghost use Rattle.std.specs.Prelude.{◌≡◌, IfOk};

use crate::action::Action;
use crate::exact::exact_flow_clone;
use crate::stage::{Pipeline, Stage};
use inet_packet::regs::Reg;
use match_language::expr::Expr;
use ovn_base::list::List;
use ovn_base::memory::NoMemory;

/// A register, and the number that it has to have.
#[derive(Clone, Copy, PartialEq, Eq, Hash, Debug)]
pub struct RegIs {
    pub reg: Reg,
    pub value: u32,
}

/// A row of a stage, on any datapath: what it matches, and what it does. It matches a packet of which all of `regs` and `matching`
/// hold.
#[derive(PartialEq, Eq, Hash, Clone, Debug, Drop)]
pub struct LFlow {
    pub pipeline: Pipeline,
    pub stage: Stage,
    /// Of the flows of a stage that match, one of the greatest priority is taken.
    pub priority: u16,
    /// Of those, one of the greatest rank.
    pub rank: u8,
    pub regs: List<RegIs>,
    pub matching: Expr,
    pub actions: List<Action>,
}

impl LFlow {
    /// An equal flow in memory of its own.
    pub fn copy(&self) -> Result<LFlow, NoMemory>
        ensures { IfOk result (λ f. f ≡ self.now) }
    {
        exact_flow_clone();
        Ok(self.clone()?)
    }
}
