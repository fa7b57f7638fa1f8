//! Laws of `==` and of clones of flows, each on a function that does nothing: call it, and its clause is a fact of the
//! call.
ghost use Rattle.std.specs.Prelude.{◌≡◌, ◌↔◌, true, IfOk};
ghost use Rattle.flow_table.specs.declared.flow.Cause.{Cause};
ghost use Rattle.flow_table.specs.declared.flow.Flow.{Flow};
ghost use Rattle.flow_table.specs.declared.flow.FlowOp.{FlowOp};
ghost use Rattle.flow_table.specs.declared.flow.Member.{Member};
ghost use Rattle.flow_table.specs.declared.flow.ZoneOf.{ZoneOf};

use crate::few::Few;
use crate::flow::{Cause, Flow, FlowOp, Member, SharedFlow, ZoneOf};
use inet_packet::exact::{exact_cube, exact_reg};
use inet_packet::regs::At;
use ovn_base::address::{exact_backend, exact_ip4, exact_mac};
use ovn_base::boxed::Boxed;
use ovn_base::equality::equal_where_same;
use ovn_base::memory::NoMemory;
use ovn_base::name::exact_name;

/// Causes are equal exactly where they are the same.
pub fn exact_cause()
    ensures { (a b : Cause) → (⟦<Cause as PartialEq>⟧.eq a b ≡ true) ↔ (a ≡ b) }
{}

/// A clone of a cause is that cause.
pub fn exact_cause_clone()
    ensures { (a b : Cause) → ⟦<Cause as Clone>⟧.is_clone a b → b ≡ a }
{}

/// Zones are equal exactly where they are the same.
pub fn exact_zone_of()
    ensures { (a b : ZoneOf) → (⟦<ZoneOf as PartialEq>⟧.eq a b ≡ true) ↔ (a ≡ b) }
{}

/// Members are equal exactly where they are the same.
pub fn exact_member()
    ensures { (a b : Member) → (⟦<Member as PartialEq>⟧.eq a b ≡ true) ↔ (a ≡ b) }
{}

/// Operations are equal exactly where they are the same.
pub fn exact_op()
    ensures { (a b : FlowOp) → (⟦<FlowOp as PartialEq>⟧.eq a b ≡ true) ↔ (a ≡ b) }
{
    exact_cause();
    exact_mac();
    exact_ip4();
    exact_name();
    exact_reg();
    exact_zone_of();
    exact_backend();
    exact_member();
    equal_where_same::<FlowOp>();
}

/// A clone of an operation is that operation.
pub fn exact_op_clone()
    ensures { (a b : FlowOp) → ⟦<FlowOp as Clone>⟧.is_clone a b → b ≡ a }
{}

/// Flows are equal exactly where they are the same.
pub fn exact_flow()
    ensures { (a b : Flow) → (⟦<Flow as PartialEq>⟧.eq a b ≡ true) ↔ (a ≡ b) }
{
    exact_cube();
    exact_op();
    equal_where_same::<Flow>();
}

/// A clone of a shared flow is that flow.
pub fn exact_flow_clone()
    ensures { (a b : Flow) → ⟦<SharedFlow as Clone>⟧.is_clone a b → b ≡ a }
{}

impl FlowOp {
    /// An equal operation, which shares its name or list.
    pub fn copy(&self) -> Result<FlowOp, NoMemory>
        ensures { IfOk result (λ op. op ≡ self.now) }
    {
        exact_op_clone();
        let op = self.clone()?;
        Ok(op)
    }
}

impl Flow {
    /// An equal flow with a cube and operations of its own, whose names and lists are shared.
    pub fn copy(&self) -> Result<Flow, NoMemory>
        ensures { IfOk result (λ f. f ≡ self.now) }
    {
        exact_op_clone();
        let alloc = self.ops.allocator();
        let cube = *self.cube.get();
        let _entry: &Option<At> = &cube.at;
        Ok(Flow {
            table: self.table,
            priority: self.priority,
            rank: self.rank,
            cube: Boxed::new(alloc, cube)?,
            ops: Few::from_slice(alloc, self.ops.as_slice())?,
            cookie: self.cookie,
        })
    }
}
