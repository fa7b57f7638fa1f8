//! Whether flows are ones from which walks end.
ghost use Rattle.std.specs.Prelude.{◌≡◌, IsTrue};
ghost use Rattle.std.specs.List.{AllByRecursion};
ghost use Rattle.ovn_base.specs.declared.stages.TheConstants.{OUTPUT_TABLE};
ghost use Rattle.switch_engine.specs.Proper.{CanPatch, IsProperFlow, Rises};

use flow_table::flow::{FlowOp, SharedFlow};
use inet_packet::regs::Reg;
use ovn_base::limits::FLOOD_KEY;
use ovn_base::stages::OUTPUT_TABLE;

// Whether packets may come into the datapath of the key by its port of the key, with such zones.
fn can_enter(dp: u32, in_port: u16, z_dnat: u16, z_snat: u16) -> bool
    ensures { IsTrue result → CanPatch dp in_port z_dnat z_snat }
{
    dp < 1 << 24 && in_port < FLOOD_KEY
}

// Whether they may from this table.
fn can_leave(table: u8, dp: u32, in_port: u16, z_dnat: u16, z_snat: u16) -> bool
    ensures table { IsTrue result → table ≡ OUTPUT_TABLE }
    ensures patch { IsTrue result → CanPatch dp in_port z_dnat z_snat }
{
    table == OUTPUT_TABLE && can_enter(dp, in_port, z_dnat, z_snat)
}

// Whether the action may stand in a flow of the table.
fn rises(table: u8, op: &FlowOp) -> bool
    ensures { IsTrue result → Rises table op.now }
{
    match op {
        FlowOp::Set { reg, value } => match reg {
            Reg::Dp => *value < 1 << 24,
            Reg::InPort => *value < 1 << 15,
            Reg::OutPort | Reg::ZIn | Reg::ZOut | Reg::ZDnat | Reg::ZSnat => *value < 1 << 16,
            Reg::State => *value < 8,
            _ => *value < 2,
        },
        FlowOp::Go(next) => *next > table,
        FlowOp::Copies(_) => table < 34,
        FlowOp::Patch {
            dp,
            in_port,
            z_dnat,
            z_snat,
        } => can_leave(table, *dp, *in_port, *z_dnat, *z_snat),
        _ => true,
    }
}

// Whether all of them may.
fn all_rise(table: u8, ops: &[FlowOp]) -> bool
    ensures { IsTrue result → AllByRecursion (Rises table) ops.now }
{
    'ops: for op in ops {
        if !rises(table, op) {
            return false;
        }
    }
    true
}

/// Whether the flow is one from which walks end.
pub fn is_proper(flow: &SharedFlow) -> bool
    ensures { IsTrue result → IsProperFlow flow.now }
{
    let flow = flow.get();
    all_rise(flow.table, flow.ops.as_slice())
}
