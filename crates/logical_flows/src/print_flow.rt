//! Writes a logical flow as a line.
ghost use Rattle.std.specs.Prelude.{◌≡◌, ◌++◌, codes, decimal, OnOk, OnErr};
ghost use Rattle.match_language.specs.Spelling.{joined_text};
ghost use Rattle.logical_flows.specs.FlowText as spec;
ghost use Rattle.logical_flows.specs.Stages.{pipeline_name, stage_name};

use crate::flow::LFlow;
use crate::print_action::push_actions;
use crate::print_match::push_match;
use crate::words::put;
use ovn_base::memory::NoMemory;
use ovn_base::name::Name;
use ovn_base::number::push_number;

// The names with commas between.
fn push_names(names: &[Name], out: &mut Vec<u8>) -> Result<(), NoMemory>
    ensures { OnOk result (out.new.items ≡ out.old.items ++ joined_text (codes ",") names.now) }
{
    let [first, rest @ ..] = names else {
        return Ok(());
    };
    put(first.text(), out)?;
    for name in rest {
        put(b",", out)?;
        put(name.text(), out)?;
    }
    Ok(())
}

// Where the flow stands.
fn push_place(flow: &LFlow, out: &mut Vec<u8>) -> Result<(), NoMemory>
    ensures { OnOk result (out.new.items ≡ out.old.items ++ spec.place_text flow.now) }
{
    put(flow.pipeline.name(), out)?;
    put(b" ", out)?;
    put(flow.stage.name(), out)?;
    put(b" priority=", out)?;
    push_number(out, u64::from(flow.priority))?;
    put(b" rank=", out)?;
    push_number(out, u64::from(flow.rank))
}

// What the flow matches and does.
fn push_row(flow: &LFlow, out: &mut Vec<u8>) -> Result<(), NoMemory>
    ensures { OnOk result (out.new.items ≡ out.old.items ++ spec.row_text flow.now) }
{
    put(b" match=", out)?;
    push_match(flow.regs.as_slice(), &flow.matching, out)?;
    put(b" actions=", out)?;
    push_actions(flow.actions.as_slice(), out)
}

fn push_line(flow: &LFlow, datapaths: &[Name], out: &mut Vec<u8>) -> Result<(), NoMemory>
    ensures { OnOk result (out.new.items ≡ out.old.items ++ spec.flow_line flow.now datapaths.now) }
{
    push_place(flow, out)?;
    put(b" datapaths=", out)?;
    push_names(datapaths, out)?;
    push_row(flow, out)?;
    put(b"\n", out)
}

/// Writes the line of the flow on these datapaths, in the order given, behind what `out` has. Where memory is wanting nothing is
/// written.
pub fn print_flow(flow: &LFlow, datapaths: &[Name], out: &mut Vec<u8>) -> Result<(), NoMemory>
    ensures text { OnOk result (out.new.items ≡ out.old.items ++ spec.flow_line flow.now datapaths.now) }
    ensures unchanged { OnErr result (out.new.items ≡ out.old.items) }
{
    let mut text = Vec::new(*out.allocator());
    push_line(flow, datapaths, &mut text)?;
    out.extend_from_slice(text.as_slice())?;
    Ok(())
}
