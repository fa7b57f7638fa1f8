//! The rows of s_admit.
ghost use Rattle.std.specs.Prelude.{◌≡◌, ◌++◌, IfOk, OnOk};
ghost use Rattle.stage_rows.specs.SwitchRows as spec;

use flow_table::flow::Cause;
use logical_flows::flow::LFlow;
use logical_flows::stage::Stage;
use match_language::expr::Expr;
use match_language::field::Field;
use nb_records::switch::SwitchPort;
use ovn_base::list::List;
use ovn_base::memory::NoMemory;
use stage_rows::priorities::{DISABLED_PRIORITY, GROUP_SOURCE_PRIORITY, VLAN_PRIORITY};
use stage_rows::rows::{drop_row, push_base};
use stage_rows::terms::{field_is, has_bit, in_is, only};
use std::alloc::Global;

// The bit of an Ethernet address that the addresses of groups have: the lowest of its first byte.
const GROUP_BIT: u64 = 0x0100_0000_0000;

/// Adds the row of a disabled port: it drops what comes by it.
pub(crate) fn push_port_admit(
    alloc: Global,
    port: &SwitchPort,
    out: &mut List<LFlow>,
) -> Result<(), NoMemory>
    ensures { OnOk result (out.new ≡ out.old ++ spec.port_admit port.now) }
{
    if port.enabled {
        return Ok(());
    }
    let terms = only(alloc, in_is(alloc, &port.name)?)?;
    let row = drop_row(
        alloc,
        Stage::SwitchAdmit,
        DISABLED_PRIORITY,
        terms,
        Cause::Disabled,
    )?;
    out.push(row)
}

// The Ethernet source is a group's.
fn from_group(alloc: Global) -> Result<Expr, NoMemory>
    ensures { IfOk result (λ x. x ≡ spec.from_group) }
{
    has_bit(alloc, Field::EthSrc, GROUP_BIT)
}

/// Adds the rows of the switch: they drop what comes from a group's address, and what has a tag of a VLAN.
pub(crate) fn push_switch_admit(alloc: Global, out: &mut List<LFlow>) -> Result<(), NoMemory>
    ensures { OnOk result (out.new ≡ out.old ++ spec.switch_admit) }
{
    let terms = only(alloc, from_group(alloc)?)?;
    let row = drop_row(
        alloc,
        Stage::SwitchAdmit,
        GROUP_SOURCE_PRIORITY,
        terms,
        Cause::BadSource,
    )?;
    out.push(row)?;
    let terms = only(alloc, field_is(alloc, Field::EthType, 0x8100)?)?;
    let row = drop_row(alloc, Stage::SwitchAdmit, VLAN_PRIORITY, terms, Cause::Vlan)?;
    out.push(row)?;
    push_base(alloc, Stage::SwitchAdmit, out)
}
