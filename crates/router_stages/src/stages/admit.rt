//! The rows of r_admit: which packets are for the router.
ghost use Rattle.std.specs.Prelude.{◌≡◌, ◌++◌, OnOk};
ghost use Rattle.stage_rows.specs.RouterRows as spec;

use flow_table::flow::Cause;
use logical_flows::flow::LFlow;
use logical_flows::stage::Stage;
use match_language::expr::Expr;
use match_language::field::{Field, Predicate};
use nb_records::router::RouterPort;
use ovn_base::list::List;
use ovn_base::memory::NoMemory;
use stage_rows::priorities::ROUTER_ADMIT_PRIORITY;
use stage_rows::rows::{drop_row, pass_row};
use stage_rows::terms::{in_is, mac_is, only};
use std::alloc::Global;

/// Adds the rows of a port: for what goes to its Ethernet address, and for ARP to a group's.
pub(crate) fn push_port_admit(
    alloc: Global,
    port: &RouterPort,
    out: &mut List<LFlow>,
) -> Result<(), NoMemory>
    ensures { OnOk result (out.new ≡ out.old ++ spec.port_for_router port.now) }
{
    let mut own = only(alloc, in_is(alloc, &port.name)?)?;
    own.push(mac_is(alloc, Field::EthDst, port.mac)?)?;
    out.push(pass_row(alloc, Stage::RouterAdmit, ROUTER_ADMIT_PRIORITY, own)?)?;
    let mut arp = only(alloc, in_is(alloc, &port.name)?)?;
    arp.push(Expr::Is(Predicate::EthMcast))?;
    arp.push(Expr::Is(Predicate::Arp))?;
    out.push(pass_row(alloc, Stage::RouterAdmit, ROUTER_ADMIT_PRIORITY, arp)?)
}

/// Adds the row of a router: all else drops.
pub(crate) fn push_router_admit(alloc: Global, out: &mut List<LFlow>) -> Result<(), NoMemory>
    ensures { OnOk result (out.new ≡ out.old ++ spec.router_admit) }
{
    let row = drop_row(
        alloc,
        Stage::RouterAdmit,
        0,
        List::new(alloc),
        Cause::NotForRouter,
    )?;
    out.push(row)
}
