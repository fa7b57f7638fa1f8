//! The rows of r_neighbour: the Ethernet address of the next hop.
ghost use Rattle.std.specs.Prelude.{◌≡◌, ◌++◌, IfOk, OnOk};
ghost use Rattle.stage_rows.specs.RouterRows as spec;

use flow_table::flow::Cause;
use inet_packet::regs::Reg;
use logical_flows::action::Action;
use logical_flows::flow::{LFlow, RegIs};
use logical_flows::stage::Stage;
use ovn_base::address::{Ip4, Mac};
use ovn_base::list::List;
use ovn_base::memory::NoMemory;
use ovn_base::name::Name;
use stage_rows::priorities::NEIGHBOUR_PRIORITY;
use stage_rows::rows::{deliver, drop_row, tracked_row};
use stage_rows::terms::{only, out_is};
use std::alloc::Global;

/// The row for what leaves by the port to the next hop with this IPv4 address, which has this Ethernet address.
pub(crate) fn neighbour_row(
    alloc: Global,
    port: &Name,
    ip: Ip4,
    mac: Mac,
) -> Result<LFlow, NoMemory>
    ensures { IfOk result (λ r. r ≡ spec.neighbour_row port.now ip mac) }
{
    let to_it = RegIs {
        reg: Reg::Next,
        value: ip.0,
    };
    let regs = only(alloc, to_it)?;
    let terms = only(alloc, out_is(alloc, port)?)?;
    let mut actions = only(alloc, Action::EthDst(mac))?;
    actions.push(deliver())?;
    Ok(tracked_row(
        Stage::RouterNeighbour,
        NEIGHBOUR_PRIORITY,
        regs,
        terms,
        actions,
    ))
}

/// Adds the row of a router: it drops what goes to a next hop without a known Ethernet address.
pub(crate) fn push_router_neighbour(alloc: Global, out: &mut List<LFlow>) -> Result<(), NoMemory>
    ensures { OnOk result (out.new ≡ out.old ++ spec.router_neighbour_base) }
{
    let row = drop_row(
        alloc,
        Stage::RouterNeighbour,
        0,
        List::new(alloc),
        Cause::NoNeighbour,
    )?;
    out.push(row)
}
