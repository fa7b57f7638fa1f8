//! The rows of r_own: what is for the router itself drops.
ghost use Rattle.std.specs.Prelude.{◌≡◌, ◌++◌, IfOk, OnOk};
ghost use Rattle.stage_rows.specs.RouterRows as spec;

use flow_table::flow::Cause;
use logical_flows::flow::LFlow;
use logical_flows::stage::Stage;
use match_language::field::Field;
use nb_records::router::RouterPort;
use ovn_base::address::Ip4;
use ovn_base::list::List;
use ovn_base::memory::NoMemory;
use stage_rows::priorities::ROUTER_OWN_PRIORITY;
use stage_rows::rows::drop_row;
use stage_rows::terms::{ip_is, only};
use std::alloc::Global;

// The row for what goes to the address.
fn own_row(alloc: Global, ip: Ip4) -> Result<LFlow, NoMemory>
    ensures { IfOk result (λ r. r ≡ spec.own_row ip) }
{
    let terms = only(alloc, ip_is(alloc, Field::Ip4Dst, ip)?)?;
    drop_row(
        alloc,
        Stage::RouterOwn,
        ROUTER_OWN_PRIORITY,
        terms,
        Cause::ForRouter,
    )
}

/// Adds the rows of a port, one for each of its addresses.
pub(crate) fn push_port_own(
    alloc: Global,
    port: &RouterPort,
    out: &mut List<LFlow>,
) -> Result<(), NoMemory>
    ensures { OnOk result (out.new ≡ out.old ++ spec.port_own port.now) }
{
    'networks: for network in port.networks.as_slice() {
        out.push(own_row(alloc, network.addr)?)?;
    }
    Ok(())
}
