//! The rows of r_route: networks and routes, the longer prefix first.
ghost use Rattle.std.specs.Prelude.{◌≡◌, ◌++◌, ◌∷◌, [], IfOk, OnOk};
ghost use Rattle.stage_rows.specs.RouterRows as spec;
ghost use Rattle.stage_rows.specs.Rows as rows;
ghost use Rattle.router_stages.specs.Exits.{route_row_by};

use crate::facts::exits::Exit;
use flow_table::flow::Cause;
use inet_packet::regs::Reg;
use logical_flows::action::Action;
use logical_flows::flow::LFlow;
use logical_flows::stage::Stage;
use match_language::field::Field;
use nb_records::router::{Route, RouterPort};
use ovn_base::address::{Cidr, Mac};
use ovn_base::list::List;
use ovn_base::memory::NoMemory;
use ovn_base::name::Name;
use stage_rows::priorities::ROUTE_PRIORITY;
use stage_rows::rows::{drop_row, go_on, match_row};
use stage_rows::terms::{ip_in, only};
use std::alloc::Global;

// Takes one from the time to live, and leaves by the port of this name and Ethernet address, to the next hop that the action sets.
fn routed_by(alloc: Global, port: Name, mac: Mac, next: Action) -> Result<List<Action>, NoMemory>
    ensures { IfOk result (λ l. l ≡ Action.DecTtl ∷ next ∷ Action.SetOut port ∷ Action.EthSrc mac ∷ Action.Set Reg.Loopback 1 ∷ rows.go_on Stage.RouterRoute ∷ []) }
{
    let mut actions = only(alloc, Action::DecTtl)?;
    actions.push(next)?;
    actions.push(Action::SetOut(port))?;
    actions.push(Action::EthSrc(mac))?;
    actions.push(Action::Set {
        reg: Reg::Loopback,
        value: 1,
    })?;
    actions.push(go_on(Stage::RouterRoute))?;
    Ok(actions)
}

// ---- networks

// The row for what goes to an address of the network. It goes before a route of equal length.
fn network_row(alloc: Global, port: &RouterPort, network: Cidr) -> Result<LFlow, NoMemory>
    ensures { IfOk result (λ r. r ≡ spec.network_row port.now network) }
{
    let terms = only(alloc, ip_in(alloc, Field::Ip4Dst, network)?)?;
    let actions = routed_by(alloc, port.name, port.mac, Action::NextDst)?;
    let priority = ROUTE_PRIORITY + 2 * u16::from(network.len) + 1;
    Ok(match_row(alloc, Stage::RouterRoute, priority, terms, actions))
}

/// Adds the rows of a port, one for each of its networks.
pub(crate) fn push_port_route(
    alloc: Global,
    port: &RouterPort,
    out: &mut List<LFlow>,
) -> Result<(), NoMemory>
    ensures { OnOk result (out.new ≡ out.old ++ spec.port_route port.now) }
{
    'networks: for network in port.networks.as_slice() {
        out.push(network_row(alloc, port, *network)?)?;
    }
    Ok(())
}

// ---- routes

/// The row for what goes to an address of the route's prefix, where it leaves by this exit.
pub(crate) fn route_row(alloc: Global, route: &Route, exit: &Exit) -> Result<LFlow, NoMemory>
    ensures { IfOk result (λ r. r ≡ route_row_by route.now exit.now) }
{
    let terms = only(alloc, ip_in(alloc, Field::Ip4Dst, route.prefix)?)?;
    let next = Action::Set {
        reg: Reg::Next,
        value: route.nexthop.0,
    };
    let actions = routed_by(alloc, exit.port, exit.mac, next)?;
    let priority = ROUTE_PRIORITY + 2 * u16::from(route.prefix.len);
    Ok(match_row(alloc, Stage::RouterRoute, priority, terms, actions))
}

// ---- the router

/// Adds the row of a router: it drops what no network and no route holds.
pub(crate) fn push_router_route(alloc: Global, out: &mut List<LFlow>) -> Result<(), NoMemory>
    ensures { OnOk result (out.new ≡ out.old ++ spec.router_route) }
{
    let row = drop_row(
        alloc,
        Stage::RouterRoute,
        0,
        List::new(alloc),
        Cause::NoRoute,
    )?;
    out.push(row)
}
