//! The rows of r_input: answers to ARP and echo requests, and what no router passes on.
ghost use Rattle.std.specs.Prelude.{◌≡◌, ◌++◌, ◌∷◌, [], map, IfOk, OnOk};
ghost use Rattle.ovn_base.specs.declared.stages.TheConstants.{ROUTER_ROUTE_TABLE};
ghost use Rattle.stage_rows.specs.Facts.{own_ips};
ghost use Rattle.stage_rows.specs.RouterRows as spec;
ghost use Rattle.stage_rows.specs.Rows as rows;
ghost use Rattle.router_stages.specs.InputRows.{dropped_rows};

use flow_table::flow::Cause;
use inet_packet::regs::Reg;
use logical_flows::action::Action;
use logical_flows::flow::LFlow;
use logical_flows::stage::Stage;
use match_language::expr::Expr;
use match_language::field::{Field, Predicate};
use nb_records::records::Records;
use nb_records::router::RouterPort;
use ovn_base::address::{Cidr, Ip4};
use ovn_base::list::List;
use ovn_base::memory::NoMemory;
use stage_rows::answered::answered_ips;
use stage_rows::priorities::{
    ECHO_PRIORITY, OTHER_ARP_PRIORITY, ROUTED_PRIORITY, ROUTER_REQUEST_PRIORITY, SPENT_PRIORITY,
    UNROUTABLE_PRIORITY,
};
use stage_rows::rows::{answer_actions, drop_row, match_row, pass_row};
use stage_rows::terms::{asks_for, field_among, field_is, in_is, ip_in_some, ip_is, only};
use std::alloc::Global;

// Addresses that no router passes on: this network, loopback, groups, and all.
const UNROUTABLE: [Cidr; 4] = [
    Cidr {
        addr: Ip4(0),
        len: 8,
    },
    Cidr {
        addr: Ip4(0x7f00_0000),
        len: 8,
    },
    Cidr {
        addr: Ip4(0xe000_0000),
        len: 4,
    },
    Cidr {
        addr: Ip4(0xffff_ffff),
        len: 32,
    },
];

// ---- rows of a port

// The row for requests by the port for an address that it answers.
fn answered_input(alloc: Global, port: &RouterPort, ip: Ip4) -> Result<LFlow, NoMemory>
    ensures { IfOk result (λ r. r ≡ spec.answered_input port.now ip) }
{
    let mut terms = only(alloc, in_is(alloc, &port.name)?)?;
    terms.append(asks_for(alloc, ip)?)?;
    let actions = answer_actions(alloc, port.mac, ip)?;
    Ok(match_row(
        alloc,
        Stage::RouterInput,
        ROUTER_REQUEST_PRIORITY,
        terms,
        actions,
    ))
}

// Adds the rows of these answered addresses.
fn push_answered(
    alloc: Global,
    port: &RouterPort,
    ips: &[Ip4],
    out: &mut List<LFlow>,
) -> Result<(), NoMemory>
    ensures { OnOk result (out.new ≡ out.old ++ map (spec.answered_input port.now) ips.now) }
{
    'ips: for ip in ips {
        out.push(answered_input(alloc, port, *ip)?)?;
    }
    Ok(())
}

// An echo request for the address.
fn asks_for_echo(alloc: Global, ip: Ip4) -> Result<List<Expr>, NoMemory>
    ensures { IfOk result (λ l. l ≡ rows.ip_is Field.Ip4Dst ip ∷ rows.field_is Field.Icmp4Type 8 ∷ rows.field_is Field.Icmp4Code 0 ∷ []) }
{
    let mut terms = only(alloc, ip_is(alloc, Field::Ip4Dst, ip)?)?;
    terms.push(field_is(alloc, Field::Icmp4Type, 8)?)?;
    terms.push(field_is(alloc, Field::Icmp4Code, 0)?)?;
    Ok(terms)
}

// Makes the answer, says that it is the router's own, and routes it: it is never translated.
fn echo_actions(alloc: Global) -> Result<List<Action>, NoMemory>
    ensures { IfOk result (λ l. l ≡ Action.EchoReply ∷ Action.Set Reg.Own 1 ∷ Action.Go ROUTER_ROUTE_TABLE ∷ []) }
{
    let mut actions = only(alloc, Action::EchoReply)?;
    actions.push(Action::Set {
        reg: Reg::Own,
        value: 1,
    })?;
    actions.push(Action::Go(Stage::RouterRoute.table()))?;
    Ok(actions)
}

// The row for echo requests for an address of the router.
fn echo_input(alloc: Global, ip: Ip4) -> Result<LFlow, NoMemory>
    ensures { IfOk result (λ r. r ≡ spec.echo_input ip) }
{
    let terms = asks_for_echo(alloc, ip)?;
    let actions = echo_actions(alloc)?;
    Ok(match_row(alloc, Stage::RouterInput, ECHO_PRIORITY, terms, actions))
}

// Adds the rows for echo requests for the port's own addresses.
fn push_echoes(alloc: Global, port: &RouterPort, out: &mut List<LFlow>) -> Result<(), NoMemory>
    ensures { OnOk result (out.new ≡ out.old ++ map spec.echo_input (own_ips port.now)) }
{
    'networks: for network in port.networks.as_slice() {
        out.push(echo_input(alloc, network.addr)?)?;
    }
    Ok(())
}

/// Adds the rows of a port: for requests for an address that it answers, and for echo requests for its own addresses.
pub(crate) fn push_port_input(
    alloc: Global,
    records: &Records,
    port: &RouterPort,
    out: &mut List<LFlow>,
) -> Result<(), NoMemory>
    ensures { OnOk result (out.new ≡ out.old ++ spec.port_input records.now port.now) }
{
    let ips = answered_ips(alloc, records, port)?;
    push_answered(alloc, port, ips.as_slice(), out)?;
    push_echoes(alloc, port, out)
}

// ---- rows of a router

// An address that no router passes on is the source or the destination.
fn from_or_to_unroutable(alloc: Global) -> Result<Expr, NoMemory>
    ensures { IfOk result (λ x. x ≡ spec.from_or_to_unroutable) }
{
    let mut ways = only(alloc, ip_in_some(alloc, Field::Ip4Src, &UNROUTABLE)?)?;
    ways.push(ip_in_some(alloc, Field::Ip4Dst, &UNROUTABLE)?)?;
    Ok(Expr::Any(ways))
}

// Adds the row that drops for this cause.
fn push_drop(
    alloc: Global,
    priority: u16,
    terms: List<Expr>,
    cause: Cause,
    out: &mut List<LFlow>,
) -> Result<(), NoMemory>
    ensures { OnOk result (out.new ≡ out.old ++ rows.drop_row Stage.RouterInput priority terms cause ∷ []) }
{
    out.push(drop_row(alloc, Stage::RouterInput, priority, terms, cause)?)
}

// Adds the rows for what no router passes on.
fn push_dropped(alloc: Global, out: &mut List<LFlow>) -> Result<(), NoMemory>
    ensures { OnOk result (out.new ≡ out.old ++ dropped_rows) }
{
    let arp = only(alloc, Expr::Is(Predicate::Arp))?;
    push_drop(alloc, OTHER_ARP_PRIORITY, arp, Cause::Arp, out)?;
    let unroutable = only(alloc, from_or_to_unroutable(alloc)?)?;
    push_drop(alloc, UNROUTABLE_PRIORITY, unroutable, Cause::BadIp, out)?;
    let spent = only(alloc, field_among(alloc, Field::IpTtl, &[0, 1])?)?;
    push_drop(alloc, SPENT_PRIORITY, spent, Cause::Ttl, out)
}

/// Adds the rows of a router: other ARP, unroutable addresses and a time to live that is spent drop, and what is not of IPv4.
pub(crate) fn push_router_input(alloc: Global, out: &mut List<LFlow>) -> Result<(), NoMemory>
    ensures { OnOk result (out.new ≡ out.old ++ spec.router_input) }
{
    push_dropped(alloc, out)?;
    let ip4 = only(alloc, Expr::Is(Predicate::Ip4))?;
    out.push(pass_row(alloc, Stage::RouterInput, ROUTED_PRIORITY, ip4)?)?;
    push_drop(alloc, 0, List::new(alloc), Cause::NotIp4, out)
}
