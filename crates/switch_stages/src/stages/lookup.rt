//! The rows of s_lookup: the port or group to which a packet goes.
ghost use Rattle.std.specs.Prelude.{◌≡◌, ◌++◌, map, not, IfOk, OnOk};
ghost use Rattle.nb_records.specs.Switches.{is_virtual, router_port_behind, macs_of};
ghost use Rattle.stage_rows.specs.Facts.{answered_if};
ghost use Rattle.stage_rows.specs.Rows.{when};
ghost use Rattle.stage_rows.specs.SwitchRows as spec;

use flow_table::flow::Cause;
use inet_packet::regs::Reg;
use logical_flows::action::Action;
use logical_flows::flow::LFlow;
use logical_flows::stage::Stage;
use match_language::expr::Expr;
use match_language::field::{Field, Predicate};
use nb_records::addresses::entry_mac;
use nb_records::records::Records;
use nb_records::switch::SwitchPort;
use ovn_base::address::{Ip4, Mac};
use ovn_base::limits::{FLOOD_KEY, UNKNOWN_KEY};
use ovn_base::list::List;
use ovn_base::memory::NoMemory;
use stage_rows::answered::answered_behind;
use stage_rows::priorities::{ADDRESS_PRIORITY, ANSWERED_PRIORITY, FLOOD_PRIORITY};
use stage_rows::rows::{deliver, match_row};
use stage_rows::terms::{asks_for, mac_is, only};
use std::alloc::Global;

// ---- rows of a port

// The packet goes to the port.
fn goes_to_port(alloc: Global, port: &SwitchPort) -> Result<List<Action>, NoMemory>
    ensures { IfOk result (λ l. l ≡ spec.goes_to_port port.now) }
{
    let mut actions = only(alloc, Action::SetOut(port.name))?;
    actions.push(deliver())?;
    Ok(actions)
}

// The row for requests for an address that the router port behind the port answers.
fn answered_lookup(alloc: Global, port: &SwitchPort, ip: Ip4) -> Result<LFlow, NoMemory>
    ensures { IfOk result (λ r. r ≡ spec.answered_lookup port.now ip) }
{
    let mut terms = only(alloc, Expr::Is(Predicate::EthMcast))?;
    terms.append(asks_for(alloc, ip)?)?;
    let actions = goes_to_port(alloc, port)?;
    Ok(match_row(
        alloc,
        Stage::SwitchLookup,
        ANSWERED_PRIORITY,
        terms,
        actions,
    ))
}

// The row for what goes to the Ethernet address.
fn address_lookup(alloc: Global, port: &SwitchPort, mac: Mac) -> Result<LFlow, NoMemory>
    ensures { IfOk result (λ r. r ≡ spec.address_lookup port.now mac) }
{
    let terms = only(alloc, mac_is(alloc, Field::EthDst, mac)?)?;
    let actions = goes_to_port(alloc, port)?;
    Ok(match_row(alloc, Stage::SwitchLookup, ADDRESS_PRIORITY, terms, actions))
}

// Adds the rows of these answered addresses.
fn push_answered(
    alloc: Global,
    port: &SwitchPort,
    ips: &[Ip4],
    out: &mut List<LFlow>,
) -> Result<(), NoMemory>
    ensures { OnOk result (out.new ≡ out.old ++ map (spec.answered_lookup port.now) ips.now) }
{
    'ips: for ip in ips {
        out.push(answered_lookup(alloc, port, *ip)?)?;
    }
    Ok(())
}

// Adds the rows of a port to a router, one for each address that the router port behind it answers.
fn push_behind(
    alloc: Global,
    records: &Records,
    port: &SwitchPort,
    out: &mut List<LFlow>,
) -> Result<(), NoMemory>
    ensures { OnOk result (out.new ≡ out.old ++ when (not (is_virtual port.now)) (map (spec.answered_lookup port.now) (answered_if records.now (router_port_behind records.now port.now)))) }
{
    if port.kind.is_virtual() {
        return Ok(());
    }
    let ips = answered_behind(alloc, records, port)?;
    push_answered(alloc, port, ips.as_slice(), out)
}

// Adds the rows of the port's Ethernet addresses.
fn push_macs(
    alloc: Global,
    records: &Records,
    port: &SwitchPort,
    out: &mut List<LFlow>,
) -> Result<(), NoMemory>
    ensures { OnOk result (out.new ≡ out.old ++ map (spec.address_lookup port.now) (macs_of records.now port.now)) }
{
    'entries: for entry in port.addresses.as_slice() {
        if let Some(mac) = entry_mac(records, port, entry) {
            out.push(address_lookup(alloc, port, mac)?)?;
        }
    }
    Ok(())
}

/// Adds the rows of an enabled port.
pub(crate) fn push_port_lookup(
    alloc: Global,
    records: &Records,
    port: &SwitchPort,
    out: &mut List<LFlow>,
) -> Result<(), NoMemory>
    ensures { OnOk result (out.new ≡ out.old ++ spec.port_lookup records.now port.now) }
{
    if !port.enabled {
        return Ok(());
    }
    push_behind(alloc, records, port, out)?;
    push_macs(alloc, records, port, out)
}

// ---- rows of a switch

// The packet goes to the group.
fn goes_to_group(alloc: Global, key: u16) -> Result<List<Action>, NoMemory>
    ensures { IfOk result (λ l. l ≡ spec.goes_to_group key) }
{
    let mut actions = only(
        alloc,
        Action::Set {
            reg: Reg::OutPort,
            value: u32::from(key),
        },
    )?;
    actions.push(deliver())?;
    Ok(actions)
}

// What becomes of a packet for an address that no port has.
fn unknown_actions(alloc: Global, takes: bool) -> Result<List<Action>, NoMemory>
    ensures { IfOk result (λ l. l ≡ spec.unknown_actions takes) }
{
    if takes {
        goes_to_group(alloc, UNKNOWN_KEY)
    } else {
        only(alloc, Action::Drop(Cause::UnknownAddress))
    }
}

/// Adds the rows of a switch that has an enabled port with the address `unknown`, or has none.
pub(crate) fn push_switch_lookup(
    alloc: Global,
    takes: bool,
    out: &mut List<LFlow>,
) -> Result<(), NoMemory>
    ensures { OnOk result (out.new ≡ out.old ++ spec.switch_lookup takes) }
{
    let terms = only(alloc, Expr::Is(Predicate::EthMcast))?;
    let flood = goes_to_group(alloc, FLOOD_KEY)?;
    out.push(match_row(alloc, Stage::SwitchLookup, FLOOD_PRIORITY, terms, flood))?;
    let rest = unknown_actions(alloc, takes)?;
    out.push(match_row(alloc, Stage::SwitchLookup, 0, List::new(alloc), rest))
}
