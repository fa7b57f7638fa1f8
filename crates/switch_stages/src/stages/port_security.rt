//! The rows of s_port_sec: what a port with port security may send.
ghost use Rattle.std.specs.Prelude.{◌≡◌, ◌++◌, ◌∷◌, [], map, flat_map, IfOk, OnOk};
ghost use Rattle.stage_rows.specs.SwitchRows as spec;
ghost use Rattle.stage_rows.specs.Rows as rows;
ghost use Rattle.switch_stages.specs.SecurityRows.{send_row, send_rows, other_send_rows};

use flow_table::flow::Cause;
use logical_flows::flow::LFlow;
use logical_flows::stage::Stage;
use match_language::expr::Expr;
use match_language::field::{Field, Predicate};
use nb_records::switch::{SecurityEntry, SwitchPort};
use ovn_base::address::Cidr;
use ovn_base::list::List;
use ovn_base::memory::NoMemory;
use stage_rows::priorities::{
    MAY_SEND_PRIORITY, NOT_SENT_PRIORITY, OTHER_SOURCE_PRIORITY, SENT_BY_PRIORITY,
};
use stage_rows::rows::{drop_row, pass_row};
use stage_rows::terms::{field_is, in_is, ip_in, mac_is, only};
use std::alloc::Global;

// What comes by the port from the entry's Ethernet address.
fn sent_by(alloc: Global, port: &SwitchPort, entry: &SecurityEntry) -> Result<List<Expr>, NoMemory>
    ensures { IfOk result (λ l. l ≡ spec.sent_by port.now entry.now) }
{
    let mut terms = only(alloc, in_is(alloc, &port.name)?)?;
    terms.push(mac_is(alloc, Field::EthSrc, entry.mac)?)?;
    Ok(terms)
}

// Adds the row that lets through what comes so and of which the terms hold.
fn push_send(
    alloc: Global,
    port: &SwitchPort,
    entry: &SecurityEntry,
    more: List<Expr>,
    out: &mut List<LFlow>,
) -> Result<(), NoMemory>
    ensures { OnOk result (out.new ≡ out.old ++ send_row port.now entry.now more ∷ []) }
{
    let mut terms = sent_by(alloc, port, entry)?;
    terms.append(more)?;
    out.push(pass_row(alloc, Stage::SwitchPortSecurity, MAY_SEND_PRIORITY, terms)?)
}

// ARP in the name of the entry's Ethernet address.
fn in_own_name(alloc: Global, entry: &SecurityEntry) -> Result<Expr, NoMemory>
    ensures { IfOk result (λ x. x ≡ rows.mac_is Field.ArpSha entry.now.mac) }
{
    mac_is(alloc, Field::ArpSha, entry.mac)
}

// Adds the rows of an entry without IPv4 addresses.
fn push_send_any(
    alloc: Global,
    port: &SwitchPort,
    entry: &SecurityEntry,
    out: &mut List<LFlow>,
) -> Result<(), NoMemory>
    ensures { OnOk result (out.new ≡ out.old ++ map (send_row port.now entry.now) (spec.may_send_any entry.now)) }
{
    let any = only(alloc, Expr::Is(Predicate::Ip4))?;
    push_send(alloc, port, entry, any, out)?;
    let arp = only(alloc, in_own_name(alloc, entry)?)?;
    push_send(alloc, port, entry, arp, out)
}

// Adds the rows of one of the entry's IPv4 addresses.
fn push_send_from(
    alloc: Global,
    port: &SwitchPort,
    entry: &SecurityEntry,
    prefix: Cidr,
    out: &mut List<LFlow>,
) -> Result<(), NoMemory>
    ensures { OnOk result (out.new ≡ out.old ++ map (send_row port.now entry.now) (spec.may_send_from entry.now prefix)) }
{
    let from = only(alloc, ip_in(alloc, Field::Ip4Src, prefix)?)?;
    push_send(alloc, port, entry, from, out)?;
    let mut named = only(alloc, in_own_name(alloc, entry)?)?;
    named.push(ip_in(alloc, Field::ArpSpa, prefix)?)?;
    push_send(alloc, port, entry, named, out)
}

// Adds the rows of these IPv4 addresses of the entry.
fn push_send_from_each(
    alloc: Global,
    port: &SwitchPort,
    entry: &SecurityEntry,
    prefixes: &[Cidr],
    out: &mut List<LFlow>,
) -> Result<(), NoMemory>
    ensures { OnOk result (out.new ≡ out.old ++ map (send_row port.now entry.now) (flat_map (spec.may_send_from entry.now) prefixes.now)) }
{
    'prefixes: for prefix in prefixes {
        push_send_from(alloc, port, entry, *prefix, out)?;
    }
    Ok(())
}

// A request for an address by one that has none yet (RFC 2131 section 4.1).
fn dhcp_request(alloc: Global) -> Result<List<Expr>, NoMemory>
    ensures { IfOk result (λ l. l ≡ spec.dhcp_request) }
{
    let mut terms = only(alloc, field_is(alloc, Field::Ip4Src, 0)?)?;
    terms.push(field_is(alloc, Field::Ip4Dst, 0xffff_ffff)?)?;
    terms.push(field_is(alloc, Field::UdpSrc, 68)?)?;
    terms.push(field_is(alloc, Field::UdpDst, 67)?)?;
    Ok(terms)
}

// Adds the rows that let through what the entry lets its Ethernet address send.
#[tactic(auto, using(crate::proofs::Lists::on_maps))]
fn push_sends(
    alloc: Global,
    port: &SwitchPort,
    entry: &SecurityEntry,
    out: &mut List<LFlow>,
) -> Result<(), NoMemory>
    ensures { OnOk result (out.new ≡ out.old ++ send_rows port.now entry.now) }
{
    if entry.ips.is_empty() {
        return push_send_any(alloc, port, entry, out);
    }
    push_send_from_each(alloc, port, entry, entry.ips.as_slice(), out)?;
    push_send(alloc, port, entry, dhcp_request(alloc)?, out)
}

// IPv4 or ARP.
fn ip4_or_arp(alloc: Global) -> Result<Expr, NoMemory>
    ensures { IfOk result (λ x. x ≡ Expr.Any (Expr.Is Predicate.Ip4 ∷ Expr.Is Predicate.Arp ∷ [])) }
{
    let mut terms = only(alloc, Expr::Is(Predicate::Ip4))?;
    terms.push(Expr::Is(Predicate::Arp))?;
    Ok(Expr::Any(terms))
}

// Adds the rows for what else comes from the entry's Ethernet address.
fn push_other_sends(
    alloc: Global,
    port: &SwitchPort,
    entry: &SecurityEntry,
    out: &mut List<LFlow>,
) -> Result<(), NoMemory>
    ensures { OnOk result (out.new ≡ out.old ++ other_send_rows port.now entry.now) }
{
    let mut terms = sent_by(alloc, port, entry)?;
    terms.push(ip4_or_arp(alloc)?)?;
    let row = drop_row(
        alloc,
        Stage::SwitchPortSecurity,
        OTHER_SOURCE_PRIORITY,
        terms,
        Cause::PortSecurity,
    )?;
    out.push(row)?;
    let terms = sent_by(alloc, port, entry)?;
    out.push(pass_row(alloc, Stage::SwitchPortSecurity, SENT_BY_PRIORITY, terms)?)
}

// Adds the rows of the entry.
fn push_entry(
    alloc: Global,
    port: &SwitchPort,
    entry: &SecurityEntry,
    out: &mut List<LFlow>,
) -> Result<(), NoMemory>
    ensures { OnOk result (out.new ≡ out.old ++ spec.entry_port_security port.now entry.now) }
{
    push_sends(alloc, port, entry, out)?;
    push_other_sends(alloc, port, entry, out)
}

// Adds the rows of the entries.
fn push_entries(
    alloc: Global,
    port: &SwitchPort,
    entries: &[SecurityEntry],
    out: &mut List<LFlow>,
) -> Result<(), NoMemory>
    ensures { OnOk result (out.new ≡ out.old ++ flat_map (spec.entry_port_security port.now) entries.now) }
{
    'entries: for entry in entries {
        push_entry(alloc, port, entry, out)?;
    }
    Ok(())
}

/// Adds the rows of the port. A port without port security has none.
pub(crate) fn push_port_security(
    alloc: Global,
    port: &SwitchPort,
    out: &mut List<LFlow>,
) -> Result<(), NoMemory>
    ensures { OnOk result (out.new ≡ out.old ++ spec.port_port_security port.now) }
{
    push_entries(alloc, port, port.port_security.as_slice(), out)?;
    if port.port_security.is_empty() {
        return Ok(());
    }
    let terms = only(alloc, in_is(alloc, &port.name)?)?;
    let row = drop_row(
        alloc,
        Stage::SwitchPortSecurity,
        NOT_SENT_PRIORITY,
        terms,
        Cause::PortSecurity,
    )?;
    out.push(row)
}
