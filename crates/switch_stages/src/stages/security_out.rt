//! The rows of s_sec_out: what a port with port security may get.
ghost use Rattle.std.specs.Prelude.{◌≡◌, ◌++◌, ◌∷◌, [], map, flat_map, IfOk, OnOk};
ghost use Rattle.stage_rows.specs.Rows as rows;
ghost use Rattle.stage_rows.specs.SwitchRows as spec;
ghost use Rattle.switch_stages.specs.SecurityRows.{get_row, get_rows, other_get_rows};

use flow_table::flow::Cause;
use logical_flows::flow::LFlow;
use logical_flows::stage::Stage;
use match_language::expr::Expr;
use match_language::field::{Field, Predicate};
use nb_records::switch::{SecurityEntry, SwitchPort};
use ovn_base::address::{Cidr, Ip4};
use ovn_base::list::List;
use ovn_base::memory::NoMemory;
use stage_rows::priorities::{
    GOT_BY_PRIORITY, MAY_GET_PRIORITY, MULTICAST_PRIORITY, NOT_GOT_PRIORITY, OTHER_TARGET_PRIORITY,
};
use stage_rows::rows::{drop_row, pass_row};
use stage_rows::terms::{ip_in, ip_in_some, mac_is, only, out_is};
use std::alloc::Global;

// The destinations of groups (RFC 1112 section 4), and that of all (RFC 919 section 7).
const GROUP_IPS: [Cidr; 2] = [
    Cidr {
        addr: Ip4(0xe000_0000),
        len: 4,
    },
    Cidr {
        addr: Ip4(0xffff_ffff),
        len: 32,
    },
];

// What leaves by the port to the entry's Ethernet address.
fn got_by(alloc: Global, port: &SwitchPort, entry: &SecurityEntry) -> Result<List<Expr>, NoMemory>
    ensures { IfOk result (λ l. l ≡ spec.got_by port.now entry.now) }
{
    let mut terms = only(alloc, out_is(alloc, &port.name)?)?;
    terms.push(mac_is(alloc, Field::EthDst, entry.mac)?)?;
    Ok(terms)
}

// Adds the row that lets through what leaves so and of which the terms hold.
fn push_get(
    alloc: Global,
    port: &SwitchPort,
    entry: &SecurityEntry,
    more: List<Expr>,
    out: &mut List<LFlow>,
) -> Result<(), NoMemory>
    ensures { OnOk result (out.new ≡ out.old ++ get_row port.now entry.now more ∷ []) }
{
    let mut terms = got_by(alloc, port, entry)?;
    terms.append(more)?;
    out.push(pass_row(alloc, Stage::SwitchSecurityOut, MAY_GET_PRIORITY, terms)?)
}

// Adds the rows of these IPv4 addresses of the entry.
fn push_get_each(
    alloc: Global,
    port: &SwitchPort,
    entry: &SecurityEntry,
    prefixes: &[Cidr],
    out: &mut List<LFlow>,
) -> Result<(), NoMemory>
    ensures { OnOk result (out.new ≡ out.old ++ map (get_row port.now entry.now) (map (λ i. rows.ip_in Field.Ip4Dst i ∷ []) prefixes.now)) }
{
    'prefixes: for prefix in prefixes {
        let to = only(alloc, ip_in(alloc, Field::Ip4Dst, *prefix)?)?;
        push_get(alloc, port, entry, to, out)?;
    }
    Ok(())
}

// To a group or to all.
fn to_group(alloc: Global) -> Result<List<Expr>, NoMemory>
    ensures { IfOk result (λ l. l ≡ rows.ip_in_some Field.Ip4Dst spec.group_ips ∷ []) }
{
    only(alloc, ip_in_some(alloc, Field::Ip4Dst, &GROUP_IPS)?)
}

// Adds the rows that let through what the entry lets its Ethernet address get.
#[tactic(auto, using(crate::proofs::Lists::on_maps))]
fn push_gets(
    alloc: Global,
    port: &SwitchPort,
    entry: &SecurityEntry,
    out: &mut List<LFlow>,
) -> Result<(), NoMemory>
    ensures { OnOk result (out.new ≡ out.old ++ get_rows port.now entry.now) }
{
    if entry.ips.is_empty() {
        return push_get(alloc, port, entry, List::new(alloc), out);
    }
    push_get_each(alloc, port, entry, entry.ips.as_slice(), out)?;
    push_get(alloc, port, entry, to_group(alloc)?, out)
}

// Adds the rows for what else goes to the entry's Ethernet address.
fn push_other_gets(
    alloc: Global,
    port: &SwitchPort,
    entry: &SecurityEntry,
    out: &mut List<LFlow>,
) -> Result<(), NoMemory>
    ensures { OnOk result (out.new ≡ out.old ++ other_get_rows port.now entry.now) }
{
    let mut terms = got_by(alloc, port, entry)?;
    terms.push(Expr::Is(Predicate::Ip4))?;
    let row = drop_row(
        alloc,
        Stage::SwitchSecurityOut,
        OTHER_TARGET_PRIORITY,
        terms,
        Cause::PortSecurity,
    )?;
    out.push(row)?;
    let terms = got_by(alloc, port, entry)?;
    out.push(pass_row(alloc, Stage::SwitchSecurityOut, GOT_BY_PRIORITY, terms)?)
}

// Adds the rows of the entry.
fn push_entry(
    alloc: Global,
    port: &SwitchPort,
    entry: &SecurityEntry,
    out: &mut List<LFlow>,
) -> Result<(), NoMemory>
    ensures { OnOk result (out.new ≡ out.old ++ spec.entry_security_out port.now entry.now) }
{
    push_gets(alloc, port, entry, out)?;
    push_other_gets(alloc, port, entry, out)
}

// Adds the rows of the entries.
fn push_entries(
    alloc: Global,
    port: &SwitchPort,
    entries: &[SecurityEntry],
    out: &mut List<LFlow>,
) -> Result<(), NoMemory>
    ensures { OnOk result (out.new ≡ out.old ++ flat_map (spec.entry_security_out port.now) entries.now) }
{
    'entries: for entry in entries {
        push_entry(alloc, port, entry, out)?;
    }
    Ok(())
}

// Adds the rows around those of the entries: for what goes to a group's Ethernet address, and for all else.
fn push_around(alloc: Global, port: &SwitchPort, out: &mut List<LFlow>) -> Result<(), NoMemory>
    ensures { OnOk result (out.new ≡ out.old ++ spec.around_security_out port.now) }
{
    let mut terms = only(alloc, out_is(alloc, &port.name)?)?;
    terms.push(Expr::Is(Predicate::EthMcast))?;
    out.push(pass_row(alloc, Stage::SwitchSecurityOut, MULTICAST_PRIORITY, terms)?)?;
    let terms = only(alloc, out_is(alloc, &port.name)?)?;
    let row = drop_row(
        alloc,
        Stage::SwitchSecurityOut,
        NOT_GOT_PRIORITY,
        terms,
        Cause::PortSecurity,
    )?;
    out.push(row)
}

/// Adds the rows of the port. A port without port security has none.
pub(crate) fn push_port_security_out(
    alloc: Global,
    port: &SwitchPort,
    out: &mut List<LFlow>,
) -> Result<(), NoMemory>
    ensures { OnOk result (out.new ≡ out.old ++ spec.port_security_out port.now) }
{
    push_entries(alloc, port, port.port_security.as_slice(), out)?;
    if port.port_security.is_empty() {
        return Ok(());
    }
    push_around(alloc, port, out)
}
