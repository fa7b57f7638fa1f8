//! The rows of s_arp: requests for the address of a port of the switch are answered.
ghost use Rattle.std.specs.Prelude.{◌≡◌, ◌++◌, ◌&&◌, flat_map, OnOk};
ghost use Rattle.nb_records.specs.Switches.{is_virtual, mac_of_ip};
ghost use Rattle.stage_rows.specs.Rows.{on_some};
ghost use Rattle.stage_rows.specs.SwitchRows as spec;

use crate::facts::addresses::{mac_of_ip, port_ips};
use logical_flows::flow::LFlow;
use logical_flows::stage::Stage;
use nb_records::switch::SwitchPort;
use ovn_base::address::{Ip4, Mac};
use ovn_base::list::List;
use ovn_base::memory::NoMemory;
use stage_rows::priorities::{OWN_REQUEST_PRIORITY, REQUEST_PRIORITY};
use stage_rows::rows::{answer_actions, match_row, pass_row};
use stage_rows::terms::{asks_for, in_is, only};
use std::alloc::Global;

// Adds the rows of an address: the port's own requests go on, those of others are answered.
fn push_address(
    alloc: Global,
    port: &SwitchPort,
    ip: Ip4,
    mac: Mac,
    out: &mut List<LFlow>,
) -> Result<(), NoMemory>
    ensures { OnOk result (out.new ≡ out.old ++ spec.address_arp port.now ip mac) }
{
    let mut own = only(alloc, in_is(alloc, &port.name)?)?;
    own.append(asks_for(alloc, ip)?)?;
    out.push(pass_row(alloc, Stage::SwitchArp, OWN_REQUEST_PRIORITY, own)?)?;
    let asks = asks_for(alloc, ip)?;
    let answer = answer_actions(alloc, mac, ip)?;
    out.push(match_row(alloc, Stage::SwitchArp, REQUEST_PRIORITY, asks, answer))
}

// Adds the rows of the address, if the port holds it.
fn push_held(
    alloc: Global,
    port: &SwitchPort,
    ip: Ip4,
    out: &mut List<LFlow>,
) -> Result<(), NoMemory>
    ensures { OnOk result (out.new ≡ out.old ++ on_some (mac_of_ip ip port.now) (spec.address_arp port.now ip)) }
{
    match mac_of_ip(port, ip) {
        Some(mac) => push_address(alloc, port, ip, mac, out),
        None => Ok(()),
    }
}

// Adds the rows of these addresses of the port.
fn push_addresses(
    alloc: Global,
    port: &SwitchPort,
    ips: &[Ip4],
    out: &mut List<LFlow>,
) -> Result<(), NoMemory>
    ensures { OnOk result (out.new ≡ out.old ++ flat_map (λ ip. on_some (mac_of_ip ip port.now) (spec.address_arp port.now ip)) ips.now) }
{
    'ips: for ip in ips {
        push_held(alloc, port, *ip, out)?;
    }
    Ok(())
}

/// Adds the rows of an enabled virtual port.
pub(crate) fn push_port_arp(
    alloc: Global,
    port: &SwitchPort,
    out: &mut List<LFlow>,
) -> Result<(), NoMemory>
    ensures { OnOk result (out.new ≡ out.old ++ spec.port_arp port.now) }
{
    if !(port.kind.is_virtual() && port.enabled) {
        return Ok(());
    }
    let ips = port_ips(alloc, port)?;
    push_addresses(alloc, port, ips.as_slice(), out)
}
