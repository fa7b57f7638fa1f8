//! The addresses of a switch's port.
ghost use Rattle.std.specs.Prelude.{◌≡◌, IfOk};
ghost use Rattle.std.specs.List.{list_any};
ghost use Rattle.nb_records.specs.Switches as spec;
ghost use Rattle.stage_rows.specs.Facts as facts;

use nb_records::addresses::ips_in_entry;
use nb_records::switch::{PortAddress, SwitchPort};
use ovn_base::address::{Ip4, Mac};
use ovn_base::list::List;
use ovn_base::memory::NoMemory;
use std::alloc::Global;

/// The IPv4 addresses of the port's entries, one entry after the other.
pub(crate) fn port_ips(alloc: Global, port: &SwitchPort) -> Result<List<Ip4>, NoMemory>
    ensures { IfOk result (λ l. l ≡ facts.port_ips port.now) }
{
    let mut ips = List::new(alloc);
    'entries: for entry in port.addresses.as_slice() {
        ips.extend_from_slice(ips_in_entry(entry))?;
    }
    Ok(ips)
}

// The address is among the addresses.
fn has_ip(ips: &[Ip4], ip: Ip4) -> bool
    ensures { result ≡ list_any (spec.same_ip ip) ips.now }
{
    ips.iter().any(|own| ip == *own)
}

// The Ethernet address that the entry gives for the IPv4 address.
fn mac_in_entry(entry: &PortAddress, ip: Ip4) -> Option<Mac>
    ensures { result ≡ spec.mac_in_entry ip entry.now }
{
    match entry {
        PortAddress::Ether { mac, ips } => {
            if has_ip(ips.as_slice(), ip) {
                Some(*mac)
            } else {
                None
            }
        }
        PortAddress::Unknown | PortAddress::Router => None,
    }
}

/// The Ethernet address with which the port holds the IPv4 address: that of the first entry that has it.
pub(crate) fn mac_of_ip(port: &SwitchPort, ip: Ip4) -> Option<Mac>
    ensures { result ≡ spec.mac_of_ip ip port.now }
{
    'entries: for entry in port.addresses.as_slice() {
        if let Some(mac) = mac_in_entry(entry, ip) {
            return Some(mac);
        }
    }
    None
}
