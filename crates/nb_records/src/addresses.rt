//! The addresses of a switch's port.
ghost use Rattle.std.specs.Prelude.{◌≡◌};
ghost use Rattle.std.specs.Option.{option_copied};
ghost use Rattle.nb_records.specs.Switches as spec;

use crate::records::Records;
use crate::router::RouterPort;
use crate::switch::{PortAddress, SwitchPort};
use ovn_base::address::{Ip4, Mac};

/// The router port behind a port to a router.
pub fn router_port_behind<'a>(records: &'a Records, port: &SwitchPort) -> Option<&'a RouterPort>
    ensures { option_copied result ≡ spec.router_port_behind records.now port.now }
{
    match &port.router_port {
        Some(name) => records.router_port(name),
        None => None,
    }
}

/// The Ethernet address of an entry of the port; `router` stands for that of the router port behind the port.
pub fn entry_mac(records: &Records, port: &SwitchPort, entry: &PortAddress) -> Option<Mac>
    ensures { result ≡ spec.entry_mac (spec.router_port_behind records.now port.now) entry.now }
{
    match entry {
        PortAddress::Ether { mac, .. } => Some(*mac),
        PortAddress::Unknown => None,
        PortAddress::Router => match router_port_behind(records, port) {
            Some(behind) => Some(behind.mac),
            None => None,
        },
    }
}

/// The IPv4 addresses of an entry.
pub fn ips_in_entry(entry: &PortAddress) -> &[Ip4]
    ensures { result.now ≡ spec.ips_in_entry entry.now }
{
    match entry {
        PortAddress::Ether { ips, .. } => ips.as_slice(),
        PortAddress::Unknown | PortAddress::Router => &[],
    }
}

fn is_unknown(address: &PortAddress) -> bool
    ensures { result ≡ spec.is_unknown address.now }
{
    match address {
        PortAddress::Ether { .. } | PortAddress::Router => false,
        PortAddress::Unknown => true,
    }
}

/// Whether some address is the word `unknown`.
pub fn takes_unknown(addresses: &[PortAddress]) -> bool
    ensures { result ≡ spec.takes_unknown addresses.now }
{
    addresses.iter().any(is_unknown)
}
