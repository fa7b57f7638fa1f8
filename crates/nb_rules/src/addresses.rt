//! Addresses that are none, or that stand where they can't.
ghost use Rattle.std.specs.Prelude.{◌≡◌, not};
ghost use Rattle.std.specs.List.{list_any};
ghost use Rattle.nb_records.specs.declared.record.Record.TheVariants as row;
ghost use Rattle.nb_records.specs.Switches.{has_some};
ghost use Rattle.nb_rules.specs.BadAddresses as spec;

use crate::fault::SchemaFault;
use crate::first::{Clause, first_of};
use nb_records::answers::contains;
use nb_records::records::Records;
use nb_records::router::{Nat, NatKind, Route, RouterPort, StaticMac};
use nb_records::rule::{AddressSet, SetEntry};
use nb_records::switch::{PortAddress, PortKind, SecurityEntry, SwitchPort};
use ovn_base::address::{Cidr, Ip4, Mac};
use ovn_base::list::List;

/// The addresses of this host on this network, 0.0.0.0/8 (RFC 1122 section 3.2.1.3).
pub const THIS_NETWORK: Cidr = Cidr {
    addr: Ip4(0),
    len: 8,
};

/// The addresses of the host itself, 127.0.0.0/8.
pub const LOOPBACK: Cidr = Cidr {
    addr: Ip4(0x7f00_0000),
    len: 8,
};

/// Groups and what is reserved, 224.0.0.0/3.
pub const NO_UNICAST: Cidr = Cidr {
    addr: Ip4(0xe000_0000),
    len: 3,
};

fn is_bad_mac(mac: &Mac) -> bool
    ensures { result ≡ spec.is_bad_mac mac.now }
{
    mac.is_multicast() || mac.number() == 0
}

// Bits are set behind the length of the prefix.
fn has_host_bits(prefix: &Cidr) -> bool
    ensures { result ≡ spec.has_host_bits prefix.now }
{
    let rest = 32_u32.saturating_sub(prefix.len as u32);
    u64::from(prefix.addr.0) % (1_u64 << rest) != 0
}

fn is_bad_own_ip(ip: Ip4) -> bool
    ensures { result ≡ spec.is_bad_own_ip ip }
{
    contains(&THIS_NETWORK, ip) || contains(&LOOPBACK, ip) || contains(&NO_UNICAST, ip)
}

fn is_bad_router_port(port: &RouterPort) -> bool
    ensures { result ≡ spec.is_bad_router_port port.now }
{
    is_bad_mac(&port.mac) || has_bad_own_ip(port.networks.as_slice())
}

fn has_bad_own_ip(networks: &[Cidr]) -> bool
    ensures { result ≡ list_any (λ n. spec.is_bad_own_ip n.addr) networks.now }
{
    networks.iter().any(|network| is_bad_own_ip(network.addr))
}

fn is_bad_port_address(kind: PortKind, entry: &PortAddress) -> bool
    ensures { result ≡ spec.is_bad_port_address kind entry.now }
{
    match entry {
        PortAddress::Ether { mac, ips } => is_bad_mac(mac) || (!kind.is_virtual() && has_some(ips)),
        PortAddress::Unknown => !kind.is_virtual(),
        PortAddress::Router => kind.is_virtual(),
    }
}

fn has_some<X>(items: &List<X>) -> bool
    ensures { result ≡ has_some items.now }
{
    match items.as_slice() {
        [] => false,
        _ => true,
    }
}

fn is_bad_security(entry: &SecurityEntry) -> bool
    ensures { result ≡ spec.is_bad_security entry.now }
{
    is_bad_mac(&entry.mac) || any_has_host_bits(entry.ips.as_slice())
}

fn any_has_host_bits(prefixes: &[Cidr]) -> bool
    ensures { result ≡ list_any spec.has_host_bits prefixes.now }
{
    prefixes.iter().any(|prefix| has_host_bits(prefix))
}

fn is_bad_switch_port(port: &SwitchPort) -> bool
    ensures { result ≡ spec.is_bad_switch_port port.now }
{
    has_bad_entry(port.kind, port.addresses.as_slice())
        || has_bad_security(port.port_security.as_slice())
        || (!port.kind.is_virtual() && has_some(&port.port_security))
}

fn has_bad_entry(kind: PortKind, entries: &[PortAddress]) -> bool
    ensures { result ≡ list_any (spec.is_bad_port_address kind) entries.now }
{
    entries.iter().any(|entry| is_bad_port_address(kind, entry))
}

fn has_bad_security(entries: &[SecurityEntry]) -> bool
    ensures { result ≡ list_any spec.is_bad_security entries.now }
{
    entries.iter().any(|entry| is_bad_security(entry))
}

fn is_bad_set_entry(entry: &SetEntry) -> bool
    ensures { result ≡ spec.is_bad_set_entry entry.now }
{
    match entry {
        SetEntry::Ip(prefix) => has_host_bits(prefix),
        SetEntry::Ether(mac) => is_bad_mac(mac),
    }
}

fn is_ether(entry: &SetEntry) -> bool
    ensures { result ≡ spec.is_ether entry.now }
{
    match entry {
        SetEntry::Ip(_) => false,
        SetEntry::Ether(_) => true,
    }
}

fn is_bad_set(set: &AddressSet) -> bool
    ensures { result ≡ spec.is_bad_set set.now }
{
    let entries = set.addresses.as_slice();
    has_bad_set_entry(entries) || (has_ether(entries) && has_prefix(entries))
}

fn has_bad_set_entry(entries: &[SetEntry]) -> bool
    ensures { result ≡ list_any spec.is_bad_set_entry entries.now }
{
    entries.iter().any(|entry| is_bad_set_entry(entry))
}

fn has_ether(entries: &[SetEntry]) -> bool
    ensures { result ≡ list_any spec.is_ether entries.now }
{
    entries.iter().any(|entry| is_ether(entry))
}

fn has_prefix(entries: &[SetEntry]) -> bool
    ensures { result ≡ list_any (λ e. not (spec.is_ether e)) entries.now }
{
    entries.iter().any(|entry| !is_ether(entry))
}

fn is_bad_nat(nat: &Nat) -> bool
    ensures { result ≡ spec.is_bad_nat nat.now }
{
    has_host_bits(&nat.logical_ip) || (!is_snat_alone(nat.kind) && nat.logical_ip.len < 32)
}

fn is_snat_alone(kind: NatKind) -> bool
    ensures { result ≡ spec.is_snat_alone kind }
{
    match kind {
        NatKind::Snat => true,
        _ => false,
    }
}

// The clause on addresses.
struct BadAddress;

impl Clause<RouterPort> for BadAddress {
    ghost broken = { λ _ r. spec.address_fault (row.RouterPort r) };

    fn broken(&self, port: &RouterPort) -> Option<SchemaFault> {
        if is_bad_router_port(port) {
            Some(SchemaFault::BadAddress(port.name))
        } else {
            None
        }
    }
}

impl Clause<SwitchPort> for BadAddress {
    ghost broken = { λ _ r. spec.address_fault (row.SwitchPort r) };

    fn broken(&self, port: &SwitchPort) -> Option<SchemaFault> {
        if is_bad_switch_port(port) {
            Some(SchemaFault::BadAddress(port.name))
        } else {
            None
        }
    }
}

impl Clause<AddressSet> for BadAddress {
    ghost broken = { λ _ r. spec.address_fault (row.AddressSet r) };

    fn broken(&self, set: &AddressSet) -> Option<SchemaFault> {
        if is_bad_set(set) {
            Some(SchemaFault::BadAddress(set.name))
        } else {
            None
        }
    }
}

impl Clause<Route> for BadAddress {
    ghost broken = { λ _ r. spec.address_fault (row.Route r) };

    fn broken(&self, route: &Route) -> Option<SchemaFault> {
        if has_host_bits(&route.prefix) {
            Some(SchemaFault::BadAddress(route.name))
        } else {
            None
        }
    }
}

impl Clause<Nat> for BadAddress {
    ghost broken = { λ _ r. spec.address_fault (row.Nat r) };

    fn broken(&self, nat: &Nat) -> Option<SchemaFault> {
        if is_bad_nat(nat) {
            Some(SchemaFault::BadAddress(nat.name))
        } else {
            None
        }
    }
}

impl Clause<StaticMac> for BadAddress {
    ghost broken = { λ _ r. spec.address_fault (row.StaticMac r) };

    fn broken(&self, binding: &StaticMac) -> Option<SchemaFault> {
        if is_bad_mac(&binding.mac) {
            Some(SchemaFault::BadAddress(binding.name))
        } else {
            None
        }
    }
}

/// The first record that has a bad address.
#[tactic(auto, using(crate::proofs::EachKind::all_addresses))]
pub(crate) fn bad_address(records: &Records) -> Option<SchemaFault>
    ensures { result ≡ spec.bad_address records.now }
{
    if let Some(fault) = first_of(&BadAddress, records.router_ports()) {
        return Some(fault);
    }
    if let Some(fault) = first_of(&BadAddress, records.switch_ports()) {
        return Some(fault);
    }
    if let Some(fault) = first_of(&BadAddress, records.address_sets()) {
        return Some(fault);
    }
    if let Some(fault) = first_of(&BadAddress, records.routes()) {
        return Some(fault);
    }
    if let Some(fault) = first_of(&BadAddress, records.nats()) {
        return Some(fault);
    }
    first_of(&BadAddress, records.static_macs())
}
