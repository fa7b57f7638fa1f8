//! Addresses that two hold.
ghost use Rattle.std.specs.Prelude.{◌≡◌, ◌&&◌, false, None};
ghost use Rattle.std.specs.List.{list_any};
ghost use Rattle.nb_records.specs.Routers.{has_own_ip};
ghost use Rattle.nb_records.specs.Switches.{same_ip};
ghost use Rattle.nb_rules.specs.Claims.{ApartIf};
ghost use Rattle.nb_rules.specs.First.{has_second, least_of};
ghost use Rattle.nb_rules.specs.Holders as spec;

use crate::fault::{Address, SchemaFault};
use crate::first::{Clause, first_of};
use crate::least::lesser_ip;
use crate::shared::{twice_ip, twice_mac};
use crate::vips::twice_vip;
use nb_records::records::Records;
use nb_records::router::{RouterPort, StaticMac};
use ovn_base::address::{Cidr, Ip4};
use ovn_base::name::Name;

/// Whether the other is a port of the same router, before the port in order of name.
pub(crate) fn is_mate(port: &RouterPort, other: &RouterPort) -> bool
    ensures { result ≡ spec.is_router_mate port.now other.now }
{
    other.router == port.router && other.name < port.name
}

// ---- networks of one router

fn has_own_ip(ip: Ip4, port: &RouterPort) -> bool
    ensures { result ≡ has_own_ip ip port.now }
{
    port.networks.iter().any(|network| ip == network.addr)
}

// The address stands twice among the networks.
fn stands_twice(ip: Ip4, networks: &[Cidr]) -> bool
    ensures { result ≡ has_second (λ m. same_ip ip m.addr) false networks.now }
{
    let mut seen = false;
    'networks: for network in networks {
        if ip == network.addr {
            if seen {
                return true;
            }
            seen = true;
        }
    }
    false
}

// A port of the router before this one has the address.
fn is_mates(records: &Records, port: &RouterPort, ip: Ip4) -> bool
    ensures { result ≡ list_any (λ e. spec.is_router_mate port.now e.1 && has_own_ip ip e.1) records.now.router_ports }
{
    'ports: for (_name, other) in records.router_ports() {
        if is_mate(port, other) && has_own_ip(ip, other) {
            return true;
        }
    }
    false
}

fn is_repeated(records: &Records, port: &RouterPort, network: &Cidr) -> bool
    ensures { result ≡ spec.is_repeated_ip records.now port.now network.now }
{
    stands_twice(network.addr, port.networks.as_slice()) || is_mates(records, port, network.addr)
}

// The least address that stands twice among the port's networks, or in one of a port of the router before it.
fn repeated_ip(records: &Records, port: &RouterPort) -> Option<Ip4>
    ensures { result ≡ spec.repeated_ip records.now port.now }
{
    let mut least: Option<Ip4> = None;
    'networks: for network in port.networks.as_slice() {
        if is_repeated(records, port, network) {
            least = Some(lesser_ip(network.addr, least));
        }
    }
    least
}

#[derive(Drop)]
struct RepeatedIp<'a>(&'a Records);

impl Clause<RouterPort> for RepeatedIp<'_> {
    ghost broken = { λ c p. spec.ip_fault p.name (spec.repeated_ip c.0.now p) };

    fn broken(&self, port: &RouterPort) -> Option<SchemaFault> {
        let ip = repeated_ip(self.0, port)?;
        Some(SchemaFault::DuplicateAddress {
            address: Address::Ip(ip),
            holder: port.name,
        })
    }
}

fn twice_own(records: &Records) -> Option<SchemaFault>
    ensures { result ≡ spec.twice_own records.now }
{
    first_of(&RepeatedIp(records), records.router_ports())
}

// ---- static bindings of one port

fn binds(port: &Name, ip: Ip4, binding: &StaticMac) -> bool
    ensures { result ≡ spec.binds port.now ip binding.now }
{
    binding.port == *port && ip == binding.ip
}

// Two static bindings are of the port and the address.
fn has_two_bindings(records: &Records, port: &Name, ip: Ip4) -> bool
    ensures { result ≡ has_second (λ e. spec.binds port.now ip e.1) false records.now.static_macs }
{
    let mut seen = false;
    'bindings: for (_name, binding) in records.static_macs() {
        if binds(port, ip, binding) {
            if seen {
                return true;
            }
            seen = true;
        }
    }
    false
}

// The binding is one of the port, and another has its address.
fn is_bound_twice(records: &Records, port: &Name, binding: &StaticMac) -> bool
    ensures { result ≡ spec.is_bound_twice records.now port.now binding.now }
{
    binding.port == *port && has_two_bindings(records, port, binding.ip)
}

// The least address that two static bindings of the port have.
fn bound_twice(records: &Records, port: &Name) -> Option<Ip4>
    ensures { result ≡ spec.bound_twice records.now port.now }
{
    let mut least: Option<Ip4> = None;
    'bindings: for (_name, binding) in records.static_macs() {
        if is_bound_twice(records, port, binding) {
            least = Some(lesser_ip(binding.ip, least));
        }
    }
    least
}

#[derive(Drop)]
struct BoundTwice<'a>(&'a Records);

impl Clause<RouterPort> for BoundTwice<'_> {
    ghost broken = { λ c p. spec.ip_fault p.name (spec.bound_twice c.0.now p.name) };

    fn broken(&self, port: &RouterPort) -> Option<SchemaFault> {
        let ip = bound_twice(self.0, &port.name)?;
        Some(SchemaFault::DuplicateAddress {
            address: Address::Ip(ip),
            holder: port.name,
        })
    }
}

fn twice_bound(records: &Records) -> Option<SchemaFault>
    ensures { result ≡ spec.twice_bound records.now }
{
    first_of(&BoundTwice(records), records.router_ports())
}

/// The first address that two hold. No two ports of a switch need to be compared where all are apart.
#[tactic(auto, unfolding(crate::specs::Holders::duplicate_address))]
pub(crate) fn duplicate_address(records: &Records, apart: bool) -> Option<SchemaFault>
    requires { ApartIf apart records.now }
    ensures { result ≡ spec.duplicate_address records.now }
{
    if let Some(fault) = twice_mac(records, apart) {
        return Some(fault);
    }
    if let Some(fault) = twice_ip(records, apart) {
        return Some(fault);
    }
    if let Some(fault) = twice_own(records) {
        return Some(fault);
    }
    if let Some(fault) = twice_vip(records) {
        return Some(fault);
    }
    twice_bound(records)
}
