//! Addresses that two ports of a switch hold.
ghost use Rattle.std.specs.Prelude.{◌≡◌, ◌++◌, [], ◌∷◌, map, flat_map, None};
ghost use Rattle.std.specs.List.{list_any};
ghost use Rattle.nb_records.specs.Switches as facts;
ghost use Rattle.nb_records.specs.Routers as routing;
ghost use Rattle.nb_rules.specs.Claims.{ApartIf};
ghost use Rattle.nb_rules.specs.Holders as spec;

use crate::fault::{Address, SchemaFault};
use crate::first::{Clause, first_of};
use crate::least::{lesser_ip, lesser_mac};
use nb_records::addresses::{entry_mac, ips_in_entry, router_port_behind};
use nb_records::answers::answers_by;
use nb_records::balancer::Vip;
use nb_records::records::Records;
use nb_records::references::serves;
use nb_records::router::RouterPort;
use nb_records::switch::{PortAddress, PortKind, SwitchPort};
use ovn_base::address::{Cidr, Ip4, Mac};
use ovn_base::name::Name;

// The other is a port of the same switch, before the port in order of name.
fn is_mate(port: &SwitchPort, other: &SwitchPort) -> bool
    ensures { result ≡ spec.is_switch_mate port.now other.now }
{
    other.switch == port.switch && other.name < port.name
}

// ---- Ethernet addresses

// The port has the Ethernet address.
fn has_mac(records: &Records, mac: &Mac, port: &SwitchPort) -> bool
    ensures { result ≡ facts.has_mac records.now mac.now port.now }
{
    'entries: for entry in port.addresses.as_slice() {
        if let Some(other) = entry_mac(records, port, entry) {
            if mac.number() == other.number() {
                return true;
            }
        }
    }
    false
}

// A port of the switch before this one has the Ethernet address.
fn is_mac_shared(records: &Records, port: &SwitchPort, mac: &Mac) -> bool
    ensures { result ≡ spec.is_mac_shared records.now port.now mac.now }
{
    'ports: for (_name, other) in records.switch_ports() {
        if is_mate(port, other) && has_mac(records, mac, other) {
            return true;
        }
    }
    false
}

// The least Ethernet address of the port that a port before it has.
fn shared_mac(records: &Records, port: &SwitchPort) -> Option<Mac>
    ensures { result ≡ spec.shared_mac records.now port.now }
{
    let mut least: Option<Mac> = None;
    'entries: for entry in port.addresses.as_slice() {
        if let Some(mac) = entry_mac(records, port, entry) {
            if is_mac_shared(records, port, &mac) {
                least = Some(lesser_mac(&mac, &least));
            }
        }
    }
    least
}

// ---- IPv4 addresses

fn has_ip(ips: &[Ip4], ip: Ip4) -> bool
    ensures { result ≡ list_any (facts.same_ip ip) ips.now }
{
    ips.iter().any(|other| ip == *other)
}

fn has_entry_ip(entries: &[PortAddress], ip: Ip4) -> bool
    ensures { result ≡ list_any (spec.has_entry_ip ip) entries.now }
{
    entries.iter().any(|entry| has_ip(ips_in_entry(entry), ip))
}

/// Whether the port holds the address: by an entry, or its partner answers for it.
pub(crate) fn holds_ip(records: &Records, ip: Ip4, port: &SwitchPort) -> bool
    ensures { result ≡ spec.holds_ip records.now ip port.now }
{
    match port.kind {
        PortKind::Virtual => has_entry_ip(port.addresses.as_slice(), ip),
        PortKind::Router => match router_port_behind(records, port) {
            Some(behind) => answers_by(records, behind, ip),
            None => false,
        },
    }
}

// A port of the switch before this one holds the address.
fn is_ip_held(records: &Records, port: &SwitchPort, ip: Ip4) -> bool
    ensures { result ≡ spec.has_mate records.now port.now (spec.holds_ip records.now ip) }
{
    'ports: for (_name, other) in records.switch_ports() {
        if is_mate(port, other) && holds_ip(records, ip, other) {
            return true;
        }
    }
    false
}

// The port and a port of the switch before it hold the address.
fn is_ip_shared(records: &Records, port: &SwitchPort, ip: Ip4) -> bool
    ensures { result ≡ spec.is_ip_shared records.now port.now ip }
{
    holds_ip(records, ip, port) && is_ip_held(records, port, ip)
}

// The least address so far, and the address if it is shared and less.
fn least_with(records: &Records, port: &SwitchPort, so_far: Option<Ip4>, ip: Ip4) -> Option<Ip4>
    ensures { result ≡ spec.least_shared records.now port.now so_far (ip ∷ []) }
{
    if is_ip_shared(records, port, ip) {
        Some(lesser_ip(ip, so_far))
    } else {
        so_far
    }
}

// The least shared address of these and of the one so far.
fn least_in(records: &Records, port: &SwitchPort, so_far: Option<Ip4>, ips: &[Ip4]) -> Option<Ip4>
    ensures { result ≡ spec.least_shared records.now port.now so_far ips.now }
{
    let mut least = so_far;
    'ips: for ip in ips {
        least = least_with(records, port, least, *ip);
    }
    least
}

// The least shared address of the port's entries.
fn least_in_entries(records: &Records, port: &SwitchPort) -> Option<Ip4>
    ensures { result ≡ spec.least_shared records.now port.now None (flat_map facts.ips_in_entry port.now.addresses) }
{
    let mut least: Option<Ip4> = None;
    'entries: for entry in port.addresses.as_slice() {
        least = least_in(records, port, least, ips_in_entry(entry));
    }
    least
}

// The least shared address of the networks.
fn least_in_networks(records: &Records, port: &SwitchPort, networks: &[Cidr]) -> Option<Ip4>
    ensures { result ≡ spec.least_shared records.now port.now None (map (λ n. n.addr) networks.now) }
{
    let mut least: Option<Ip4> = None;
    'networks: for network in networks {
        least = least_with(records, port, least, network.addr);
    }
    least
}

// The least shared address of the router's NAT rows, and of the one so far.
fn least_in_nats(
    records: &Records,
    port: &SwitchPort,
    so_far: Option<Ip4>,
    router: &Name,
) -> Option<Ip4>
    ensures { result ≡ spec.least_shared records.now port.now so_far (map (λ r. r.external_ip) (routing.nats_of records.now router.now)) }
{
    let mut least = so_far;
    'rows: for (_name, row) in records.nats() {
        if row.router == *router {
            least = least_with(records, port, least, row.external_ip);
        }
    }
    least
}

// The least shared address of the vips, and of the one so far.
fn least_in_vips(
    records: &Records,
    port: &SwitchPort,
    so_far: Option<Ip4>,
    vips: &[Vip],
) -> Option<Ip4>
    ensures { result ≡ spec.least_shared records.now port.now so_far (map (λ v. v.at.ip) vips.now) }
{
    let mut least = so_far;
    'vips: for vip in vips {
        least = least_with(records, port, least, vip.at.ip);
    }
    least
}

// The least shared address of the router's balancers, and of the one so far.
fn least_in_balancers(
    records: &Records,
    port: &SwitchPort,
    so_far: Option<Ip4>,
    router: &Name,
) -> Option<Ip4>
    ensures { result ≡ spec.least_of_balancers records.now port.now router.now so_far records.now.load_balancers }
{
    let mut least = so_far;
    'balancers: for (_name, balancer) in records.load_balancers() {
        if serves(balancer, router) {
            least = least_in_vips(records, port, least, balancer.vips.as_slice());
        }
    }
    least
}

// The least shared address of the router port behind the port.
#[tactic(auto, using(crate::proofs::Leasts::behind_is))]
fn least_behind(records: &Records, port: &SwitchPort, behind: &RouterPort) -> Option<Ip4>
    ensures { result ≡ spec.least_shared records.now port.now None (spec.own_ips behind.now ++ routing.served_ips records.now behind.now.router) }
{
    let own = least_in_networks(records, port, behind.networks.as_slice());
    let rows = least_in_nats(records, port, own, &behind.router);
    least_in_balancers(records, port, rows, &behind.router)
}

// The least address that the port and a port before it hold.
fn shared_ip(records: &Records, port: &SwitchPort) -> Option<Ip4>
    ensures { result ≡ spec.shared_ip records.now port.now }
{
    match port.kind {
        PortKind::Virtual => least_in_entries(records, port),
        PortKind::Router => match router_port_behind(records, port) {
            Some(behind) => least_behind(records, port, behind),
            None => None,
        },
    }
}

// ---- the clauses

#[derive(Drop)]
struct SharedMac<'a>(&'a Records);

impl Clause<SwitchPort> for SharedMac<'_> {
    ghost broken = { λ c q. spec.mac_fault c.0.now q };

    fn broken(&self, port: &SwitchPort) -> Option<SchemaFault> {
        let mac = shared_mac(self.0, port)?;
        Some(SchemaFault::DuplicateAddress {
            address: Address::Ether(mac),
            holder: port.name,
        })
    }
}

/// The first port that has an Ethernet address of a port before it. Where all are apart there is none.
pub(crate) fn twice_mac(records: &Records, apart: bool) -> Option<SchemaFault>
    requires { ApartIf apart records.now }
    ensures { result ≡ spec.twice_mac records.now }
{
    if apart {
        return None;
    }
    first_of(&SharedMac(records), records.switch_ports())
}

#[derive(Drop)]
struct SharedIp<'a>(&'a Records);

impl Clause<SwitchPort> for SharedIp<'_> {
    ghost broken = { λ c q. spec.ip_fault q.name (spec.shared_ip c.0.now q) };

    fn broken(&self, port: &SwitchPort) -> Option<SchemaFault> {
        let ip = shared_ip(self.0, port)?;
        Some(SchemaFault::DuplicateAddress {
            address: Address::Ip(ip),
            holder: port.name,
        })
    }
}

/// The first port that holds an IPv4 address of a port before it. Where all are apart there is none.
pub(crate) fn twice_ip(records: &Records, apart: bool) -> Option<SchemaFault>
    requires { ApartIf apart records.now }
    ensures { result ≡ spec.twice_ip records.now }
{
    if apart {
        return None;
    }
    first_of(&SharedIp(records), records.switch_ports())
}
