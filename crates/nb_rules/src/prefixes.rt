//! Networks, routes and translations of one prefix, and next hops that no network holds.
ghost use Rattle.std.specs.Prelude.{◌≡◌, ◌&&◌, false};
ghost use Rattle.std.specs.List.{list_any};
ghost use Rattle.nb_records.specs.declared.record.Record.TheVariants as row;
ghost use Rattle.nb_records.specs.Routers.{contains};
ghost use Rattle.nb_rules.specs.First.{has_second};
ghost use Rattle.nb_rules.specs.Holders.{is_router_mate};
ghost use Rattle.nb_rules.specs.Prefixes as spec;

use crate::fault::SchemaFault;
use crate::first::{Clause, first_of};
use crate::holders::is_mate;
use nb_records::answers::contains;
use nb_records::records::Records;
use nb_records::router::{Nat, Route, RouterPort};
use ovn_base::address::{Cidr, Ip4};

// The prefixes hold the same addresses.
fn same_prefix(a: &Cidr, b: &Cidr) -> bool
    ensures { result ≡ spec.same_prefix a.now b.now }
{
    a.len == b.len && contains(a, b.addr)
}

// ---- networks

// The prefix is that of two networks.
fn stands_twice(prefix: &Cidr, networks: &[Cidr]) -> bool
    ensures { result ≡ has_second (spec.same_prefix prefix.now) false networks.now }
{
    let mut seen = false;
    'networks: for network in networks {
        if same_prefix(prefix, network) {
            if seen {
                return true;
            }
            seen = true;
        }
    }
    false
}

fn has_prefix(prefix: &Cidr, networks: &[Cidr]) -> bool
    ensures { result ≡ list_any (spec.same_prefix prefix.now) networks.now }
{
    networks.iter().any(|network| same_prefix(prefix, network))
}

// A port of the router before this one has a network of the prefix.
fn is_mates(records: &Records, port: &RouterPort, prefix: &Cidr) -> bool
    ensures { result ≡ list_any (λ e. is_router_mate port.now e.1 && list_any (spec.same_prefix prefix.now) e.1.networks) records.now.router_ports }
{
    'ports: for (_name, other) in records.router_ports() {
        if is_mate(port, other) && has_prefix(prefix, other.networks.as_slice()) {
            return true;
        }
    }
    false
}

fn is_repeated(records: &Records, port: &RouterPort, network: &Cidr) -> bool
    ensures { result ≡ spec.is_repeated_network records.now port.now network.now }
{
    stands_twice(network, port.networks.as_slice()) || is_mates(records, port, network)
}

fn repeats_network(records: &Records, port: &RouterPort) -> bool
    ensures { result ≡ spec.repeats_network records.now port.now }
{
    port.networks
        .iter()
        .any(|network| is_repeated(records, port, network))
}

// ---- routes

fn is_before(route: &Route, other: &Route) -> bool
    ensures { result ≡ spec.is_route_before route.now other.now }
{
    other.router == route.router && other.name < route.name
}

fn repeats_route(records: &Records, route: &Route) -> bool
    ensures { result ≡ spec.repeats_route records.now route.now }
{
    'routes: for (_name, other) in records.routes() {
        if is_before(route, other) && same_prefix(&route.prefix, &other.prefix) {
            return true;
        }
    }
    false
}

// ---- translations

fn same_sources(nat: &Nat, other: &Nat) -> bool
    ensures { result ≡ spec.same_sources nat.now other.now }
{
    nat.kind.translates_sources()
        && other.kind.translates_sources()
        && same_prefix(&nat.logical_ip, &other.logical_ip)
}

fn same_destination(nat: &Nat, other: &Nat) -> bool
    ensures { result ≡ spec.same_destination nat.now other.now }
{
    nat.kind.translates_destinations()
        && other.kind.translates_destinations()
        && nat.external_ip == other.external_ip
}

fn is_nat_before(nat: &Nat, other: &Nat) -> bool
    ensures { result ≡ spec.is_nat_before nat.now other.now }
{
    other.router == nat.router && other.name < nat.name
}

fn repeats_nat(records: &Records, nat: &Nat) -> bool
    ensures { result ≡ spec.repeats_nat records.now nat.now }
{
    'rows: for (_name, other) in records.nats() {
        if is_nat_before(nat, other) && (same_sources(nat, other) || same_destination(nat, other)) {
            return true;
        }
    }
    false
}

// ---- the clauses

#[derive(Drop)]
struct RepeatedPrefix<'a>(&'a Records);

impl Clause<RouterPort> for RepeatedPrefix<'_> {
    ghost broken = { λ c r. spec.prefix_fault c.0.now (row.RouterPort r) };

    fn broken(&self, port: &RouterPort) -> Option<SchemaFault> {
        if repeats_network(self.0, port) {
            Some(SchemaFault::DuplicatePrefix(port.name))
        } else {
            None
        }
    }
}

impl Clause<Route> for RepeatedPrefix<'_> {
    ghost broken = { λ c r. spec.prefix_fault c.0.now (row.Route r) };

    fn broken(&self, route: &Route) -> Option<SchemaFault> {
        if repeats_route(self.0, route) {
            Some(SchemaFault::DuplicatePrefix(route.name))
        } else {
            None
        }
    }
}

impl Clause<Nat> for RepeatedPrefix<'_> {
    ghost broken = { λ c r. spec.prefix_fault c.0.now (row.Nat r) };

    fn broken(&self, nat: &Nat) -> Option<SchemaFault> {
        if repeats_nat(self.0, nat) {
            Some(SchemaFault::DuplicatePrefix(nat.name))
        } else {
            None
        }
    }
}

/// The first record that has the prefix of one before it.
#[tactic(auto, using(crate::proofs::EachKind::all_prefixes))]
pub(crate) fn duplicate_prefix(records: &Records) -> Option<SchemaFault>
    ensures { result ≡ spec.duplicate_prefix records.now }
{
    let clause = RepeatedPrefix(records);
    if let Some(fault) = first_of(&clause, records.router_ports()) {
        return Some(fault);
    }
    if let Some(fault) = first_of(&clause, records.routes()) {
        return Some(fault);
    }
    first_of(&clause, records.nats())
}

// ---- next hops

// A network holds the address.
fn holds(networks: &[Cidr], ip: Ip4) -> bool
    ensures { result ≡ list_any (λ n. contains n ip) networks.now }
{
    networks.iter().any(|network| contains(network, ip))
}

// A network of the route's router holds its next hop.
fn has_network(records: &Records, route: &Route) -> bool
    ensures { result ≡ spec.has_network records.now route.now }
{
    'ports: for (_name, port) in records.router_ports() {
        if port.router == route.router && holds(port.networks.as_slice(), route.nexthop) {
            return true;
        }
    }
    false
}

#[derive(Drop)]
struct NextHop<'a>(&'a Records);

impl Clause<Route> for NextHop<'_> {
    ghost broken = { λ c r. spec.next_hop_fault c.0.now r };

    fn broken(&self, route: &Route) -> Option<SchemaFault> {
        if has_network(self.0, route) {
            None
        } else {
            Some(SchemaFault::NoNetworkForNexthop(route.name))
        }
    }
}

/// The first route whose next hop no network holds.
#[tactic(auto, unfolding(crate::specs::Prefixes::no_network))]
pub(crate) fn no_network(records: &Records) -> Option<SchemaFault>
    ensures { result ≡ spec.no_network records.now }
{
    first_of(&NextHop(records), records.routes())
}
