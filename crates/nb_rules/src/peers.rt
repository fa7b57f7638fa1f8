//! Partners of router ports.
ghost use Rattle.std.specs.Prelude.{◌≡◌, false};
ghost use Rattle.std.specs.List.{list_any};
ghost use Rattle.std.specs.Option.{option_copied};
ghost use Rattle.nb_rules.specs.First.{has_second};
ghost use Rattle.nb_rules.specs.Peers as spec;

use crate::fault::SchemaFault;
use crate::first::{Clause, first_of};
use nb_records::records::Records;
use nb_records::references::is_given;
use nb_records::router::RouterPort;
use nb_records::switch::SwitchPort;
use ovn_base::name::Name;

// The router port is behind the switch port.
fn is_behind(port: &RouterPort, other: &SwitchPort) -> bool
    ensures { result ≡ spec.is_behind port.now other.now }
{
    is_given(&port.name, &other.router_port)
}

// One of them names the other as its peer.
fn is_joined_to(port: &RouterPort, other: &RouterPort) -> bool
    ensures { result ≡ spec.is_joined_to port.now other.now }
{
    is_given(&other.name, &port.peer) || is_given(&port.name, &other.peer)
}

// The router port is behind a switch port.
fn has_switch_port(records: &Records, port: &RouterPort) -> bool
    ensures { result ≡ list_any (λ e. spec.is_behind port.now e.1) records.now.switch_ports }
{
    'ports: for (_name, other) in records.switch_ports() {
        if is_behind(port, other) {
            return true;
        }
    }
    false
}

// It is behind two of them.
fn has_two_switch_ports(records: &Records, port: &RouterPort) -> bool
    ensures { result ≡ has_second (λ e. spec.is_behind port.now e.1) false records.now.switch_ports }
{
    let mut seen = false;
    'ports: for (_name, other) in records.switch_ports() {
        if is_behind(port, other) {
            if seen {
                return true;
            }
            seen = true;
        }
    }
    false
}

// A second partner is a router port, where one was seen before or none.
fn has_router_port(records: &Records, port: &RouterPort, before: bool) -> bool
    ensures { result ≡ has_second (λ e. spec.is_joined_to port.now e.1) before records.now.router_ports }
{
    let mut seen = before;
    'ports: for (_name, other) in records.router_ports() {
        if is_joined_to(port, other) {
            if seen {
                return true;
            }
            seen = true;
        }
    }
    false
}

// Two different ports are its partners.
fn has_two_partners(records: &Records, port: &RouterPort) -> bool
    ensures { result ≡ spec.has_two_partners records.now port.now }
{
    has_two_switch_ports(records, port)
        || has_router_port(records, port, has_switch_port(records, port))
}

// Both are given and are one, or none is.
fn same_given(a: &Option<Name>, b: &Option<Name>) -> bool
    ensures { result ≡ spec.same_given a.now b.now }
{
    match (a, b) {
        (None, None) => true,
        (Some(a), Some(b)) => *a == *b,
        _ => false,
    }
}

// The chassis of the router, where it is a gateway router.
fn chassis_of(records: &Records, router: &Name) -> Option<Name>
    ensures { result ≡ spec.chassis_of records.now router.now }
{
    match records.router(router) {
        Some(router) => router.chassis,
        None => None,
    }
}

// The peer is a port of the same router, or of one with another chassis.
fn is_wrong_peer(records: &Records, port: &RouterPort, peer: Option<&RouterPort>) -> bool
    ensures { result ≡ spec.is_wrong_peer records.now port.now (option_copied peer.entry) }
{
    match peer {
        Some(peer) => {
            peer.router == port.router
                || !same_given(
                    &chassis_of(records, &peer.router),
                    &chassis_of(records, &port.router),
                )
        }
        None => false,
    }
}

// The port that it names as its peer.
fn peer_of<'a>(records: &'a Records, port: &RouterPort) -> Option<&'a RouterPort>
    ensures { option_copied result ≡ spec.peer_of records.now port.now }
{
    match &port.peer {
        Some(peer) => records.router_port(peer),
        None => None,
    }
}

fn has_bad_peer(records: &Records, port: &RouterPort) -> bool
    ensures { result ≡ spec.has_bad_peer records.now port.now }
{
    has_two_partners(records, port)
        || is_given(&port.name, &port.peer)
        || is_wrong_peer(records, port, peer_of(records, port))
}

// The clause on peers.
#[derive(Drop)]
struct BadPeer<'a>(&'a Records);

impl Clause<RouterPort> for BadPeer<'_> {
    ghost broken = { λ c p. spec.peer_fault c.0.now p };

    fn broken(&self, port: &RouterPort) -> Option<SchemaFault> {
        if has_bad_peer(self.0, port) {
            Some(SchemaFault::BadPeer(port.name))
        } else {
            None
        }
    }
}

/// The first router port that has two partners, is its own, or has a wrong peer.
#[tactic(auto, unfolding(crate::specs::Peers::bad_peer))]
pub(crate) fn bad_peer(records: &Records) -> Option<SchemaFault>
    ensures { result ≡ spec.bad_peer records.now }
{
    first_of(&BadPeer(records), records.router_ports())
}
