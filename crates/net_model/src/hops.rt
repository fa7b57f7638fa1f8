//! By which port a packet leaves a router, and to which address.
ghost use Rattle.std.specs.Prelude.{◌≡◌};
ghost use Rattle.net_model.specs.Hops as spec;

use nb_records::answers::contains;
use nb_records::records::Records;
use nb_records::router::{Route, RouterPort};
use ovn_base::address::Ip4;
use ovn_base::name::Name;

/// Where a packet goes on from a router: the port by which it leaves, and the address of the next router or of the destination.
#[derive(Clone, Copy, PartialEq, Eq, Debug)]
pub struct Hop {
    pub port: Name,
    pub next: Ip4,
}

/// A way to a destination by a network of a port, or by a route, with the length of its prefix.
#[derive(Clone, Copy, PartialEq, Eq, Debug)]
pub struct Leg {
    pub length: u8,
    pub is_network: bool,
    pub hop: Hop,
}

/// By which port a packet for the destination leaves the router, and to which address: by the longest prefix of the router's networks
/// and routes that holds it, a network before a route. It takes no memory.
pub fn route(records: &Records, router: &Name, dst: Ip4) -> Option<Hop>
    ensures { result ≡ spec.hop_on records.now router.now dst }
{
    let networks = best_network(records, router, dst);
    let routes = best_route(records, router, dst);
    match better_of(networks, routes) {
        Some(leg) => Some(leg.hop),
        None => None,
    }
}

// The leg goes before the other one.
fn is_better(leg: &Leg, other: &Leg) -> bool
    ensures { result ≡ spec.is_better_leg leg.now other.now }
{
    other.length < leg.length
        || (leg.length == other.length && (leg.is_network && !other.is_network))
}

// The better of two legs, the first where neither is.
fn better_of(best: Option<Leg>, other: Option<Leg>) -> Option<Leg>
    ensures { result ≡ spec.or_better best other }
{
    match best {
        None => other,
        Some(leg) => match other {
            None => Some(leg),
            Some(more) => {
                if is_better(&more, &leg) {
                    Some(more)
                } else {
                    Some(leg)
                }
            }
        },
    }
}

// The best leg by a network of the port.
#[tactic(auto, using(crate::proofs::HopLaws::over_more, crate::proofs::HopLaws::over_same))]
fn best_of_port(port: &RouterPort, dst: Ip4) -> Option<Leg>
    ensures { result ≡ spec.best_leg (spec.legs_over port.now.name dst port.now.networks) }
{
    let mut best = None;
    'networks: for network in port.networks.iter() {
        if contains(network, dst) {
            let leg = Leg {
                length: network.len,
                is_network: true,
                hop: Hop {
                    port: port.name,
                    next: dst,
                },
            };
            best = better_of(best, Some(leg));
        }
    }
    best
}

// The best leg by a network of a port of the router.
#[tactic(auto, using(crate::proofs::HopLaws::ports_more, crate::proofs::HopLaws::ports_same))]
fn best_network(records: &Records, router: &Name, dst: Ip4) -> Option<Leg>
    ensures { result ≡ spec.best_leg (spec.network_legs records.now.router_ports router.now dst) }
{
    let mut best = None;
    'ports: for (_name, port) in records.router_ports() {
        if port.router == *router {
            best = better_of(best, best_of_port(port, dst));
        }
    }
    best
}

// The leg by the route, where a port has a network that holds its next hop.
fn leg_by(records: &Records, route: &Route) -> Option<Leg>
    ensures { result ≡ spec.leg_through records.now.router_ports route.now }
{
    match best_network(records, &route.router, route.nexthop) {
        Some(leg) => Some(Leg {
            length: route.prefix.len,
            is_network: false,
            hop: Hop {
                port: leg.hop.port,
                next: route.nexthop,
            },
        }),
        None => None,
    }
}

// The best leg by a route of the router.
#[tactic(auto, using(crate::proofs::HopLaws::routes_more, crate::proofs::HopLaws::routes_same))]
fn best_route(records: &Records, router: &Name, dst: Ip4) -> Option<Leg>
    ensures { result ≡ spec.best_leg (spec.route_legs records.now router.now dst records.now.routes) }
{
    let mut best = None;
    'routes: for (_name, route) in records.routes() {
        if route.router == *router && contains(&route.prefix, dst) {
            best = better_of(best, leg_by(records, route));
        }
    }
    best
}
