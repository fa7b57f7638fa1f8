//! By which port a router reaches an address: the one with the longest network that holds it.
ghost use Rattle.std.specs.Prelude.{◌≡◌};
ghost use Rattle.router_stages.specs.Exits as spec;

use nb_records::answers::contains;
use nb_records::records::Records;
use nb_records::router::RouterPort;
use ovn_base::address::{Ip4, Mac};
use ovn_base::name::Name;

/// A port by which a router reaches an address, by a network with a prefix of this length.
#[derive(Clone, Copy)]
pub(crate) struct Exit {
    pub length: u8,
    pub port: Name,
    pub mac: Mac,
}

/// The one by the longest network of the router's ports that holds the address. It takes no memory.
#[tactic(auto, using(crate::proofs::ExitLaws::longest_is))]
pub(crate) fn exit_towards(records: &Records, router: &Name, ip: Ip4) -> Option<Exit>
    ensures { result ≡ spec.exit_towards records.now router.now ip }
{
    longest_of_router(records, router, ip)
}

// The longer of two, the first where neither is.
fn longer_of(best: Option<Exit>, other: Option<Exit>) -> Option<Exit>
    ensures { result ≡ spec.or_longer best other }
{
    match best {
        None => other,
        Some(exit) => match other {
            None => Some(exit),
            Some(more) => {
                if exit.length < more.length {
                    Some(more)
                } else {
                    Some(exit)
                }
            }
        },
    }
}

// The longest by a network of the port.
#[tactic(auto, using(crate::proofs::ExitLaws::over_more, crate::proofs::ExitLaws::over_same))]
fn longest_of_port(port: &RouterPort, ip: Ip4) -> Option<Exit>
    ensures { result ≡ spec.longest (spec.exits_over port.now ip port.now.networks) }
{
    let mut best = None;
    'networks: for network in port.networks.iter() {
        if contains(network, ip) {
            let exit = Exit {
                length: network.len,
                port: port.name,
                mac: port.mac,
            };
            best = longer_of(best, Some(exit));
        }
    }
    best
}

// The longest by a network of a port of the router.
#[tactic(auto, using(crate::proofs::ExitLaws::ports_same))]
fn longest_of_router(records: &Records, router: &Name, ip: Ip4) -> Option<Exit>
    ensures { result ≡ spec.longest (spec.exits_among records.now.router_ports router.now ip) }
{
    let mut best = None;
    'ports: for (_name, port) in records.router_ports() {
        if port.router == *router {
            best = longer_of(best, longest_of_port(port, ip));
        }
    }
    best
}
