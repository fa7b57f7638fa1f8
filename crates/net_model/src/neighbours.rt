//! What a router port is joined to, and the Ethernet addresses of its neighbours.
ghost use Rattle.std.specs.Prelude.{◌≡◌, None};
ghost use Rattle.std.specs.List.{list_any};
ghost use Rattle.std.specs.Option.{option_copied, option_map};
ghost use Rattle.nb_records.specs.Neighbours as near;
ghost use Rattle.nb_records.specs.Routers.{partner_of_router_port, switch_port_before, peer_by};
ghost use Rattle.nb_records.specs.Switches as switches;
ghost use Rattle.net_model.specs.Hops as spec;
ghost use Rattle.net_model.specs.Nearby as nearby;

use nb_records::answers::answers_by;
use nb_records::records::Records;
use nb_records::references::is_given;
use nb_records::router::RouterPort;
use nb_records::switch::{PortAddress, SwitchPort};
use ovn_base::address::{Ip4, Mac};
use ovn_base::name::Name;

/// The Ethernet address of the neighbour of the router port that has the IPv4 address: that of a static binding, else that of an
/// enabled virtual port of the switch on which the router port is, else that of another router port there which answers for the
/// address, or of a directly joined one. It takes no memory.
pub fn neighbour(records: &Records, port: &Name, ip: Ip4) -> Option<Mac>
    ensures { result ≡ spec.neighbour_at records.now port.now ip }
{
    match records.router_port(port) {
        Some(port) => neighbour_of(records, port, ip),
        None => None,
    }
}

// That of the neighbour of this router port.
fn neighbour_of(records: &Records, port: &RouterPort, ip: Ip4) -> Option<Mac>
    ensures { result ≡ near.neighbour_of records.now port.now ip }
{
    match static_neighbour(records, port, ip) {
        Some(mac) => Some(mac),
        None => joined_neighbour(records, port, ip),
    }
}

// That of a static binding.
fn static_neighbour(records: &Records, port: &RouterPort, ip: Ip4) -> Option<Mac>
    ensures { result ≡ near.static_neighbour records.now port.now ip }
{
    'bindings: for (_name, binding) in records.static_macs() {
        if binding.port == port.name && binding.ip == ip {
            return Some(binding.mac);
        }
    }
    None
}

// That of a neighbour on the partner's side.
fn joined_neighbour(records: &Records, port: &RouterPort, ip: Ip4) -> Option<Mac>
    ensures { result ≡ near.joined_neighbour records.now port.now ip (partner_of_router_port records.now port.now) }
{
    match switch_before(records, port) {
        Some(switch) => on_switch(records, &port.name, &switch, ip),
        None => of_peer(records, port, ip),
    }
}

/// The switch on which the router port is.
pub fn switch_before(records: &Records, port: &RouterPort) -> Option<Name>
    ensures { result ≡ option_map (λ q. q.switch) (switch_port_before records.now port.now) }
{
    'ports: for (_name, before) in records.switch_ports() {
        if is_given(&port.name, &before.router_port) {
            return Some(before.switch);
        }
    }
    None
}

/// The router port to which the router port is joined without a switch between: the one that it names, or else one that names it.
pub fn peer_of<'a>(records: &'a Records, port: &RouterPort) -> Option<&'a RouterPort>
    ensures { option_copied result ≡ peer_by records.now port.now.name port.now.peer }
{
    match &port.peer {
        Some(peer) => records.router_port(peer),
        None => naming(records, &port.name),
    }
}

// The router port that names it as its peer.
fn naming<'a>(records: &'a Records, port: &Name) -> Option<&'a RouterPort>
    ensures { option_copied result ≡ peer_by records.now port.now None }
{
    'ports: for (_name, other) in records.router_ports() {
        if is_given(port, &other.peer) {
            return Some(other);
        }
    }
    None
}

// That of a directly joined router port, if it answers for the address.
fn of_peer(records: &Records, port: &RouterPort, ip: Ip4) -> Option<Mac>
    ensures { result ≡ nearby.peer_mac records.now ip (peer_by records.now port.now.name port.now.peer) }
{
    match peer_of(records, port) {
        Some(peer) => mac_if_answering(records, peer, ip),
        None => None,
    }
}

// That of the router port, if it answers for the address.
fn mac_if_answering(records: &Records, port: &RouterPort, ip: Ip4) -> Option<Mac>
    ensures { result ≡ nearby.mac_if_answering records.now ip port.now }
{
    if answers_by(records, port, ip) {
        Some(port.mac)
    } else {
        None
    }
}

// That of a port on the switch.
#[tactic(auto, using(crate::proofs::NearLaws::virtual_neighbour_is, crate::proofs::NearLaws::router_neighbour_is))]
fn on_switch(records: &Records, port: &Name, switch: &Name, ip: Ip4) -> Option<Mac>
    ensures { result ≡ switches.or_else (near.virtual_neighbour records.now switch.now ip) (near.router_neighbour records.now port.now switch.now ip) }
{
    match of_virtual(records, switch, ip) {
        Some(mac) => Some(mac),
        None => of_router(records, port, switch, ip),
    }
}

// That of an enabled virtual port of the switch.
fn of_virtual(records: &Records, switch: &Name, ip: Ip4) -> Option<Mac>
    ensures { result ≡ nearby.virtual_among switch.now ip records.now.switch_ports }
{
    'ports: for (_name, port) in records.switch_ports() {
        if let Some(mac) = virtual_mac(port, switch, ip) {
            return Some(mac);
        }
    }
    None
}

// That of the port, if it is one.
fn virtual_mac(port: &SwitchPort, switch: &Name, ip: Ip4) -> Option<Mac>
    ensures { result ≡ nearby.virtual_mac switch.now ip port.now }
{
    if port.switch == *switch && (port.enabled && port.kind.is_virtual()) {
        mac_of_ip(port, ip)
    } else {
        None
    }
}

// The Ethernet address with which the port holds the IPv4 address.
fn mac_of_ip(port: &SwitchPort, ip: Ip4) -> Option<Mac>
    ensures { result ≡ switches.mac_of_ip ip port.now }
{
    'entries: for entry in port.addresses.iter() {
        if let Some(mac) = mac_in_entry(entry, ip) {
            return Some(mac);
        }
    }
    None
}

// That of the entry.
fn mac_in_entry(entry: &PortAddress, ip: Ip4) -> Option<Mac>
    ensures { result ≡ switches.mac_in_entry ip entry.now }
{
    match entry {
        PortAddress::Ether { mac, ips } => {
            if has_ip(ips.as_slice(), ip) {
                Some(*mac)
            } else {
                None
            }
        }
        PortAddress::Unknown => None,
        PortAddress::Router => None,
    }
}

// The address is among the addresses.
fn has_ip(ips: &[Ip4], ip: Ip4) -> bool
    ensures { result ≡ list_any (switches.same_ip ip) ips.now }
{
    ips.iter().any(|own| ip == *own)
}

// That of another router port on the switch, by an enabled port, that answers for the address.
fn of_router(records: &Records, port: &Name, switch: &Name, ip: Ip4) -> Option<Mac>
    ensures { result ≡ nearby.router_among records.now port.now switch.now ip records.now.switch_ports }
{
    'ports: for (_name, before) in records.switch_ports() {
        if let Some(mac) = router_mac(records, port, before, switch, ip) {
            return Some(mac);
        }
    }
    None
}

// That of the router port behind the port, if it is one.
fn router_mac(
    records: &Records,
    port: &Name,
    before: &SwitchPort,
    switch: &Name,
    ip: Ip4,
) -> Option<Mac>
    ensures { result ≡ nearby.router_mac records.now port.now switch.now ip before.now }
{
    if before.switch == *switch && before.enabled {
        mac_behind(records, port, before, ip)
    } else {
        None
    }
}

// That of the router port behind the port, if it is another and answers for the address.
fn mac_behind(records: &Records, port: &Name, before: &SwitchPort, ip: Ip4) -> Option<Mac>
    ensures { result ≡ nearby.mac_behind records.now port.now ip (switches.router_port_behind records.now before.now) }
{
    match &before.router_port {
        Some(behind) => match records.router_port(behind) {
            Some(other) => answering_mac(records, port, other, ip),
            None => None,
        },
        None => None,
    }
}

// That of the router port, if it is another and answers for the address.
fn answering_mac(records: &Records, port: &Name, other: &RouterPort, ip: Ip4) -> Option<Mac>
    ensures { result ≡ near.answering_mac records.now port.now ip other.now }
{
    if other.name != *port && answers_by(records, other, ip) {
        Some(other.mac)
    } else {
        None
    }
}
