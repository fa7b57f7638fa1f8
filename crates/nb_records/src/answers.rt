//! Which router ports answer for an address.
ghost use Rattle.std.specs.Prelude.{◌≡◌, ◌&&◌};
ghost use Rattle.std.specs.List.{list_any};
ghost use Rattle.ovn_base.specs.names.SameName.{same_name};
ghost use Rattle.nb_records.specs.Switches.{same_ip, serves_at};
ghost use Rattle.nb_records.specs.Routers.{has_vip};
ghost use Rattle.nb_records.specs.Routers as spec;

use crate::balancer::LoadBalancer;
use crate::records::Records;
use crate::references::serves;
use crate::router::RouterPort;
use ovn_base::address::{Cidr, Ip4};
use ovn_base::name::Name;

/// Whether the prefix holds the address: the first bits of both are the same.
pub fn contains(prefix: &Cidr, ip: Ip4) -> bool
    ensures { result ≡ spec.contains prefix.now ip }
{
    let rest = 32_u32.saturating_sub(prefix.len as u32);
    ip.0 as u64 >> rest == prefix.addr.0 as u64 >> rest
}

/// Whether the router port of that name answers for the address: for its own, and for each external address and virtual
/// address of its router that lies in one of its networks. It takes no memory.
pub fn answers(records: &Records, port: &Name, ip: Ip4) -> bool
    ensures { result ≡ spec.answers_named records.now port.now ip }
{
    match records.router_port(port) {
        Some(port) => answers_by(records, port, ip),
        None => false,
    }
}

/// The same of a router port.
pub fn answers_by(records: &Records, port: &RouterPort, ip: Ip4) -> bool
    ensures { result ≡ spec.answers records.now port.now ip }
{
    is_own(port, ip) || (is_served(records, &port.router, ip) && is_in_network(port, ip))
}

// The address is one of the port's own.
fn is_own(port: &RouterPort, ip: Ip4) -> bool
    ensures { result ≡ spec.has_own_ip ip port.now }
{
    port.networks.iter().any(|network| ip == network.addr)
}

// The address lies in one of the port's networks.
fn is_in_network(port: &RouterPort, ip: Ip4) -> bool
    ensures { result ≡ list_any (λ n. spec.contains n ip) port.now.networks }
{
    port.networks.iter().any(|network| contains(network, ip))
}

// A NAT row or a balancer of the router is known outside by the address.
fn is_served(records: &Records, router: &Name, ip: Ip4) -> bool
    ensures { result ≡ list_any (same_ip ip) (spec.served_ips records.now router.now) }
{
    has_external_ip(records, router, ip) || has_vip_at(records, router, ip)
}

// A NAT row of the router has the external address.
fn has_external_ip(records: &Records, router: &Name, ip: Ip4) -> bool
    ensures { result ≡ list_any (λ e. same_name e.1.router router.now && same_ip ip e.1.external_ip) records.now.nats }
{
    'rows: for (_name, row) in records.nats() {
        if row.router == *router && ip == row.external_ip {
            return true;
        }
    }
    false
}

// A balancer that serves the router has the virtual address.
fn has_vip_at(records: &Records, router: &Name, ip: Ip4) -> bool
    ensures { result ≡ list_any (λ e. serves_at router.now e.1 && has_vip ip e.1) records.now.load_balancers }
{
    'balancers: for (_name, balancer) in records.load_balancers() {
        if serves(balancer, router) && has_vip(balancer, ip) {
            return true;
        }
    }
    false
}

// The balancer has the virtual address, at some port.
fn has_vip(balancer: &LoadBalancer, ip: Ip4) -> bool
    ensures { result ≡ has_vip ip balancer.now }
{
    balancer.vips.iter().any(|vip| ip == vip.at.ip)
}
