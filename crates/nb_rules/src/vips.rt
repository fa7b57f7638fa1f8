//! Virtual addresses that two balancers of a datapath have.
ghost use Rattle.std.specs.Prelude.{◌≡◌, None, option_map};
ghost use Rattle.std.specs.List.{list_any};
ghost use Rattle.nb_records.specs.Network.{same_backend};
ghost use Rattle.nb_records.specs.Switches as facts;
ghost use Rattle.nb_rules.specs.First as spec_first;
ghost use Rattle.nb_rules.specs.First.{least_of};
ghost use Rattle.nb_rules.specs.Holders as spec;

use crate::fault::{Address, SchemaFault};
use crate::least::lesser_ip;
use nb_records::balancer::{BalancerProtocol, LoadBalancer, Vip};
use nb_records::records::Records;
use nb_records::references::serves;
use ovn_base::address::{Backend, Ip4};
use ovn_base::name::Name;

fn same_protocol(a: BalancerProtocol, b: BalancerProtocol) -> bool
    ensures { result ≡ spec.same_protocol a b }
{
    match (a, b) {
        (BalancerProtocol::Tcp, BalancerProtocol::Tcp)
        | (BalancerProtocol::Udp, BalancerProtocol::Udp) => true,
        _ => false,
    }
}

fn has_vip_at(at: Backend, balancer: &LoadBalancer) -> bool
    ensures { result ≡ spec.has_vip_at at balancer.now }
{
    balancer
        .vips
        .iter()
        .any(|vip| at.ip.0 == vip.at.ip.0 && at.port == vip.at.port)
}

// The other is a balancer of the datapath, before this one in order of name.
fn is_before(datapath: &Name, balancer: &LoadBalancer, other: &LoadBalancer) -> bool
    ensures { result ≡ spec.is_balancer_before datapath.now balancer.now other.now }
{
    serves(other, datapath) && other.name < balancer.name
}

// A balancer of the datapath before this one, of its protocol, has the virtual address.
fn is_taken(records: &Records, datapath: &Name, balancer: &LoadBalancer, vip: &Vip) -> bool
    ensures { result ≡ spec.is_taken_vip records.now datapath.now balancer.now vip.now }
{
    'balancers: for (_name, other) in records.load_balancers() {
        if is_before(datapath, balancer, other)
            && same_protocol(other.protocol, balancer.protocol)
            && has_vip_at(vip.at, other)
        {
            return true;
        }
    }
    false
}

// The least of the balancer's virtual addresses that are taken, and of the one so far.
fn least_taken(
    records: &Records,
    datapath: &Name,
    balancer: &LoadBalancer,
    so_far: Option<Ip4>,
) -> Option<Ip4>
    ensures { result ≡ least_of spec.ip_number spec.vip_ip (spec.is_taken_vip records.now datapath.now balancer.now) so_far balancer.now.vips }
{
    let mut least = so_far;
    'vips: for vip in balancer.vips.as_slice() {
        if is_taken(records, datapath, balancer, vip) {
            least = Some(lesser_ip(vip.at.ip, least));
        }
    }
    least
}

// The least virtual address that two balancers of the datapath have, with one port and protocol.
fn repeated_vip(records: &Records, datapath: &Name) -> Option<Ip4>
    ensures { result ≡ spec.repeated_vip records.now datapath.now }
{
    let mut least: Option<Ip4> = None;
    'balancers: for (_name, balancer) in records.load_balancers() {
        if serves(balancer, datapath) {
            least = least_taken(records, datapath, balancer, least);
        }
    }
    least
}

// The first switch on which a virtual address stands twice, and the least of them.
fn first_switch(records: &Records) -> Option<(Name, Ip4)>
    ensures { result ≡ spec_first.first_of (λ s. spec.vip_holder records.now s.name) records.now.switches }
{
    'switches: for (_name, switch) in records.switches() {
        if let Some(ip) = repeated_vip(records, &switch.name) {
            return Some((switch.name, ip));
        }
    }
    None
}

// The first router on which one does.
fn first_router(records: &Records) -> Option<(Name, Ip4)>
    ensures { result ≡ spec_first.first_of (λ r. spec.vip_holder records.now r.name) records.now.routers }
{
    'routers: for (_name, router) in records.routers() {
        if let Some(ip) = repeated_vip(records, &router.name) {
            return Some((router.name, ip));
        }
    }
    None
}

fn fault(holder: &Name, ip: Ip4) -> SchemaFault
    ensures { result ≡ spec.twice holder.now ip }
{
    SchemaFault::DuplicateAddress {
        address: Address::Ip(ip),
        holder: *holder,
    }
}

// The one whose holder comes first in order of name.
fn first_holder(a: &Option<(Name, Ip4)>, b: &Option<(Name, Ip4)>) -> Option<(Name, Ip4)>
    ensures { result ≡ spec.first_holder a.now b.now }
{
    match (a, b) {
        (Some(a), Some(b)) => {
            if b.0 < a.0 {
                Some((b.0, b.1))
            } else {
                Some((a.0, a.1))
            }
        }
        (Some(a), None) => Some((a.0, a.1)),
        (None, Some(b)) => Some((b.0, b.1)),
        (None, None) => None,
    }
}

/// The first datapath on which a virtual address stands twice.
pub(crate) fn twice_vip(records: &Records) -> Option<SchemaFault>
    ensures { result ≡ spec.twice_vip records.now }
{
    let found = first_holder(&first_switch(records), &first_router(records));
    match &found {
        Some((holder, ip)) => Some(fault(holder, *ip)),
        None => None,
    }
}
