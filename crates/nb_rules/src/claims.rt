//! Whether two ports of a switch have one address, by an index of all addresses.
ghost use Rattle.std.specs.Prelude.{◌≡◌, ◌++◌, ◌∷◌, [], true, map, flat_map, None, IfOk, OnOk, slice_get};
ghost use Rattle.std.specs.List.{list_all};
ghost use Rattle.std.specs.Option.{option_copied};
ghost use Rattle.nb_records.specs.Routers as routing;
ghost use Rattle.nb_records.specs.Switches as facts;
ghost use Rattle.nb_records.specs.Switches.{ips_in_entry};
ghost use Rattle.nb_rules.specs.Claims as spec;
ghost use Rattle.nb_rules.specs.Holders.{own_ips, twice_mac, twice_ip};

use crate::shared::holds_ip;
use nb_records::addresses::{entry_mac, ips_in_entry, router_port_behind};
use nb_records::balancer::Vip;
use nb_records::records::Records;
use nb_records::references::serves;
use nb_records::router::RouterPort;
use nb_records::switch::{PortAddress, PortKind, SwitchPort};
use ovn_base::address::{Cidr, Ip4};
use ovn_base::list::List;
use ovn_base::memory::NoMemory;
use ovn_base::name::Name;
use std::alloc::Global;
use std::collections::HashMap;

/// That a port has an address on its switch.
#[derive(Clone, Copy, PartialEq, Eq, Debug)]
pub(crate) struct Claim {
    // A number for the address and the switch, which few others have.
    mark: u64,
    holder: Name,
}

fn mixed(mark: u64, byte: u8) -> u64
    ensures { result ≡ spec.mixed mark byte }
{
    mark.wrapping_mul(257).wrapping_add(u64::from(byte))
}

fn mixed_all(number: u64, bytes: &[u8]) -> u64
    ensures { result ≡ spec.mixed_all number bytes.now }
{
    let mut mark = number;
    'bytes: for byte in bytes {
        mark = mixed(mark, *byte);
    }
    mark
}

// Adds the port's claim to the address.
fn push_claim(port: &SwitchPort, number: u64, claims: &mut List<Claim>) -> Result<(), NoMemory>
    ensures { OnOk result (claims.new ≡ claims.old ++ spec.claim_of port.now number ∷ []) }
{
    claims.push(Claim {
        mark: mixed_all(number, port.switch.text()),
        holder: port.name,
    })
}

// ---- Ethernet addresses

// Adds the claims to the port's Ethernet addresses.
fn push_macs(records: &Records, port: &SwitchPort, claims: &mut List<Claim>) -> Result<(), NoMemory>
    ensures { OnOk result (claims.new ≡ claims.old ++ spec.port_macs records.now port.now) }
{
    'entries: for entry in port.addresses.as_slice() {
        if let Some(mac) = entry_mac(records, port, entry) {
            push_claim(port, mac.number(), claims)?;
        }
    }
    Ok(())
}

fn mac_claims(alloc: Global, records: &Records) -> Result<List<Claim>, NoMemory>
    ensures { IfOk result (λ l. l ≡ spec.mac_claims records.now) }
{
    let mut claims = List::new(alloc);
    'ports: for (_name, port) in records.switch_ports() {
        push_macs(records, port, &mut claims)?;
    }
    Ok(claims)
}

// ---- IPv4 addresses

// Adds the claim to the address, if the port holds it.
fn push_ip(
    records: &Records,
    port: &SwitchPort,
    ip: Ip4,
    claims: &mut List<Claim>,
) -> Result<(), NoMemory>
    ensures { OnOk result (claims.new ≡ claims.old ++ spec.ip_claim records.now port.now ip) }
{
    if holds_ip(records, ip, port) {
        return push_claim(port, u64::from(ip.0), claims);
    }
    Ok(())
}

fn push_ips(
    records: &Records,
    port: &SwitchPort,
    ips: &[Ip4],
    claims: &mut List<Claim>,
) -> Result<(), NoMemory>
    ensures { OnOk result (claims.new ≡ claims.old ++ spec.claims_to records.now port.now ips.now) }
{
    'ips: for ip in ips {
        push_ip(records, port, *ip, claims)?;
    }
    Ok(())
}

fn push_entries(
    records: &Records,
    port: &SwitchPort,
    entries: &[PortAddress],
    claims: &mut List<Claim>,
) -> Result<(), NoMemory>
    ensures { OnOk result (claims.new ≡ claims.old ++ spec.claims_to records.now port.now (flat_map ips_in_entry entries.now)) }
{
    'entries: for entry in entries {
        push_ips(records, port, ips_in_entry(entry), claims)?;
    }
    Ok(())
}

fn push_networks(
    records: &Records,
    port: &SwitchPort,
    networks: &[Cidr],
    claims: &mut List<Claim>,
) -> Result<(), NoMemory>
    ensures { OnOk result (claims.new ≡ claims.old ++ spec.claims_to records.now port.now (map (λ n. n.addr) networks.now)) }
{
    'networks: for network in networks {
        push_ip(records, port, network.addr, claims)?;
    }
    Ok(())
}

fn push_nats(
    records: &Records,
    port: &SwitchPort,
    router: &Name,
    claims: &mut List<Claim>,
) -> Result<(), NoMemory>
    ensures { OnOk result (claims.new ≡ claims.old ++ spec.claims_to records.now port.now (map (λ r. r.external_ip) (routing.nats_of records.now router.now))) }
{
    'rows: for (_name, row) in records.nats() {
        if row.router == *router {
            push_ip(records, port, row.external_ip, claims)?;
        }
    }
    Ok(())
}

fn push_vips(
    records: &Records,
    port: &SwitchPort,
    vips: &[Vip],
    claims: &mut List<Claim>,
) -> Result<(), NoMemory>
    ensures { OnOk result (claims.new ≡ claims.old ++ spec.claims_to records.now port.now (map (λ v. v.at.ip) vips.now)) }
{
    'vips: for vip in vips {
        push_ip(records, port, vip.at.ip, claims)?;
    }
    Ok(())
}

fn push_balancers(
    records: &Records,
    port: &SwitchPort,
    router: &Name,
    claims: &mut List<Claim>,
) -> Result<(), NoMemory>
    ensures { OnOk result (claims.new ≡ claims.old ++ spec.claims_to records.now port.now (flat_map (λ b. map (λ v. v.at.ip) b.vips) (facts.balancers_of records.now router.now))) }
{
    'balancers: for (_name, balancer) in records.load_balancers() {
        if serves(balancer, router) {
            push_vips(records, port, balancer.vips.as_slice(), claims)?;
        }
    }
    Ok(())
}

// Adds the claims to what the router port behind the port answers for.
#[tactic(auto, using(crate::proofs::OneHolder::known_claims))]
fn push_known(
    records: &Records,
    port: &SwitchPort,
    behind: &RouterPort,
    claims: &mut List<Claim>,
) -> Result<(), NoMemory>
    ensures { OnOk result (claims.new ≡ claims.old ++ spec.claims_to records.now port.now (own_ips behind.now ++ routing.served_ips records.now behind.now.router)) }
{
    push_networks(records, port, behind.networks.as_slice(), claims)?;
    push_nats(records, port, &behind.router, claims)?;
    push_balancers(records, port, &behind.router, claims)
}

// Adds the claims to the IPv4 addresses that the port holds.
fn push_held(records: &Records, port: &SwitchPort, claims: &mut List<Claim>) -> Result<(), NoMemory>
    ensures { OnOk result (claims.new ≡ claims.old ++ spec.port_ips records.now port.now) }
{
    match port.kind {
        PortKind::Virtual => push_entries(records, port, port.addresses.as_slice(), claims),
        PortKind::Router => match router_port_behind(records, port) {
            Some(behind) => push_known(records, port, behind, claims),
            None => Ok(()),
        },
    }
}

fn ip_claims(alloc: Global, records: &Records) -> Result<List<Claim>, NoMemory>
    ensures { IfOk result (λ l. l ≡ spec.ip_claims records.now) }
{
    let mut claims = List::new(alloc);
    'ports: for (_name, port) in records.switch_ports() {
        push_held(records, port, &mut claims)?;
    }
    Ok(claims)
}

// ---- one holder

// Where the last claim of each mark stands.
fn index_of(alloc: Global, claims: &[Claim]) -> Result<HashMap<u64, usize>, NoMemory> {
    let mut index = HashMap::with_capacity(alloc, claims.len())?;
    for place in 0..claims.len() {
        index.insert(claims[place].mark, place)?;
    }
    Ok(index)
}

fn claim_at(claims: &[Claim], place: usize) -> Option<&Claim>
    ensures { option_copied result ≡ slice_get claims.now place }
{
    claims.get(place)
}

// The claim of that mark to which the index leads is of the same holder.
fn is_holder(index: &HashMap<u64, usize>, claims: &[Claim], claim: &Claim) -> bool
    ensures { result ≡ spec.is_holder index.now.entries claims.now claim.now }
{
    match index.get(&claim.mark) {
        Some(place) => match claim_at(claims, *place) {
            Some(other) => other.holder == claim.holder,
            None => false,
        },
        None => false,
    }
}

fn all_hold(index: &HashMap<u64, usize>, claims: &[Claim]) -> bool
    ensures { result ≡ list_all (spec.is_holder index.now.entries claims.now) claims.now }
{
    claims.iter().all(|claim| is_holder(index, claims, claim))
}

// Each mark has one holder. It may answer `false` where it does.
fn have_one_holder(alloc: Global, claims: &[Claim]) -> Result<bool, NoMemory>
    ensures { IfOk result (λ b. b ≡ true → spec.HaveOneHolder claims.now) }
{
    let index = index_of(alloc, claims)?;
    Ok(all_hold(&index, claims))
}

#[tactic(auto, using(crate::proofs::OneHolder::no_mac_twice))]
fn are_macs_apart(alloc: Global, records: &Records) -> Result<bool, NoMemory>
    ensures { IfOk result (λ b. b ≡ true → twice_mac records.now ≡ None) }
{
    let claims = mac_claims(alloc, records)?;
    have_one_holder(alloc, claims.as_slice())
}

#[tactic(auto, using(crate::proofs::OneHolder::no_ip_twice))]
fn are_ips_apart(alloc: Global, records: &Records) -> Result<bool, NoMemory>
    ensures { IfOk result (λ b. b ≡ true → twice_ip records.now ≡ None) }
{
    let claims = ip_claims(alloc, records)?;
    have_one_holder(alloc, claims.as_slice())
}

/// Whether no two ports of a switch have one address. It may answer `false` where none have.
pub(crate) fn are_apart(alloc: Global, records: &Records) -> Result<bool, NoMemory>
    ensures { IfOk result (λ b. spec.ApartIf b records.now) }
{
    Ok(are_macs_apart(alloc, records)? && are_ips_apart(alloc, records)?)
}
