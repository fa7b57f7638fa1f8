//! The addresses that a router's port answers, in order.
ghost use Rattle.std.specs.Prelude.{◌≡◌, ◌++◌, map, flat_map, filter, IfOk, OnOk};
ghost use Rattle.std.specs.List.{list_any};
ghost use Rattle.nb_records.specs.Routers as routers;
ghost use Rattle.nb_records.specs.Switches.{router_port_behind, balancers_of};
ghost use Rattle.stage_rows.specs.Facts as spec;

use nb_records::addresses::router_port_behind;
use nb_records::answers::contains;
use nb_records::balancer::Vip;
use nb_records::records::Records;
use nb_records::references::serves;
use nb_records::router::RouterPort;
use nb_records::switch::SwitchPort;
use ovn_base::address::Ip4;
use ovn_base::list::List;
use ovn_base::memory::NoMemory;
use std::alloc::Global;
use std::collections::BTreeSet;

// The address lies in one of the port's networks.
fn is_near(port: &RouterPort, ip: Ip4) -> bool
    ensures { result ≡ spec.is_near port.now ip }
{
    port.networks.iter().any(|network| contains(network, ip))
}

// Adds the port's own addresses.
fn push_own(port: &RouterPort, ips: &mut List<Ip4>) -> Result<(), NoMemory>
    ensures { OnOk result (ips.new ≡ ips.old ++ spec.own_ips port.now) }
{
    'networks: for network in port.networks.as_slice() {
        ips.push(network.addr)?;
    }
    Ok(())
}

// Adds the near ones of the external addresses of the router's rows of NAT.
fn push_external(records: &Records, port: &RouterPort, ips: &mut List<Ip4>) -> Result<(), NoMemory>
    ensures { OnOk result (ips.new ≡ ips.old ++ filter (spec.is_near port.now) (map (λ r. r.external_ip) (routers.nats_of records.now port.now.router))) }
{
    'rows: for (_name, row) in records.nats() {
        if row.router == port.router {
            if is_near(port, row.external_ip) {
                ips.push(row.external_ip)?;
            }
        }
    }
    Ok(())
}

// Adds the near ones of the virtual addresses.
fn push_near_vips(port: &RouterPort, vips: &[Vip], ips: &mut List<Ip4>) -> Result<(), NoMemory>
    ensures { OnOk result (ips.new ≡ ips.old ++ filter (spec.is_near port.now) (map (λ v. v.at.ip) vips.now)) }
{
    'vips: for vip in vips {
        if is_near(port, vip.at.ip) {
            ips.push(vip.at.ip)?;
        }
    }
    Ok(())
}

// Adds the near ones of the virtual addresses of the router's balancers.
#[tactic(auto, using(crate::proofs::Lists::on_filters))]
fn push_virtual(records: &Records, port: &RouterPort, ips: &mut List<Ip4>) -> Result<(), NoMemory>
    ensures { OnOk result (ips.new ≡ ips.old ++ filter (spec.is_near port.now) (flat_map (λ b. map (λ v. v.at.ip) b.vips) (balancers_of records.now port.now.router))) }
{
    'balancers: for (_name, balancer) in records.load_balancers() {
        if serves(balancer, &port.router) {
            push_near_vips(port, balancer.vips.as_slice(), ips)?;
        }
    }
    Ok(())
}

// Adds those served addresses of the port's router that lie in one of the port's networks.
fn push_near(records: &Records, port: &RouterPort, ips: &mut List<Ip4>) -> Result<(), NoMemory>
    ensures { OnOk result (ips.new ≡ ips.old ++ spec.near_ips records.now port.now) }
{
    push_external(records, port, ips)?;
    push_virtual(records, port, ips)
}

// The addresses as a list, in order.
fn listed(alloc: Global, keys: &BTreeSet<Ip4>) -> Result<List<Ip4>, NoMemory>
    ensures { IfOk result (λ l. l ≡ keys.now.keys) }
{
    let mut ips = List::new(alloc);
    for ip in keys {
        ips.push(*ip)?;
    }
    Ok(ips)
}

// The addresses in order, each once.
#[tactic(auto, using(crate::proofs::InOrder::put_last))]
fn in_order(alloc: Global, ips: List<Ip4>) -> Result<List<Ip4>, NoMemory>
    ensures { IfOk result (λ l. l ≡ spec.ips_in_order ips) }
{
    let mut rest = ips;
    let mut keys = BTreeSet::new(alloc);
    'ips: while let Some(ip) = rest.pop() {
        keys.insert(ip)?;
    }
    listed(alloc, &keys)
}

/// The addresses that the router port answers, in order.
pub fn answered_ips(
    alloc: Global,
    records: &Records,
    port: &RouterPort,
) -> Result<List<Ip4>, NoMemory>
    ensures { IfOk result (λ l. l ≡ spec.answered_ips records.now port.now) }
{
    let mut ips = List::new(alloc);
    push_own(port, &mut ips)?;
    push_near(records, port, &mut ips)?;
    in_order(alloc, ips)
}

/// Those that the router port behind the port answers.
pub fn answered_behind(
    alloc: Global,
    records: &Records,
    port: &SwitchPort,
) -> Result<List<Ip4>, NoMemory>
    ensures { IfOk result (λ l. l ≡ spec.answered_if records.now (router_port_behind records.now port.now)) }
{
    match router_port_behind(records, port) {
        Some(behind) => answered_ips(alloc, records, behind),
        None => Ok(List::new(alloc)),
    }
}
