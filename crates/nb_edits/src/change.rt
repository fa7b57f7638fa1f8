//! Records with new values in some of their fields.
ghost use Rattle.std.specs.Prelude.{◌≡◌, IfOk};
ghost use Rattle.nb_records.specs.Editing as spec;
ghost use Rattle.nb_records.specs.Switches.{or_else};
ghost use Rattle.nb_records.specs.declared.change.Change.TheVariants as change;
ghost use Rattle.nb_records.specs.declared.record.Record.TheVariants as row;

use match_language::expr::Expr;
use nb_records::balancer::{LoadBalancer, Vip};
use nb_records::change::Change;
use nb_records::record::Record;
use nb_records::router::{Nat, Route, RouterPort, StaticMac};
use nb_records::rule::{Acl, AddressSet, PortGroup, RuleAction};
use nb_records::switch::{PortAddress, SecurityEntry, SwitchPort};
use ovn_base::address::{Cidr, Ip4, Mac};
use ovn_base::list::List;
use ovn_base::memory::NoMemory;
use ovn_base::name::Name;

// The value that is given, else the one that was there.
fn value_or<T: Copy>(new: &Option<T>, old: T) -> T
    ensures { result ≡ spec.new_or new.now old }
{
    match new {
        Some(new) => *new,
        None => old,
    }
}

// The values that are given, else those that were there, in memory of their own.
fn list_or<T: Clone>(new: &Option<List<T>>, old: &List<T>) -> Result<List<T>, NoMemory>
    requires clones { (x y : T) → T.is_clone x y → y ≡ x }
    ensures { IfOk result (λ l. l ≡ spec.new_or new.now old.now) }
{
    match new {
        Some(new) => new.copy(),
        None => old.copy(),
    }
}

fn match_or(new: &Option<Expr>, old: &Expr) -> Result<Expr, NoMemory>
    ensures { IfOk result (λ e. e ≡ spec.new_or new.now old.now) }
{
    match new {
        Some(new) => new.copy(),
        None => old.copy(),
    }
}

fn peer_or(new: &Option<Name>, old: &Option<Name>) -> Option<Name>
    ensures { result ≡ or_else new.now old.now }
{
    match new {
        Some(new) => Some(*new),
        None => *old,
    }
}

fn router_port(
    port: &RouterPort,
    mac: &Option<Mac>,
    networks: &Option<List<Cidr>>,
    peer: &Option<Name>,
) -> Result<RouterPort, NoMemory>
    ensures { IfOk result (λ r. row.RouterPort r ≡ spec.changed_record (change.RouterPort mac.now networks.now peer.now) (row.RouterPort port.now)) }
{
    Ok(RouterPort {
        name: port.name,
        birth: port.birth,
        router: port.router,
        mac: value_or(mac, port.mac),
        networks: list_or(networks, &port.networks)?,
        peer: peer_or(peer, &port.peer),
    })
}

fn switch_port(
    port: &SwitchPort,
    addresses: &Option<List<PortAddress>>,
    port_security: &Option<List<SecurityEntry>>,
    enabled: &Option<bool>,
) -> Result<SwitchPort, NoMemory>
    ensures { IfOk result (λ r. row.SwitchPort r ≡ spec.changed_record (change.SwitchPort addresses.now port_security.now enabled.now) (row.SwitchPort port.now)) }
{
    Ok(SwitchPort {
        name: port.name,
        birth: port.birth,
        switch: port.switch,
        kind: port.kind,
        router_port: port.router_port,
        addresses: list_or(addresses, &port.addresses)?,
        port_security: list_or(port_security, &port.port_security)?,
        enabled: value_or(enabled, port.enabled),
    })
}

fn rule(
    old: &Acl,
    priority: &Option<u16>,
    matching: &Option<Expr>,
    action: &Option<RuleAction>,
) -> Result<Acl, NoMemory>
    ensures { IfOk result (λ r. row.Acl r ≡ spec.changed_record (change.Acl priority.now matching.now action.now) (row.Acl old.now)) }
{
    Ok(Acl {
        name: old.name,
        birth: old.birth,
        switch: old.switch,
        port_group: old.port_group,
        direction: old.direction,
        priority: value_or(priority, old.priority),
        matching: match_or(matching, &old.matching)?,
        action: value_or(action, old.action),
    })
}

fn route(old: &Route, prefix: &Option<Cidr>, nexthop: &Option<Ip4>) -> Route
    ensures { row.Route result ≡ spec.changed_record (change.Route prefix.now nexthop.now) (row.Route old.now) }
{
    Route {
        prefix: value_or(prefix, old.prefix),
        nexthop: value_or(nexthop, old.nexthop),
        ..*old
    }
}

fn nat(old: &Nat, external_ip: &Option<Ip4>, logical_ip: &Option<Cidr>) -> Nat
    ensures { row.Nat result ≡ spec.changed_record (change.Nat external_ip.now logical_ip.now) (row.Nat old.now) }
{
    Nat {
        external_ip: value_or(external_ip, old.external_ip),
        logical_ip: value_or(logical_ip, old.logical_ip),
        ..*old
    }
}

fn balancer(
    old: &LoadBalancer,
    vips: &Option<List<Vip>>,
    switches: &Option<List<Name>>,
    routers: &Option<List<Name>>,
) -> Result<LoadBalancer, NoMemory>
    ensures { IfOk result (λ r. row.LoadBalancer r ≡ spec.changed_record (change.LoadBalancer vips.now switches.now routers.now) (row.LoadBalancer old.now)) }
{
    Ok(LoadBalancer {
        name: old.name,
        birth: old.birth,
        protocol: old.protocol,
        vips: list_or(vips, &old.vips)?,
        switches: list_or(switches, &old.switches)?,
        routers: list_or(routers, &old.routers)?,
    })
}

fn static_mac(old: &StaticMac, ip: &Option<Ip4>, mac: &Option<Mac>) -> StaticMac
    ensures { row.StaticMac result ≡ spec.changed_record (change.StaticMac ip.now mac.now) (row.StaticMac old.now) }
{
    StaticMac {
        name: old.name,
        birth: old.birth,
        port: old.port,
        ip: value_or(ip, old.ip),
        mac: value_or(mac, old.mac),
    }
}

/// The record with the values that the change gives, in memory of its own. A change for another kind changes nothing.
pub(crate) fn changed(change: &Change, old: &Record) -> Result<Record, NoMemory>
    ensures { IfOk result (λ r. r ≡ spec.changed_record change.now old.now) }
{
    match (change, old) {
        (
            Change::RouterPort {
                mac,
                networks,
                peer,
            },
            Record::RouterPort(port),
        ) => Ok(Record::RouterPort(router_port(port, mac, networks, peer)?)),
        (
            Change::SwitchPort {
                addresses,
                port_security,
                enabled,
            },
            Record::SwitchPort(port),
        ) => Ok(Record::SwitchPort(switch_port(port, addresses, port_security, enabled)?)),
        (Change::AddressSet { addresses }, Record::AddressSet(set)) => {
            Ok(Record::AddressSet(AddressSet {
                name: set.name,
                birth: set.birth,
                addresses: list_or(addresses, &set.addresses)?,
            }))
        }
        (Change::PortGroup { ports }, Record::PortGroup(group)) => {
            Ok(Record::PortGroup(PortGroup {
                name: group.name,
                birth: group.birth,
                ports: list_or(ports, &group.ports)?,
            }))
        }
        (
            Change::Acl {
                priority,
                matching,
                action,
            },
            Record::Acl(old),
        ) => Ok(Record::Acl(rule(old, priority, matching, action)?)),
        (Change::Route { prefix, nexthop }, Record::Route(old)) => {
            Ok(Record::Route(route(old, prefix, nexthop)))
        }
        (
            Change::Nat {
                external_ip,
                logical_ip,
            },
            Record::Nat(old),
        ) => Ok(Record::Nat(nat(old, external_ip, logical_ip))),
        (
            Change::LoadBalancer {
                vips,
                switches,
                routers,
            },
            Record::LoadBalancer(old),
        ) => Ok(Record::LoadBalancer(balancer(old, vips, switches, routers)?)),
        (Change::StaticMac { ip, mac }, Record::StaticMac(old)) => {
            Ok(Record::StaticMac(static_mac(old, ip, mac)))
        }
        _ => old.copy(),
    }
}
