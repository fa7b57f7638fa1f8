//! Next hops and neighbours of a router's port.
use nb_records::record::Record;
use nb_records::records::Records;
use nb_records::router::{Route, RouterPort, StaticMac};
use nb_records::switch::{PortAddress, PortKind, SwitchPort};
use net_model::hops::{Hop, route};
use net_model::neighbours::neighbour;
use ovn_base::address::{Birth, Cidr, Ip4, Mac};
use ovn_base::list::List;
use ovn_base::memory::NoMemory;
use ovn_base::name::Name;
use std::alloc::Global;
use std::test::Fail;

// The router `r0` has the port `a`, on the switch `s0` by its port `sa`, with the networks 10.0.0.0/24 and 10.1.0.0/16, and the route
// `out` by 10.0.0.9. On the switch is `p1` with 10.0.0.1.
const BEHIND: Ip4 = Ip4(0x0a000001);

const NEXT: Ip4 = Ip4(0x0a000009);

const OWN: Ip4 = Ip4(0x0a0000fe);

const MAC_P1: Mac = Mac([0x0a, 0, 0, 0, 0, 1]);

const MAC_NEXT: Mac = Mac([0x0a, 0, 0, 0, 0, 9]);

fn name(text: &[u8]) -> Result<Name, NoMemory> {
    Name::read(text).ok_or(NoMemory)
}

fn prefix(addr: u32, len: u8) -> Cidr {
    Cidr {
        addr: Ip4(addr),
        len,
    }
}

fn router_port(alloc: Global) -> Result<Record, NoMemory> {
    let mut networks = List::new(alloc);
    networks.push(Cidr { addr: OWN, len: 24 })?;
    networks.push(prefix(0x0a0100fe, 16))?;
    Ok(Record::RouterPort(RouterPort {
        name: name(b"a")?,
        birth: Birth(1),
        router: name(b"r0")?,
        mac: Mac([0x0a, 0, 0, 0, 0, 0xfe]),
        networks,
        peer: None,
    }))
}

fn routed(called: &[u8], to: Cidr) -> Result<Record, NoMemory> {
    Ok(Record::Route(Route {
        name: name(called)?,
        birth: Birth(1),
        router: name(b"r0")?,
        prefix: to,
        nexthop: NEXT,
    }))
}

fn switch_port(
    called: &[u8],
    kind: PortKind,
    router_port: Option<Name>,
    addresses: List<PortAddress>,
    alloc: Global,
) -> Result<Record, NoMemory> {
    Ok(Record::SwitchPort(SwitchPort {
        name: name(called)?,
        birth: Birth(1),
        switch: name(b"s0")?,
        kind,
        router_port,
        addresses,
        port_security: List::new(alloc),
        enabled: true,
    }))
}

fn network(alloc: Global) -> Result<Records, NoMemory> {
    let mut records = Records::new(alloc)?;
    records.put(router_port(alloc)?)?;
    records.put(routed(b"out", prefix(0, 0))?)?;
    let mut ips = List::new(alloc);
    ips.push(BEHIND)?;
    let mut addresses = List::new(alloc);
    addresses.push(PortAddress::Ether { mac: MAC_P1, ips })?;
    let p1 = switch_port(b"p1", PortKind::Virtual, None, addresses, alloc)?;
    records.put(p1)?;
    let behind = Some(name(b"a")?);
    let sa = switch_port(b"sa", PortKind::Router, behind, List::new(alloc), alloc)?;
    records.put(sa)?;
    Ok(records)
}

#[test]
fn the_longest_prefix_is_taken(rt: HostRuntime) -> Result<(), Fail> {
    let mut records = network(rt.alloc())?;
    let r0 = name(b"r0")?;
    let port = name(b"a")?;
    let direct = Hop { port, next: BEHIND };
    let outside = Ip4(0xc0000201);
    let far = Hop { port, next: NEXT };
    assert!(rt; route(&records, &r0, BEHIND) == Some(direct));
    assert!(rt; route(&records, &r0, outside) == Some(far));
    assert!(rt; route(&records, &name(b"r1")?, BEHIND).is_none());
    records.put(routed(b"same", prefix(0x0a000000, 24))?)?;
    assert!(rt; route(&records, &r0, BEHIND) == Some(direct));
    records.put(routed(b"host", prefix(0x0a000001, 32))?)?;
    assert!(rt; route(&records, &r0, BEHIND) == Some(far));
    Ok(())
}

#[test]
fn a_static_binding_goes_first(rt: HostRuntime) -> Result<(), Fail> {
    let mut records = network(rt.alloc())?;
    let port = name(b"a")?;
    assert!(rt; neighbour(&records, &port, BEHIND) == Some(MAC_P1));
    assert!(rt; neighbour(&records, &port, NEXT).is_none());
    assert!(rt; neighbour(&records, &port, OWN).is_none());
    records.put(Record::StaticMac(StaticMac {
        name: name(b"m")?,
        birth: Birth(2),
        port,
        ip: BEHIND,
        mac: MAC_NEXT,
    }))?;
    assert!(rt; neighbour(&records, &port, BEHIND) == Some(MAC_NEXT));
    Ok(())
}
