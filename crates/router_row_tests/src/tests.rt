//! Rows of a router, of its ports, of routes and of neighbours are as the tables of stages write them.
use logical_flows::flow::LFlow;
use nb_records::record::Record;
use nb_records::records::Records;
use nb_records::router::{Nat, NatKind, Route, RouterPort, StaticMac};
use nb_records::switch::{PortAddress, PortKind, SwitchPort};
use ovn_base::address::{Birth, Cidr, Ip4, Mac};
use ovn_base::list::List;
use ovn_base::memory::NoMemory;
use ovn_base::name::Name;
use router_stages::neighbour_unit::neighbour_rows;
use router_stages::port_unit::port_rows;
use router_stages::route_unit::route_rows;
use router_stages::router_unit::router_rows;
use std::alloc::Global;
use std::test::Fail;
use switch_row_tests::lines::have_lines;

const MAC_RA: Mac = Mac([0x0a, 0, 0, 0, 0, 0xfe]);

const MAC_RB: Mac = Mac([0x0a, 0, 0, 0, 1, 0xfe]);

const MAC_P1: Mac = Mac([0x0a, 0, 0, 0, 0, 1]);

const MAC_FAR: Mac = Mac([0x0a, 0, 0, 0, 9, 9]);

fn name(text: &[u8]) -> Result<Name, NoMemory> {
    Name::read(text).ok_or(NoMemory)
}

fn cidr(addr: u32, len: u8) -> Cidr {
    Cidr {
        addr: Ip4(addr),
        len,
    }
}

// Whether the rows have these lines on the router r0.
fn print(alloc: Global, rows: &[LFlow], lines: &[&str]) -> Result<bool, NoMemory> {
    have_lines(alloc, &name(b"r0")?, rows, lines)
}

// ---- records

// A port of the router r0 with these networks.
fn port(alloc: Global, text: &[u8], mac: Mac, networks: &[Cidr]) -> Result<RouterPort, NoMemory> {
    Ok(RouterPort {
        name: name(text)?,
        birth: Birth(2),
        router: name(b"r0")?,
        mac,
        networks: List::from_slice(alloc, networks)?,
        peer: None,
    })
}

// The port ra, with 10.0.0.254/24 and 172.16.0.1/16.
fn port_ra(alloc: Global) -> Result<RouterPort, NoMemory> {
    port(
        alloc,
        b"ra",
        MAC_RA,
        &[cidr(0x0a00_00fe, 24), cidr(0xac10_0001, 16)],
    )
}

// The port rb, with 10.0.0.130/25.
fn port_rb(alloc: Global) -> Result<RouterPort, NoMemory> {
    port(alloc, b"rb", MAC_RB, &[cidr(0x0a00_0082, 25)])
}

// A row of NAT of r0 with the external address 10.0.0.100.
fn external() -> Result<Record, NoMemory> {
    Ok(Record::Nat(Nat {
        name: name(b"n1")?,
        birth: Birth(2),
        router: name(b"r0")?,
        kind: NatKind::Dnat,
        external_ip: Ip4(0x0a00_0064),
        logical_ip: cidr(0x0a01_0001, 32),
    }))
}

// A route of r0.
fn route(prefix: Cidr, nexthop: u32) -> Result<Route, NoMemory> {
    Ok(Route {
        name: name(b"t1")?,
        birth: Birth(2),
        router: name(b"r0")?,
        prefix,
        nexthop: Ip4(nexthop),
    })
}

// The records with both ports of r0.
fn both_ports(alloc: Global) -> Result<Records, NoMemory> {
    let mut records = Records::new(alloc)?;
    records.put(Record::RouterPort(port_ra(alloc)?))?;
    records.put(Record::RouterPort(port_rb(alloc)?))?;
    Ok(records)
}

// ---- a router

const LINES_OF_ROUTER: [&str; 16] = [
    "ingress r_admit priority=0 rank=0 datapaths=r0 match=1 actions=drop not-for-router\n",
    "ingress r_input priority=90 rank=0 datapaths=r0 match=arp actions=drop arp\n",
    "ingress r_input priority=80 rank=0 datapaths=r0 match=(ip4.src == {0.0.0.0/8, 127.0.0.0/8, 224.0.0.0/4, 255.255.255.255} || ip4.dst == {0.0.0.0/8, 127.0.0.0/8, 224.0.0.0/4, 255.255.255.255}) actions=drop bad-ip\n",
    "ingress r_input priority=60 rank=0 datapaths=r0 match=ip.ttl == {0, 1} actions=drop ttl\n",
    "ingress r_input priority=50 rank=0 datapaths=r0 match=ip4 actions=go 10\n",
    "ingress r_input priority=0 rank=0 datapaths=r0 match=1 actions=drop not-ip4\n",
    "ingress r_undo priority=0 rank=0 datapaths=r0 match=1 actions=go 11\n",
    "ingress r_dnat priority=100 rank=0 datapaths=r0 match=state == 2 actions=touch;translate;go 12\n",
    "ingress r_dnat priority=100 rank=0 datapaths=r0 match=state == 3 actions=touch;translate;go 12\n",
    "ingress r_dnat priority=0 rank=0 datapaths=r0 match=1 actions=go 12\n",
    "ingress r_own priority=0 rank=0 datapaths=r0 match=1 actions=go 13\n",
    "ingress r_route priority=0 rank=0 datapaths=r0 match=1 actions=drop no-route\n",
    "ingress r_neighbour priority=0 rank=0 datapaths=r0 match=1 actions=drop no-neighbour\n",
    "egress r_find priority=0 rank=0 datapaths=r0 match=1 actions=go 41\n",
    "egress r_snat priority=200 rank=0 datapaths=r0 match=state == 2 actions=touch;translate;go 64\n",
    "egress r_snat priority=0 rank=0 datapaths=r0 match=1 actions=go 64\n",
];

#[test]
fn a_distributed_router(rt: HostRuntime) -> Result<(), Fail> {
    let alloc = rt.alloc();
    let rows = router_rows(alloc, false)?;
    assert!(rt; print(alloc, rows.as_slice(), &LINES_OF_ROUTER)?);
    Ok(())
}

const LINE_OF_UNDO: [&str; 1] = [
    "ingress r_undo priority=100 rank=0 datapaths=r0 match=ip4 actions=undo;find dnat;go 11\n",
];

const LINE_OF_FIND: [&str; 1] = [
    "egress r_find priority=100 rank=0 datapaths=r0 match=own == 0 && ip4 actions=find snat;go 41\n",
];

#[test]
fn a_gateway_that_translates(rt: HostRuntime) -> Result<(), Fail> {
    let alloc = rt.alloc();
    let rows = router_rows(alloc, true)?;
    assert!(rt; rows.len() == 18);
    assert!(rt; print(alloc, &rows.as_slice()[6..7], &LINE_OF_UNDO)?);
    assert!(rt; print(alloc, &rows.as_slice()[14..15], &LINE_OF_FIND)?);
    Ok(())
}

// ---- a port

const LINES_OF_PORT: [&str; 11] = [
    "ingress r_admit priority=50 rank=0 datapaths=r0 match=inport == \"ra\" && eth.dst == 0a:00:00:00:00:fe actions=go 9\n",
    "ingress r_admit priority=50 rank=0 datapaths=r0 match=inport == \"ra\" && eth.mcast && arp actions=go 9\n",
    "ingress r_input priority=100 rank=0 datapaths=r0 match=inport == \"ra\" && arp.op == 1 && arp.tpa == 10.0.0.100 actions=arp_reply 0a:00:00:00:00:fe 10.0.0.100;set out=in;set loopback=1;go 32\n",
    "ingress r_input priority=100 rank=0 datapaths=r0 match=inport == \"ra\" && arp.op == 1 && arp.tpa == 10.0.0.254 actions=arp_reply 0a:00:00:00:00:fe 10.0.0.254;set out=in;set loopback=1;go 32\n",
    "ingress r_input priority=100 rank=0 datapaths=r0 match=inport == \"ra\" && arp.op == 1 && arp.tpa == 172.16.0.1 actions=arp_reply 0a:00:00:00:00:fe 172.16.0.1;set out=in;set loopback=1;go 32\n",
    "ingress r_input priority=70 rank=0 datapaths=r0 match=ip4.dst == 10.0.0.254 && icmp4.type == 8 && icmp4.code == 0 actions=echo_reply;set own=1;go 13\n",
    "ingress r_input priority=70 rank=0 datapaths=r0 match=ip4.dst == 172.16.0.1 && icmp4.type == 8 && icmp4.code == 0 actions=echo_reply;set own=1;go 13\n",
    "ingress r_own priority=100 rank=0 datapaths=r0 match=ip4.dst == 10.0.0.254 actions=drop for-router\n",
    "ingress r_own priority=100 rank=0 datapaths=r0 match=ip4.dst == 172.16.0.1 actions=drop for-router\n",
    "ingress r_route priority=149 rank=0 datapaths=r0 match=ip4.dst == 10.0.0.0/24 actions=dec_ttl;next_dst;set out=ra;eth_src 0a:00:00:00:00:fe;set loopback=1;go 14\n",
    "ingress r_route priority=133 rank=0 datapaths=r0 match=ip4.dst == 172.16.0.0/16 actions=dec_ttl;next_dst;set out=ra;eth_src 0a:00:00:00:00:fe;set loopback=1;go 14\n",
];

#[test]
fn a_port_with_two_networks(rt: HostRuntime) -> Result<(), Fail> {
    let alloc = rt.alloc();
    let mut records = both_ports(alloc)?;
    records.put(external()?)?;
    let rows = port_rows(alloc, &records, &port_ra(alloc)?)?;
    assert!(rt; print(alloc, rows.as_slice(), &LINES_OF_PORT)?);
    Ok(())
}

// ---- routes

// Whether the route has this row, with both ports of r0.
fn routes(alloc: Global, route: &Route, lines: &[&str]) -> Result<bool, NoMemory> {
    let rows = route_rows(alloc, &both_ports(alloc)?, route)?;
    print(alloc, rows.as_slice(), lines)
}

const LINE_OF_ROUTE: [&str; 1] = [
    "ingress r_route priority=132 rank=0 datapaths=r0 match=ip4.dst == 10.2.0.0/16 actions=dec_ttl;set next=167772289;set out=rb;eth_src 0a:00:00:00:01:fe;set loopback=1;go 14\n",
];

const LINE_OF_DEFAULT: [&str; 1] = [
    "ingress r_route priority=100 rank=0 datapaths=r0 match=ip4.dst == 0.0.0.0/0 actions=dec_ttl;set next=167772161;set out=ra;eth_src 0a:00:00:00:00:fe;set loopback=1;go 14\n",
];

#[test]
fn routes_leave_by_the_longest_network(rt: HostRuntime) -> Result<(), Fail> {
    let alloc = rt.alloc();
    let near_both = route(cidr(0x0a02_0000, 16), 0x0a00_0081)?;
    assert!(rt; routes(alloc, &near_both, &LINE_OF_ROUTE)?);
    let default = route(cidr(0, 0), 0x0a00_0001)?;
    assert!(rt; routes(alloc, &default, &LINE_OF_DEFAULT)?);
    let far = route(cidr(0, 0), 0x0b00_0001)?;
    assert!(rt; routes(alloc, &far, &[])?);
    Ok(())
}

// ---- neighbours

// The port p1 of the switch s0, with 10.0.0.1 and 10.0.0.2.
fn port_p1(alloc: Global) -> Result<Record, NoMemory> {
    let ips = List::from_slice(alloc, &[Ip4(0x0a00_0001), Ip4(0x0a00_0002)])?;
    let mut addresses = List::new(alloc);
    addresses.push(PortAddress::Ether { mac: MAC_P1, ips })?;
    Ok(Record::SwitchPort(SwitchPort {
        name: name(b"p1")?,
        birth: Birth(2),
        switch: name(b"s0")?,
        kind: PortKind::Virtual,
        router_port: None,
        addresses,
        port_security: List::new(alloc),
        enabled: true,
    }))
}

// The port of s0 to the router port ra.
fn port_sr(alloc: Global) -> Result<Record, NoMemory> {
    let mut addresses = List::new(alloc);
    addresses.push(PortAddress::Router)?;
    Ok(Record::SwitchPort(SwitchPort {
        name: name(b"sr")?,
        birth: Birth(2),
        switch: name(b"s0")?,
        kind: PortKind::Router,
        router_port: Some(name(b"ra")?),
        addresses,
        port_security: List::new(alloc),
        enabled: true,
    }))
}

// The static binding of 10.0.0.2 at ra.
fn binding() -> Result<Record, NoMemory> {
    Ok(Record::StaticMac(StaticMac {
        name: name(b"b1")?,
        birth: Birth(2),
        port: name(b"ra")?,
        ip: Ip4(0x0a00_0002),
        mac: MAC_FAR,
    }))
}

const LINE_ON_SWITCH: [&str; 1] = [
    "ingress r_neighbour priority=100 rank=0 datapaths=r0 match=next == 167772161 && outport == \"ra\" actions=eth_dst 0a:00:00:00:00:01;go 32\n",
];

const LINE_OF_BINDING: [&str; 1] = [
    "ingress r_neighbour priority=100 rank=0 datapaths=r0 match=next == 167772162 && outport == \"ra\" actions=eth_dst 0a:00:00:00:09:09;go 32\n",
];

// Whether the address has these rows at ra.
fn reaches(alloc: Global, records: &Records, ip: u32, lines: &[&str]) -> Result<bool, NoMemory> {
    let rows = neighbour_rows(alloc, records, &name(b"ra")?, Ip4(ip))?;
    print(alloc, rows.as_slice(), lines)
}

#[test]
fn neighbours_on_the_switch_and_by_a_binding(rt: HostRuntime) -> Result<(), Fail> {
    let alloc = rt.alloc();
    let mut records = both_ports(alloc)?;
    records.put(port_p1(alloc)?)?;
    records.put(port_sr(alloc)?)?;
    records.put(binding()?)?;
    assert!(rt; reaches(alloc, &records, 0x0a00_0001, &LINE_ON_SWITCH)?);
    assert!(rt; reaches(alloc, &records, 0x0a00_0002, &LINE_OF_BINDING)?);
    assert!(rt; reaches(alloc, &records, 0x0a00_0003, &[])?);
    Ok(())
}
