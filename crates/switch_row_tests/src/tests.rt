//! Rows of a switch and of its ports are as the tables of stages write them.
use crate::lines::have_lines;
use logical_flows::flow::LFlow;
use match_language::field::Direction;
use match_language::reader::parse;
use nb_records::record::Record;
use nb_records::records::Records;
use nb_records::router::{Nat, NatKind, RouterPort};
use nb_records::rule::{Acl, RuleAction};
use nb_records::switch::{PortAddress, PortKind, SecurityEntry, SwitchPort};
use ovn_base::address::{Birth, Cidr, Ip4, Mac};
use ovn_base::list::List;
use ovn_base::memory::NoMemory;
use ovn_base::name::Name;
use std::alloc::Global;
use std::test::Fail;
use switch_stages::port_unit::port_rows;
use switch_stages::switch_unit::switch_rows;

const MAC_P1: Mac = Mac([0x0a, 0, 0, 0, 0, 1]);

const MAC_ROUTER: Mac = Mac([0x0a, 0, 0, 0, 0, 0xfe]);

fn name(text: &[u8]) -> Result<Name, NoMemory> {
    Name::read(text).ok_or(NoMemory)
}

// Whether the rows have these lines on the switch s0.
fn print(alloc: Global, rows: &[LFlow], lines: &[&str]) -> Result<bool, NoMemory> {
    have_lines(alloc, &name(b"s0")?, rows, lines)
}

// The virtual port p1 of s0 without addresses and port security.
fn bare_port(alloc: Global) -> Result<SwitchPort, NoMemory> {
    Ok(SwitchPort {
        name: name(b"p1")?,
        birth: Birth(2),
        switch: name(b"s0")?,
        kind: PortKind::Virtual,
        router_port: None,
        addresses: List::new(alloc),
        port_security: List::new(alloc),
        enabled: true,
    })
}

// An allow-related rule on s0.
fn stateful_rule(alloc: Global) -> Result<Record, Fail> {
    Ok(Record::Acl(Acl {
        name: name(b"a1")?,
        birth: Birth(3),
        switch: Some(name(b"s0")?),
        port_group: None,
        direction: Direction::ToLport,
        priority: 1000,
        matching: parse(alloc, b"udp", Direction::ToLport)?,
        action: RuleAction::AllowRelated,
    }))
}

const LINES_OF_ENABLED: [&str; 15] = [
    "ingress s_port_sec priority=90 rank=0 datapaths=s0 match=inport == \"p1\" && eth.src == 0a:00:00:00:00:01 && ip4 actions=go 10\n",
    "ingress s_port_sec priority=90 rank=0 datapaths=s0 match=inport == \"p1\" && eth.src == 0a:00:00:00:00:01 && arp.sha == 0a:00:00:00:00:01 actions=go 10\n",
    "ingress s_port_sec priority=85 rank=0 datapaths=s0 match=inport == \"p1\" && eth.src == 0a:00:00:00:00:01 && (ip4 || arp) actions=drop port-security\n",
    "ingress s_port_sec priority=80 rank=0 datapaths=s0 match=inport == \"p1\" && eth.src == 0a:00:00:00:00:01 actions=go 10\n",
    "ingress s_port_sec priority=70 rank=0 datapaths=s0 match=inport == \"p1\" actions=drop port-security\n",
    "ingress s_track priority=100 rank=0 datapaths=s0 match=inport == \"p1\" && ip4 && !eth.mcast actions=find in;set tracked=1;go 11\n",
    "ingress s_arp priority=100 rank=0 datapaths=s0 match=inport == \"p1\" && arp.op == 1 && arp.tpa == 10.0.0.1 actions=go 14\n",
    "ingress s_arp priority=50 rank=0 datapaths=s0 match=arp.op == 1 && arp.tpa == 10.0.0.1 actions=arp_reply 0a:00:00:00:00:01 10.0.0.1;set out=in;set loopback=1;go 32\n",
    "ingress s_lookup priority=50 rank=0 datapaths=s0 match=eth.dst == 0a:00:00:00:00:01 actions=set out=p1;go 32\n",
    "egress s_track_out priority=100 rank=0 datapaths=s0 match=outport == \"p1\" && ip4 && !eth.mcast actions=find out;set tracked=1;go 41\n",
    "egress s_sec_out priority=80 rank=0 datapaths=s0 match=outport == \"p1\" && eth.dst == 0a:00:00:00:00:01 actions=go 64\n",
    "egress s_sec_out priority=75 rank=0 datapaths=s0 match=outport == \"p1\" && eth.dst == 0a:00:00:00:00:01 && ip4 actions=drop port-security\n",
    "egress s_sec_out priority=70 rank=0 datapaths=s0 match=outport == \"p1\" && eth.dst == 0a:00:00:00:00:01 actions=go 64\n",
    "egress s_sec_out priority=90 rank=0 datapaths=s0 match=outport == \"p1\" && eth.mcast actions=go 64\n",
    "egress s_sec_out priority=60 rank=0 datapaths=s0 match=outport == \"p1\" actions=drop port-security\n",
];

#[test]
fn an_enabled_port_on_a_stateful_switch(rt: HostRuntime) -> Result<(), Fail> {
    let alloc = rt.alloc();
    let mut port = bare_port(alloc)?;
    let ips = List::from_slice(alloc, &[Ip4(0x0a00_0001)])?;
    port.addresses
        .push(PortAddress::Ether { mac: MAC_P1, ips })?;
    port.addresses.push(PortAddress::Unknown)?;
    port.port_security.push(SecurityEntry {
        mac: MAC_P1,
        ips: List::new(alloc),
    })?;
    let mut records = Records::new(alloc)?;
    records.put(stateful_rule(alloc)?)?;
    let rows = port_rows(alloc, &records, &port)?;
    assert!(rt; print(alloc, rows.as_slice(), &LINES_OF_ENABLED)?);
    Ok(())
}

const LINES_OF_DISABLED: [&str; 10] = [
    "ingress s_admit priority=120 rank=0 datapaths=s0 match=inport == \"p1\" actions=drop disabled\n",
    "ingress s_port_sec priority=90 rank=0 datapaths=s0 match=inport == \"p1\" && eth.src == 0a:00:00:00:00:01 && ip4.src == 10.0.1.0/24 actions=go 10\n",
    "ingress s_port_sec priority=90 rank=0 datapaths=s0 match=inport == \"p1\" && eth.src == 0a:00:00:00:00:01 && arp.sha == 0a:00:00:00:00:01 && arp.spa == 10.0.1.0/24 actions=go 10\n",
    "ingress s_port_sec priority=90 rank=0 datapaths=s0 match=inport == \"p1\" && eth.src == 0a:00:00:00:00:01 && ip4.src == 0.0.0.0 && ip4.dst == 255.255.255.255 && udp.src == 68 && udp.dst == 67 actions=go 10\n",
    "ingress s_port_sec priority=85 rank=0 datapaths=s0 match=inport == \"p1\" && eth.src == 0a:00:00:00:00:01 && (ip4 || arp) actions=drop port-security\n",
    "ingress s_port_sec priority=80 rank=0 datapaths=s0 match=inport == \"p1\" && eth.src == 0a:00:00:00:00:01 actions=go 10\n",
    "ingress s_port_sec priority=70 rank=0 datapaths=s0 match=inport == \"p1\" actions=drop port-security\n",
    "egress s_track_out priority=120 rank=0 datapaths=s0 match=outport == \"p1\" actions=drop disabled\n",
    "egress s_sec_out priority=80 rank=0 datapaths=s0 match=outport == \"p1\" && eth.dst == 0a:00:00:00:00:01 && ip4.dst == 10.0.1.0/24 actions=go 64\n",
    "egress s_sec_out priority=80 rank=0 datapaths=s0 match=outport == \"p1\" && eth.dst == 0a:00:00:00:00:01 && ip4.dst == {224.0.0.0/4, 255.255.255.255} actions=go 64\n",
];

#[test]
fn a_disabled_port_with_prefixes(rt: HostRuntime) -> Result<(), Fail> {
    let alloc = rt.alloc();
    let mut port = bare_port(alloc)?;
    port.enabled = false;
    let ips = List::from_slice(alloc, &[Ip4(0x0a00_0001)])?;
    port.addresses
        .push(PortAddress::Ether { mac: MAC_P1, ips })?;
    let prefix = Cidr {
        addr: Ip4(0x0a00_0107),
        len: 24,
    };
    port.port_security.push(SecurityEntry {
        mac: MAC_P1,
        ips: List::from_slice(alloc, &[prefix])?,
    })?;
    let mut rows = port_rows(alloc, &Records::new(alloc)?, &port)?;
    assert!(rt; rows.len() == 14);
    rows.truncate(10);
    assert!(rt; print(alloc, rows.as_slice(), &LINES_OF_DISABLED)?);
    Ok(())
}

const LINES_BEFORE_ROUTER: [&str; 3] = [
    "ingress s_lookup priority=80 rank=0 datapaths=s0 match=eth.mcast && arp.op == 1 && arp.tpa == 10.0.0.100 actions=set out=p1;go 32\n",
    "ingress s_lookup priority=80 rank=0 datapaths=s0 match=eth.mcast && arp.op == 1 && arp.tpa == 10.0.0.254 actions=set out=p1;go 32\n",
    "ingress s_lookup priority=50 rank=0 datapaths=s0 match=eth.dst == 0a:00:00:00:00:fe actions=set out=p1;go 32\n",
];

// The port ra of the router r0, with 10.0.0.254/24.
fn router_port(alloc: Global) -> Result<Record, NoMemory> {
    let network = Cidr {
        addr: Ip4(0x0a00_00fe),
        len: 24,
    };
    Ok(Record::RouterPort(RouterPort {
        name: name(b"ra")?,
        birth: Birth(2),
        router: name(b"r0")?,
        mac: MAC_ROUTER,
        networks: List::from_slice(alloc, &[network])?,
        peer: None,
    }))
}

// A row of NAT of the router r0 with this external address.
fn external(row: &[u8], ip: u32) -> Result<Record, NoMemory> {
    Ok(Record::Nat(Nat {
        name: name(row)?,
        birth: Birth(2),
        router: name(b"r0")?,
        kind: NatKind::Dnat,
        external_ip: Ip4(ip),
        logical_ip: Cidr {
            addr: Ip4(0x0a00_0001),
            len: 32,
        },
    }))
}

#[test]
fn a_port_to_a_router(rt: HostRuntime) -> Result<(), Fail> {
    let alloc = rt.alloc();
    let mut port = bare_port(alloc)?;
    port.kind = PortKind::Router;
    port.router_port = Some(name(b"ra")?);
    port.addresses.push(PortAddress::Router)?;
    let mut records = Records::new(alloc)?;
    records.put(router_port(alloc)?)?;
    records.put(external(b"n1", 0xac10_0064)?)?;
    records.put(external(b"n2", 0x0a00_0064)?)?;
    records.put(stateful_rule(alloc)?)?;
    let rows = port_rows(alloc, &records, &port)?;
    assert!(rt; print(alloc, rows.as_slice(), &LINES_BEFORE_ROUTER)?);
    Ok(())
}

const LINES_OF_SWITCH: [&str; 42] = [
    "ingress s_admit priority=110 rank=0 datapaths=s0 match=eth.src == 01:00:00:00:00:00/01:00:00:00:00:00 actions=drop bad-source\n",
    "ingress s_admit priority=100 rank=0 datapaths=s0 match=eth.type == 33024 actions=drop vlan\n",
    "ingress s_admit priority=0 rank=0 datapaths=s0 match=1 actions=go 9\n",
    "ingress s_port_sec priority=0 rank=0 datapaths=s0 match=1 actions=go 10\n",
    "ingress s_track priority=0 rank=0 datapaths=s0 match=1 actions=go 11\n",
    "ingress s_acl_in priority=0 rank=0 datapaths=s0 match=1 actions=go 12\n",
    "ingress s_state_in priority=100 rank=0 datapaths=s0 match=verdict == 5 && tracked == 0 actions=drop acl\n",
    "ingress s_state_in priority=100 rank=0 datapaths=s0 match=verdict == 4 && tracked == 0 actions=drop reject\n",
    "ingress s_state_in priority=90 rank=0 datapaths=s0 match=tracked == 0 actions=go 13\n",
    "ingress s_state_in priority=90 rank=0 datapaths=s0 match=verdict == 3 && tracked == 1 actions=go 13\n",
    "ingress s_state_in priority=80 rank=0 datapaths=s0 match=state == 4 && verdict == 5 actions=drop acl\n",
    "ingress s_state_in priority=80 rank=0 datapaths=s0 match=state == 4 && verdict == 4 actions=drop reject\n",
    "ingress s_state_in priority=70 rank=0 datapaths=s0 match=state == 3 && blocked == 1 actions=drop blocked\n",
    "ingress s_state_in priority=70 rank=0 datapaths=s0 match=state == 3 && blocked == 0 actions=touch;translate;go 13\n",
    "ingress s_state_in priority=60 rank=0 datapaths=s0 match=state == 2 && verdict == 5 actions=block;drop acl\n",
    "ingress s_state_in priority=60 rank=0 datapaths=s0 match=state == 2 && verdict == 4 actions=block;drop reject\n",
    "ingress s_state_in priority=60 rank=0 datapaths=s0 match=state == 1 && verdict == 5 actions=drop acl\n",
    "ingress s_state_in priority=60 rank=0 datapaths=s0 match=state == 1 && verdict == 4 actions=drop reject\n",
    "ingress s_state_in priority=50 rank=0 datapaths=s0 match=state == 2 actions=unblock;touch;translate;go 13\n",
    "ingress s_state_in priority=50 rank=0 datapaths=s0 match=state == 1 actions=commit in;go 13\n",
    "ingress s_state_in priority=0 rank=0 datapaths=s0 match=1 actions=go 13\n",
    "ingress s_arp priority=0 rank=0 datapaths=s0 match=1 actions=go 14\n",
    "ingress s_lookup priority=70 rank=0 datapaths=s0 match=eth.mcast actions=set out=32768;go 32\n",
    "ingress s_lookup priority=0 rank=0 datapaths=s0 match=1 actions=set out=32769;go 32\n",
    "egress s_track_out priority=0 rank=0 datapaths=s0 match=1 actions=go 41\n",
    "egress s_acl_out priority=0 rank=0 datapaths=s0 match=1 actions=go 42\n",
    "egress s_state_out priority=100 rank=0 datapaths=s0 match=verdict == 5 && tracked == 0 actions=drop acl\n",
    "egress s_state_out priority=100 rank=0 datapaths=s0 match=verdict == 4 && tracked == 0 actions=drop reject\n",
    "egress s_state_out priority=90 rank=0 datapaths=s0 match=tracked == 0 actions=go 43\n",
    "egress s_state_out priority=90 rank=0 datapaths=s0 match=verdict == 3 && tracked == 1 actions=go 43\n",
    "egress s_state_out priority=80 rank=0 datapaths=s0 match=state == 4 && verdict == 5 actions=drop acl\n",
    "egress s_state_out priority=80 rank=0 datapaths=s0 match=state == 4 && verdict == 4 actions=drop reject\n",
    "egress s_state_out priority=70 rank=0 datapaths=s0 match=state == 3 && blocked == 1 actions=drop blocked\n",
    "egress s_state_out priority=70 rank=0 datapaths=s0 match=state == 3 && blocked == 0 actions=touch;translate;go 43\n",
    "egress s_state_out priority=60 rank=0 datapaths=s0 match=state == 2 && verdict == 5 actions=block;drop acl\n",
    "egress s_state_out priority=60 rank=0 datapaths=s0 match=state == 2 && verdict == 4 actions=block;drop reject\n",
    "egress s_state_out priority=60 rank=0 datapaths=s0 match=state == 1 && verdict == 5 actions=drop acl\n",
    "egress s_state_out priority=60 rank=0 datapaths=s0 match=state == 1 && verdict == 4 actions=drop reject\n",
    "egress s_state_out priority=50 rank=0 datapaths=s0 match=state == 2 actions=unblock;touch;translate;go 43\n",
    "egress s_state_out priority=50 rank=0 datapaths=s0 match=state == 1 actions=commit out;go 43\n",
    "egress s_state_out priority=0 rank=0 datapaths=s0 match=1 actions=go 43\n",
    "egress s_sec_out priority=0 rank=0 datapaths=s0 match=1 actions=go 64\n",
];

#[test]
fn a_switch_without_stateful_rules(rt: HostRuntime) -> Result<(), Fail> {
    let alloc = rt.alloc();
    let rows = switch_rows(alloc, false, true)?;
    assert!(rt; print(alloc, rows.as_slice(), &LINES_OF_SWITCH)?);
    Ok(())
}
