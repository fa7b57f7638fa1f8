//! Copies are equal to what they were made of.
use crate::edits::name;
use crate::sets::sets;
use conn_zones::change::HomeChange;
use edit_reader::read::read_event;
use flow_table::flow::FlowOp;
use logical_flows::fact::{Fact, FactSet};
use nb_records::balancer::Vip;
use nb_records::switch::{PortAddress, SecurityEntry};
use ovn_base::address::{Backend, Cidr, Ip4, Mac};
use ovn_base::list::List;
use ovn_base::memory::NoMemory;
use ovn_base::ports::Ports;
use std::alloc::Global;
use std::test::Fail;

fn homes(alloc: Global) -> Result<bool, NoMemory> {
    let p1 = name("p1")?;
    let g0 = name("g0")?;
    let change = HomeChange {
        ports: List::from_slice(alloc, &[(p1, Some(g0)), (g0, None)])?,
        routers: List::from_slice(alloc, &[(g0, Some(p1))])?,
    };
    let copy = change.copy()?;
    Ok(copy.ports == change.ports && copy.routers == change.routers)
}

fn facts(alloc: Global) -> Result<bool, NoMemory> {
    let p1 = name("p1")?;
    let facts = FactSet {
        facts: List::from_slice(alloc, &[Fact::SwitchPort(p1), Fact::Stateful(p1)])?,
    };
    Ok(facts.copy()? == facts)
}

fn ports(alloc: Global) -> Result<bool, NoMemory> {
    let ports = Ports {
        list: List::from_slice(alloc, &[(name("p1")?, 1)])?,
    };
    Ok(ports.copy()? == ports)
}

const MAC: Mac = Mac([0x0a, 0, 0, 0, 0, 1]);

const IP: Ip4 = Ip4(0x0a00_0001);

const SERVER: Backend = Backend { ip: IP, port: 8080 };

fn addresses(alloc: Global) -> Result<bool, NoMemory> {
    let address = PortAddress::Ether {
        mac: MAC,
        ips: List::from_slice(alloc, &[IP])?,
    };
    let entry = SecurityEntry {
        mac: MAC,
        ips: List::from_slice(alloc, &[Cidr { addr: IP, len: 32 }])?,
    };
    Ok(address.copy()? == address && entry.copy()? == entry)
}

fn vips(alloc: Global) -> Result<bool, NoMemory> {
    let vip = Vip {
        at: SERVER,
        backends: List::from_slice(alloc, &[SERVER])?,
    };
    Ok(vip.copy()? == vip)
}

// Whether the event of the line is one that was read, and its copy is equal.
fn event(alloc: Global, line: &str) -> Result<bool, NoMemory> {
    match read_event(alloc, line.as_bytes()) {
        Ok(event) => Ok(event.copy()? == event),
        Err(_) => Ok(false),
    }
}

const LINES: [&str; 4] = [
    r#"{"edit":[{"add":"switch_port","name":"p1","switch":"s0","addresses":["0a:00:00:00:00:01 10.0.0.1"]},{"remove":"acl","name":"a"}]}"#,
    r#"{"packet":{"port":"p1","frame":"0a00000000020a0000000001aabb"}}"#,
    r#"{"bind":{"port":"p1","chassis":"hv1"}}"#,
    r#"{"drain":{}}"#,
];

#[test]
fn copies_are_equal(rt: HostRuntime) -> Result<(), Fail> {
    let alloc = rt.alloc();
    let sets = sets(alloc)?;
    assert!(rt; sets.copy()? == sets);
    assert!(rt; homes(alloc)? && facts(alloc)?);
    assert!(rt; ports(alloc)? && addresses(alloc)? && vips(alloc)?);
    assert!(rt; FlowOp::Touch.copy()? == FlowOp::Touch);
    for line in &LINES {
        assert!(rt; event(alloc, line)?);
    }
    Ok(())
}
