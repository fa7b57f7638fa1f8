//! Rows of load balancers are as the tables of stages write them.
use lb_stages::balancer_unit::balancer_rows;
use nb_records::balancer::{BalancerProtocol, LoadBalancer, Vip};
use nb_records::record::Record;
use nb_records::records::Records;
use ovn_base::address::{Backend, Birth, Ip4};
use ovn_base::list::List;
use ovn_base::memory::NoMemory;
use ovn_base::name::Name;
use std::alloc::Global;
use std::test::Fail;
use switch_row_tests::lines::have_lines;

// Backends of 10.0.0.0/24 by their last byte and their port.
const WEB_2: Backend = Backend {
    ip: Ip4(0x0a00_0002),
    port: 8080,
};

const WEB_3: Backend = Backend {
    ip: Ip4(0x0a00_0003),
    port: 8080,
};

const WEB_4: Backend = Backend {
    ip: Ip4(0x0a00_0004),
    port: 65535,
};

fn name(text: &[u8]) -> Result<Name, NoMemory> {
    Name::read(text).ok_or(NoMemory)
}

// A virtual address with a port.
fn vip(alloc: Global, ip: u32, port: u16, backends: &[Backend]) -> Result<Vip, NoMemory> {
    Ok(Vip {
        at: Backend { ip: Ip4(ip), port },
        backends: List::from_slice(alloc, backends)?,
    })
}

// The balancer lb of the switch s0 and the router g0, with 10.0.0.100:80 and 10.0.0.101:53; the latter has no backend.
fn balancer(alloc: Global, protocol: BalancerProtocol) -> Result<LoadBalancer, NoMemory> {
    let mut vips = List::new(alloc);
    vips.push(vip(alloc, 0x0a00_0064, 80, &[WEB_3, WEB_2, WEB_4, WEB_3])?)?;
    vips.push(vip(alloc, 0x0a00_0065, 53, &[])?)?;
    Ok(LoadBalancer {
        name: name(b"lb")?,
        birth: Birth(9),
        protocol,
        vips,
        switches: List::from_slice(alloc, &[name(b"s0")?])?,
        routers: List::from_slice(alloc, &[name(b"g0")?])?,
    })
}

// The records with the balancer alone.
fn records(alloc: Global, protocol: BalancerProtocol) -> Result<Records, NoMemory> {
    let mut records = Records::new(alloc)?;
    records.put(Record::LoadBalancer(balancer(alloc, protocol)?))?;
    Ok(records)
}

// Whether the balancer lb has these lines on the switch or router.
fn has_lines(
    alloc: Global,
    records: &Records,
    datapath: &Name,
    lines: &[&str],
) -> Result<bool, NoMemory> {
    let Some(balancer) = records.load_balancer(&name(b"lb")?) else {
        return Ok(false);
    };
    let rows = balancer_rows(alloc, records, &balancer.name, balancer, datapath)?;
    have_lines(alloc, datapath, rows.as_slice(), lines)
}

const LINES_ON_SWITCH: [&str; 2] = [
    "ingress s_state_in priority=55 rank=0 datapaths=s0 match=state == 1 && tracked == 1 && tcp && ip4.dst == 10.0.0.100 && tcp.dst == 80 actions=balance in 10.0.0.100:80 [10.0.0.3:8080,10.0.0.2:8080,10.0.0.4:65535,10.0.0.3:8080];go 13\n",
    "ingress s_state_in priority=55 rank=0 datapaths=s0 match=state == 1 && tracked == 1 && tcp && ip4.dst == 10.0.0.101 && tcp.dst == 53 actions=balance in 10.0.0.101:53 [];go 13\n",
];

#[test]
fn a_balancer_on_a_switch(rt: HostRuntime) -> Result<(), Fail> {
    let alloc = rt.alloc();
    let records = records(alloc, BalancerProtocol::Tcp)?;
    assert!(rt; has_lines(alloc, &records, &name(b"s0")?, &LINES_ON_SWITCH)?);
    assert!(rt; has_lines(alloc, &records, &name(b"s1")?, &[])?);
    Ok(())
}

const LINES_ON_ROUTER: [&str; 2] = [
    "ingress r_dnat priority=90 rank=0 datapaths=g0 match=state == 1 && udp && ip4.dst == 10.0.0.100 && udp.dst == 80 actions=balance dnat 10.0.0.100:80 [10.0.0.2:8080,10.0.0.4:65535];go 12\n",
    "ingress r_dnat priority=90 rank=0 datapaths=g0 match=state == 1 && udp && ip4.dst == 10.0.0.101 && udp.dst == 53 actions=balance dnat 10.0.0.101:53 [];go 12\n",
];

#[test]
fn a_backend_offline_on_a_router(rt: HostRuntime) -> Result<(), Fail> {
    let alloc = rt.alloc();
    let mut records = records(alloc, BalancerProtocol::Udp)?;
    records.mark(&name(b"lb")?, WEB_3, false)?;
    records.mark(&name(b"other")?, WEB_2, false)?;
    assert!(rt; has_lines(alloc, &records, &name(b"g0")?, &LINES_ON_ROUTER)?);
    Ok(())
}

#[test]
fn a_backend_online_again(rt: HostRuntime) -> Result<(), Fail> {
    let alloc = rt.alloc();
    let mut records = records(alloc, BalancerProtocol::Tcp)?;
    records.mark(&name(b"lb")?, WEB_3, false)?;
    records.mark(&name(b"lb")?, WEB_3, true)?;
    assert!(rt; has_lines(alloc, &records, &name(b"s0")?, &LINES_ON_SWITCH)?);
    Ok(())
}
