use nb_records::answers::answers;
use nb_records::balancer::{BalancerProtocol, LoadBalancer, Vip};
use nb_records::kinds::Kind;
use nb_records::record::Record;
use nb_records::records::Records;
use nb_records::router::{Nat, NatKind, Router, RouterPort};
use ovn_base::address::{Backend, Birth, Cidr, Ip4, Mac};
use ovn_base::list::List;
use ovn_base::memory::NoMemory;
use ovn_base::name::Name;
use std::alloc::Global;
use std::test::Fail;

// 172.16.0.0/24 is the network of the port `ge` of the gateway router `g0`.
const OWN: Ip4 = Ip4(0xac1000fe);

const EXTERNAL: Ip4 = Ip4(0xac100064);

const VIRTUAL: Ip4 = Ip4(0xac100032);

const OUTSIDE: Ip4 = Ip4(0xc0000201);

const SERVER: Backend = Backend {
    ip: Ip4(0x0a000002),
    port: 8080,
};

fn name(text: &[u8]) -> Result<Name, NoMemory> {
    Name::read(text).ok_or(NoMemory)
}

fn port(alloc: Global) -> Result<Record, NoMemory> {
    let mut networks = List::new(alloc);
    networks.push(Cidr { addr: OWN, len: 24 })?;
    Ok(Record::RouterPort(RouterPort {
        name: name(b"ge")?,
        birth: Birth(2),
        router: name(b"g0")?,
        mac: Mac([0x0a, 0, 0, 0, 1, 0xfe]),
        networks,
        peer: None,
    }))
}

fn nat(called: &[u8], external_ip: Ip4) -> Result<Record, NoMemory> {
    Ok(Record::Nat(Nat {
        name: name(called)?,
        birth: Birth(2),
        router: name(b"g0")?,
        kind: NatKind::DnatAndSnat,
        external_ip,
        logical_ip: Cidr {
            addr: Ip4(0x0a000001),
            len: 32,
        },
    }))
}

fn balancer(alloc: Global) -> Result<Record, NoMemory> {
    let mut backends = List::new(alloc);
    backends.push(SERVER)?;
    let at = Backend {
        ip: VIRTUAL,
        port: 80,
    };
    let mut vips = List::new(alloc);
    vips.push(Vip { at, backends })?;
    let mut routers = List::new(alloc);
    routers.push(name(b"g0")?)?;
    Ok(Record::LoadBalancer(LoadBalancer {
        name: name(b"lb")?,
        birth: Birth(9),
        protocol: BalancerProtocol::Tcp,
        vips,
        switches: List::new(alloc),
        routers,
    }))
}

fn gateway(alloc: Global) -> Result<Records, NoMemory> {
    let mut records = Records::new(alloc)?;
    records.put(Record::Router(Router {
        name: name(b"g0")?,
        birth: Birth(2),
        chassis: Some(name(b"hv1")?),
    }))?;
    records.put(port(alloc)?)?;
    records.put(nat(b"n0", EXTERNAL)?)?;
    records.put(nat(b"n1", OUTSIDE)?)?;
    records.put(balancer(alloc)?)?;
    Ok(records)
}

#[test]
fn a_router_port_answers_for_what_lies_in_its_networks(rt: HostRuntime) -> Result<(), Fail> {
    let records = gateway(rt.alloc())?;
    let rows = [
        (b"ge", OWN, true),
        (b"ge", EXTERNAL, true),
        (b"ge", VIRTUAL, true),
        (b"ge", OUTSIDE, false),
        (b"ge", Ip4(0xac100009), false),
        (b"gi", OWN, false),
    ];
    for (port, ip, wanted) in rows {
        assert_eq!(rt; answers(&records, &name(port)?, ip), wanted, "at {ip:?}");
    }
    Ok(())
}

#[test]
fn a_removed_row_is_gone(rt: HostRuntime) -> Result<(), Fail> {
    let mut records = gateway(rt.alloc())?;
    let n0 = name(b"n0")?;
    assert!(rt; records.remove(Kind::Nat, &n0));
    assert!(rt; records.nat(&n0).is_none());
    assert!(rt; records.nat(&name(b"n1")?).is_some());
    Ok(())
}

#[test]
fn a_backend_is_offline_while_it_is_marked(rt: HostRuntime) -> Result<(), Fail> {
    let mut records = Records::new(rt.alloc())?;
    let lb = name(b"lb")?;
    records.mark(&lb, SERVER, false)?;
    let copied = records.copy()?;
    records.mark(&lb, SERVER, true)?;
    assert!(rt; records.is_online(&lb, SERVER));
    assert!(rt; !copied.is_online(&lb, SERVER));
    Ok(())
}

#[test]
fn a_copied_record_is_equal(rt: HostRuntime) -> Result<(), Fail> {
    let alloc = rt.alloc();
    for record in [port(alloc)?, nat(b"n0", EXTERNAL)?, balancer(alloc)?] {
        assert!(rt; record.copy()? == record);
    }
    Ok(())
}
