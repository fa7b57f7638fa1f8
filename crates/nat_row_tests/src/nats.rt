//! Rows of NAT are as the tables of stages write them.
use nat_stages::nat_unit::nat_rows;
use nb_records::router::{Nat, NatKind};
use ovn_base::address::{Birth, Cidr, Ip4};
use ovn_base::memory::NoMemory;
use ovn_base::name::Name;
use std::alloc::Global;
use std::test::Fail;
use switch_row_tests::lines::have_lines;

fn name(text: &[u8]) -> Result<Name, NoMemory> {
    Name::read(text).ok_or(NoMemory)
}

// A row of NAT of the router g0, between the external address and those of the prefix.
fn nat(kind: NatKind, external: u32, addr: u32, len: u8) -> Result<Nat, NoMemory> {
    Ok(Nat {
        name: name(b"n0")?,
        birth: Birth(2),
        router: name(b"g0")?,
        kind,
        external_ip: Ip4(external),
        logical_ip: Cidr {
            addr: Ip4(addr),
            len,
        },
    })
}

// Whether the row of NAT has these lines.
fn has_lines(alloc: Global, nat: &Nat, lines: &[&str]) -> Result<bool, NoMemory> {
    let rows = nat_rows(alloc, nat)?;
    have_lines(alloc, &nat.router, rows.as_slice(), lines)
}

const LINE_OF_DNAT: [&str; 1] = [
    "ingress r_dnat priority=80 rank=0 datapaths=g0 match=state == 1 && ip4.dst == 172.16.0.253 actions=dnat dnat 10.0.0.2;go 12\n",
];

#[test]
fn destinations_alone(rt: HostRuntime) -> Result<(), Fail> {
    let alloc = rt.alloc();
    let row = nat(NatKind::Dnat, 0xac10_00fd, 0x0a00_0002, 32)?;
    assert!(rt; has_lines(alloc, &row, &LINE_OF_DNAT)?);
    Ok(())
}

const LINES_OF_SNAT: [&str; 2] = [
    "egress r_snat priority=124 rank=0 datapaths=g0 match=state == 1 && ip4.src == 10.0.0.0/24 actions=snat snat 172.16.0.254;go 64\n",
    "egress r_snat priority=124 rank=0 datapaths=g0 match=state == 4 && ip4.src == 10.0.0.0/24 actions=drop invalid\n",
];

const LINES_OF_ALL: [&str; 2] = [
    "egress r_snat priority=100 rank=0 datapaths=g0 match=state == 1 && ip4.src == 0.0.0.0/0 actions=snat snat 172.16.0.254;go 64\n",
    "egress r_snat priority=100 rank=0 datapaths=g0 match=state == 4 && ip4.src == 0.0.0.0/0 actions=drop invalid\n",
];

#[test]
fn sources_of_a_prefix(rt: HostRuntime) -> Result<(), Fail> {
    let alloc = rt.alloc();
    let row = nat(NatKind::Snat, 0xac10_00fe, 0x0a00_0000, 24)?;
    assert!(rt; has_lines(alloc, &row, &LINES_OF_SNAT)?);
    let all = nat(NatKind::Snat, 0xac10_00fe, 0, 0)?;
    assert!(rt; has_lines(alloc, &all, &LINES_OF_ALL)?);
    Ok(())
}

const LINES_OF_BOTH: [&str; 3] = [
    "ingress r_dnat priority=80 rank=0 datapaths=g0 match=state == 1 && ip4.dst == 172.16.0.9 actions=dnat dnat 10.0.0.9;go 12\n",
    "egress r_snat priority=132 rank=0 datapaths=g0 match=state == 1 && ip4.src == 10.0.0.9 actions=snat snat 172.16.0.9;go 64\n",
    "egress r_snat priority=132 rank=0 datapaths=g0 match=state == 4 && ip4.src == 10.0.0.9 actions=drop invalid\n",
];

#[test]
fn both_ways(rt: HostRuntime) -> Result<(), Fail> {
    let alloc = rt.alloc();
    let row = nat(NatKind::DnatAndSnat, 0xac10_0009, 0x0a00_0009, 32)?;
    assert!(rt; has_lines(alloc, &row, &LINES_OF_BOTH)?);
    Ok(())
}
