//! Addresses and their texts.

use ovn_base::address::{Cidr, Ip4, Mac};
use ovn_base::print_address::{push_cidr, push_ip4, push_mac};
use ovn_base::read_address::{read_cidr, read_ip4, read_mac};
use std::test::Fail;

#[test]
fn ethernet_addresses_have_numbers(rt: HostRuntime) {
    let fe = Mac([0x0a, 0, 0, 0, 0, 0xfe]);
    let group = Mac([0x01, 0, 0x5e, 0, 0, 1]);
    assert_eq!(rt; fe.number(), 0x0a00_0000_00fe);
    assert!(rt; !fe.is_multicast());
    assert!(rt; group.is_multicast());
    assert!(rt; Mac([0xff; 6]).is_multicast());
}

#[test]
fn reads_ethernet_addresses(rt: HostRuntime) {
    let fe = Some(Mac([0x0a, 0, 0, 0, 0, 0xfe]));
    let one_fe = Some(Mac([0x0a, 0, 0, 0, 1, 0xfe]));
    assert_eq!(rt; read_mac(b"0a:00:00:00:00:fe"), fe);
    assert_eq!(rt; read_mac(b"0A:00:00:00:01:fe"), one_fe);
    let others: [&[u8]; 6] = [
        b"0a:00:00:00:00",
        b"0a:00:00:00:00:g0",
        b"0a:00:00:00:00:000",
        b"0a:00:00:00:00:fe:",
        b"0a-00-00-00-00-fe",
        b"",
    ];
    for text in others {
        assert_eq!(rt; read_mac(text), None);
    }
}

#[test]
fn reads_ip_addresses(rt: HostRuntime) {
    let addresses: [(&[u8], u32); 3] = [
        (b"10.0.0.1", 0x0a00_0001),
        (b"0.0.0.0", 0),
        (b"255.255.255.255", 0xffff_ffff),
    ];
    for (text, address) in addresses {
        assert_eq!(rt; read_ip4(text), Some(Ip4(address)));
    }
    let others: [&[u8]; 6] = [
        b"010.0.0.1",
        b"256.0.0.1",
        b"10.0.0",
        b"10.0.0.1.2",
        b"10.0.0.",
        b"+1.0.0.1",
    ];
    for text in others {
        assert_eq!(rt; read_ip4(text), None);
    }
}

#[test]
fn reads_addresses_with_lengths(rt: HostRuntime) {
    let addr = Ip4(0x0a00_0000);
    let subnets: [(&[u8], u8); 3] = [(b"10.0.0.0/8", 8), (b"10.0.0.0/0", 0), (b"10.0.0.0", 32)];
    for (text, len) in subnets {
        assert_eq!(rt; read_cidr(text), Some(Cidr { addr, len }));
    }
    let others: [&[u8]; 4] = [
        b"10.0.0.0/33",
        b"10.0.0.0/08",
        b"10.0.0.0/",
        b"10.0.0.0/8/8",
    ];
    for text in others {
        assert_eq!(rt; read_cidr(text), None);
    }
}

#[test]
fn prints_addresses(rt: HostRuntime) -> Result<(), Fail> {
    let mut out = Vec::new(rt.alloc());
    let addr = Ip4(0x0a00_0000);
    push_mac(&mut out, Mac([0x0a, 0, 0, 0, 1, 0xfe]))?;
    out.push(b' ')?;
    push_ip4(&mut out, Ip4(0xc0a8_0a01))?;
    out.push(b' ')?;
    push_cidr(&mut out, Cidr { addr, len: 8 })?;
    assert!(rt; out.as_slice() == b"0a:00:00:00:01:fe 192.168.10.1 10.0.0.0/8".as_slice());
    Ok(())
}
