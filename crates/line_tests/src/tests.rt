use edit_reader::event::ReadRefusal;
use event_lines::lines::{accepted, end, line, refused};
use event_lines::refusal::Refusal;
use flow_table::flow::Cause;
use inet_packet::packet::{Body, Packet};
use match_language::fault::MatchFault;
use nb_rules::fault::{Address, Limited, SchemaFault};
use ovn_base::address::{Backend, Ip4, Mac};
use ovn_base::list::List;
use ovn_base::memory::NoMemory;
use ovn_base::name::Name;
use std::alloc::Global;
use std::process::Abort;
use std::test::Fail;
use switch_engine::effect::NetEffect;

fn name(rt: &impl Abort, text: &[u8]) -> Name {
    Name::read(text).expect(rt, "a name")
}

fn frame(alloc: Global) -> Result<Packet, NoMemory> {
    Ok(Packet {
        dst: Mac([10, 0, 0, 0, 0, 2]),
        src: Mac([10, 0, 0, 0, 0, 1]),
        body: Body::Other { ether_type: 0x88b5 },
        tail: List::from_slice(alloc, b"hi")?,
    })
}

// A switch, a port, and a frame that comes out of it.
#[test]
fn writes_keys_and_frames(rt: HostRuntime) -> Result<(), Fail> {
    let alloc = rt.alloc();
    let p2 = name(&rt, b"p2");
    let mut text = Vec::new(alloc);
    let datapath = NetEffect::DatapathKey {
        name: name(&rt, b"s0"),
        key: 1,
    };
    accepted(&[datapath], 0, 1, &mut text)?;
    line(&NetEffect::PortKey { name: p2, key: 2 }, 2, &mut text)?;
    accepted(&[], 0, 2, &mut text)?;
    let packet = frame(alloc)?;
    accepted(&[NetEffect::Out { port: p2, packet }], 16, 7, &mut text)?;
    end(7, 6, 1, 65583, &mut text)?;
    let wanted =
        b"1 key datapath s0 1\n1 ok walks=0\n2 key port p2 2\n2 ok walks=0\n7 out p2 0a00000000020a000000000188b56869\n7 ok walks=16\nend events=7 accepted=6 refused=1 waiting=65583\n";
    assert_eq!(rt; text.as_slice(), wanted.as_slice());
    Ok(())
}

// A frame from one chassis to another, and two that are lost.
#[test]
fn writes_tunnels(rt: HostRuntime) -> Result<(), Fail> {
    let alloc = rt.alloc();
    let mut text = Vec::new(alloc);
    let bytes =
        b"\x02\x40\x65\x58\0\0\x01\0\x01\x02\x80\x01\0\x01\0\x02\x0a\0\0\0\0\x02\x0a\0\0\0\0\x01\x88\xb5hi";
    let sent = NetEffect::Tunnel {
        frame: 1,
        from: name(&rt, b"hv1"),
        to: name(&rt, b"hv2"),
        bytes: List::from_slice(alloc, bytes)?,
    };
    accepted(&[sent, NetEffect::Lost { frame: 1 }], 17, 8, &mut text)?;
    line(
        &NetEffect::Lost {
            frame: 18446744073709551616,
        },
        13,
        &mut text,
    )?;
    let wanted =
        b"8 tunnel 1 hv1 hv2 024065580000010001028001000100020a00000000020a000000000188b56869\n8 lost 1\n8 ok walks=17\n13 lost 18446744073709551616\n";
    assert_eq!(rt; text.as_slice(), wanted.as_slice());
    Ok(())
}

// A new connection to a virtual address, and one whose source port was taken.
#[test]
fn writes_picks(rt: HostRuntime) -> Result<(), Fail> {
    let mut text = Vec::new(rt.alloc());
    let to_backend = NetEffect::PickBackend {
        datapath: name(&rt, b"s0"),
        vip: Backend {
            ip: Ip4(0x0a00_0064),
            port: 80,
        },
        backend: Backend {
            ip: Ip4(0x0a00_0002),
            port: 8080,
        },
    };
    accepted(&[to_backend], 17, 11, &mut text)?;
    let to_port = NetEffect::PickPort {
        router: name(&rt, b"g0"),
        port: 1024,
    };
    line(&to_port, 7, &mut text)?;
    let wanted =
        b"11 pick backend s0 10.0.0.100:80 10.0.0.2:8080\n11 ok walks=17\n7 pick port g0 1024\n";
    assert_eq!(rt; text.as_slice(), wanted.as_slice());
    Ok(())
}

#[test]
fn writes_each_cause(rt: HostRuntime) -> Result<(), Fail> {
    let none = name(&rt, b"-");
    let mut text = Vec::new(rt.alloc());
    let causes = [
        Cause::Disabled,
        Cause::BadSource,
        Cause::Vlan,
        Cause::PortSecurity,
        Cause::Acl,
        Cause::Reject,
        Cause::Invalid,
        Cause::Blocked,
        Cause::Clash,
        Cause::Full,
        Cause::NoLiveBackend,
        Cause::UnknownAddress,
        Cause::Loopback,
        Cause::Unbound,
        Cause::NotForRouter,
        Cause::Arp,
        Cause::BadIp,
        Cause::Ttl,
        Cause::NotIp4,
        Cause::ForRouter,
        Cause::NoRoute,
        Cause::NoNeighbour,
        Cause::NoFreePort,
        Cause::NoPeer,
        Cause::HopLimit,
    ];
    for cause in causes {
        let drop = NetEffect::Drop {
            datapath: none,
            port: none,
            cause,
        };
        line(&drop, 1, &mut text)?;
    }
    let wanted =
        b"1 drop - - disabled\n1 drop - - bad-source\n1 drop - - vlan\n1 drop - - port-security\n1 drop - - acl\n1 drop - - reject\n1 drop - - invalid\n1 drop - - blocked\n1 drop - - clash\n1 drop - - full\n1 drop - - no-live-backend\n1 drop - - unknown-address\n1 drop - - loopback\n1 drop - - unbound\n1 drop - - not-for-router\n1 drop - - arp\n1 drop - - bad-ip\n1 drop - - ttl\n1 drop - - not-ip4\n1 drop - - for-router\n1 drop - - no-route\n1 drop - - no-neighbour\n1 drop - - no-free-port\n1 drop - - no-peer\n1 drop - - hop-limit\n";
    assert_eq!(rt; text.as_slice(), wanted.as_slice());
    Ok(())
}

// The lines of the refusals, each of event 8.
fn refused_lines(alloc: Global, refusals: &[Refusal]) -> Result<Vec<u8>, NoMemory> {
    let mut text = Vec::new(alloc);
    for refusal in refusals {
        refused(&refusal.copy()?, 8, &mut text)?;
    }
    Ok(text)
}

// A field is written only where it is a name.
#[test]
fn writes_what_was_not_read(rt: HostRuntime) -> Result<(), Fail> {
    let alloc = rt.alloc();
    let refusals = [
        Refusal::Read(ReadRefusal::TooLong),
        Refusal::Read(ReadRefusal::NotObject),
        Refusal::Read(ReadRefusal::OutOfRange(List::from_slice(alloc, b"edit")?)),
        Refusal::Read(ReadRefusal::WrongKind(List::from_slice(alloc, b"frame")?)),
        Refusal::Read(ReadRefusal::UnknownField(List::from_slice(alloc, b"a b")?)),
        Refusal::Read(ReadRefusal::BadMatch(MatchFault::MixedAndOr(11))),
    ];
    let text = refused_lines(alloc, &refusals)?;
    let wanted =
        b"8 refused TooLong\n8 refused NotObject\n8 refused OutOfRange edit\n8 refused WrongKind frame\n8 refused UnknownField ?\n8 refused BadMatch MixedAndOr 11\n";
    assert_eq!(rt; text.as_slice(), wanted.as_slice());
    Ok(())
}

#[test]
fn writes_what_is_wrong_with_edits(rt: HostRuntime) -> Result<(), Fail> {
    let alloc = rt.alloc();
    let holder = name(&rt, b"p2");
    let refusals = [
        Refusal::Schema(SchemaFault::NoSuch(name(&rt, b"zz"))),
        Refusal::Schema(SchemaFault::TooWide(196608)),
        Refusal::Schema(SchemaFault::Limit(Limited::Cubes)),
        Refusal::Schema(SchemaFault::DuplicateAddress {
            address: Address::Ether(Mac([10, 0, 0, 0, 0, 0xfe])),
            holder,
        }),
        Refusal::Schema(SchemaFault::DuplicateAddress {
            address: Address::Ip(Ip4(0x0a00_0002)),
            holder,
        }),
    ];
    let text = refused_lines(alloc, &refusals)?;
    let wanted =
        b"8 refused NoSuch zz\n8 refused TooWide 196608\n8 refused Limit cubes\n8 refused DuplicateAddress 0a:00:00:00:00:fe p2\n8 refused DuplicateAddress 10.0.0.2 p2\n";
    assert_eq!(rt; text.as_slice(), wanted.as_slice());
    Ok(())
}

#[test]
fn writes_what_an_event_lacks(rt: HostRuntime) -> Result<(), Fail> {
    let alloc = rt.alloc();
    let backend = Backend {
        ip: Ip4(0x0a00_0002),
        port: 8080,
    };
    let refusals = [
        Refusal::NoPortKey(name(&rt, b"s0")),
        Refusal::NoSuch(name(&rt, b"p9")),
        Refusal::NoSuchBackend(backend),
        Refusal::NotBound(name(&rt, b"p1")),
        Refusal::DuplicateName(name(&rt, b"hv1")),
        Refusal::LimitChassis,
        Refusal::KeysFixed,
        Refusal::TooShort,
        Refusal::BadIp4,
        Refusal::NoFrame(1),
    ];
    let text = refused_lines(alloc, &refusals)?;
    let wanted =
        b"8 refused NoPortKey s0\n8 refused NoSuch p9\n8 refused NoSuch 10.0.0.2:8080\n8 refused NotBound p1\n8 refused DuplicateName hv1\n8 refused Limit chassis\n8 refused KeysFixed\n8 refused TooShort\n8 refused BadIp4\n8 refused NoFrame 1\n";
    assert_eq!(rt; text.as_slice(), wanted.as_slice());
    Ok(())
}
