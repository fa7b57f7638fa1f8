//! What is said of each row's match is what the row says.
ghost use Rattle.std.specs.Prelude.{◌≡◌, true, IfOk};
ghost use Rattle.match_cubes.specs.Suited.{are_suited};

use crate::tables::{FRAMES, KEYS, MATCHES};
use inet_packet::cube::Cube;
use inet_packet::decode::decode;
use inet_packet::packet::Packet;
use inet_packet::regs::{At, RegFlags, Regs};
use match_cubes::cubes::cubes;
use match_cubes::fault::CubeFault;
use match_cubes::laws::fitting_is_suited;
use match_cubes::sets::{SetEntry, Sets};
use match_cubes::width::width;
use match_language::expr::Expr;
use match_language::field::Direction;
use match_language::reader::parse;
use ovn_base::address::{Cidr, Ip4, Mac};
use ovn_base::list::List;
use ovn_base::memory::NoMemory;
use ovn_base::name::Name;
use ovn_base::ports::Ports;
use std::alloc::Global;
use std::test::Fail;

fn name(text: &[u8]) -> Result<Name, Fail> {
    match Name::read(text) {
        Some(name) => Ok(name),
        None => Err(NoMemory.into()),
    }
}

// The sets `nets`, `macs` and `none`, and the groups `two`, `dead` and `empty`.
fn some_sets(alloc: Global) -> Result<Sets, Fail> {
    let nets = [
        SetEntry::Ip(Cidr {
            addr: Ip4(0x0a00_0000),
            len: 8,
        }),
        SetEntry::Ip(Cidr {
            addr: Ip4(0xc0a8_0107),
            len: 32,
        }),
    ];
    let macs = [
        SetEntry::Ether(Mac([0x0a, 0, 0, 0, 0, 1])),
        SetEntry::Ether(Mac([0x0c, 0, 0, 0, 0, 3])),
    ];
    let mut addresses = List::new(alloc);
    addresses.push((name(b"nets")?, List::from_slice(alloc, &nets)?))?;
    addresses.push((name(b"macs")?, List::from_slice(alloc, &macs)?))?;
    addresses.push((name(b"none")?, List::new(alloc)))?;
    let two = [name(b"p1")?, name(b"p2")?, name(b"gone")?];
    let mut groups = List::new(alloc);
    groups.push((name(b"two")?, List::from_slice(alloc, &two)?))?;
    groups.push((name(b"dead")?, List::from_slice(alloc, &[name(b"gone")?])?))?;
    groups.push((name(b"empty")?, List::new(alloc)))?;
    Ok(Sets { addresses, groups })
}

// The ports `p1`, `p2` and `p3` with the keys 1, 2 and 3.
fn some_ports(alloc: Global) -> Result<Ports, Fail> {
    let ports = [(name(b"p1")?, 1), (name(b"p2")?, 2), (name(b"p3")?, 3)];
    Ok(Ports {
        list: List::from_slice(alloc, &ports)?,
    })
}

fn some_regs(in_port: u32, out_port: u32) -> Regs {
    Regs {
        dp: 7,
        in_port,
        out_port,
        next: 0,
        z_in: 0,
        z_out: 0,
        z_dnat: 0,
        z_snat: 0,
        state: 0,
        verdict: 0,
        tier: 0,
        flags: RegFlags(0),
        at: At::Tunnel,
    }
}

fn is_in_one(all: &[Cube], regs: &Regs, packet: &Packet) -> bool {
    for cube in all {
        if cube.fits(regs, packet) {
            return true;
        }
    }
    false
}

// The match that the text spells.
fn read(alloc: Global, text: &[u8]) -> Result<Expr, Fail>
    ensures { IfOk result (λ x. are_suited x true ≡ true) }
{
    fitting_is_suited();
    match parse(alloc, text, Direction::ToLport) {
        Ok(expr) => Ok(expr),
        Err(fault) => Err(fault.into()),
    }
}

// The cubes of the match that the text spells.
fn cubes_of(alloc: Global, text: &[u8]) -> Result<List<Cube>, Fail> {
    let expr = read(alloc, text)?;
    Ok(cubes(alloc, &expr, &some_sets(alloc)?, &some_ports(alloc)?)?)
}

// The width of the match, and of each packet whether it is in one of the cubes.
fn answer(alloc: Global, text: &[u8]) -> Result<String, Fail> {
    let sets = some_sets(alloc)?;
    let expr = read(alloc, text)?;
    let all = match cubes(alloc, &expr, &sets, &some_ports(alloc)?) {
        Ok(all) => all,
        Err(CubeFault::Memory) => return Err(NoMemory.into()),
        Err(fault) => return Ok(format!(in alloc; "{fault:?}")?),
    };
    let wide = width(&expr, &sets);
    let mut out = format!(in alloc; "{wide} ")?;
    for (frame, (in_port, out_port)) in FRAMES.iter().zip(KEYS) {
        let packet = decode(alloc, frame)?;
        let regs = some_regs(in_port, out_port);
        out.push(if is_in_one(all.as_slice(), &regs, &packet) {
            '1'
        } else {
            '0'
        })?;
    }
    Ok(out)
}

#[test]
fn matches_hold_of_packets(rt: HostRuntime) -> Result<(), Fail> {
    for row in MATCHES.split('\n') {
        let (text, wanted) = row.split_once(" ~ ").expect(&rt, "a row");
        let answer = answer(rt.alloc(), text.as_bytes())?;
        assert_eq!(rt; answer.as_str(), wanted, "at {row}");
    }
    Ok(())
}

#[test]
fn ranges_are_prefixes(rt: HostRuntime) -> Result<(), Fail> {
    let all = cubes_of(rt.alloc(), b"tcp.dst >= 1024")?;
    let mut prefixes = Vec::new(rt.alloc());
    for cube in all.as_slice() {
        prefixes.push((cube.tcp_dst.value, cube.tcp_dst.mask))?;
        assert_eq!(rt; cube.eth_type.value, 0x800);
        assert_eq!(rt; cube.ip_proto.value, 6);
        assert_eq!(rt; cube.in_port.mask, 0);
    }
    let wanted = [
        (0x400u64, 0xfc00u64),
        (0x800, 0xf800),
        (0x1000, 0xf000),
        (0x2000, 0xe000),
        (0x4000, 0xc000),
        (0x8000, 0x8000),
    ];
    assert_eq!(rt; prefixes.as_slice(), wanted.as_slice());
    Ok(())
}

#[test]
fn unlike_one_is_a_bit_other(rt: HostRuntime) -> Result<(), Fail> {
    let all = cubes_of(rt.alloc(), b"icmp4.type != 5/7")?;
    let mut bits = Vec::new(rt.alloc());
    for cube in all.as_slice() {
        bits.push((cube.icmp4_type.value, cube.icmp4_type.mask))?;
    }
    let wanted = [(0u64, 1u64), (2, 2), (0, 4)];
    assert_eq!(rt; bits.as_slice(), wanted.as_slice());
    let gone = cubes_of(rt.alloc(), b"inport != \"gone\"")?;
    assert_eq!(rt; gone.len(), 1);
    let two = cubes_of(rt.alloc(), b"ip4.src != {10.0.0.1, 192.168.1.7}")?;
    assert!(rt; two.len() <= 1024);
    Ok(())
}
