ghost use Rattle.std.specs.Prelude.{IsTrue};
ghost use Rattle.inet_packet.specs.Rewrites.{CanSetPorts};

use inet_packet::decode::decode;
use inet_packet::encode::encode;
use inet_packet::frame::FrameFault;
use inet_packet::packet::{Body, Packet, Part};
use ovn_base::address::{Ip4, Mac};
use ovn_base::limits::MAX_FRAME;
use std::alloc::Global;
use std::test::*;

// What is made of bytes.
#[derive(Clone, Copy, PartialEq, Eq, Debug)]
enum Kind {
    Short,
    Big,
    Bad,
    Arp,
    Tcp,
    Udp,
    Icmp,
    OtherIp,
    Fragment,
    Other,
}

fn kind_of(body: &Body) -> Kind {
    match body {
        Body::Arp(_) => Kind::Arp,
        Body::Ip4(packet) => match packet.part {
            Part::Tcp { .. } => Kind::Tcp,
            Part::Udp { .. } => Kind::Udp,
            Part::Icmp { .. } => Kind::Icmp,
            Part::OtherIp => Kind::OtherIp,
            Part::Fragment => Kind::Fragment,
        },
        Body::Other { .. } => Kind::Other,
    }
}

// What the bytes are, and how many follow the fields that are read.
fn read_as(alloc: Global, frame: &[u8]) -> Result<(Kind, usize), Fail> {
    match decode(alloc, frame) {
        Ok(packet) => Ok((kind_of(&packet.body), packet.tail.len())),
        Err(FrameFault::TooShort) => Ok((Kind::Short, 0)),
        Err(FrameFault::TooBig) => Ok((Kind::Big, 0)),
        Err(FrameFault::BadIp4) => Ok((Kind::Bad, 0)),
        Err(FrameFault::Memory) => Err("there is memory".into()),
    }
}

fn read(alloc: Global, frame: &[u8]) -> Result<Packet, Fail> {
    Ok(decode(alloc, frame).ok().ok_or("the bytes are a frame")?)
}

fn written(alloc: Global, packet: &Packet) -> Result<Vec<u8>, Fail> {
    let mut out = Vec::new(alloc);
    encode(packet, &mut out).ok().ok_or("there is memory")?;
    Ok(out)
}

// From 10.0.0.1 port 5000 to 10.0.0.2 port 5001, with no data and no sum.
const UDP: &str =
    "0a00000000020a000000000108004500001c00010000401166ce0a0000010a0000021388138900080000";

// From 10.0.0.1 port 5000 to 10.0.0.100 port 80, with no data.
const TCP: &str =
    "0a00000000020a0000000001080045000028000100004006666b0a0000010a0000641388005000000000000000005002ffff87a60000";

// An echo request from 10.0.0.1 to 10.0.0.2.
const PING: &str =
    "0a00000000020a000000000108004500001c00010000400166de0a0000010a0000020800f7fd00010001";

// Who has 10.0.0.2? Tell 10.0.0.1.
const ASKS: &str =
    "ffffffffffff0a0000000001080600010800060400010a00000000010a0000010000000000000a000002";

// 10.0.0.2 is at 0a:00:00:00:00:02.
const TELLS: &str =
    "0a00000000010a0000000002080600010800060400020a00000000020a0000020a00000000010a000001";

// Frames, what they are, and how many bytes follow the fields.
const FRAMES: [(&str, Kind, usize); 43] = [
    // another type, none of its bytes read
    ("0a00000000020a000000000188b56869", Kind::Other, 2),
    ("0a00000000010a000000000188b5", Kind::Other, 0),
    ("0a00000000020a00000000018100000108004500", Kind::Other, 6),
    // ARP; for a protocol address of 16 bytes; of a hardware address of 8; one byte short; with padding
    (ASKS, Kind::Arp, 0),
    (TELLS, Kind::Arp, 0),
    (
        "ffffffffffff0a0000000001080600010800060400010a00000000010a0000010000000000000a000001",
        Kind::Arp,
        0,
    ),
    (
        "ffffffffffff0a0000000001080600010800061000010a00000000010a0000010000000000000a000002",
        Kind::Other,
        28,
    ),
    (
        "ffffffffffff0a0000000001080600010800080400010a00000000010a0000010000000000000a000002",
        Kind::Other,
        28,
    ),
    (
        "ffffffffffff0a0000000001080600010800060400010a00000000010a0000010000000000000a0000",
        Kind::Other,
        27,
    ),
    (
        "ffffffffffff0a0000000001080600010800060400010a00000000010a0000010000000000000a000002000000",
        Kind::Arp,
        3,
    ),
    // UDP there and back; with padding up to 60 bytes; with one byte of data
    (UDP, Kind::Udp, 0),
    (
        "0a00000000010a000000000208004500001c00010000401166ce0a0000020a0000011389138800080000",
        Kind::Udp,
        0,
    ),
    (
        "0a00000000020a000000000108004500001c00010000401166ce0a0000010a0000021388138900080000000000000000000000000000000000000000",
        Kind::Udp,
        18,
    ),
    (
        "0a00000000020a000000000108004500001d00010000401166cd0a0000010a00000213881389000963c861",
        Kind::Udp,
        1,
    ),
    (TCP, Kind::Tcp, 0),
    (PING, Kind::Icmp, 2),
    // protocol 47, without bytes behind the header and with four
    (
        "0a00000000fe0a000000000108004500001400010000402fc4a00a000001ac100009",
        Kind::OtherIp,
        0,
    ),
    (
        "0a00000000020a000000000108004500001800010000402f66b40a0000010a00000200000800",
        Kind::OtherIp,
        4,
    ),
    // options of 4 bytes, of 40, and of 12
    (
        "0a00000000020a000000000108004600002100010000401163c80a0000010a00000201010100138813890009000007",
        Kind::Udp,
        1,
    ),
    (
        "0a00000000020a000000000108004f00004500010000401148920a0000010a00000201010101010101010101010101010101010101010101010101010101010101010101010101010100138813890009000007",
        Kind::Udp,
        1,
    ),
    (
        "0a00000000020a000000000108004800002900010000401157ac0a0000010a000002070b040a0000010000000000138813890009000007",
        Kind::Udp,
        1,
    ),
    // more fragments; offsets of 8 and of 65,528 bytes; both; and then what is no fragment: don't fragment, the bit
    // that is kept at 0, both
    (
        "0a00000000020a000000000108004500001c00012000401146ce0a0000010a0000021388138900080000",
        Kind::Fragment,
        8,
    ),
    (
        "0a00000000020a000000000108004500001c00010001401166cd0a0000010a0000021388138900080000",
        Kind::Fragment,
        8,
    ),
    (
        "0a00000000020a000000000108004500001c00011fff401146cf0a0000010a0000021388138900080000",
        Kind::Fragment,
        8,
    ),
    (
        "0a00000000020a000000000108004500001c000120b9401146150a0000010a0000021388138900080000",
        Kind::Fragment,
        8,
    ),
    (
        "0a00000000020a000000000108004500001c00014000401126ce0a0000010a0000021388138900080000",
        Kind::Udp,
        0,
    ),
    (
        "0a00000000020a000000000108004500001c000180004011e6cd0a0000010a0000021388138900080000",
        Kind::Udp,
        0,
    ),
    (
        "0a00000000020a000000000108004500001c0001c0004011a6cd0a0000010a0000021388138900080000",
        Kind::Udp,
        0,
    ),
    // the total length leaves less than a transport header: 7 bytes and none of UDP's, 19 of TCP's, 7 of ICMP's
    (
        "0a00000000020a000000000108004500001b00010000401166cf0a0000010a0000021388138900080000",
        Kind::OtherIp,
        8,
    ),
    (
        "0a00000000020a000000000108004500001400010000401166d60a0000010a0000021388138900080000",
        Kind::OtherIp,
        8,
    ),
    (
        "0a00000000020a000000000108004500002700010000400666ce0a0000010a0000021388005000000000000000005002ffff88080000",
        Kind::OtherIp,
        20,
    ),
    (
        "0a00000000020a000000000108004500001b00010000400166df0a0000010a0000020800f7fd00010001",
        Kind::OtherIp,
        8,
    ),
    // versions 6 and 5; headers of 16 bytes and of 60; total lengths under the header; a total length past the end
    (
        "0a00000000020a000000000108006500001c00010000401146ce0a0000010a0000021388138900080000",
        Kind::Bad,
        0,
    ),
    (
        "0a00000000020a000000000108005500001c00010000401156ce0a0000010a0000021388138900080000",
        Kind::Bad,
        0,
    ),
    (
        "0a00000000020a000000000108004400001c00010000401171d00a0000010a0000021388138900080000",
        Kind::Bad,
        0,
    ),
    (
        "0a00000000020a000000000108004f00001c00010000401135b50a0000010a0000021388138900080000",
        Kind::Bad,
        0,
    ),
    (
        "0a00000000020a000000000108004500001300010000401166d70a0000010a0000021388138900080000",
        Kind::Bad,
        0,
    ),
    (
        "0a00000000020a00000000010800460000170001000040113ec20a0000010a0000021388138900080000",
        Kind::Bad,
        0,
    ),
    (
        "0a00000000020a000000000108004500001d00010000401166cd0a0000010a0000021388138900080000",
        Kind::Bad,
        0,
    ),
    // the other words of a header add up to 0xffff, so that both sums of nothing are right; a sum that is one more
    (
        "0a00000000020a000000000108004500001c66cf0000401100000a0000010a0000021388138900080000",
        Kind::Udp,
        0,
    ),
    (
        "0a00000000020a000000000108004500001c66cf00004011ffff0a0000010a0000021388138900080000",
        Kind::Udp,
        0,
    ),
    (
        "0a00000000020a000000000108004500001c66cf0000401100010a0000010a0000021388138900080000",
        Kind::Bad,
        0,
    ),
    (
        "0a00000000020a000000000108004500001c00010000401166cf0a0000010a0000021388138900080000",
        Kind::Bad,
        0,
    ),
];

#[test]
fn frames_are_what_they_are(rt: HostRuntime) -> Result<(), Fail> {
    for (digits, wanted, tail) in FRAMES {
        let frame = hex::decode(rt.alloc(), digits)?;
        assert_eq!(rt; read_as(rt.alloc(), &frame)?, (wanted, tail), "at {digits}");
        if let Ok(packet) = decode(rt.alloc(), &frame) {
            let copy = packet.copy().ok().ok_or("there is memory")?;
            assert!(rt; copy == packet, "at {digits}");
            assert_eq!(rt; written(rt.alloc(), &copy)?, frame, "at {digits}");
        }
    }
    assert_eq!(rt;
        read_as(rt.alloc(), &[0; MAX_FRAME])?,
        (Kind::Other, MAX_FRAME - 14)
    );
    assert_eq!(rt; read_as(rt.alloc(), &[0; MAX_FRAME + 1])?, (Kind::Big, 0));
    Ok(())
}

// A rewrite, with what it is given.
#[derive(Clone, Copy)]
enum Step {
    Src(Ip4),
    Dst(Ip4),
    Ports(u16, u16),
    Hop,
    Macs(Mac, Mac),
    Tells(Mac, Ip4),
    Answers,
}

fn can_set_ports(src: u16, dst: u16, body: &Body) -> bool
    ensures { IsTrue result → CanSetPorts src dst body.now }
{
    match body {
        Body::Ip4(packet) => match packet.part {
            Part::Tcp { .. } | Part::Udp { .. } => true,
            Part::Icmp { .. } => src == dst,
            Part::OtherIp | Part::Fragment => false,
        },
        Body::Arp(_) | Body::Other { .. } => false,
    }
}

// Takes the step; a packet that it is not for stays as it is.
fn take(step: Step, packet: &mut Packet) {
    match step {
        Step::Src(ip) => packet.set_src(ip),
        Step::Dst(ip) => packet.set_dst(ip),
        Step::Ports(src, dst) => {
            if can_set_ports(src, dst, &packet.body) {
                packet.set_ports(src, dst);
            }
        }
        Step::Hop => {
            if packet.body.ip_ttl() > 0 {
                packet.dec_ttl();
            }
        }
        Step::Macs(dst, src) => {
            packet.dst = dst;
            packet.src = src;
        }
        Step::Tells(mac, ip) => {
            if let Body::Arp(_) = packet.body {
                packet.arp_reply(mac, ip);
            }
        }
        Step::Answers => {
            if packet.body.icmp4_type() == 8 && packet.body.icmp4_code() == 0 {
                packet.echo_reply();
            }
        }
    }
}

// The frame after all the steps.
fn rewritten(alloc: Global, digits: &str, steps: &[Step]) -> Result<Vec<u8>, Fail> {
    let mut packet = read(alloc, &hex::decode(alloc, digits)?)?;
    for step in steps {
        take(*step, &mut packet);
    }
    written(alloc, &packet)
}

const P1: Mac = Mac([0x0a, 0, 0, 0, 0, 1]);

const P2: Mac = Mac([0x0a, 0, 0, 0, 0, 2]);

const INSIDE: Mac = Mac([0x0a, 0, 0, 0, 0, 0xfe]);

const OUTSIDE: Mac = Mac([0x0a, 0, 0, 0, 1, 0xfe]);

const SERVER: Mac = Mac([0x0a, 0, 0, 0, 1, 9]);

const ONE: Ip4 = Ip4(0x0a00_0001);

const TWO: Ip4 = Ip4(0x0a00_0002);

const GATEWAY: Ip4 = Ip4(0xac10_00fe);

const FAR: Ip4 = Ip4(0xc000_0209);

const FARTHER: Ip4 = Ip4(0xc633_6407);

#[test]
fn packets_of_networks_are_rewritten(rt: HostRuntime) -> Result<(), Fail> {
    let rows: [(&str, &[Step], &str); 7] = [
        // a request is answered
        (ASKS, &[Step::Tells(P2, TWO)], TELLS),
        // a balancer sends on to a server
        (
            TCP,
            &[Step::Dst(TWO), Step::Ports(5000, 8080)],
            "0a00000000020a000000000108004500002800010000400666cd0a0000010a00000213881f9000000000000000005002ffff68c80000",
        ),
        // out through a gateway, with the port kept and with another
        (
            "0a00000000fe0a000000000108004500001c000100004011c4b60a000001ac1000091388003500080000",
            &[Step::Src(GATEWAY), Step::Hop, Step::Macs(SERVER, OUTSIDE)],
            "0a00000001090a00000001fe08004500001c000100003f1122a9ac1000feac1000091388003500080000",
        ),
        (
            "0a00000000fe0a000000000208004500001c000100004011c4b50a000002ac1000091388003500080000",
            &[
                Step::Src(GATEWAY),
                Step::Ports(1024, 53),
                Step::Hop,
                Step::Macs(SERVER, OUTSIDE),
            ],
            "0a00000001090a00000001fe08004500001c000100003f1122a9ac1000feac1000090400003500080000",
        ),
        // and back
        (
            "0a00000001fe0a000000010908004500001c00010000401121a9ac100009ac1000fe0035040000080000",
            &[
                Step::Dst(TWO),
                Step::Ports(53, 5000),
                Step::Hop,
                Step::Macs(P2, INSIDE),
            ],
            "0a00000000020a00000000fe08004500001c000100003f11c5b5ac1000090a0000020035138800080000",
        ),
        // protocol 47, which has no ports
        (
            "0a00000000fe0a000000000108004500001400010000402fc4a00a000001ac100009",
            &[
                Step::Src(GATEWAY),
                Step::Ports(1024, 1024),
                Step::Hop,
                Step::Macs(SERVER, OUTSIDE),
            ],
            "0a00000001090a00000001fe080045000014000100003f2f2293ac1000feac100009",
        ),
        // an echo request with five bytes of data
        (
            "0a00000000020a000000000108004500002100010000400166d90a0000010a0000020800ce36000100016162636465",
            &[Step::Answers, Step::Macs(P1, P2)],
            "0a00000000010a000000000208004500002100010000ff01a7d80a0000020a0000010000d636000100016162636465",
        ),
    ];
    for (before, steps, after) in rows {
        let frame = rewritten(rt.alloc(), before, steps)?;
        assert_eq!(rt; frame, hex::decode(rt.alloc(), after)?, "at {before}");
    }
    Ok(())
}

// What is expected was added up anew over all words, pseudo-headers among them.
#[test]
fn sums_are_as_if_added_up_anew(rt: HostRuntime) -> Result<(), Fail> {
    let rows: [(&str, &[Step], &str); 12] = [
        // RFC 1624 section 4: a sum of 0xdd2f, where 0x5555 becomes 0x3285
        (
            "0a00000000020a000000000108004500001c3e4a00004011dd2f555500010a0000021388138900080000",
            &[Step::Src(Ip4(0x3285_0001))],
            "0a00000000020a000000000108004500001c3e4a000040110000328500010a0000021388138900080000",
        ),
        // words that stay leave a sum of 0xffff as it is
        (
            "0a00000000020a000000000108004500001c66cf00004011ffff0a0000010a0000021388138900080000",
            &[Step::Src(ONE), Step::Dst(TWO), Step::Ports(5000, 5001)],
            "0a00000000020a000000000108004500001c66cf00004011ffff0a0000010a0000021388138900080000",
        ),
        // UDP with three bytes of data
        (
            "0a00000000020a000000000108004500001f00010000401166cb0a0000010a00000213881389000b0062616263",
            &[
                Step::Src(FAR),
                Step::Dst(FARTHER),
                Step::Ports(1024, 53),
                Step::Hop,
            ],
            "0a00000000020a000000000108004500001f000100003f118f89c0000209c633640704000035000b4afc616263",
        ),
        // TCP with five
        (
            "0a00000000020a000000000108004500002d00010000400666c80a0000010a0000021388005000000001000000025018ffff4418000068656c6c6f",
            &[Step::Src(FAR), Step::Ports(40000, 8080)],
            "0a00000000020a000000000108004500002d000100004006aebfc00002090a0000029c401f9000000001000000025018ffffe416000068656c6c6f",
        ),
        // ICMP with three, and another identifier
        (
            "0a00000000020a000000000108004500001f00010000400166db0a0000010a00000200003b9b00010001616263",
            &[Step::Ports(0x1234, 0x1234)],
            "0a00000000020a000000000108004500001f00010000400166db0a0000010a0000020000296812340001616263",
        ),
        // a UDP sum and an ICMP sum that become 0 are written 0xffff, and a TCP sum is not
        (
            "0a00000000020a000000000108004500001d00010000401166cd0a0000010a00000213881389000963c861",
            &[Step::Ports(5000, 30545)],
            "0a00000000020a000000000108004500001d00010000401166cd0a0000010a000002138877510009ffff61",
        ),
        (
            PING,
            &[Step::Ports(0xf7fe, 0xf7fe)],
            "0a00000000020a000000000108004500001c00010000400166de0a0000010a0000020800fffff7fe0001",
        ),
        (
            "0a00000000020a000000000108004500002800010000400666cd0a0000010a0000021388005000000001000000025018ffff87ef0000",
            &[Step::Ports(5000, 34879)],
            "0a00000000020a000000000108004500002800010000400666cd0a0000010a0000021388883f00000001000000025018ffff00000000",
        ),
        // the first of two fragments
        (
            "0a00000000020a000000000108004500001c00012000401146ce0a0000010a0000020102030405060708",
            &[Step::Src(FAR), Step::Ports(1024, 53), Step::Hop],
            "0a00000000020a000000000108004500001c000120003f118fc5c00002090a0000020102030405060708",
        ),
        // the last hop, and none after it
        (
            "0a00000000020a000000000108004500001c000100000111a5ce0a0000010a0000021388138900080000",
            &[Step::Hop, Step::Hop],
            "0a00000000020a000000000108004500001c000100000011a6ce0a0000010a0000021388138900080000",
        ),
        // with options, and with padding
        (
            "0a00000000020a000000000108004600002100010000401163c80a0000010a00000201010100138813890009bdc807",
            &[Step::Dst(FAR)],
            "0a00000000020a0000000001080046000021000100004011abc00a000001c00002090101010013881389000905c107",
        ),
        (
            "0a00000000020a000000000108004500001d00010000401166cd0a0000010a000002138813890009bdc807aaaaaaaaaa",
            &[Step::Dst(FAR)],
            "0a00000000020a000000000108004500001d000100004011aec50a000001c000020913881389000905c107aaaaaaaaaa",
        ),
    ];
    for (before, steps, after) in rows {
        let frame = rewritten(rt.alloc(), before, steps)?;
        assert_eq!(rt; frame, hex::decode(rt.alloc(), after)?, "at {before}");
    }
    Ok(())
}
