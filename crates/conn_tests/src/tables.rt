//! Frames with their tuples, and frames before and after translation.
use crate::tuples::{Ends, ONE, TWO};
use conn_table::tuple::Protocol;
use ovn_base::address::{Ip4, Mac};

const BALANCED: Ip4 = Ip4(0x0a00_0064);

const SERVER: Ip4 = Ip4(0xac10_0009);

const OUTSIDE: Ip4 = Ip4(0xac10_00fe);

const FAR: Ip4 = Ip4(0xc000_0209);

const FARTHER: Ip4 = Ip4(0xc633_6407);

// From 10.0.0.1 port 5000 to 10.0.0.2 port 5001.
const UDP: &str =
    "0a00000000020a000000000108004500001c00010000401166ce0a0000010a0000021388138900080000";

// From 10.0.0.1 port 5000 to 10.0.0.100 port 80.
const TCP: &str =
    "0a00000000020a0000000001080045000028000100004006666b0a0000010a0000641388005000000000000000005002ffff87a60000";

// An echo request from 10.0.0.1 to 10.0.0.2.
const PING: &str =
    "0a00000000020a000000000108004500001c00010000400166de0a0000010a0000020800f7fd00010001";

// An echo reply from 10.0.0.1 to 10.0.0.2.
const PONG: &str =
    "0a00000000020a000000000108004500001f00010000400166db0a0000010a0000020000296812340001616263";

// Frames with their tuples.
pub(crate) const FRAMES: [(&str, Option<Ends>); 13] = [
    (UDP, Some((Protocol::Udp, ONE, 5000, TWO, 5001))),
    (TCP, Some((Protocol::Tcp, ONE, 5000, BALANCED, 80))),
    (PING, Some((Protocol::EchoRequest, ONE, 1, TWO, 1))),
    (PONG, Some((Protocol::EchoReply, ONE, 0x1234, TWO, 0x1234))),
    // protocol 47
    (
        "0a00000000fe0a000000000108004500001400010000402fc4a00a000001ac100009",
        Some((Protocol::Other(47), ONE, 0, SERVER, 0)),
    ),
    // the first fragment, a later one, and no fragment though it must not be made one
    (
        "0a00000000020a000000000108004500001c00012000401146ce0a0000010a0000021388138900080000",
        None,
    ),
    (
        "0a00000000020a000000000108004500001c00010001401166cd0a0000010a0000021388138900080000",
        None,
    ),
    (
        "0a00000000020a000000000108004500001c00014000401126ce0a0000010a0000021388138900080000",
        Some((Protocol::Udp, ONE, 5000, TWO, 5001)),
    ),
    // seven bytes of a UDP header, 19 of a TCP header, and seven of an ICMP header
    (
        "0a00000000020a000000000108004500001b00010000401166cf0a0000010a0000021388138900080000",
        Some((Protocol::Other(17), ONE, 0, TWO, 0)),
    ),
    (
        "0a00000000020a000000000108004500002700010000400666ce0a0000010a0000021388005000000000000000005002ffff88080000",
        Some((Protocol::Other(6), ONE, 0, TWO, 0)),
    ),
    (
        "0a00000000020a000000000108004500001b00010000400166df0a0000010a0000020800f7fd00010001",
        None,
    ),
    // a message of type 8 and code 1; a question for an Ethernet address
    (
        "0a00000000020a000000000108004500001c00010000400166de0a0000010a0000020801f7fc00010001",
        None,
    ),
    (
        "ffffffffffff0a0000000001080600010800060400010a00000000010a0000010000000000000a000002",
        None,
    ),
];

const P2: Mac = Mac([0x0a, 0, 0, 0, 0, 2]);

const INNER: Mac = Mac([0x0a, 0, 0, 0, 0, 0xfe]);

const OUTER: Mac = Mac([0x0a, 0, 0, 0, 1, 0xfe]);

const W: Mac = Mac([0x0a, 0, 0, 0, 1, 9]);

// A packet of a connection, and what becomes of it.
#[derive(Clone, Copy)]
pub(crate) struct Row {
    pub(crate) before: &'static str,
    // whether it is an answer
    pub(crate) answers: bool,
    // its tuple afterwards
    pub(crate) becomes: Ends,
    // the Ethernet addresses with which a router sends it on
    pub(crate) sent: Option<(Mac, Mac)>,
    pub(crate) after: &'static str,
}

// Packets of connections, before and after.
pub(crate) const ROWS: [Row; 12] = [
    // a balancer sends on to a server
    Row {
        before: TCP,
        answers: false,
        becomes: (Protocol::Tcp, ONE, 5000, TWO, 8080),
        sent: None,
        after: "0a00000000020a000000000108004500002800010000400666cd0a0000010a00000213881f9000000000000000005002ffff68c80000",
    },
    // out through a gateway, with the port kept and with another
    Row {
        before: "0a00000000fe0a000000000108004500001c000100004011c4b60a000001ac1000091388003500080000",
        answers: false,
        becomes: (Protocol::Udp, OUTSIDE, 5000, SERVER, 53),
        sent: Some((W, OUTER)),
        after: "0a00000001090a00000001fe08004500001c000100003f1122a9ac1000feac1000091388003500080000",
    },
    Row {
        before: "0a00000000fe0a000000000208004500001c000100004011c4b50a000002ac1000091388003500080000",
        answers: false,
        becomes: (Protocol::Udp, OUTSIDE, 1024, SERVER, 53),
        sent: Some((W, OUTER)),
        after: "0a00000001090a00000001fe08004500001c000100003f1122a9ac1000feac1000090400003500080000",
    },
    // and back
    Row {
        before: "0a00000001fe0a000000010908004500001c00010000401121a9ac100009ac1000fe0035040000080000",
        answers: true,
        becomes: (Protocol::Udp, SERVER, 53, TWO, 5000),
        sent: Some((P2, INNER)),
        after: "0a00000000020a00000000fe08004500001c000100003f11c5b5ac1000090a0000020035138800080000",
    },
    // protocol 47
    Row {
        before: "0a00000000fe0a000000000108004500001400010000402fc4a00a000001ac100009",
        answers: false,
        becomes: (Protocol::Other(47), OUTSIDE, 0, SERVER, 0),
        sent: Some((W, OUTER)),
        after: "0a00000001090a00000001fe080045000014000100003f2f2293ac1000feac100009",
    },
    // RFC 1624 section 4: a sum of 0xdd2f, where 0x5555 becomes 0x3285
    Row {
        before: "0a00000000020a000000000108004500001c3e4a00004011dd2f555500010a0000021388138900080000",
        answers: false,
        becomes: (Protocol::Udp, Ip4(0x3285_0001), 5000, TWO, 5001),
        sent: None,
        after: "0a00000000020a000000000108004500001c3e4a000040110000328500010a0000021388138900080000",
    },
    // UDP with three bytes of data, and TCP with five
    Row {
        before: "0a00000000020a000000000108004500001f00010000401166cb0a0000010a00000213881389000b0062616263",
        answers: false,
        becomes: (Protocol::Udp, FAR, 1024, FARTHER, 53),
        sent: Some((P2, Mac([0x0a, 0, 0, 0, 0, 1]))),
        after: "0a00000000020a000000000108004500001f000100003f118f89c0000209c633640704000035000b4afc616263",
    },
    Row {
        before: "0a00000000020a000000000108004500002d00010000400666c80a0000010a0000021388005000000001000000025018ffff4418000068656c6c6f",
        answers: true,
        becomes: (Protocol::Tcp, FAR, 40000, TWO, 8080),
        sent: None,
        after: "0a00000000020a000000000108004500002d000100004006aebfc00002090a0000029c401f9000000001000000025018ffffe416000068656c6c6f",
    },
    // an echo reply with three, to another identifier
    Row {
        before: "0a00000000020a000000000108004500001f00010000400166db0a0000010a00000200003b9b00010001616263",
        answers: true,
        becomes: (Protocol::EchoReply, ONE, 0x1234, TWO, 0x1234),
        sent: None,
        after: PONG,
    },
    // a UDP sum and an ICMP sum that become 0 are written 0xffff, and a TCP sum is not
    Row {
        before: "0a00000000020a000000000108004500001d00010000401166cd0a0000010a00000213881389000963c861",
        answers: false,
        becomes: (Protocol::Udp, ONE, 5000, TWO, 30545),
        sent: None,
        after: "0a00000000020a000000000108004500001d00010000401166cd0a0000010a000002138877510009ffff61",
    },
    Row {
        before: PING,
        answers: false,
        becomes: (Protocol::EchoRequest, ONE, 0xf7fe, TWO, 0xf7fe),
        sent: None,
        after: "0a00000000020a000000000108004500001c00010000400166de0a0000010a0000020800fffff7fe0001",
    },
    Row {
        before: "0a00000000020a000000000108004500002800010000400666cd0a0000010a0000021388005000000001000000025018ffff87ef0000",
        answers: false,
        becomes: (Protocol::Tcp, ONE, 5000, TWO, 34879),
        sent: None,
        after: "0a00000000020a000000000108004500002800010000400666cd0a0000010a0000021388883f00000001000000025018ffff00000000",
    },
];
