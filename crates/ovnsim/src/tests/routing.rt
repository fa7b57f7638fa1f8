//! Rows of routers, distributed and on their chassis, and what isn't built beside them.
use super::replayed;
use std::test::Fail;

// A request for an address that nobody has goes to all ports of a switch, on three chassis, and to the router where it was sent alone.
const BROADCAST: &[u8] =
    b"{\"edit\":[{\"add\":\"switch\",\"name\":\"s0\"},{\"add\":\"switch_port\",\"name\":\"p1\",\"switch\":\"s0\",\"addresses\":[\"0a:00:00:00:00:01 10.0.0.1\"]},{\"add\":\"switch_port\",\"name\":\"p2\",\"switch\":\"s0\",\"addresses\":[\"0a:00:00:00:00:02 10.0.0.2\"]},{\"add\":\"switch_port\",\"name\":\"p3\",\"switch\":\"s0\",\"addresses\":[\"0a:00:00:00:00:03 10.0.0.3\"]},{\"add\":\"router\",\"name\":\"r\"},{\"add\":\"router_port\",\"name\":\"rp\",\"router\":\"r\",\"mac\":\"0a:00:00:00:00:fe\",\"networks\":[\"10.0.0.254/24\"]},{\"add\":\"switch_port\",\"name\":\"sr\",\"switch\":\"s0\",\"type\":\"router\",\"router_port\":\"rp\",\"addresses\":[\"router\"]}]}
{\"chassis\":{\"add\":\"hv1\"}}
{\"chassis\":{\"add\":\"hv2\"}}
{\"chassis\":{\"add\":\"hv3\"}}
{\"bind\":{\"port\":\"p1\",\"chassis\":\"hv1\"}}
{\"bind\":{\"port\":\"p2\",\"chassis\":\"hv2\"}}
{\"bind\":{\"port\":\"p3\",\"chassis\":\"hv3\"}}
{\"packet\":{\"port\":\"p1\",\"frame\":\"ffffffffffff0a0000000001080600010800060400010a00000000010a0000010000000000000a000063\"}}
";

const BROADCAST_OUTPUT: &[u8] = b"1 key datapath r 1
1 key datapath s0 2
1 key port rp 1
1 key port p1 1
1 key port p2 2
1 key port p3 3
1 key port sr 4
1 ok walks=0
2 ok walks=0
3 ok walks=0
4 ok walks=0
5 ok walks=0
6 ok walks=0
7 ok walks=0
8 tunnel 1 hv1 hv2 02406558000002000102800100018000ffffffffffff0a0000000001080600010800060400010a00000000010a0000010000000000000a000063
8 tunnel 2 hv1 hv3 02406558000002000102800100018000ffffffffffff0a0000000001080600010800060400010a00000000010a0000010000000000000a000063
8 drop r rp arp
8 out p2 ffffffffffff0a0000000001080600010800060400010a00000000010a0000010000000000000a000063
8 out p3 ffffffffffff0a0000000001080600010800060400010a00000000010a0000010000000000000a000063
8 ok walks=34
end events=8 accepted=8 refused=0 waiting=0
";

// Two routers of which each routes all else to the other: a packet goes between them until its passes are used up.
const HOP_LIMIT: &[u8] =
    b"{\"edit\":[{\"add\":\"switch\",\"name\":\"s0\"},{\"add\":\"switch_port\",\"name\":\"p1\",\"switch\":\"s0\",\"addresses\":[\"0a:00:00:00:00:01 10.0.0.1\"]},{\"add\":\"router\",\"name\":\"ra\"},{\"add\":\"router\",\"name\":\"rb\"},{\"add\":\"router_port\",\"name\":\"a0\",\"router\":\"ra\",\"mac\":\"0a:00:00:00:00:fe\",\"networks\":[\"10.0.0.254/24\"]},{\"add\":\"switch_port\",\"name\":\"s0-a0\",\"switch\":\"s0\",\"type\":\"router\",\"router_port\":\"a0\",\"addresses\":[\"router\"]},{\"add\":\"router_port\",\"name\":\"a1\",\"router\":\"ra\",\"mac\":\"0a:00:00:00:01:01\",\"networks\":[\"192.168.0.1/30\"],\"peer\":\"b1\"},{\"add\":\"router_port\",\"name\":\"b1\",\"router\":\"rb\",\"mac\":\"0a:00:00:00:01:02\",\"networks\":[\"192.168.0.2/30\"]},{\"add\":\"route\",\"name\":\"da\",\"router\":\"ra\",\"prefix\":\"0.0.0.0/0\",\"nexthop\":\"192.168.0.2\"},{\"add\":\"route\",\"name\":\"db\",\"router\":\"rb\",\"prefix\":\"0.0.0.0/0\",\"nexthop\":\"192.168.0.1\"}]}
{\"chassis\":{\"add\":\"hv1\"}}
{\"bind\":{\"port\":\"p1\",\"chassis\":\"hv1\"}}
{\"packet\":{\"port\":\"p1\",\"frame\":\"0a00000000fe0a000000000108004500001c00010000ff11a1bf0a000001080808081388138900080000\"}}
";

const HOP_LIMIT_OUTPUT: &[u8] = b"1 key datapath ra 1
1 key datapath rb 2
1 key datapath s0 3
1 key port a0 1
1 key port a1 2
1 key port b1 1
1 key port p1 1
1 key port s0-a0 2
1 ok walks=0
2 ok walks=0
3 ok walks=0
4 drop rb b1 hop-limit
4 ok walks=848
end events=4 accepted=4 refused=0 waiting=0
";

// The same network without the two routes, and the same packet.
const NO_ROUTE: &[u8] =
    b"{\"edit\":[{\"add\":\"switch\",\"name\":\"s0\"},{\"add\":\"switch_port\",\"name\":\"p1\",\"switch\":\"s0\",\"addresses\":[\"0a:00:00:00:00:01 10.0.0.1\"]},{\"add\":\"router\",\"name\":\"ra\"},{\"add\":\"router\",\"name\":\"rb\"},{\"add\":\"router_port\",\"name\":\"a0\",\"router\":\"ra\",\"mac\":\"0a:00:00:00:00:fe\",\"networks\":[\"10.0.0.254/24\"]},{\"add\":\"switch_port\",\"name\":\"s0-a0\",\"switch\":\"s0\",\"type\":\"router\",\"router_port\":\"a0\",\"addresses\":[\"router\"]},{\"add\":\"router_port\",\"name\":\"a1\",\"router\":\"ra\",\"mac\":\"0a:00:00:00:01:01\",\"networks\":[\"192.168.0.1/30\"],\"peer\":\"b1\"},{\"add\":\"router_port\",\"name\":\"b1\",\"router\":\"rb\",\"mac\":\"0a:00:00:00:01:02\",\"networks\":[\"192.168.0.2/30\"]}]}
{\"chassis\":{\"add\":\"hv1\"}}
{\"bind\":{\"port\":\"p1\",\"chassis\":\"hv1\"}}
{\"packet\":{\"port\":\"p1\",\"frame\":\"0a00000000fe0a000000000108004500001c00010000ff11a1bf0a000001080808081388138900080000\"}}
";

const NO_ROUTE_OUTPUT: &[u8] = b"1 key datapath ra 1
1 key datapath rb 2
1 key datapath s0 3
1 key port a0 1
1 key port a1 2
1 key port b1 1
1 key port p1 1
1 key port s0-a0 2
1 ok walks=0
2 ok walks=0
3 ok walks=0
4 drop ra a0 no-route
4 ok walks=22
end events=4 accepted=4 refused=0 waiting=0
";

// Two switches joined by a gateway router, whose chassis comes after a first packet. From then on packets cross to it for the router and on from
// there, also one that is kept and arrives twice, and an echo that the router answers. A second gateway router comes to a chassis that is there.
const GATEWAYS: &[u8] =
    b"{\"edit\":[{\"add\":\"switch\",\"name\":\"s0\"},{\"add\":\"switch\",\"name\":\"s1\"},{\"add\":\"switch_port\",\"name\":\"p1\",\"switch\":\"s0\",\"addresses\":[\"0a:00:00:00:00:01 10.0.0.1\"]},{\"add\":\"switch_port\",\"name\":\"p2\",\"switch\":\"s1\",\"addresses\":[\"0a:00:00:00:00:02 10.0.1.2\"]},{\"add\":\"router\",\"name\":\"g\",\"chassis\":\"hv2\"},{\"add\":\"router_port\",\"name\":\"g0\",\"router\":\"g\",\"mac\":\"0a:00:00:00:00:fe\",\"networks\":[\"10.0.0.254/24\"]},{\"add\":\"router_port\",\"name\":\"g1\",\"router\":\"g\",\"mac\":\"0a:00:00:00:01:fe\",\"networks\":[\"10.0.1.254/24\"]},{\"add\":\"switch_port\",\"name\":\"s0-g\",\"switch\":\"s0\",\"type\":\"router\",\"router_port\":\"g0\",\"addresses\":[\"router\"]},{\"add\":\"switch_port\",\"name\":\"s1-g\",\"switch\":\"s1\",\"type\":\"router\",\"router_port\":\"g1\",\"addresses\":[\"router\"]}]}
{\"chassis\":{\"add\":\"hv1\"}}
{\"bind\":{\"port\":\"p1\",\"chassis\":\"hv1\"}}
{\"bind\":{\"port\":\"p2\",\"chassis\":\"hv1\"}}
{\"packet\":{\"port\":\"p1\",\"frame\":\"0a00000000fe0a000000000108004500001c00010000401165ce0a0000010a0001021388138800080000\"}}
{\"chassis\":{\"add\":\"hv2\"}}
{\"packet\":{\"port\":\"p1\",\"frame\":\"0a00000000fe0a000000000108004500001c00010000401165ce0a0000010a0001021388138800080000\"}}
{\"packet\":{\"port\":\"p1\",\"frame\":\"0a00000000fe0a000000000108004500001c00010000400165e20a0000010a0000fe0800f7f700070001\"}}
{\"inject\":{\"port\":\"p1\",\"frame\":\"0a00000000fe0a000000000108004500001c00010000401165ce0a0000010a0001021388138800080000\"}}
{\"repeat\":{\"frame\":5}}
{\"deliver\":{\"frame\":5}}
{\"drain\":{}}
{\"edit\":[{\"add\":\"router\",\"name\":\"h\",\"chassis\":\"hv1\"},{\"add\":\"router_port\",\"name\":\"h0\",\"router\":\"h\",\"mac\":\"0a:00:00:00:00:fd\",\"networks\":[\"10.0.0.253/24\"]},{\"add\":\"switch_port\",\"name\":\"s0-h\",\"switch\":\"s0\",\"type\":\"router\",\"router_port\":\"h0\",\"addresses\":[\"router\"]}]}
{\"packet\":{\"port\":\"p1\",\"frame\":\"0a00000000fd0a000000000108004500001c00010000400165e30a0000010a0000fd0800f7f700070001\"}}
";

const GATEWAYS_OUTPUT: &[u8] = b"1 key datapath g 1
1 key datapath s0 2
1 key datapath s1 3
1 key port g0 1
1 key port g1 2
1 key port p1 1
1 key port s0-g 2
1 key port p2 1
1 key port s1-g 2
1 ok walks=0
2 ok walks=0
3 ok walks=0
4 ok walks=0
5 drop s0 s0-g unbound
5 ok walks=9
6 ok walks=0
7 tunnel 1 hv1 hv2 024065580000020001028001000100020a00000000fe0a000000000108004500001c00010000401165ce0a0000010a0001021388138800080000
7 tunnel 2 hv2 hv1 024065580000030001028001000200010a00000000020a00000001fe08004500001c000100003f1166ce0a0000010a0001021388138800080000
7 out p2 0a00000000020a00000001fe08004500001c000100003f1166ce0a0000010a0001021388138800080000
7 ok walks=46
8 tunnel 3 hv1 hv2 024065580000020001028001000100020a00000000fe0a000000000108004500001c00010000400165e20a0000010a0000fe0800f7f700070001
8 tunnel 4 hv2 hv1 024065580000020001028001000200010a00000000010a00000000fe08004500001c00010000fe01a7e10a0000fe0a0000010000fff700070001
8 out p1 0a00000000010a00000000fe08004500001c00010000fe01a7e10a0000fe0a0000010000fff700070001
8 ok walks=43
9 tunnel 5 hv1 hv2 024065580000020001028001000100020a00000000fe0a000000000108004500001c00010000401165ce0a0000010a0001021388138800080000
9 ok walks=9
10 tunnel 6 hv2 hv1 024065580000030001028001000200010a00000000020a00000001fe08004500001c000100003f1166ce0a0000010a0001021388138800080000
10 ok walks=29
11 tunnel 7 hv2 hv1 024065580000030001028001000200010a00000000020a00000001fe08004500001c000100003f1166ce0a0000010a0001021388138800080000
11 ok walks=29
12 out p2 0a00000000020a00000001fe08004500001c000100003f1166ce0a0000010a0001021388138800080000
12 out p2 0a00000000020a00000001fe08004500001c000100003f1166ce0a0000010a0001021388138800080000
12 ok walks=16
13 key datapath h 4
13 key port h0 1
13 key port s0-h 3
13 ok walks=0
14 out p1 0a00000000010a00000000fd08004500001c00010000fe01a7e20a0000fd0a0000010000fff700070001
14 ok walks=41
end events=14 accepted=14 refused=0 waiting=0
";

// What takes a record, a binding or a chassis away, and other ranges of keys.
const NOT_BUILT: &[u8] =
    b"{\"edit\":[{\"add\":\"router\",\"name\":\"r\"},{\"remove\":\"switch\",\"name\":\"s0\"}]}
{\"unbind\":{\"port\":\"p1\"}}
{\"keys\":{\"datapaths\":10,\"ports\":10}}
{\"chassis\":{\"remove\":\"hv1\"}}
";

const NOT_BUILT_OUTPUT: &[u8] = b"1 refused NotBuilt
2 refused NotBuilt
3 refused NotBuilt
4 refused NotBuilt
end events=4 accepted=0 refused=4 waiting=0
";

// What each of these inputs is, with its status and output.
const ROUTED: [(&str, &[u8], u8, &[u8]); 5] = [
    (
        "a request to all beside a router",
        BROADCAST,
        0,
        BROADCAST_OUTPUT,
    ),
    ("routers in a circle", HOP_LIMIT, 0, HOP_LIMIT_OUTPUT),
    (
        "an address that no route leads to",
        NO_ROUTE,
        0,
        NO_ROUTE_OUTPUT,
    ),
    ("gateway routers", GATEWAYS, 0, GATEWAYS_OUTPUT),
    ("what isn't built", NOT_BUILT, 3, NOT_BUILT_OUTPUT),
];

#[test]
fn routers_route(rt: HostRuntime) -> Result<(), Fail> {
    for (what, events, status, output) in ROUTED {
        let events = Vec::from_slice(rt.alloc(), events)?;
        let (given, sink) = replayed(rt.alloc(), events, 2000)?;
        assert_eq!(rt; (given, sink.bytes()), (status, output), "at {what}");
    }
    Ok(())
}
