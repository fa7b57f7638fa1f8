mod balancing;
mod routing;
mod translating;

use crate::top::ovnsim;
use chassis_sim::sim::Sim;
use ovn_base::memory::NoMemory;
use ovn_base::memory_sink::MemorySink;
use ovn_base::memory_source::MemorySource;
use ovn_base::name::Name;
use std::alloc::Global;
use std::test::Fail;
use tuple_space::space::TupleSpace;
use world_core::world::World;

// ---- worked inputs

// One packet on one chassis.
const FIRST_PATH: &[u8] = b"{\"edit\":[{\"add\":\"switch\",\"name\":\"s0\"}]}
{\"edit\":[{\"add\":\"switch_port\",\"name\":\"p1\",\"switch\":\"s0\",\"addresses\":[\"0a:00:00:00:00:01 10.0.0.1\"]}]}
{\"edit\":[{\"add\":\"switch_port\",\"name\":\"p2\",\"switch\":\"s0\",\"addresses\":[\"0a:00:00:00:00:02 10.0.0.2\"]}]}
{\"chassis\":{\"add\":\"hv1\"}}
{\"bind\":{\"port\":\"p1\",\"chassis\":\"hv1\"}}
{\"bind\":{\"port\":\"p2\",\"chassis\":\"hv1\"}}
{\"packet\":{\"port\":\"p1\",\"frame\":\"0a00000000020a000000000188b56869\"}}
";

const FIRST_PATH_OUTPUT: &[u8] = b"1 key datapath s0 1
1 ok walks=0
2 key port p1 1
2 ok walks=0
3 key port p2 2
3 ok walks=0
4 ok walks=0
5 ok walks=0
6 ok walks=0
7 out p2 0a00000000020a000000000188b56869
7 ok walks=16
end events=7 accepted=7 refused=0 waiting=0
";

// Each datapath has the least key that no other has, and each port the least that no other port of its switch has.
const TWO_SWITCHES: &[u8] = b"{\"edit\":[{\"add\":\"switch\",\"name\":\"s0\"}]}
{\"edit\":[{\"add\":\"switch\",\"name\":\"s1\"}]}
{\"edit\":[{\"add\":\"switch_port\",\"name\":\"p1\",\"switch\":\"s0\",\"addresses\":[\"0a:00:00:00:00:01\"]}]}
{\"edit\":[{\"add\":\"switch_port\",\"name\":\"p2\",\"switch\":\"s1\",\"addresses\":[\"0a:00:00:00:00:01\"]}]}
{\"edit\":[{\"add\":\"switch_port\",\"name\":\"p3\",\"switch\":\"s0\",\"addresses\":[\"0a:00:00:00:00:02\"]}]}
";

const TWO_SWITCHES_OUTPUT: &[u8] = b"1 key datapath s0 1
1 ok walks=0
2 key datapath s1 2
2 ok walks=0
3 key port p1 1
3 ok walks=0
4 key port p2 1
4 ok walks=0
5 key port p3 2
5 ok walks=0
end events=5 accepted=5 refused=0 waiting=0
";

// What each of these inputs is, with its status and output.
const INPUTS: [(&str, &[u8], u8, &[u8]); 3] = [
    (
        "an empty input",
        b"",
        0,
        b"end events=0 accepted=0 refused=0 waiting=0\n",
    ),
    ("the first path", FIRST_PATH, 0, FIRST_PATH_OUTPUT),
    ("two switches", TWO_SWITCHES, 0, TWO_SWITCHES_OUTPUT),
];

// ---- worked events behind those of two chassis

// A switch with a port on each of two chassis.
const TWO_CHASSIS: &[u8] = b"{\"edit\":[{\"add\":\"switch\",\"name\":\"s0\"}]}
{\"edit\":[{\"add\":\"switch_port\",\"name\":\"p1\",\"switch\":\"s0\",\"addresses\":[\"0a:00:00:00:00:01 10.0.0.1\"]}]}
{\"edit\":[{\"add\":\"switch_port\",\"name\":\"p2\",\"switch\":\"s0\",\"addresses\":[\"0a:00:00:00:00:02 10.0.0.2\"]}]}
{\"chassis\":{\"add\":\"hv1\"}}
{\"chassis\":{\"add\":\"hv2\"}}
{\"bind\":{\"port\":\"p1\",\"chassis\":\"hv1\"}}
{\"bind\":{\"port\":\"p2\",\"chassis\":\"hv2\"}}
";

const TWO_CHASSIS_OUTPUT: &[u8] = b"1 key datapath s0 1
1 ok walks=0
2 key port p1 1
2 ok walks=0
3 key port p2 2
3 ok walks=0
4 ok walks=0
5 ok walks=0
6 ok walks=0
7 ok walks=0
";

// A packet from p1 to p2, which is at home on the other chassis.
const TUNNEL: &[u8] =
    b"{\"packet\":{\"port\":\"p1\",\"frame\":\"0a00000000020a000000000188b56869\"}}
";

const TUNNEL_OUTPUT: &[u8] =
    b"8 tunnel 1 hv1 hv2 024065580000010001028001000100020a00000000020a000000000188b56869
8 out p2 0a00000000020a000000000188b56869
8 ok walks=17
end events=8 accepted=8 refused=0 waiting=0
";

// A packet from p1 to its own address.
const LOOPBACK: &[u8] = b"{\"packet\":{\"port\":\"p1\",\"frame\":\"0a00000000010a000000000188b5\"}}
";

const LOOPBACK_OUTPUT: &[u8] = b"8 drop s0 p1 loopback
8 ok walks=11
end events=8 accepted=8 refused=0 waiting=0
";

// A frame that arrives twice, is lost, and then waits no more.
const REPEATED: &[u8] =
    b"{\"inject\":{\"port\":\"p1\",\"frame\":\"0a00000000020a000000000188b56869\"}}
{\"repeat\":{\"frame\":1}}
{\"repeat\":{\"frame\":1}}
{\"lose\":{\"frame\":1}}
{\"deliver\":{\"frame\":1}}
";

const REPEATED_OUTPUT: &[u8] =
    b"8 tunnel 1 hv1 hv2 024065580000010001028001000100020a00000000020a000000000188b56869
8 ok walks=9
9 out p2 0a00000000020a000000000188b56869
9 ok walks=8
10 out p2 0a00000000020a000000000188b56869
10 ok walks=8
11 ok walks=0
12 refused NoFrame 1
end events=12 accepted=11 refused=1 waiting=0
";

// A port on each chassis takes packets for addresses that no port has, and such a packet comes.
const UNKNOWN: &[u8] =
    b"{\"edit\":[{\"add\":\"switch_port\",\"name\":\"p3\",\"switch\":\"s0\",\"addresses\":[\"unknown\"]}]}
{\"edit\":[{\"add\":\"switch_port\",\"name\":\"p4\",\"switch\":\"s0\",\"addresses\":[\"unknown\"]}]}
{\"bind\":{\"port\":\"p3\",\"chassis\":\"hv1\"}}
{\"bind\":{\"port\":\"p4\",\"chassis\":\"hv2\"}}
{\"packet\":{\"port\":\"p1\",\"frame\":\"0a00000000090a000000000188b5\"}}
";

const UNKNOWN_OUTPUT: &[u8] = b"8 key port p3 3
8 ok walks=0
9 key port p4 4
9 ok walks=0
10 ok walks=0
11 ok walks=0
12 tunnel 1 hv1 hv2 024065580000010001028001000180010a00000000090a000000000188b5
12 out p3 0a00000000090a000000000188b5
12 out p4 0a00000000090a000000000188b5
12 ok walks=24
end events=12 accepted=12 refused=0 waiting=0
";

// A packet whose source is the address of a group and that has a tag, and one that only has a tag.
const BAD_SOURCE: &[u8] =
    b"{\"inject\":{\"port\":\"p1\",\"frame\":\"0a00000000020100000000018100\"}}
{\"inject\":{\"port\":\"p1\",\"frame\":\"0a00000000020a00000000018100\"}}
";

const BAD_SOURCE_OUTPUT: &[u8] = b"8 drop s0 p1 bad-source
8 ok walks=2
9 drop s0 p1 vlan
9 ok walks=2
end events=9 accepted=9 refused=0 waiting=0
";

// A frame arrives after its port has moved, and then a packet comes that needs no tunnel any more.
const LATE: &[u8] = b"{\"inject\":{\"port\":\"p1\",\"frame\":\"0a00000000020a000000000188b56869\"}}
{\"bind\":{\"port\":\"p2\",\"chassis\":\"hv1\"}}
{\"deliver\":{\"frame\":1}}
{\"inject\":{\"port\":\"p1\",\"frame\":\"0a00000000020a000000000188b56869\"}}
";

const LATE_OUTPUT: &[u8] =
    b"8 tunnel 1 hv1 hv2 024065580000010001028001000100020a00000000020a000000000188b56869
8 ok walks=9
9 ok walks=0
10 lost 1
10 ok walks=1
11 out p2 0a00000000020a000000000188b56869
11 ok walks=16
end events=11 accepted=11 refused=0 waiting=0
";

// A frame goes each way, and both arrive at once. Then one waits as a packet goes the other way: the one that waits arrives first.
const DRAIN: &[u8] = b"{\"inject\":{\"port\":\"p1\",\"frame\":\"0a00000000020a000000000188b56869\"}}
{\"inject\":{\"port\":\"p2\",\"frame\":\"0a00000000010a000000000288b5\"}}
{\"drain\":{}}
{\"inject\":{\"port\":\"p1\",\"frame\":\"0a00000000020a000000000188b56869\"}}
{\"packet\":{\"port\":\"p2\",\"frame\":\"0a00000000010a000000000288b5\"}}
";

const DRAIN_OUTPUT: &[u8] =
    b"8 tunnel 1 hv1 hv2 024065580000010001028001000100020a00000000020a000000000188b56869
8 ok walks=9
9 tunnel 2 hv2 hv1 024065580000010001028001000200010a00000000010a000000000288b5
9 ok walks=9
10 out p2 0a00000000020a000000000188b56869
10 out p1 0a00000000010a000000000288b5
10 ok walks=16
11 tunnel 3 hv1 hv2 024065580000010001028001000100020a00000000020a000000000188b56869
11 ok walks=9
12 tunnel 4 hv2 hv1 024065580000010001028001000200010a00000000010a000000000288b5
12 out p2 0a00000000020a000000000188b56869
12 out p1 0a00000000010a000000000288b5
12 ok walks=25
end events=12 accepted=12 refused=0 waiting=0
";

// Names and frames that aren't there, a chassis that is, frames with a fault, and what isn't built.
const REFUSED: &[u8] = b"{\"inject\":{\"port\":\"p1\",\"frame\":\"00000000000000000000000000\"}}
{\"inject\":{\"port\":\"p1\",\"frame\":\"0a00000000020a000000000108004500001c00010000401166cf0a0000010a0000021388138900080000\"}}
{\"inject\":{\"port\":\"p9\",\"frame\":\"0a00000000020a000000000188b56869\"}}
{\"bind\":{\"port\":\"p1\",\"chassis\":\"hv9\"}}
{\"chassis\":{\"add\":\"hv1\"}}
{\"repeat\":{\"frame\":0}}
{\"unbind\":{\"port\":\"p1\"}}
{\"edit\":[{\"add\":\"switch\",\"name\":\"s1\"},{\"remove\":\"switch_port\",\"name\":\"p1\"}]}
";

const REFUSED_OUTPUT: &[u8] = b"8 refused TooShort
9 refused BadIp4
10 refused NoSuch p9
11 refused NoSuch hv9
12 refused DuplicateName hv1
13 refused NoFrame 0
14 refused NotBuilt
15 refused NotBuilt
end events=15 accepted=7 refused=8 waiting=0
";

// Lines that can't be read, and a rule's match that can't.
const UNREAD: &[u8] = b"{
[]
{\"edit\":[]}
{\"lose\":{\"frame\":-1}}
{\"edit\":[{\"add\":\"switch\",\"name\":\"a b\"}]}
{\"edit\":[{\"add\":\"acl\",\"name\":\"x\",\"switch\":\"s0\",\"direction\":\"from-lport\",\"priority\":1000,\"match\":\"ip4 && tcp || udp\",\"action\":\"drop\"}]}
";

const UNREAD_OUTPUT: &[u8] = b"8 refused BadJson
9 refused NotObject
10 refused OutOfRange edit
11 refused WrongKind frame
12 refused OutOfRange name
13 refused BadMatch MixedAndOr 11
end events=13 accepted=7 refused=6 waiting=0
";

// Edits of two operations: one is refused for its second, and then the keys come as if it hadn't been there.
const EDITS: &[u8] =
    b"{\"edit\":[{\"add\":\"switch\",\"name\":\"s1\"},{\"set\":\"switch_port\",\"name\":\"zz\"}]}
{\"packet\":{\"port\":\"p1\",\"frame\":\"0a00000000020a000000000188b56869\"}}
{\"edit\":[{\"add\":\"switch_port\",\"name\":\"q1\",\"switch\":\"s1\"},{\"add\":\"switch\",\"name\":\"s1\"}]}
";

const EDITS_OUTPUT: &[u8] = b"8 refused NoSuch zz
9 tunnel 1 hv1 hv2 024065580000010001028001000100020a00000000020a000000000188b56869
9 out p2 0a00000000020a000000000188b56869
9 ok walks=17
10 key datapath s1 2
10 key port q1 1
10 ok walks=0
end events=10 accepted=9 refused=1 waiting=0
";

// A request for the address of p2, which is answered, and one for that of p1 itself, which goes on to all others.
const ARP: &[u8] =
    b"{\"packet\":{\"port\":\"p1\",\"frame\":\"ffffffffffff0a0000000001080600010800060400010a00000000010a0000010000000000000a000002\"}}
{\"packet\":{\"port\":\"p1\",\"frame\":\"ffffffffffff0a0000000001080600010800060400010a00000000010a0000010000000000000a000001\"}}
";

const ARP_OUTPUT: &[u8] =
    b"8 out p1 0a00000000010a0000000002080600010800060400020a00000000020a0000020a00000000010a000001
8 ok walks=15
9 tunnel 1 hv1 hv2 02406558000001000102800100018000ffffffffffff0a0000000001080600010800060400010a00000000010a0000010000000000000a000001
9 out p2 ffffffffffff0a0000000001080600010800060400010a00000000010a0000010000000000000a000001
9 ok walks=18
end events=9 accepted=9 refused=0 waiting=0
";

// A port that may send from its own addresses alone: a packet from another, and one from its own.
const PORT_SECURITY: &[u8] =
    b"{\"edit\":[{\"set\":\"switch_port\",\"name\":\"p1\",\"port_security\":[\"0a:00:00:00:00:01 10.0.0.1\"]}]}
{\"packet\":{\"port\":\"p1\",\"frame\":\"0a00000000020a000000000988b5\"}}
{\"packet\":{\"port\":\"p1\",\"frame\":\"0a00000000020a000000000108004500001c00010000401166ce0a0000010a0000021388138900080000\"}}
";

const PORT_SECURITY_OUTPUT: &[u8] = b"8 ok walks=0
9 drop s0 p1 port-security
9 ok walks=3
10 tunnel 1 hv1 hv2 024065580000010001028001000100020a00000000020a000000000108004500001c00010000401166ce0a0000010a0000021388138900080000
10 out p2 0a00000000020a000000000108004500001c00010000401166ce0a0000010a0000021388138900080000
10 ok walks=17
end events=10 accepted=10 refused=0 waiting=0
";

// A rule lets a port begin connections; once it drops them, the answers of one that was there are blocked.
const BLOCKED: &[u8] =
    b"{\"edit\":[{\"add\":\"acl\",\"name\":\"a1\",\"switch\":\"s0\",\"direction\":\"from-lport\",\"priority\":1000,\"match\":\"inport == \\\"p1\\\" && udp\",\"action\":\"allow-related\"}]}
{\"edit\":[{\"add\":\"acl\",\"name\":\"a2\",\"switch\":\"s0\",\"direction\":\"from-lport\",\"priority\":1000,\"match\":\"inport == \\\"p1\\\" && tcp\",\"action\":\"allow-related\"}]}
{\"packet\":{\"port\":\"p1\",\"frame\":\"0a00000000020a000000000108004500001c00010000401166ce0a0000010a0000021388138900080000\"}}
{\"packet\":{\"port\":\"p2\",\"frame\":\"0a00000000010a000000000208004500001c00010000401166ce0a0000020a0000011389138800080000\"}}
{\"edit\":[{\"set\":\"acl\",\"name\":\"a1\",\"action\":\"drop\"}]}
{\"packet\":{\"port\":\"p1\",\"frame\":\"0a00000000020a000000000108004500001c00010000401166ce0a0000010a0000021388138900080000\"}}
{\"packet\":{\"port\":\"p2\",\"frame\":\"0a00000000010a000000000208004500001c00010000401166ce0a0000020a0000011389138800080000\"}}
";

const BLOCKED_OUTPUT: &[u8] = b"8 ok walks=0
9 ok walks=0
10 tunnel 1 hv1 hv2 024065580000010001028001000100020a00000000020a000000000108004500001c00010000401166ce0a0000010a0000021388138900080000
10 out p2 0a00000000020a000000000108004500001c00010000401166ce0a0000010a0000021388138900080000
10 ok walks=17
11 tunnel 2 hv2 hv1 024065580000010001028001000200010a00000000010a000000000208004500001c00010000401166ce0a0000020a0000011389138800080000
11 out p1 0a00000000010a000000000208004500001c00010000401166ce0a0000020a0000011389138800080000
11 ok walks=17
12 ok walks=0
13 drop s0 p1 acl
13 ok walks=6
14 tunnel 3 hv2 hv1 024065580000010001028001000200010a00000000010a000000000208004500001c00010000401166ce0a0000020a0000011389138800080000
14 drop s0 p1 blocked
14 ok walks=15
end events=14 accepted=14 refused=0 waiting=0
";

// An answer to a connection passes, and no more once a minute went by without a packet of it.
const IDLE: &[u8] =
    b"{\"edit\":[{\"add\":\"acl\",\"name\":\"a1\",\"switch\":\"s0\",\"direction\":\"from-lport\",\"priority\":1000,\"match\":\"inport == \\\"p1\\\" && udp\",\"action\":\"allow-related\"}]}
{\"edit\":[{\"add\":\"acl\",\"name\":\"a3\",\"switch\":\"s0\",\"direction\":\"to-lport\",\"priority\":1000,\"match\":\"outport == \\\"p1\\\" && udp\",\"action\":\"drop\"}]}
{\"packet\":{\"port\":\"p1\",\"frame\":\"0a00000000020a000000000108004500001c00010000401166ce0a0000010a0000021388138900080000\"}}
{\"clock\":{\"seconds\":59}}
{\"packet\":{\"port\":\"p2\",\"frame\":\"0a00000000010a000000000208004500001c00010000401166ce0a0000020a0000011389138800080000\"}}
{\"clock\":{\"seconds\":60}}
{\"packet\":{\"port\":\"p2\",\"frame\":\"0a00000000010a000000000208004500001c00010000401166ce0a0000020a0000011389138800080000\"}}
";

const IDLE_OUTPUT: &[u8] = b"8 ok walks=0
9 ok walks=0
10 tunnel 1 hv1 hv2 024065580000010001028001000100020a00000000020a000000000108004500001c00010000401166ce0a0000010a0000021388138900080000
10 out p2 0a00000000020a000000000108004500001c00010000401166ce0a0000010a0000021388138900080000
10 ok walks=17
11 ok walks=0
12 tunnel 2 hv2 hv1 024065580000010001028001000200010a00000000010a000000000208004500001c00010000401166ce0a0000020a0000011389138800080000
12 out p1 0a00000000010a000000000208004500001c00010000401166ce0a0000020a0000011389138800080000
12 ok walks=17
13 ok walks=0
14 tunnel 3 hv2 hv1 024065580000010001028001000200010a00000000010a000000000208004500001c00010000401166ce0a0000020a0000011389138800080000
14 drop s0 p1 acl
14 ok walks=15
end events=14 accepted=14 refused=0 waiting=0
";

// Of two rules of one priority the one that drops wins.
const EQUAL_PRIORITY: &[u8] =
    b"{\"edit\":[{\"add\":\"acl\",\"name\":\"r1\",\"switch\":\"s0\",\"direction\":\"from-lport\",\"priority\":1000,\"match\":\"eth.type == 0x88b5\",\"action\":\"allow\"}]}
{\"edit\":[{\"add\":\"acl\",\"name\":\"r2\",\"switch\":\"s0\",\"direction\":\"from-lport\",\"priority\":1000,\"match\":\"eth.type == 0x88b5\",\"action\":\"drop\"}]}
{\"packet\":{\"port\":\"p1\",\"frame\":\"0a00000000020a000000000188b56869\"}}
";

const EQUAL_PRIORITY_OUTPUT: &[u8] = b"8 ok walks=0
9 ok walks=0
10 drop s0 p1 acl
10 ok walks=6
end events=10 accepted=10 refused=0 waiting=0
";

// Unequal and greater, in matches of rules, and one that would be too wide.
const WIDTHS: &[u8] =
    b"{\"edit\":[{\"add\":\"acl\",\"name\":\"w1\",\"switch\":\"s0\",\"direction\":\"from-lport\",\"priority\":1000,\"match\":\"ip4.src != {10.0.0.1, 10.0.0.2}\",\"action\":\"drop\"}]}
{\"edit\":[{\"add\":\"acl\",\"name\":\"w2\",\"switch\":\"s0\",\"direction\":\"from-lport\",\"priority\":1000,\"match\":\"tcp.dst >= 1024\",\"action\":\"drop\"}]}
{\"packet\":{\"port\":\"p1\",\"frame\":\"0a00000000020a000000000108004500001c00010000401166ce0a0000010a0000021388138900080000\"}}
{\"packet\":{\"port\":\"p1\",\"frame\":\"0a00000000020a000000000108004500002800010000400666cd0a0000010a0000021388040000000000000000005002ffff00000000\"}}
{\"packet\":{\"port\":\"p1\",\"frame\":\"0a00000000020a000000000108004500002800010000400666cd0a0000010a000002138803ff00000000000000005002ffff00000000\"}}
{\"edit\":[{\"add\":\"acl\",\"name\":\"w3\",\"switch\":\"s0\",\"direction\":\"from-lport\",\"priority\":1000,\"match\":\"ip4.src != {10.0.0.1, 10.0.0.2, 10.0.0.3} && tcp.dst >= 1024\",\"action\":\"drop\"}]}
";

const WIDTHS_OUTPUT: &[u8] = b"8 ok walks=0
9 ok walks=0
10 tunnel 1 hv1 hv2 024065580000010001028001000100020a00000000020a000000000108004500001c00010000401166ce0a0000010a0000021388138900080000
10 out p2 0a00000000020a000000000108004500001c00010000401166ce0a0000010a0000021388138900080000
10 ok walks=17
11 drop s0 p1 acl
11 ok walks=6
12 tunnel 2 hv1 hv2 024065580000010001028001000100020a00000000020a000000000108004500002800010000400666cd0a0000010a000002138803ff00000000000000005002ffff00000000
12 out p2 0a00000000020a000000000108004500002800010000400666cd0a0000010a000002138803ff00000000000000005002ffff00000000
12 ok walks=17
13 refused TooWide 196608
end events=13 accepted=12 refused=1 waiting=0
";

// A rule of a group applies on each switch that has a port of it, and on the group's ports alone where its match says so.
const ONE_GROUP: &[u8] = b"{\"edit\":[{\"add\":\"switch\",\"name\":\"s1\"}]}
{\"edit\":[{\"add\":\"switch_port\",\"name\":\"q1\",\"switch\":\"s1\",\"addresses\":[\"0a:00:00:00:00:03\"]}]}
{\"edit\":[{\"add\":\"port_group\",\"name\":\"pg\",\"ports\":[\"p2\",\"q1\"]}]}
{\"edit\":[{\"add\":\"acl\",\"name\":\"g\",\"port_group\":\"pg\",\"direction\":\"from-lport\",\"priority\":1000,\"match\":\"inport == @pg\",\"action\":\"drop\"}]}
{\"packet\":{\"port\":\"p1\",\"frame\":\"0a00000000020a000000000188b56869\"}}
{\"packet\":{\"port\":\"p2\",\"frame\":\"0a00000000010a000000000288b5\"}}
";

const ONE_GROUP_OUTPUT: &[u8] = b"8 key datapath s1 2
8 ok walks=0
9 key port q1 1
9 ok walks=0
10 ok walks=0
11 ok walks=0
12 tunnel 1 hv1 hv2 024065580000010001028001000100020a00000000020a000000000188b56869
12 out p2 0a00000000020a000000000188b56869
12 ok walks=17
13 drop s0 p2 acl
13 ok walks=6
end events=13 accepted=13 refused=0 waiting=0
";

// A rule for packets that enter asks for a port of exit.
const BAD_DIRECTION: &[u8] =
    b"{\"edit\":[{\"add\":\"acl\",\"name\":\"a1\",\"switch\":\"s0\",\"direction\":\"from-lport\",\"priority\":1000,\"match\":\"udp\",\"action\":\"drop\"}]}
{\"edit\":[{\"set\":\"acl\",\"name\":\"a1\",\"match\":\"outport == \\\"p2\\\"\"}]}
";

const BAD_DIRECTION_OUTPUT: &[u8] = b"8 ok walks=0
9 refused BadDirection a1
end events=9 accepted=8 refused=1 waiting=0
";

// A port that is bound anew begins with an empty list, also where it was bound before.
const REBOUND: &[u8] =
    b"{\"edit\":[{\"add\":\"acl\",\"name\":\"a1\",\"switch\":\"s0\",\"direction\":\"from-lport\",\"priority\":1000,\"match\":\"inport == \\\"p1\\\" && udp\",\"action\":\"allow-related\"}]}
{\"edit\":[{\"add\":\"acl\",\"name\":\"a3\",\"switch\":\"s0\",\"direction\":\"to-lport\",\"priority\":1000,\"match\":\"outport == \\\"p1\\\" && udp\",\"action\":\"drop\"}]}
{\"packet\":{\"port\":\"p1\",\"frame\":\"0a00000000020a000000000108004500001c00010000401166ce0a0000010a0000021388138900080000\"}}
{\"packet\":{\"port\":\"p2\",\"frame\":\"0a00000000010a000000000208004500001c00010000401166ce0a0000020a0000011389138800080000\"}}
{\"bind\":{\"port\":\"p1\",\"chassis\":\"hv1\"}}
{\"packet\":{\"port\":\"p2\",\"frame\":\"0a00000000010a000000000208004500001c00010000401166ce0a0000020a0000011389138800080000\"}}
";

const REBOUND_OUTPUT: &[u8] = b"8 ok walks=0
9 ok walks=0
10 tunnel 1 hv1 hv2 024065580000010001028001000100020a00000000020a000000000108004500001c00010000401166ce0a0000010a0000021388138900080000
10 out p2 0a00000000020a000000000108004500001c00010000401166ce0a0000010a0000021388138900080000
10 ok walks=17
11 tunnel 2 hv2 hv1 024065580000010001028001000200010a00000000010a000000000208004500001c00010000401166ce0a0000020a0000011389138800080000
11 out p1 0a00000000010a000000000208004500001c00010000401166ce0a0000020a0000011389138800080000
11 ok walks=17
12 ok walks=0
13 tunnel 3 hv2 hv1 024065580000010001028001000200010a00000000010a000000000208004500001c00010000401166ce0a0000020a0000011389138800080000
13 drop s0 p1 acl
13 ok walks=15
end events=13 accepted=13 refused=0 waiting=0
";

// What these events are, behind those of the two chassis, with the status and the output behind theirs.
const BEHIND_TWO_CHASSIS: [(&str, &[u8], u8, &[u8]); 12] = [
    ("a frame to another chassis", TUNNEL, 0, TUNNEL_OUTPUT),
    ("a packet for its own port", LOOPBACK, 0, LOOPBACK_OUTPUT),
    (
        "a frame that is repeated and lost",
        REPEATED,
        3,
        REPEATED_OUTPUT,
    ),
    ("an address that no port has", UNKNOWN, 0, UNKNOWN_OUTPUT),
    ("a bad source, and a tag", BAD_SOURCE, 0, BAD_SOURCE_OUTPUT),
    ("a frame whose port has moved", LATE, 0, LATE_OUTPUT),
    ("the lowest frame first", DRAIN, 0, DRAIN_OUTPUT),
    (
        "what isn't there, or isn't built",
        REFUSED,
        3,
        REFUSED_OUTPUT,
    ),
    ("what can't be read", UNREAD, 3, UNREAD_OUTPUT),
    ("edits of two operations", EDITS, 3, EDITS_OUTPUT),
    ("requests for addresses", ARP, 0, ARP_OUTPUT),
    ("port security", PORT_SECURITY, 0, PORT_SECURITY_OUTPUT),
];

// The same with rules.
const RULES_BEHIND_TWO_CHASSIS: [(&str, &[u8], u8, &[u8]); 7] = [
    ("a rule that is changed", BLOCKED, 0, BLOCKED_OUTPUT),
    ("an idle connection", IDLE, 0, IDLE_OUTPUT),
    (
        "two rules of one priority",
        EQUAL_PRIORITY,
        0,
        EQUAL_PRIORITY_OUTPUT,
    ),
    ("widths of rules", WIDTHS, 3, WIDTHS_OUTPUT),
    ("a group on two switches", ONE_GROUP, 0, ONE_GROUP_OUTPUT),
    (
        "a rule of the other direction",
        BAD_DIRECTION,
        3,
        BAD_DIRECTION_OUTPUT,
    ),
    ("a port that is bound anew", REBOUND, 0, REBOUND_OUTPUT),
];

// ---- runs

// Adds the pieces to the text.
fn put(pieces: &[&[u8]], text: &mut Vec<u8>) -> Result<(), NoMemory> {
    for piece in pieces {
        text.extend_from_slice(piece)?;
    }
    Ok(())
}

// Runs the program on the word `replay`.
fn replay(alloc: Global, source: &mut MemorySource, sink: &mut MemorySink) -> Result<u8, NoMemory> {
    let words = vec![in alloc; String::from_str(alloc, "replay")?]?;
    Ok(ovnsim(alloc, &words, source, sink))
}

// Runs the program over the events, into a sink with room for so many bytes: the status, and the sink.
fn replayed(alloc: Global, events: Vec<u8>, room: usize) -> Result<(u8, MemorySink), NoMemory> {
    let mut source = MemorySource::new(events, Vec::new(alloc));
    let mut sink = MemorySink::new(alloc, room, Vec::new(alloc))?;
    let status = replay(alloc, &mut source, &mut sink)?;
    Ok((status, sink))
}

#[test]
fn inputs_are_answered(rt: HostRuntime) -> Result<(), Fail> {
    for (what, events, status, output) in INPUTS {
        let events = Vec::from_slice(rt.alloc(), events)?;
        let (given, sink) = replayed(rt.alloc(), events, 1000)?;
        assert_eq!(rt; (given, sink.bytes()), (status, output), "at {what}");
    }
    Ok(())
}

// Runs the program over the events behind those of the two chassis.
fn behind(alloc: Global, events: &[u8]) -> Result<(u8, MemorySink), NoMemory> {
    let mut all = Vec::new(alloc);
    put(&[TWO_CHASSIS, events], &mut all)?;
    replayed(alloc, all, 2000)
}

#[test]
fn events_behind_two_chassis_are_answered(rt: HostRuntime) -> Result<(), Fail> {
    for (what, events, status, output) in BEHIND_TWO_CHASSIS {
        let (given, sink) = behind(rt.alloc(), events)?;
        let lines = sink.bytes().strip_prefix(TWO_CHASSIS_OUTPUT);
        assert_eq!(rt; (given, lines), (status, Some(output)), "at {what}");
    }
    Ok(())
}

#[test]
fn rules_decide(rt: HostRuntime) -> Result<(), Fail> {
    for (what, events, status, output) in RULES_BEHIND_TWO_CHASSIS {
        let (given, sink) = behind(rt.alloc(), events)?;
        let lines = sink.bytes().strip_prefix(TWO_CHASSIS_OUTPUT);
        assert_eq!(rt; (given, lines), (status, Some(output)), "at {what}");
    }
    Ok(())
}

#[test]
fn other_words_are_refused(rt: HostRuntime) -> Result<(), Fail> {
    let alloc = rt.alloc();
    let mut source = MemorySource::new(Vec::from_slice(alloc, FIRST_PATH)?, Vec::new(alloc));
    let mut sink = MemorySink::new(alloc, 1000, Vec::new(alloc))?;
    let replay = String::from_str(alloc, "replay")?;
    let words = vec![in alloc; replay, String::from_str(alloc, "x")?]?;
    assert_eq!(rt; ovnsim(alloc, &words, &mut source, &mut sink), 2);
    assert_eq!(rt; ovnsim(alloc, &[], &mut source, &mut sink), 2);
    assert_eq!(rt; sink.bytes(), b"".as_slice());
    Ok(())
}

// The source fails at its first call, and then the sink at its third piece, after three bytes.
#[test]
fn faults_stop_the_run(rt: HostRuntime) -> Result<(), Fail> {
    let alloc = rt.alloc();
    let mut source = MemorySource::new(Vec::from_slice(alloc, FIRST_PATH)?, vec![in alloc; 1]?);
    let mut sink = MemorySink::new(alloc, 1000, vec![in alloc; (2, 3)]?)?;
    assert_eq!(rt; replay(alloc, &mut source, &mut sink)?, 4);
    assert_eq!(rt; sink.bytes(), b"".as_slice());
    let mut source = MemorySource::new(Vec::from_slice(alloc, FIRST_PATH)?, Vec::new(alloc));
    assert_eq!(rt; replay(alloc, &mut source, &mut sink)?, 5);
    assert_eq!(rt;
        sink.bytes(),
        b"1 key datapath s0 1\n1 ok walks=0\n2 k".as_slice()
    );
    Ok(())
}

#[test]
fn a_long_line_is_refused(rt: HostRuntime) -> Result<(), Fail> {
    let mut events = vec![in rt.alloc(); b'x'; 1_048_577]?;
    events.extend_from_slice(b"\n \t\r\n{\"edit\":[{\"add\":\"switch\",\"name\":\"s0\"}]}")?;
    let (status, sink) = replayed(rt.alloc(), events, 1000)?;
    assert_eq!(rt; status, 3);
    assert_eq!(rt;
        sink.bytes(),
        b"1 refused TooLong\n2 key datapath s0 1\n2 ok walks=0\nend events=2 accepted=1 refused=1 waiting=0\n".as_slice()
    );
    Ok(())
}

// ---- limits

// A packet for all ports of the switch.
const BROADCAST: &[u8] = b"{\"inject\":{\"port\":\"q1\",\"frame\":\"ffffffffffff0a000000000188b5\"}}
";

// What comes last where 65,583 frames wait.
const TOO_MANY_OUTPUT: &[u8] = b"1235 refused TooManyFrames
end events=1235 accepted=1234 refused=1 waiting=65583
";

// Adds the event that adds the chassis of the number.
fn put_chassis(alloc: Global, number: u8, events: &mut Vec<u8>) -> Result<(), NoMemory> {
    let name = format!(in alloc; "c{number}")?;
    put(
        &[b"{\"chassis\":{\"add\":\"", name.as_bytes(), b"\"}}\n"],
        events,
    )
}

// Adds the event that adds the port of the number to the switch.
fn put_port(alloc: Global, number: u8, events: &mut Vec<u8>) -> Result<(), NoMemory> {
    let name = format!(in alloc; "q{number}")?;
    let address = format!(in alloc; "0a:00:00:00:00:{number:02x}")?;
    put(
        &[
            b"{\"edit\":[{\"add\":\"switch_port\",\"name\":\"",
            name.as_bytes(),
            b"\",\"switch\":\"s0\",\"addresses\":[\"",
            address.as_bytes(),
            b"\"]}]}\n",
        ],
        events,
    )
}

// Adds the event that binds the port of the number to the chassis of the number.
fn put_binding(alloc: Global, number: u8, events: &mut Vec<u8>) -> Result<(), NoMemory> {
    let port = format!(in alloc; "q{number}")?;
    let chassis = format!(in alloc; "c{number}")?;
    put(
        &[
            b"{\"bind\":{\"port\":\"",
            port.as_bytes(),
            b"\",\"chassis\":\"",
            chassis.as_bytes(),
            b"\"}}\n",
        ],
        events,
    )
}

// A switch with 64 ports, on a chassis each.
fn put_spread_switch(alloc: Global, events: &mut Vec<u8>) -> Result<(), NoMemory> {
    put(
        &[b"{\"edit\":[{\"add\":\"switch\",\"name\":\"s0\"}]}\n"],
        events,
    )?;
    for number in 1..65 {
        put_port(alloc, number, events)?;
    }
    for number in 1..65 {
        put_chassis(alloc, number, events)?;
    }
    for number in 1..65 {
        put_binding(alloc, number, events)?;
    }
    Ok(())
}

#[test]
fn too_many_waiting_frames_are_refused(rt: HostRuntime) -> Result<(), Fail> {
    let mut events = Vec::new(rt.alloc());
    put_spread_switch(rt.alloc(), &mut events)?;
    for _packet in 0..1042 {
        events.extend_from_slice(BROADCAST)?;
    }
    let (status, sink) = replayed(rt.alloc(), events, 8_000_000)?;
    assert_eq!(rt; status, 3);
    assert!(rt; sink.bytes().ends_with(TOO_MANY_OUTPUT));
    Ok(())
}

#[test]
fn a_chassis_beside_64_is_refused(rt: HostRuntime) -> Result<(), Fail> {
    let mut events = Vec::new(rt.alloc());
    for number in 1..66 {
        put_chassis(rt.alloc(), number, &mut events)?;
    }
    put_chassis(rt.alloc(), 1, &mut events)?;
    let (status, sink) = replayed(rt.alloc(), events, 2000)?;
    assert_eq!(rt; status, 3);
    let end =
        b"64 ok walks=0\n65 refused Limit chassis\n66 refused DuplicateName c1\nend events=66 accepted=64 refused=2 waiting=0\n";
    assert!(rt; sink.bytes().ends_with(end));
    Ok(())
}

// Whether no frame waits between chassis that hold their flows by masks, and the chassis of this name has no flow.
fn are_still(chassis: &Sim<TupleSpace>, name: &Name) -> bool {
    chassis.waiting() == 0 && chassis.flow(name, 0).is_none()
}

// What holds the flows of the world's chassis is the classifier by masks.
#[test]
fn chassis_hold_flows_by_masks(rt: HostRuntime) -> Result<(), Fail> {
    let name = Name::read(b"hv1").expect(&rt, "a name");
    let world = World::new(rt.alloc())?;
    assert!(rt; are_still(world.simulated_chassis(), &name));
    Ok(())
}
