//! Rows of gateway routers that translate.
use super::replayed;
use std::test::Fail;

// Two ports behind a gateway router have one address outside: the first connection keeps its port, the second is given the least free one,
// and an answer goes back to the port that asked.
const SNAT: &[u8] = b"{\"chassis\":{\"add\":\"hv1\"}}
{\"edit\":[{\"add\":\"switch\",\"name\":\"in0\"},{\"add\":\"switch\",\"name\":\"out0\"},{\"add\":\"router\",\"name\":\"g0\",\"chassis\":\"hv1\"},{\"add\":\"router_port\",\"name\":\"gi\",\"router\":\"g0\",\"mac\":\"0a:00:00:00:00:fe\",\"networks\":[\"10.0.0.254/24\"]},{\"add\":\"router_port\",\"name\":\"ge\",\"router\":\"g0\",\"mac\":\"0a:00:00:00:01:fe\",\"networks\":[\"172.16.0.254/24\"]},{\"add\":\"switch_port\",\"name\":\"in0-g\",\"switch\":\"in0\",\"type\":\"router\",\"router_port\":\"gi\",\"addresses\":[\"router\"]},{\"add\":\"switch_port\",\"name\":\"out0-g\",\"switch\":\"out0\",\"type\":\"router\",\"router_port\":\"ge\",\"addresses\":[\"router\"]},{\"add\":\"switch_port\",\"name\":\"p1\",\"switch\":\"in0\",\"addresses\":[\"0a:00:00:00:00:01 10.0.0.1\"]},{\"add\":\"switch_port\",\"name\":\"p2\",\"switch\":\"in0\",\"addresses\":[\"0a:00:00:00:00:02 10.0.0.2\"]},{\"add\":\"switch_port\",\"name\":\"w\",\"switch\":\"out0\",\"addresses\":[\"0a:00:00:00:01:09 172.16.0.9\"]},{\"add\":\"nat\",\"name\":\"n0\",\"router\":\"g0\",\"type\":\"snat\",\"external_ip\":\"172.16.0.254\",\"logical_ip\":\"10.0.0.0/24\"}]}
{\"bind\":{\"port\":\"p1\",\"chassis\":\"hv1\"}}
{\"bind\":{\"port\":\"p2\",\"chassis\":\"hv1\"}}
{\"bind\":{\"port\":\"w\",\"chassis\":\"hv1\"}}
{\"packet\":{\"port\":\"p1\",\"frame\":\"0a00000000fe0a000000000108004500001c000100004011c4b60a000001ac1000091388003500080000\"}}
{\"packet\":{\"port\":\"p2\",\"frame\":\"0a00000000fe0a000000000208004500001c000100004011c4b50a000002ac1000091388003500080000\"}}
{\"packet\":{\"port\":\"w\",\"frame\":\"0a00000001fe0a000000010908004500001c00010000401121a9ac100009ac1000fe0035040000080000\"}}
";

const SNAT_OUTPUT: &[u8] = b"1 ok walks=0
2 key datapath g0 1
2 key datapath in0 2
2 key datapath out0 3
2 key port ge 1
2 key port gi 2
2 key port in0-g 1
2 key port p1 2
2 key port p2 3
2 key port out0-g 1
2 key port w 2
2 ok walks=0
3 ok walks=0
4 ok walks=0
5 ok walks=0
6 out w 0a00000001090a00000001fe08004500001c000100003f1122a9ac1000feac1000091388003500080000
6 ok walks=44
7 pick port g0 1024
7 out w 0a00000001090a00000001fe08004500001c000100003f1122a9ac1000feac1000090400003500080000
7 ok walks=44
8 out p2 0a00000000020a00000000fe08004500001c000100003f11c5b5ac1000090a0000020035138800080000
8 ok walks=44
end events=8 accepted=8 refused=0 waiting=0
";

// What is for an address outside goes to a port behind the gateway router.
const DNAT: &[u8] = b"{\"chassis\":{\"add\":\"hv1\"}}
{\"edit\":[{\"add\":\"switch\",\"name\":\"in0\"},{\"add\":\"switch\",\"name\":\"out0\"},{\"add\":\"router\",\"name\":\"g0\",\"chassis\":\"hv1\"},{\"add\":\"router_port\",\"name\":\"gi\",\"router\":\"g0\",\"mac\":\"0a:00:00:00:00:fe\",\"networks\":[\"10.0.0.254/24\"]},{\"add\":\"router_port\",\"name\":\"ge\",\"router\":\"g0\",\"mac\":\"0a:00:00:00:01:fe\",\"networks\":[\"172.16.0.254/24\"]},{\"add\":\"switch_port\",\"name\":\"in0-g\",\"switch\":\"in0\",\"type\":\"router\",\"router_port\":\"gi\",\"addresses\":[\"router\"]},{\"add\":\"switch_port\",\"name\":\"out0-g\",\"switch\":\"out0\",\"type\":\"router\",\"router_port\":\"ge\",\"addresses\":[\"router\"]},{\"add\":\"switch_port\",\"name\":\"p1\",\"switch\":\"in0\",\"addresses\":[\"0a:00:00:00:00:01 10.0.0.1\"]},{\"add\":\"switch_port\",\"name\":\"p2\",\"switch\":\"in0\",\"addresses\":[\"0a:00:00:00:00:02 10.0.0.2\"]},{\"add\":\"switch_port\",\"name\":\"w\",\"switch\":\"out0\",\"addresses\":[\"0a:00:00:00:01:09 172.16.0.9\"]},{\"add\":\"nat\",\"name\":\"n0\",\"router\":\"g0\",\"type\":\"snat\",\"external_ip\":\"172.16.0.254\",\"logical_ip\":\"10.0.0.0/24\"}]}
{\"bind\":{\"port\":\"p1\",\"chassis\":\"hv1\"}}
{\"bind\":{\"port\":\"p2\",\"chassis\":\"hv1\"}}
{\"bind\":{\"port\":\"w\",\"chassis\":\"hv1\"}}
{\"edit\":[{\"add\":\"nat\",\"name\":\"n1\",\"router\":\"g0\",\"type\":\"dnat\",\"external_ip\":\"172.16.0.253\",\"logical_ip\":\"10.0.0.2\"}]}
{\"packet\":{\"port\":\"w\",\"frame\":\"0a00000001fe0a000000010908004500001c00010000401121aaac100009ac1000fd0035138800080000\"}}
";

const DNAT_OUTPUT: &[u8] = b"1 ok walks=0
2 key datapath g0 1
2 key datapath in0 2
2 key datapath out0 3
2 key port ge 1
2 key port gi 2
2 key port in0-g 1
2 key port p1 2
2 key port p2 3
2 key port out0-g 1
2 key port w 2
2 ok walks=0
3 ok walks=0
4 ok walks=0
5 ok walks=0
6 ok walks=0
7 out p2 0a00000000020a00000000fe08004500001c000100003f11c5b5ac1000090a0000020035138800080000
7 ok walks=44
end events=7 accepted=7 refused=0 waiting=0
";

// Two connections of a protocol without ports have one translation: the second has no port to pick, and drops.
const NO_FREE_PORT: &[u8] = b"{\"chassis\":{\"add\":\"hv1\"}}
{\"edit\":[{\"add\":\"switch\",\"name\":\"in0\"},{\"add\":\"switch\",\"name\":\"out0\"},{\"add\":\"router\",\"name\":\"g0\",\"chassis\":\"hv1\"},{\"add\":\"router_port\",\"name\":\"gi\",\"router\":\"g0\",\"mac\":\"0a:00:00:00:00:fe\",\"networks\":[\"10.0.0.254/24\"]},{\"add\":\"router_port\",\"name\":\"ge\",\"router\":\"g0\",\"mac\":\"0a:00:00:00:01:fe\",\"networks\":[\"172.16.0.254/24\"]},{\"add\":\"switch_port\",\"name\":\"in0-g\",\"switch\":\"in0\",\"type\":\"router\",\"router_port\":\"gi\",\"addresses\":[\"router\"]},{\"add\":\"switch_port\",\"name\":\"out0-g\",\"switch\":\"out0\",\"type\":\"router\",\"router_port\":\"ge\",\"addresses\":[\"router\"]},{\"add\":\"switch_port\",\"name\":\"p1\",\"switch\":\"in0\",\"addresses\":[\"0a:00:00:00:00:01 10.0.0.1\"]},{\"add\":\"switch_port\",\"name\":\"p2\",\"switch\":\"in0\",\"addresses\":[\"0a:00:00:00:00:02 10.0.0.2\"]},{\"add\":\"switch_port\",\"name\":\"w\",\"switch\":\"out0\",\"addresses\":[\"0a:00:00:00:01:09 172.16.0.9\"]},{\"add\":\"nat\",\"name\":\"n0\",\"router\":\"g0\",\"type\":\"snat\",\"external_ip\":\"172.16.0.254\",\"logical_ip\":\"10.0.0.0/24\"}]}
{\"bind\":{\"port\":\"p1\",\"chassis\":\"hv1\"}}
{\"bind\":{\"port\":\"p2\",\"chassis\":\"hv1\"}}
{\"bind\":{\"port\":\"w\",\"chassis\":\"hv1\"}}
{\"packet\":{\"port\":\"p1\",\"frame\":\"0a00000000fe0a000000000108004500001400010000402fc4a00a000001ac100009\"}}
{\"packet\":{\"port\":\"p2\",\"frame\":\"0a00000000fe0a000000000208004500001400010000402fc49f0a000002ac100009\"}}
";

const NO_FREE_PORT_OUTPUT: &[u8] = b"1 ok walks=0
2 key datapath g0 1
2 key datapath in0 2
2 key datapath out0 3
2 key port ge 1
2 key port gi 2
2 key port in0-g 1
2 key port p1 2
2 key port p2 3
2 key port out0-g 1
2 key port w 2
2 ok walks=0
3 ok walks=0
4 ok walks=0
5 ok walks=0
6 out w 0a00000001090a00000001fe080045000014000100003f2f2293ac1000feac100009
6 ok walks=44
7 drop g0 ge no-free-port
7 ok walks=28
end events=7 accepted=7 refused=0 waiting=0
";

// What each of these inputs is, with its output.
const TRANSLATED: [(&str, &[u8], &[u8]); 3] = [
    ("sources behind one address", SNAT, SNAT_OUTPUT),
    ("a destination behind an address", DNAT, DNAT_OUTPUT),
    (
        "a protocol without ports",
        NO_FREE_PORT,
        NO_FREE_PORT_OUTPUT,
    ),
];

#[test]
fn gateways_translate(rt: HostRuntime) -> Result<(), Fail> {
    for (what, events, output) in TRANSLATED {
        let events = Vec::from_slice(rt.alloc(), events)?;
        let (given, sink) = replayed(rt.alloc(), events, 2000)?;
        assert_eq!(rt; (given, sink.bytes()), (0, output), "at {what}");
    }
    Ok(())
}
