//! A balancer on a switch.
use super::replayed;
use std::test::Fail;

// Three ports and a balancer, with a virtual address of two backends and one of none: a new connection picks a backend, and its answer comes
// from the virtual address. Once the backend is listed no more, the connection goes on to it, and another one picks the one that is left. Behind the
// virtual address without backends nothing is reached; once the balancer serves the switch no more, that address is any other.
const BALANCED: &[u8] =
    b"{\"edit\":[{\"add\":\"switch\",\"name\":\"s0\"},{\"add\":\"switch_port\",\"name\":\"p1\",\"switch\":\"s0\",\"addresses\":[\"0a:00:00:00:00:01 10.0.0.1\"]},{\"add\":\"switch_port\",\"name\":\"p2\",\"switch\":\"s0\",\"addresses\":[\"0a:00:00:00:00:02 10.0.0.2\"]},{\"add\":\"switch_port\",\"name\":\"p3\",\"switch\":\"s0\",\"addresses\":[\"0a:00:00:00:00:03 10.0.0.3\"]},{\"add\":\"load_balancer\",\"name\":\"l\",\"protocol\":\"udp\",\"vips\":{\"10.0.0.9:80\":\"10.0.0.2:8080,10.0.0.3:8080\",\"10.0.0.9:81\":\"\"},\"switches\":[\"s0\"]}]}
{\"chassis\":{\"add\":\"hv1\"}}
{\"bind\":{\"port\":\"p1\",\"chassis\":\"hv1\"}}
{\"bind\":{\"port\":\"p2\",\"chassis\":\"hv1\"}}
{\"bind\":{\"port\":\"p3\",\"chassis\":\"hv1\"}}
{\"packet\":{\"port\":\"p1\",\"frame\":\"0a00000000020a000000000108004500001c00010000401166c70a0000010a000009138900500008d7fb\"}}
{\"packet\":{\"port\":\"p2\",\"frame\":\"0a00000000010a000000000208004500001c00020000401166cd0a0000020a0000011f9013890008b8c2\"}}
{\"edit\":[{\"set\":\"load_balancer\",\"name\":\"l\",\"vips\":{\"10.0.0.9:80\":\"10.0.0.3:8080\",\"10.0.0.9:81\":\"\"}}]}
{\"packet\":{\"port\":\"p1\",\"frame\":\"0a00000000020a000000000108004500001c00030000401166c50a0000010a000009138900500008d7fb\"}}
{\"packet\":{\"port\":\"p1\",\"frame\":\"0a00000000030a000000000108004500001c00040000401166c40a0000010a000009138b00500008d7f9\"}}
{\"packet\":{\"port\":\"p1\",\"frame\":\"0a00000000030a000000000108004500001c00050000401166c30a0000010a000009138900510008d7fa\"}}
{\"edit\":[{\"set\":\"load_balancer\",\"name\":\"l\",\"switches\":[]}]}
{\"packet\":{\"port\":\"p1\",\"frame\":\"0a00000000030a000000000108004500001c00060000401166c20a0000010a000009138900510008d7fa\"}}
";

const BALANCED_OUTPUT: &[u8] = b"1 key datapath s0 1
1 key port p1 1
1 key port p2 2
1 key port p3 3
1 ok walks=0
2 ok walks=0
3 ok walks=0
4 ok walks=0
5 ok walks=0
6 pick backend s0 10.0.0.9:80 10.0.0.2:8080
6 out p2 0a00000000020a000000000108004500001c00010000401166ce0a0000010a00000213891f900008b8c2
6 ok walks=16
7 out p1 0a00000000010a000000000208004500001c00020000401166c60a0000090a000001005013890008d7fb
7 ok walks=16
8 ok walks=0
9 out p2 0a00000000020a000000000108004500001c00030000401166cc0a0000010a00000213891f900008b8c2
9 ok walks=16
10 pick backend s0 10.0.0.9:80 10.0.0.3:8080
10 out p3 0a00000000030a000000000108004500001c00040000401166ca0a0000010a000003138b1f900008b8bf
10 ok walks=16
11 drop s0 p1 no-live-backend
11 ok walks=6
12 ok walks=0
13 out p3 0a00000000030a000000000108004500001c00060000401166c20a0000010a000009138900510008d7fa
13 ok walks=16
end events=13 accepted=13 refused=0 waiting=0
";

#[test]
fn a_balancer_spreads(rt: HostRuntime) -> Result<(), Fail> {
    let events = Vec::from_slice(rt.alloc(), BALANCED)?;
    let (given, sink) = replayed(rt.alloc(), events, 2000)?;
    assert_eq!(rt; (given, sink.bytes()), (0, BALANCED_OUTPUT));
    Ok(())
}

// The worked row `balancer`: with one backend offline a new connection picks the other, and with both it drops, while the first goes on. No backend
// is marked of a balancer that isn't there, and none that it doesn't list. One that is online again is picked again.
const MARKED: &[u8] = b"{\"edit\":[{\"add\":\"switch\",\"name\":\"s0\"}]}
{\"edit\":[{\"add\":\"switch_port\",\"name\":\"p1\",\"switch\":\"s0\",\"addresses\":[\"0a:00:00:00:00:01 10.0.0.1\"]}]}
{\"edit\":[{\"add\":\"switch_port\",\"name\":\"p2\",\"switch\":\"s0\",\"addresses\":[\"0a:00:00:00:00:02 10.0.0.2\"]}]}
{\"chassis\":{\"add\":\"hv1\"}}
{\"chassis\":{\"add\":\"hv2\"}}
{\"bind\":{\"port\":\"p1\",\"chassis\":\"hv1\"}}
{\"bind\":{\"port\":\"p2\",\"chassis\":\"hv2\"}}
{\"edit\":[{\"set\":\"switch_port\",\"name\":\"p2\",\"addresses\":[\"0a:00:00:00:00:02 10.0.0.2 10.0.0.3\"]}]}
{\"edit\":[{\"add\":\"load_balancer\",\"name\":\"lb\",\"vips\":{\"10.0.0.100:80\":\"10.0.0.2:8080,10.0.0.3:8080\"},\"switches\":[\"s0\"]}]}
{\"health\":{\"balancer\":\"lb\",\"backend\":\"10.0.0.3:8080\",\"online\":false}}
{\"packet\":{\"port\":\"p1\",\"frame\":\"0a00000000020a0000000001080045000028000100004006666b0a0000010a0000641388005000000000000000005002ffff87a60000\"}}
{\"health\":{\"balancer\":\"lb\",\"backend\":\"10.0.0.2:8080\",\"online\":false}}
{\"packet\":{\"port\":\"p1\",\"frame\":\"0a00000000020a0000000001080045000028000100004006666b0a0000010a0000641389005000000000000000005002ffff87a50000\"}}
{\"packet\":{\"port\":\"p1\",\"frame\":\"0a00000000020a0000000001080045000028000100004006666b0a0000010a0000641388005000000000000000005002ffff87a60000\"}}
{\"health\":{\"balancer\":\"none\",\"backend\":\"10.0.0.2:8080\",\"online\":false}}
{\"health\":{\"balancer\":\"lb\",\"backend\":\"10.0.0.4:8080\",\"online\":false}}
{\"health\":{\"balancer\":\"lb\",\"backend\":\"10.0.0.3:8080\",\"online\":true}}
{\"packet\":{\"port\":\"p1\",\"frame\":\"0a00000000020a0000000001080045000028000100004006666b0a0000010a0000641389005000000000000000005002ffff87a50000\"}}
";

const MARKED_OUTPUT: &[u8] = b"1 key datapath s0 1
1 ok walks=0
2 key port p1 1
2 ok walks=0
3 key port p2 2
3 ok walks=0
4 ok walks=0
5 ok walks=0
6 ok walks=0
7 ok walks=0
8 ok walks=0
9 ok walks=0
10 ok walks=0
11 pick backend s0 10.0.0.100:80 10.0.0.2:8080
11 tunnel 1 hv1 hv2 024065580000010001028001000100020a00000000020a000000000108004500002800010000400666cd0a0000010a00000213881f9000000000000000005002ffff68c80000
11 out p2 0a00000000020a000000000108004500002800010000400666cd0a0000010a00000213881f9000000000000000005002ffff68c80000
11 ok walks=17
12 ok walks=0
13 drop s0 p1 no-live-backend
13 ok walks=6
14 tunnel 2 hv1 hv2 024065580000010001028001000100020a00000000020a000000000108004500002800010000400666cd0a0000010a00000213881f9000000000000000005002ffff68c80000
14 out p2 0a00000000020a000000000108004500002800010000400666cd0a0000010a00000213881f9000000000000000005002ffff68c80000
14 ok walks=17
15 refused NoSuch none
16 refused NoSuch 10.0.0.4:8080
17 ok walks=0
18 pick backend s0 10.0.0.100:80 10.0.0.3:8080
18 tunnel 3 hv1 hv2 024065580000010001028001000100020a00000000020a000000000108004500002800010000400666cc0a0000010a00000313891f9000000000000000005002ffff68c60000
18 out p2 0a00000000020a000000000108004500002800010000400666cc0a0000010a00000313891f9000000000000000005002ffff68c60000
18 ok walks=17
end events=18 accepted=16 refused=2 waiting=0
";

#[test]
fn marks_decide_who_is_picked(rt: HostRuntime) -> Result<(), Fail> {
    let events = Vec::from_slice(rt.alloc(), MARKED)?;
    let (given, sink) = replayed(rt.alloc(), events, 2000)?;
    assert_eq!(rt; (given, sink.bytes()), (3, MARKED_OUTPUT));
    Ok(())
}
