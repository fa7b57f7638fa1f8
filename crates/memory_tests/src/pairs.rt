//! The pairs of rows and datapaths that edits of a switch and its ports bring and take, as the tables of stages write them.
use crate::compiler::{Compiler, Turn};
use ovn_base::list::Bytes;
use ovn_base::memory::NoMemory;
use std::alloc::Global;
use std::test::Fail;

const SWITCH: &str =
    r#"{"edit":[{"add":"switch","name":"s0"},{"add":"switch_port","name":"p1","switch":"s0","addresses":["0a:00:00:00:00:01 10.0.0.1"]},{"add":"switch_port","name":"p2","switch":"s0","addresses":["0a:00:00:00:00:02 10.0.0.2"]}]}"#;

// The rows of the two ports, and two of the switch.
const LINES: [&str; 8] = [
    "ingress s_arp priority=100 rank=0 datapaths=s0 match=inport == \"p1\" && arp.op == 1 && arp.tpa == 10.0.0.1 actions=go 14\n",
    "ingress s_arp priority=50 rank=0 datapaths=s0 match=arp.op == 1 && arp.tpa == 10.0.0.1 actions=arp_reply 0a:00:00:00:00:01 10.0.0.1;set out=in;set loopback=1;go 32\n",
    "ingress s_lookup priority=50 rank=0 datapaths=s0 match=eth.dst == 0a:00:00:00:00:01 actions=set out=p1;go 32\n",
    "ingress s_arp priority=100 rank=0 datapaths=s0 match=inport == \"p2\" && arp.op == 1 && arp.tpa == 10.0.0.2 actions=go 14\n",
    "ingress s_arp priority=50 rank=0 datapaths=s0 match=arp.op == 1 && arp.tpa == 10.0.0.2 actions=arp_reply 0a:00:00:00:00:02 10.0.0.2;set out=in;set loopback=1;go 32\n",
    "ingress s_lookup priority=50 rank=0 datapaths=s0 match=eth.dst == 0a:00:00:00:00:02 actions=set out=p2;go 32\n",
    "ingress s_lookup priority=0 rank=0 datapaths=s0 match=1 actions=drop unknown-address\n",
    "egress s_sec_out priority=0 rank=0 datapaths=s0 match=1 actions=go 64\n",
];

// Whether each of the lines is there.
fn have(lines: &[Bytes], wanted: &[&str]) -> bool {
    for line in wanted {
        if !has(lines, line) {
            return false;
        }
    }
    true
}

fn has(lines: &[Bytes], wanted: &str) -> bool {
    for line in lines {
        if line.as_slice() == wanted.as_bytes() {
            return true;
        }
    }
    false
}

// What the second edit brings and takes.
fn second(alloc: Global, line: &str) -> Result<Turn, NoMemory> {
    let mut compiler = Compiler::new(alloc)?;
    compiler.turn(SWITCH, 1)?;
    compiler.turn(line, 2)
}

// A switch that isn't stateful has 8 rows before the rules and 15 that decide by verdict and connection, 3 of ARP and look-up,
// and 2 and 15 and 1 of egress; each port has two of ARP and one of look-up.
#[test]
fn a_switch_and_its_ports_come(rt: HostRuntime) -> Result<(), Fail> {
    let turn = Compiler::new(rt.alloc())?.turn(SWITCH, 1)?;
    assert_eq!(rt;
        (turn.come.len(), turn.gone.len(), turn.flows_come),
        (48, 0, 48)
    );
    assert!(rt; have(turn.come.as_slice(), &LINES));
    Ok(())
}

// The pair of the look-up stays, as the Ethernet address does.
#[test]
fn an_address_changes(rt: HostRuntime) -> Result<(), Fail> {
    let turn = second(
        rt.alloc(),
        r#"{"edit":[{"set":"switch_port","name":"p1","addresses":["0a:00:00:00:00:01 10.0.0.9"]}]}"#,
    )?;
    let come = [
        "ingress s_arp priority=100 rank=0 datapaths=s0 match=inport == \"p1\" && arp.op == 1 && arp.tpa == 10.0.0.9 actions=go 14\n",
        "ingress s_arp priority=50 rank=0 datapaths=s0 match=arp.op == 1 && arp.tpa == 10.0.0.9 actions=arp_reply 0a:00:00:00:00:01 10.0.0.9;set out=in;set loopback=1;go 32\n",
    ];
    assert!(rt; turn.come.len() == 2 && have(turn.come.as_slice(), &come));
    assert!(rt; turn.gone.len() == 2 && have(turn.gone.as_slice(), &[LINES[0], LINES[1]]));
    Ok(())
}

// A rule that drops stands at 1000 above its priority, and before all others of that.
#[test]
fn a_rule_comes(rt: HostRuntime) -> Result<(), Fail> {
    let turn = second(
        rt.alloc(),
        r#"{"edit":[{"add":"acl","name":"a","switch":"s0","direction":"from-lport","priority":1000,"match":"ip4","action":"drop"}]}"#,
    )?;
    let come =
        "ingress s_acl_in priority=2000 rank=6 datapaths=s0 match=ip4 actions=set verdict=5;go 12\n";
    assert!(rt; turn.come.len() == 1 && has(turn.come.as_slice(), come));
    assert!(rt; turn.gone.is_empty());
    Ok(())
}

// The other switch's rows are flows that are there, on a datapath of its own.
#[test]
fn two_switches_have_the_same_flows(rt: HostRuntime) -> Result<(), Fail> {
    let turn = second(rt.alloc(), r#"{"edit":[{"add":"switch","name":"s1"}]}"#)?;
    assert_eq!(rt; (turn.come.len(), turn.gone.len()), (42, 0));
    assert_eq!(rt; (turn.flows_come, turn.flows_gone), (0, 0));
    Ok(())
}

// Beside its port a router has 16 rows; the port has two of admission, one of ARP, one that answers echo requests, one that drops what is for
// the router and one of its network; it reaches both ports of the switch; and the port to the router has two of look-up.
#[test]
fn a_router_comes(rt: HostRuntime) -> Result<(), Fail> {
    let turn = second(
        rt.alloc(),
        r#"{"edit":[{"add":"router","name":"r0"},{"add":"router_port","name":"r0s","router":"r0","mac":"0a:00:00:00:00:fe","networks":["10.0.0.254/24"]},{"add":"switch_port","name":"s0r","switch":"s0","type":"router","router_port":"r0s","addresses":["router"]}]}"#,
    )?;
    let come = [
        "ingress r_route priority=149 rank=0 datapaths=r0 match=ip4.dst == 10.0.0.0/24 actions=dec_ttl;next_dst;set out=r0s;eth_src 0a:00:00:00:00:fe;set loopback=1;go 14\n",
        "ingress r_neighbour priority=100 rank=0 datapaths=r0 match=next == 167772161 && outport == \"r0s\" actions=eth_dst 0a:00:00:00:00:01;go 32\n",
        "ingress r_neighbour priority=100 rank=0 datapaths=r0 match=next == 167772162 && outport == \"r0s\" actions=eth_dst 0a:00:00:00:00:02;go 32\n",
        "ingress s_lookup priority=50 rank=0 datapaths=s0 match=eth.dst == 0a:00:00:00:00:fe actions=set out=s0r;go 32\n",
    ];
    assert!(rt; turn.come.len() == 26 && have(turn.come.as_slice(), &come));
    assert!(rt; turn.gone.is_empty());
    Ok(())
}

// With a balancer its switch tracks connections: each port has a row more on the way in and on the way out.
#[test]
fn a_balancer_comes(rt: HostRuntime) -> Result<(), Fail> {
    let turn = second(
        rt.alloc(),
        r#"{"edit":[{"add":"load_balancer","name":"b","vips":{"10.0.0.100:80":"10.0.0.2:8080"},"switches":["s0"]}]}"#,
    )?;
    let come =
        "ingress s_state_in priority=55 rank=0 datapaths=s0 match=state == 1 && tracked == 1 && tcp && ip4.dst == 10.0.0.100 && tcp.dst == 80 actions=balance in 10.0.0.100:80 [10.0.0.2:8080];go 13\n";
    assert!(rt; turn.come.len() == 5 && has(turn.come.as_slice(), come));
    assert!(rt; turn.gone.is_empty());
    Ok(())
}
