//! Each rule by smallest networks that break it, beside some that don't.

use crate::lines::{Row, differing_rule};
use std::test::Fail;

// ---- what is there before

const SWITCH: &str = r#"{"add":"switch","name":"s0"}"#;

const PORT: &str =
    r#"{"add":"switch","name":"s0"},{"add":"switch_port","name":"p1","switch":"s0"}"#;

// A distributed router on a network, beside a switch without ports.
const ROUTER: &str =
    r#"{"add":"switch","name":"s0"},{"add":"router","name":"r0"},{"add":"router_port","name":"rp1","router":"r0","mac":"0a:00:00:00:01:fe","networks":["10.0.0.254/24"]}"#;

// The same, and the router is on the switch.
const ON_SWITCH: &str =
    r#"{"add":"switch","name":"s0"},{"add":"router","name":"r0"},{"add":"router_port","name":"rp1","router":"r0","mac":"0a:00:00:00:01:fe","networks":["10.0.0.254/24"]},{"add":"switch_port","name":"sr","switch":"s0","type":"router","router_port":"rp1","addresses":["router"]}"#;

// A gateway router on the network.
const GATEWAY: &str =
    r#"{"add":"switch","name":"s0"},{"add":"router","name":"g0","chassis":"hv1"},{"add":"router_port","name":"gp1","router":"g0","mac":"0a:00:00:00:02:fe","networks":["172.16.0.254/24"]}"#;

// ---- rules

// Names in a match are references by `$` and `@` alone. A name that the edit removed and that is there again is not missing, and
// one of another kind is not the one that it removed.
const REFERENCES: [Row; 8] = [
    (
        SWITCH,
        r#"{"add":"switch_port","name":"p1","switch":"s1"}"#,
        "NoSuch s1",
    ),
    (
        SWITCH,
        r#"{"add":"acl","name":"a","switch":"s0","direction":"to-lport","priority":1,"match":"!(inport == @vms || ip4.src == $nets)","action":"drop"}"#,
        "NoSuch vms",
    ),
    (
        SWITCH,
        r#"{"add":"acl","name":"a","switch":"s0","direction":"to-lport","priority":1,"match":"inport == \"p9\"","action":"drop"}"#,
        "ok",
    ),
    (PORT, r#"{"remove":"switch","name":"s0"}"#, "StillUsed p1"),
    (
        PORT,
        r#"{"remove":"switch","name":"s0"},{"add":"route","name":"d","router":"r9","prefix":"0.0.0.0/0","nexthop":"10.0.0.1"}"#,
        "NoSuch r9",
    ),
    (
        PORT,
        r#"{"remove":"switch","name":"s0"},{"add":"switch","name":"s0"}"#,
        "ok",
    ),
    (
        r#"{"add":"router","name":"x"}"#,
        r#"{"remove":"router","name":"x"},{"add":"switch_port","name":"p1","switch":"x"}"#,
        "NoSuch x",
    ),
    (
        ON_SWITCH,
        r#"{"remove":"router_port","name":"rp1"}"#,
        "StillUsed sr",
    ),
];

const ADDRESSES: [Row; 11] = [
    (
        SWITCH,
        r#"{"add":"switch_port","name":"p1","switch":"s0","addresses":["01:00:5e:00:00:01"]}"#,
        "BadAddress p1",
    ),
    (
        SWITCH,
        r#"{"add":"switch_port","name":"p1","switch":"s0","port_security":["00:00:00:00:00:00"]}"#,
        "BadAddress p1",
    ),
    (
        SWITCH,
        r#"{"add":"switch_port","name":"p1","switch":"s0","port_security":["0a:00:00:00:00:01 10.0.0.1/24"]}"#,
        "BadAddress p1",
    ),
    (
        SWITCH,
        r#"{"add":"switch_port","name":"p1","switch":"s0","addresses":["router"]}"#,
        "BadAddress p1",
    ),
    (
        ON_SWITCH,
        r#"{"set":"switch_port","name":"sr","addresses":["0a:00:00:00:01:fe 10.0.0.254"]}"#,
        "BadAddress sr",
    ),
    (
        SWITCH,
        r#"{"add":"address_set","name":"nets","addresses":["10.0.0.0/24","0a:00:00:00:00:01"]}"#,
        "BadAddress nets",
    ),
    (
        SWITCH,
        r#"{"add":"address_set","name":"nets","addresses":["10.0.0.1/24"]}"#,
        "BadAddress nets",
    ),
    (
        ROUTER,
        r#"{"add":"route","name":"d","router":"r0","prefix":"10.1.0.1/16","nexthop":"10.0.0.1"}"#,
        "BadAddress d",
    ),
    (
        GATEWAY,
        r#"{"add":"nat","name":"n","router":"g0","type":"dnat","external_ip":"172.16.0.1","logical_ip":"10.0.0.0/24"}"#,
        "BadAddress n",
    ),
    (
        ROUTER,
        r#"{"set":"router_port","name":"rp1","networks":["10.0.0.254/24","127.0.0.1/8"]}"#,
        "BadAddress rp1",
    ),
    (
        ROUTER,
        r#"{"set":"router_port","name":"rp1","networks":["10.0.0.254/24","223.255.255.255/8"]}"#,
        "ok",
    ),
];

// The port that has the field `peer` is named, or the one that has two partners.
const PEERS: [Row; 6] = [
    (
        ROUTER,
        r#"{"set":"router_port","name":"rp1","peer":"rp1"}"#,
        "BadPeer rp1",
    ),
    (
        ROUTER,
        r#"{"add":"router_port","name":"rp2","router":"r0","mac":"0a:00:00:00:02:fe","networks":["10.0.1.254/24"],"peer":"rp1"}"#,
        "BadPeer rp2",
    ),
    (
        ROUTER,
        r#"{"add":"router","name":"g0","chassis":"hv1"},{"add":"router_port","name":"rp2","router":"g0","mac":"0a:00:00:00:02:fe","networks":["10.0.1.254/24"],"peer":"rp1"}"#,
        "BadPeer rp2",
    ),
    (
        ON_SWITCH,
        r#"{"add":"switch","name":"s1"},{"add":"switch_port","name":"sq","switch":"s1","type":"router","router_port":"rp1"}"#,
        "BadPeer rp1",
    ),
    (
        ON_SWITCH,
        r#"{"add":"router","name":"r1"},{"add":"router_port","name":"rp2","router":"r1","mac":"0a:00:00:00:02:fe","networks":["10.0.1.254/24"],"peer":"rp1"}"#,
        "BadPeer rp1",
    ),
    (
        ROUTER,
        r#"{"add":"router","name":"r1"},{"add":"router_port","name":"rp2","router":"r1","mac":"0a:00:00:00:02:fe","networks":["10.0.1.254/24"],"peer":"rp1"},{"set":"router_port","name":"rp1","peer":"rp2"}"#,
        "ok",
    ),
];

// The second holder is named: a port, a router port, or a datapath. Of its addresses the least.
const HOLDERS: [Row; 14] = [
    (
        SWITCH,
        r#"{"add":"switch_port","name":"p2","switch":"s0","addresses":["0a:00:00:00:00:02","0a:00:00:00:00:01"]},{"add":"switch_port","name":"p1","switch":"s0","addresses":["0a:00:00:00:00:02","0a:00:00:00:00:01"]}"#,
        "DuplicateAddress 0a:00:00:00:00:01 p2",
    ),
    (
        SWITCH,
        r#"{"add":"switch_port","name":"p1","switch":"s0","addresses":["0a:00:00:00:00:01 10.0.0.1"]},{"add":"switch_port","name":"p2","switch":"s0","addresses":["0a:00:00:00:00:02 10.0.0.1"]}"#,
        "DuplicateAddress 10.0.0.1 p2",
    ),
    (
        ON_SWITCH,
        r#"{"add":"switch_port","name":"p1","switch":"s0","addresses":["0a:00:00:00:00:01 10.0.0.254"]}"#,
        "DuplicateAddress 10.0.0.254 sr",
    ),
    (
        ON_SWITCH,
        r#"{"add":"switch_port","name":"vm","switch":"s0","addresses":["0a:00:00:00:01:fe"]}"#,
        "DuplicateAddress 0a:00:00:00:01:fe vm",
    ),
    (
        ROUTER,
        r#"{"add":"router_port","name":"rp0","router":"r0","mac":"0a:00:00:00:02:fe","networks":["10.0.0.254/16"]}"#,
        "DuplicateAddress 10.0.0.254 rp1",
    ),
    (
        ROUTER,
        r#"{"set":"router_port","name":"rp1","networks":["10.0.0.254/24","10.0.0.254/16"]}"#,
        "DuplicateAddress 10.0.0.254 rp1",
    ),
    (
        SWITCH,
        r#"{"add":"load_balancer","name":"b1","vips":{"10.0.0.50:80":""},"switches":["s0"]},{"add":"load_balancer","name":"b2","vips":{"10.0.0.50:80":""},"switches":["s0"]}"#,
        "DuplicateAddress 10.0.0.50 s0",
    ),
    (
        SWITCH,
        r#"{"add":"load_balancer","name":"b1","vips":{"10.0.0.50:80":""},"switches":["s0"]},{"add":"load_balancer","name":"b2","protocol":"udp","vips":{"10.0.0.50:80":""},"switches":["s0"]}"#,
        "ok",
    ),
    (
        SWITCH,
        r#"{"add":"switch","name":"s1"},{"add":"switch_port","name":"p1","switch":"s0","addresses":["0a:00:00:00:00:01 10.0.0.1"]},{"add":"switch_port","name":"p2","switch":"s1","addresses":["0a:00:00:00:00:01 10.0.0.1"]}"#,
        "ok",
    ),
    (
        SWITCH,
        r#"{"add":"switch_port","name":"p1","switch":"s0","addresses":["0a:00:00:00:00:01 10.0.0.1","0a:00:00:00:00:01 10.0.0.1"]}"#,
        "ok",
    ),
    (
        GATEWAY,
        r#"{"add":"switch_port","name":"sr","switch":"s0","type":"router","router_port":"gp1","addresses":["router"]},{"add":"load_balancer","name":"b","vips":{"172.16.0.50:80":"","10.9.9.9:80":""},"routers":["g0"]},{"add":"switch_port","name":"zz","switch":"s0","addresses":["0a:00:00:00:00:01 172.16.0.50"]}"#,
        "DuplicateAddress 172.16.0.50 zz",
    ),
    (
        GATEWAY,
        r#"{"add":"switch_port","name":"sr","switch":"s0","type":"router","router_port":"gp1","addresses":["router"]},{"add":"load_balancer","name":"b","vips":{"172.16.0.50:80":"","10.9.9.9:80":""},"routers":["g0"]},{"add":"switch_port","name":"zz","switch":"s0","addresses":["0a:00:00:00:00:01 10.9.9.9"]}"#,
        "ok",
    ),
    (
        GATEWAY,
        r#"{"add":"switch_port","name":"sr","switch":"s0","type":"router","router_port":"gp1","addresses":["router"]},{"add":"nat","name":"n","router":"g0","type":"dnat_and_snat","external_ip":"172.16.0.60","logical_ip":"10.0.0.2"},{"add":"switch_port","name":"p1","switch":"s0","addresses":["0a:00:00:00:00:01 172.16.0.60"]}"#,
        "DuplicateAddress 172.16.0.60 sr",
    ),
    (
        ROUTER,
        r#"{"add":"static_mac","name":"m1","port":"rp1","ip":"10.0.0.9","mac":"0a:00:00:00:00:01"},{"add":"static_mac","name":"m2","port":"rp1","ip":"10.0.0.9","mac":"0a:00:00:00:00:02"}"#,
        "DuplicateAddress 10.0.0.9 rp1",
    ),
];

const PREFIXES: [Row; 5] = [
    (
        ROUTER,
        r#"{"add":"router_port","name":"rp2","router":"r0","mac":"0a:00:00:00:02:fe","networks":["10.0.0.253/24"]}"#,
        "DuplicatePrefix rp2",
    ),
    (
        ROUTER,
        r#"{"add":"route","name":"d2","router":"r0","prefix":"0.0.0.0/0","nexthop":"10.0.0.1"},{"add":"route","name":"d1","router":"r0","prefix":"0.0.0.0/0","nexthop":"10.0.0.2"}"#,
        "DuplicatePrefix d2",
    ),
    (
        GATEWAY,
        r#"{"add":"nat","name":"n1","router":"g0","type":"snat","external_ip":"172.16.0.1","logical_ip":"10.0.0.1"},{"add":"nat","name":"n2","router":"g0","type":"dnat_and_snat","external_ip":"172.16.0.2","logical_ip":"10.0.0.1"}"#,
        "DuplicatePrefix n2",
    ),
    (
        GATEWAY,
        r#"{"add":"nat","name":"n1","router":"g0","type":"dnat","external_ip":"172.16.0.1","logical_ip":"10.0.0.1"},{"add":"nat","name":"n2","router":"g0","type":"dnat_and_snat","external_ip":"172.16.0.1","logical_ip":"10.0.0.2"}"#,
        "DuplicatePrefix n2",
    ),
    (
        GATEWAY,
        r#"{"add":"nat","name":"n1","router":"g0","type":"dnat","external_ip":"172.16.0.1","logical_ip":"10.0.0.1"},{"add":"nat","name":"n2","router":"g0","type":"snat","external_ip":"172.16.0.1","logical_ip":"10.0.0.1"}"#,
        "ok",
    ),
];

const ROUTERS: [Row; 4] = [
    (
        ROUTER,
        r#"{"add":"route","name":"d","router":"r0","prefix":"0.0.0.0/0","nexthop":"10.0.1.1"}"#,
        "NoNetworkForNexthop d",
    ),
    (
        ROUTER,
        r#"{"add":"route","name":"d","router":"r0","prefix":"0.0.0.0/0","nexthop":"10.0.0.1"}"#,
        "ok",
    ),
    (
        ROUTER,
        r#"{"add":"nat","name":"n","router":"r0","type":"snat","external_ip":"10.0.0.254","logical_ip":"10.0.0.0/24"}"#,
        "NatNeedsChassis n",
    ),
    (
        ROUTER,
        r#"{"add":"load_balancer","name":"b","vips":{},"routers":["r0"]}"#,
        "NatNeedsChassis b",
    ),
];

// Where two rules are broken, the earlier one is told, wherever its record stands.
const TWO_RULES: [Row; 2] = [
    (
        ROUTER,
        r#"{"set":"router_port","name":"rp1","peer":"rp1"},{"add":"static_mac","name":"m","port":"rp1","ip":"10.0.0.9","mac":"ff:ff:ff:ff:ff:ff"}"#,
        "BadAddress m",
    ),
    (
        ROUTER,
        r#"{"add":"router_port","name":"rp0","router":"r0","mac":"0a:00:00:00:02:fe","networks":["10.0.0.253/24"],"peer":"rp1"}"#,
        "BadPeer rp0",
    ),
];

#[test]
fn who_is_named_is_there(rt: HostRuntime) -> Result<(), Fail> {
    assert_eq!(rt; differing_rule(rt.alloc(), &REFERENCES)?.as_str(), "");
    Ok(())
}

#[test]
fn addresses_stand_where_they_can(rt: HostRuntime) -> Result<(), Fail> {
    assert_eq!(rt; differing_rule(rt.alloc(), &ADDRESSES)?.as_str(), "");
    Ok(())
}

#[test]
fn a_router_port_has_one_partner_of_another_router(rt: HostRuntime) -> Result<(), Fail> {
    assert_eq!(rt; differing_rule(rt.alloc(), &PEERS)?.as_str(), "");
    Ok(())
}

#[test]
fn no_two_hold_an_address(rt: HostRuntime) -> Result<(), Fail> {
    assert_eq!(rt; differing_rule(rt.alloc(), &HOLDERS)?.as_str(), "");
    Ok(())
}

#[test]
fn no_two_have_a_prefix(rt: HostRuntime) -> Result<(), Fail> {
    assert_eq!(rt; differing_rule(rt.alloc(), &PREFIXES)?.as_str(), "");
    Ok(())
}

#[test]
fn next_hops_are_near_and_gateways_translate(rt: HostRuntime) -> Result<(), Fail> {
    assert_eq!(rt; differing_rule(rt.alloc(), &ROUTERS)?.as_str(), "");
    Ok(())
}

#[test]
fn the_first_rule_is_told(rt: HostRuntime) -> Result<(), Fail> {
    assert_eq!(rt; differing_rule(rt.alloc(), &TWO_RULES)?.as_str(), "");
    Ok(())
}
