//! Widths of matches, and how many records there may be, each at its edge.

use crate::lines::{answer, answers, edit, name};
use match_language::expr::Expr;
use match_language::field::Direction;
use nb_records::record::Record;
use nb_records::records::Records;
use nb_records::rule::{Acl, RuleAction};
use nb_records::switch::{PortKind, Switch, SwitchPort};
use nb_rules::addresses::{LOOPBACK, NO_UNICAST, THIS_NETWORK};
use ovn_base::address::{Birth, Cidr, Ip4};
use ovn_base::limits::{
    MAX_ACLS, MAX_ARRIVALS, MAX_CHASSIS, MAX_CONNECTIONS, MAX_DATAPATHS, MAX_DEPTH, MAX_FRAME,
    MAX_HOPS, MAX_INPUT, MAX_LINE, MAX_OPERATIONS, MAX_PORTS, MAX_WAITING, MAX_WIDTH, MIN_FRAME,
};
use ovn_base::list::List;
use ovn_base::memory::NoMemory;
use ovn_base::name::Name;
use std::alloc::Global;
use std::test::Fail;

// Two switches, with a port of each in a group.
const GROUP: &str =
    r#"{"add":"switch","name":"s0"},{"add":"switch","name":"s1"},{"add":"switch_port","name":"p0","switch":"s0"},{"add":"switch_port","name":"p1","switch":"s1"},{"add":"port_group","name":"vms","ports":["p0","p1","p0"]}"#;

// A match, and what is told of a rule that has it on one switch.
const WIDTHS: [(&str, &str); 4] = [
    ("tcp.src != {1, 2} && tcp.dst != {1, 2}", "ok"),
    (
        "ip4.src != {10.0.0.1, 10.0.0.2, 10.0.0.3} && tcp.dst >= 1024",
        "TooWide 196608",
    ),
    ("eth.src != {1, 2, 3}", "TooWide 110592"),
    (
        "eth.src != {1,2,3,4,5,6,7,8,9,10,11,12,13,14,15,16,17,18,19,20,21,22,23}",
        "TooWide 340282366920938463463374607431768211455",
    ),
];

// What is told of a rule with the match.
fn told_of(alloc: Global, matching: &str) -> Result<String, NoMemory> {
    let rule = format!(in alloc;
        r#"{{"add":"acl","name":"a","switch":"s0","direction":"to-lport","priority":1,"match":"{matching}","action":"drop"}}"#
    )?;
    answer(alloc, GROUP, rule.as_str())
}

#[test]
fn a_match_has_a_greatest_width(rt: HostRuntime) -> Result<(), Fail> {
    for (matching, wanted) in WIDTHS {
        let told = told_of(rt.alloc(), matching)?;
        assert_eq!(rt; told.as_str(), wanted, "{matching}");
    }
    Ok(())
}

// The two switches with the group.
fn group(alloc: Global) -> Result<Records, NoMemory> {
    let mut records = Records::new(alloc)?;
    edit(alloc, &mut records, GROUP, 1)?;
    Ok(records)
}

// The rule is 32,768 wide on each of two switches; one without width counts as 1.
#[test]
fn cubes_are_summed_over_switches(rt: HostRuntime) -> Result<(), Fail> {
    let full =
        r#"{"add":"acl","name":"a","port_group":"vms","direction":"to-lport","priority":1,"match":"ip4.src != {1, 2, 3}","action":"drop"}"#;
    let more =
        r#"{"add":"acl","name":"b","switch":"s0","direction":"to-lport","priority":1,"match":"0","action":"drop"}"#;
    let told = answers(rt.alloc(), group(rt.alloc()), full, more)?;
    assert_eq!(rt; told.as_str(), "ok, Limit cubes");
    Ok(())
}

// ---- records by number

fn numbered(alloc: Global, kind: &str, number: u32) -> Result<Name, NoMemory> {
    let text = format!(in alloc; "{kind}{number}")?;
    name(text.as_str())
}

fn switch(alloc: Global, number: u32) -> Result<Record, NoMemory> {
    Ok(Record::Switch(Switch {
        name: numbered(alloc, "s", number)?,
        birth: Birth(1),
    }))
}

fn port(alloc: Global, number: u32) -> Result<Record, NoMemory> {
    Ok(Record::SwitchPort(SwitchPort {
        name: numbered(alloc, "p", number)?,
        birth: Birth(1),
        switch: name("s0")?,
        kind: PortKind::Virtual,
        router_port: None,
        addresses: List::new(alloc),
        port_security: List::new(alloc),
        enabled: true,
    }))
}

// A rule of one switch for all packets.
fn rule(alloc: Global, number: u32) -> Result<Record, NoMemory> {
    Ok(Record::Acl(Acl {
        name: numbered(alloc, "a", number)?,
        birth: Birth(1),
        switch: Some(name("s0")?),
        port_group: None,
        direction: Direction::ToLport,
        priority: 1,
        matching: Expr::Const(true),
        action: RuleAction::Drop,
    }))
}

fn add_switches(alloc: Global, records: &mut Records, count: u32) -> Result<(), NoMemory> {
    for number in 0..count {
        records.put(switch(alloc, number)?)?;
    }
    Ok(())
}

fn add_ports(alloc: Global, records: &mut Records, count: u32) -> Result<(), NoMemory> {
    for number in 0..count {
        records.put(port(alloc, number)?)?;
    }
    Ok(())
}

fn add_rules(alloc: Global, records: &mut Records, count: u32) -> Result<(), NoMemory> {
    for number in 0..count {
        records.put(rule(alloc, number)?)?;
    }
    Ok(())
}

// So many switches, of which s0 has so many ports and rules.
fn network(alloc: Global, switches: u32, ports: u32, rules: u32) -> Result<Records, NoMemory> {
    let mut records = Records::new(alloc)?;
    add_all(alloc, &mut records, switches, ports, rules)?;
    Ok(records)
}

fn add_all(
    alloc: Global,
    records: &mut Records,
    switches: u32,
    ports: u32,
    rules: u32,
) -> Result<(), NoMemory> {
    add_switches(alloc, records, switches)?;
    add_ports(alloc, records, ports)?;
    add_rules(alloc, records, rules)
}

// Both kinds of datapaths count, and both kinds of ports.
#[test]
fn datapaths_have_a_limit(rt: HostRuntime) -> Result<(), Fail> {
    let records = network(rt.alloc(), 1023, 0, 0);
    let last = r#"{"add":"router","name":"r0"}"#;
    let more = r#"{"add":"router","name":"r1"}"#;
    let told = answers(rt.alloc(), records, last, more)?;
    assert_eq!(rt; told.as_str(), "ok, Limit datapath");
    Ok(())
}

#[test]
fn ports_have_a_limit(rt: HostRuntime) -> Result<(), Fail> {
    let records = network(rt.alloc(), 1, 9999, 0);
    let last =
        r#"{"add":"router","name":"r0"},{"add":"router_port","name":"rp1","router":"r0","mac":"0a:00:00:00:01:fe","networks":["10.0.0.254/24"]}"#;
    let more = r#"{"add":"switch_port","name":"one","switch":"s0"}"#;
    let told = answers(rt.alloc(), records, last, more)?;
    assert_eq!(rt; told.as_str(), "ok, Limit port");
    Ok(())
}

#[test]
fn rules_have_a_limit(rt: HostRuntime) -> Result<(), Fail> {
    let records = network(rt.alloc(), 1, 0, 16383);
    let last =
        r#"{"add":"acl","name":"one","switch":"s0","direction":"from-lport","priority":1,"match":"1","action":"allow"}"#;
    let more =
        r#"{"add":"acl","name":"two","switch":"s0","direction":"from-lport","priority":1,"match":"1","action":"allow"}"#;
    let told = answers(rt.alloc(), records, last, more)?;
    assert_eq!(rt; told.as_str(), "ok, Limit acl");
    Ok(())
}

// The limits are those of the description.
#[test]
fn limits_are_as_described(rt: HostRuntime) -> Result<(), Fail> {
    assert_eq!(rt;
        (MAX_DATAPATHS, MAX_PORTS, MAX_CHASSIS, MAX_ACLS),
        (1024, 10000, 64, 16384)
    );
    assert_eq!(rt;
        (MAX_OPERATIONS, MAX_WAITING, MAX_ARRIVALS, MAX_CONNECTIONS),
        (64, 65536, 65536, 65536)
    );
    assert_eq!(rt; (MAX_HOPS, MAX_DEPTH, MAX_WIDTH), (64, 64, 65536));
    assert_eq!(rt; (MAX_LINE, MAX_INPUT), (1048576, 1099511627776));
    assert_eq!(rt; (MIN_FRAME, MAX_FRAME), (14, 9216));
    Ok(())
}

// No address of a router or a neighbour lies in 0.0.0.0/8, 127.0.0.0/8 or 224.0.0.0/3.
#[test]
fn special_ranges_are_as_described(rt: HostRuntime) -> Result<(), Fail> {
    assert!(rt;
        THIS_NETWORK
            == Cidr {
                addr: Ip4(0),
                len: 8
            }
    );
    assert!(rt;
        LOOPBACK
            == Cidr {
                addr: Ip4(2130706432),
                len: 8
            }
    );
    assert!(rt;
        NO_UNICAST
            == Cidr {
                addr: Ip4(3758096384),
                len: 3
            }
    );
    Ok(())
}
