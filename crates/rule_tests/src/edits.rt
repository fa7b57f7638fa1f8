//! Edits of several operations, all or none.

use crate::lines::{Row, differing, edit, name, planned};
use nb_edits::edit::apply;
use nb_edits::plan::EditPlan;
use nb_records::records::Records;
use ovn_base::address::{Backend, Birth, Ip4};
use ovn_base::memory::NoMemory;
use std::alloc::Global;
use std::test::Fail;
use tunnel_keys::owner::KeyOwner;

const PORT: &str =
    r#"{"add":"switch","name":"s0"},{"add":"switch_port","name":"p1","switch":"s0"}"#;

const RULE: &str =
    r#"{"add":"switch","name":"s0"},{"add":"acl","name":"a","switch":"s0","direction":"from-lport","priority":1,"match":"tcp","action":"drop"}"#;

fn after(alloc: Global, ops: &str) -> Result<Records, NoMemory> {
    let mut records = Records::new(alloc)?;
    edit(alloc, &mut records, ops, 1)?;
    Ok(records)
}

const REFUSED: &str =
    r#"{"add":"switch","name":"s1"},{"set":"switch_port","name":"p1","enabled":false},{"remove":"acl","name":"zz"}"#;

// Whether the switch s1 isn't there, and the port p1 is enabled.
fn is_as_it_was(records: &Records) -> Result<bool, NoMemory> {
    let (s1, p1) = (name("s1")?, name("p1")?);
    let is_enabled = records.switch_port(&p1).is_some_and(|port| port.enabled);
    Ok(records.switch(&s1).is_none() && is_enabled)
}

// What is told of the refused edit, and whether it left the records as they were.
fn refused(alloc: Global) -> Result<(String, bool), NoMemory> {
    let mut records = after(alloc, PORT)?;
    let told = edit(alloc, &mut records, REFUSED, 2)?;
    let is_as_it_was = is_as_it_was(&records)?;
    Ok((told, is_as_it_was))
}

// The third operation is refused, so the first two aren't done.
#[test]
fn a_refused_edit_changes_nothing(rt: HostRuntime) -> Result<(), Fail> {
    let (told, is_as_it_was) = refused(rt.alloc())?;
    assert_eq!(rt; (told.as_str(), is_as_it_was), ("NoSuch zz", true));
    Ok(())
}

// The first operation that has a fault is told, before all rules on records.
const OPERATIONS: [Row; 7] = [
    (PORT, r#"{"add":"router","name":"s0"}"#, "DuplicateName s0"),
    (
        PORT,
        r#"{"add":"router","name":"r0"},{"add":"router_port","name":"p1","router":"r0","mac":"0a:00:00:00:01:fe","networks":["10.0.0.254/24"]}"#,
        "DuplicateName p1",
    ),
    (
        PORT,
        r#"{"add":"port_group","name":"p1","ports":["p1"]}"#,
        "ok",
    ),
    (
        PORT,
        r#"{"remove":"switch","name":"s0"},{"set":"router","name":"s0"}"#,
        "NoSuch s0",
    ),
    (
        PORT,
        r#"{"set":"acl","name":"zz","priority":2},{"add":"switch","name":"s0"}"#,
        "NoSuch zz",
    ),
    (
        RULE,
        r#"{"set":"acl","name":"a","match":"ip4 && !(outport == \"p1\")"}"#,
        "BadDirection a",
    ),
    (
        RULE,
        r#"{"set":"acl","name":"a","match":"inport == \"p1\""}"#,
        "ok",
    ),
];

#[test]
fn the_first_operation_with_a_fault_is_told(rt: HostRuntime) -> Result<(), Fail> {
    assert_eq!(rt; differing(rt.alloc(), &OPERATIONS)?.as_str(), "");
    Ok(())
}

// The port `p1` of the switch `s0`, of that birth.
fn owner(birth: u64) -> Result<KeyOwner, NoMemory> {
    Ok(KeyOwner::Port {
        datapath: name("s0")?,
        name: name("p1")?,
        birth: Birth(birth),
    })
}

// Whether the plan has the port of the first event go, and that of the second come.
fn replaces_port(plan: &EditPlan) -> Result<bool, NoMemory> {
    let (old, new) = (owner(1)?, owner(2)?);
    Ok(plan.removed() == [old].as_slice() && plan.added() == [new].as_slice())
}

// Whether the port is of the second event.
fn is_of_second_birth(records: &Records) -> Result<bool, NoMemory> {
    let p1 = name("p1")?;
    Ok(
        records
            .switch_port(&p1)
            .is_some_and(|port| port.birth == Birth(2)),
    )
}

const AGAIN: &str =
    r#"{"remove":"switch_port","name":"p1"},{"add":"switch_port","name":"p1","switch":"s0"}"#;

// Whether it is so of the plan, and of the records where it was applied.
fn is_another(alloc: Global) -> Result<bool, NoMemory> {
    let mut records = after(alloc, PORT)?;
    let Ok(plan) = planned(alloc, &mut records, AGAIN, 2)? else {
        return Ok(false);
    };
    let is_planned = replaces_port(&plan)?;
    apply(&mut records, plan);
    Ok(is_planned && is_of_second_birth(&records)?)
}

// The port that is added is another than the one that is removed; the switch stays.
#[test]
fn a_name_that_is_removed_and_added_is_of_another_birth(rt: HostRuntime) -> Result<(), Fail> {
    assert!(rt; is_another(rt.alloc())?);
    Ok(())
}

// ---- marks

const BALANCER: &str =
    r#"{"add":"load_balancer","name":"b","vips":{"10.0.0.50:80":"10.0.0.1:8080,10.0.0.2:8080"}}"#;

const SERVER: Backend = Backend {
    ip: Ip4(0x0a000002),
    port: 8080,
};

// Whether the server is online behind the edit, where it was marked offline before.
fn online_after(alloc: Global, ops: &str) -> Result<bool, NoMemory> {
    let b = name("b")?;
    let mut records = after(alloc, BALANCER)?;
    records.mark(&b, SERVER, false)?;
    edit(alloc, &mut records, ops, 2)?;
    Ok(records.is_online(&b, SERVER))
}

// Operations act one after another: a backend that is taken out and put back in one edit has lost its mark.
#[test]
fn a_mark_goes_with_its_backend(rt: HostRuntime) -> Result<(), Fail> {
    let alloc = rt.alloc();
    let moved = r#"{"set":"load_balancer","name":"b","vips":{"10.0.0.51:80":"10.0.0.2:8080"}}"#;
    let back =
        r#"{"set":"load_balancer","name":"b","vips":{}},{"set":"load_balancer","name":"b","vips":{"10.0.0.50:80":"10.0.0.2:8080"}}"#;
    assert!(rt; !online_after(alloc, moved)?);
    assert!(rt; online_after(alloc, back)?);
    Ok(())
}
