//! Ports that are picked beside those that connections hold.
use crate::tracker::{Told, Tracker};
use crate::tuples::{ONE, THREE, TWO, tuple};
use conn_table::tuple::{Protocol, Tuple};
use std::test::*;

// What port 53 of 10.0.0.2 answers to the port of 10.0.0.3.
fn answer(port: u16) -> Tuple {
    tuple((Protocol::Udp, TWO, 53, THREE, port))
}

// A connection of 10.0.0.1 to port 53 of 10.0.0.2 begins, and its answers come back to the port of 10.0.0.3.
fn hold(list: &mut Tracker, port: u16, now: u64) -> bool {
    let forward = tuple((Protocol::Udp, ONE, port, TWO, 53));
    list.begin(forward, answer(port), now) == Told::Added
}

#[test]
fn the_least_free_port_is_picked(rt: HostRuntime) -> Result<(), Fail> {
    let mut list = Tracker::new(rt.alloc()).ok().ok_or("there is memory")?;
    let back = answer(5000);
    assert_eq!(rt; list.pick(&back), Some(1024));
    let mut all = true;
    for port in 1024..=1030 {
        // one of them ends first
        let now = if port == 1026 { 0 } else { 30 };
        all &= hold(&mut list, port, now);
    }
    assert!(rt; all);
    assert_eq!(rt; list.pick(&back), Some(1031));
    assert_eq!(rt; list.pick(&back), Some(1031));
    list.expire(60);
    assert_eq!(rt; list.pick(&back), Some(1026));
    assert!(rt; hold(&mut list, 1026, 60));
    assert_eq!(rt; list.pick(&back), Some(1031));
    list.clear();
    assert_eq!(rt; list.pick(&back), Some(1024));
    Ok(())
}

#[test]
fn the_least_free_identifier_is_picked(rt: HostRuntime) -> Result<(), Fail> {
    let mut list = Tracker::new(rt.alloc()).ok().ok_or("there is memory")?;
    let mut all = true;
    for ident in 1024..=1025 {
        let forward = tuple((Protocol::EchoRequest, ONE, ident, TWO, ident));
        let back = tuple((Protocol::EchoReply, TWO, ident, THREE, ident));
        all &= list.begin(forward, back, 0) == Told::Added;
    }
    assert!(rt; all);
    // as answers, and as what others begin
    let back = tuple((Protocol::EchoReply, TWO, 7, THREE, 7));
    assert_eq!(rt; list.pick(&back), Some(1026));
    let ahead = tuple((Protocol::EchoRequest, ONE, 1024, TWO, 7));
    assert_eq!(rt; list.pick(&ahead), Some(1025));
    list.expire(30);
    assert_eq!(rt; list.pick(&back), Some(1024));
    assert_eq!(rt; list.pick(&ahead), Some(1024));
    Ok(())
}

#[test]
fn many_ports_are_held(rt: HostRuntime) -> Result<(), Fail> {
    let mut list = Tracker::new(rt.alloc()).ok().ok_or("there is memory")?;
    let mut all = true;
    for port in 1024..=1800 {
        let now = if port == 1300 { 0 } else { 30 };
        all &= hold(&mut list, port, now);
    }
    assert!(rt; all);
    let back = answer(5000);
    assert_eq!(rt; list.pick(&back), Some(1801));
    list.expire(60);
    assert_eq!(rt; list.pick(&back), Some(1300));
    assert!(rt; hold(&mut list, 1300, 60));
    assert_eq!(rt; list.pick(&back), Some(1801));
    Ok(())
}

#[test]
fn all_ports_are_held(rt: HostRuntime) -> Result<(), Fail> {
    let mut list = Tracker::new(rt.alloc()).ok().ok_or("there is memory")?;
    let mut all = true;
    for port in 1024..=65_534 {
        all &= hold(&mut list, port, 30);
    }
    assert!(rt; all);
    let back = answer(80);
    assert_eq!(rt; list.pick(&back), Some(65_535));
    assert!(rt; hold(&mut list, 65_535, 0));
    assert_eq!(rt; list.pick(&back), None);
    list.expire(60);
    assert_eq!(rt; list.pick(&back), Some(65_535));
    Ok(())
}
