//! Connections that begin, answer, clash and end.
use crate::tracker::{Told, Tracker};
use crate::tuples::{ONE, THREE, TWO, tuple};
use conn_table::tuple::{Protocol, Tuple};
use ovn_base::limits::MAX_CONNECTIONS;
use std::alloc::Global;
use std::test::*;

// A tuple of packets of the protocol from 10.0.0.1 to 10.0.0.2.
fn of(protocol: Protocol) -> Tuple {
    match protocol {
        Protocol::Tcp => tuple((protocol, ONE, 40000, TWO, 443)),
        Protocol::Udp => tuple((protocol, ONE, 5000, TWO, 53)),
        Protocol::EchoRequest | Protocol::EchoReply => tuple((protocol, ONE, 7, TWO, 7)),
        Protocol::Other(_) => tuple((protocol, ONE, 0, TWO, 0)),
    }
}

// What a list says of a tuple and of its reverse before a connection of the tuple begins, and then of both again.
fn both_ways(alloc: Global, forward: Tuple) -> Result<[Told; 5], Fail> {
    let mut list = Tracker::new(alloc).ok().ok_or("there is memory")?;
    let back = forward.reversed();
    let first = list.find(Some(&forward));
    let second = list.find(Some(&back));
    let begun = list.begin(forward, back, 0);
    Ok([
        first,
        second,
        begun,
        list.find(Some(&forward)),
        list.find(Some(&back)),
    ])
}

#[test]
fn connections_go_both_ways(rt: HostRuntime) -> Result<(), Fail> {
    let known = [
        (Protocol::Udp, Told::New),
        (Protocol::Tcp, Told::New),
        (Protocol::EchoRequest, Told::Invalid),
        (Protocol::Other(47), Told::New),
    ];
    for (protocol, back) in known {
        let wanted = [Told::New, back, Told::Added, Told::Forward, Told::Reply];
        assert_eq!(rt; both_ways(rt.alloc(), of(protocol))?, wanted);
    }
    // nobody asked for an echo reply, and nothing begins with it
    let wanted = [
        Told::Invalid,
        Told::New,
        Told::Unfit,
        Told::Invalid,
        Told::New,
    ];
    assert_eq!(rt; both_ways(rt.alloc(), of(Protocol::EchoReply))?, wanted);
    Ok(())
}

// Whether a connection that was used last at 100 is there at another time.
fn is_there(alloc: Global, protocol: Protocol, now: u64) -> Result<bool, Fail> {
    let mut list = Tracker::new(alloc).ok().ok_or("there is memory")?;
    let forward = of(protocol);
    let begun = list.begin(forward, forward.reversed(), 100);
    list.expire(now);
    Ok(begun == Told::Added && list.find(Some(&forward)) == Told::Forward)
}

#[test]
fn idle_connections_end(rt: HostRuntime) -> Result<(), Fail> {
    let known = [
        (Protocol::Tcp, 300),
        (Protocol::Udp, 60),
        (Protocol::EchoRequest, 30),
        (Protocol::Other(47), 30),
        (Protocol::Other(6), 30),
    ];
    for (protocol, seconds) in known {
        assert!(rt; is_there(rt.alloc(), protocol, 0)?);
        assert!(rt; is_there(rt.alloc(), protocol, 99 + seconds)?);
        assert!(rt; !is_there(rt.alloc(), protocol, 100 + seconds)?);
    }
    Ok(())
}

// What a list says of a UDP tuple at 159, 160 and 209 whose connection began at 100 and was blocked, and was used or not at 150.
fn used_and_blocked(alloc: Global, used: bool) -> Result<[Told; 3], Fail> {
    let mut list = Tracker::new(alloc).ok().ok_or("there is memory")?;
    let forward = of(Protocol::Udp);
    let back = forward.reversed();
    list.begin(forward, back, 100);
    if used {
        list.touch(&back, 150);
    }
    list.block(&forward);
    if !list.is_blocked(&back) {
        return Ok([Told::Unfit; 3]);
    }
    list.expire(159);
    let first = list.find(Some(&forward));
    list.expire(160);
    let second = list.find(Some(&forward));
    list.expire(209);
    Ok([first, second, list.find(Some(&forward))])
}

#[test]
fn blocks_are_no_use(rt: HostRuntime) -> Result<(), Fail> {
    let idle = [Told::Forward, Told::New, Told::New];
    assert_eq!(rt; used_and_blocked(rt.alloc(), false)?, idle);
    assert_eq!(rt; used_and_blocked(rt.alloc(), true)?, [Told::Forward; 3]);
    Ok(())
}

// What becomes of a connection of the second pair of tuples, where one of the first is there.
fn beside(alloc: Global, first: (Tuple, Tuple), second: (Tuple, Tuple)) -> Result<Told, Fail> {
    let mut list = Tracker::new(alloc).ok().ok_or("there is memory")?;
    list.begin(first.0, first.1, 0);
    Ok(list.begin(second.0, second.1, 0))
}

#[test]
fn taken_answers_clash(rt: HostRuntime) -> Result<(), Fail> {
    let udp = Protocol::Udp;
    let first = tuple((udp, ONE, 5000, THREE, 53));
    let answer = tuple((udp, THREE, 53, TWO, 1024));
    let other = tuple((udp, TWO, 5000, THREE, 53));
    // another's answers, another's packets, and none of both
    assert_eq!(rt;
        beside(rt.alloc(), (first, answer), (other, answer))?,
        Told::Clash
    );
    assert_eq!(rt;
        beside(rt.alloc(), (first, answer), (other, first))?,
        Told::Clash
    );
    assert_eq!(rt;
        beside(
            rt.alloc(),
            (first, answer),
            (other, tuple((udp, THREE, 53, TWO, 1025)))
        )?,
        Told::Added
    );
    // nothing begins with what is there
    assert_eq!(rt;
        beside(rt.alloc(), (first, answer), (answer, other))?,
        Told::Unfit
    );
    Ok(())
}

#[test]
fn lists_are_full(rt: HostRuntime) -> Result<(), Fail> {
    let mut list = Tracker::new(rt.alloc()).ok().ok_or("there is memory")?;
    // there are as many ports as a list has entries
    let mut all = true;
    for port in 0..=u16::MAX {
        let forward = tuple((Protocol::Udp, ONE, port, TWO, 53));
        all &= list.begin(forward, forward.reversed(), 0) == Told::Added;
    }
    let more = of(Protocol::Tcp);
    let told = [
        list.begin(more, more.reversed(), 0),
        list.begin(more, tuple((Protocol::Tcp, TWO, 443, ONE, 40001)), 0),
    ];
    assert!(rt; all);
    assert_eq!(rt; MAX_CONNECTIONS, 65_536);
    assert_eq!(rt; told, [Told::Full; 2]);
    list.clear();
    assert_eq!(rt; list.begin(more, more.reversed(), 0), Told::Added);
    Ok(())
}
