use crate::register::Register;
use conn_zones::change::HomeChange;
use conn_zones::numbers::MAX_ZONE;
use ovn_base::list::List;
use ovn_base::memory::NoMemory;
use ovn_base::name::Name;
use std::alloc::Global;
use std::test::Fail;

// Who comes to which chassis, or leaves all.
type Homes = &'static [(&'static str, Option<&'static str>)];

// The homes of ports and of gateway routers change.
#[derive(Clone, Copy)]
struct Change {
    ports: Homes,
    routers: Homes,
}

fn name(text: &str) -> Result<Name, NoMemory> {
    Name::read(text.as_bytes()).ok_or(NoMemory)
}

fn chassis(home: Option<&str>) -> Result<Option<Name>, NoMemory> {
    match home {
        Some(text) => Ok(Some(name(text)?)),
        None => Ok(None),
    }
}

// Those who have the new homes.
fn named(alloc: Global, homes: Homes) -> Result<List<(Name, Option<Name>)>, NoMemory> {
    let mut list = List::new(alloc);
    for (text, home) in homes {
        list.push((name(text)?, chassis(*home)?))?;
    }
    Ok(list)
}

fn turn(alloc: Global, register: &mut Register, change: Change) -> Result<bool, NoMemory> {
    let change = HomeChange {
        ports: named(alloc, change.ports)?,
        routers: named(alloc, change.routers)?,
    };
    register.turn(&change)
}

fn turn_each(alloc: Global, register: &mut Register, changes: &[Change]) -> Result<(), NoMemory> {
    for change in changes {
        if !turn(alloc, register, *change)? {
            return Err(NoMemory);
        }
    }
    Ok(())
}

// What is known after the changes, each of which is one of few names.
fn after(alloc: Global, changes: &[Change]) -> Result<Register, NoMemory> {
    let mut register = Register::new(alloc)?;
    turn_each(alloc, &mut register, changes)?;
    Ok(register)
}

// The numbers on a chassis: of the ports p1, p2 and p3, and the DNAT and the SNAT number of the gateway routers g0 and g1.
#[derive(Clone, Copy, PartialEq, Debug)]
struct Numbers {
    ports: [Option<u16>; 3],
    g0: [Option<u16>; 2],
    g1: [Option<u16>; 2],
}

fn ports_on(register: &Register, chassis: &Name) -> Result<[Option<u16>; 3], NoMemory> {
    let numbers = register.numbers();
    Ok([
        numbers.port(chassis, &name("p1")?),
        numbers.port(chassis, &name("p2")?),
        numbers.port(chassis, &name("p3")?),
    ])
}

fn router_on(
    register: &Register,
    chassis: &Name,
    router: &str,
) -> Result<[Option<u16>; 2], NoMemory> {
    let router = name(router)?;
    let numbers = register.numbers();
    Ok([
        numbers.dnat(chassis, &router),
        numbers.snat(chassis, &router),
    ])
}

fn numbers_on(register: &Register, chassis: &str) -> Result<Numbers, NoMemory> {
    let chassis = name(chassis)?;
    Ok(Numbers {
        ports: ports_on(register, &chassis)?,
        g0: router_on(register, &chassis, "g0")?,
        g1: router_on(register, &chassis, "g1")?,
    })
}

// The numbers on the chassis after the changes.
fn numbers_after(alloc: Global, changes: &[Change], chassis: &str) -> Result<Numbers, NoMemory> {
    let register = after(alloc, changes)?;
    numbers_on(&register, chassis)
}

const OUT_OF_ORDER: Change = Change {
    ports: &[("p2", Some("hv1")), ("p1", Some("hv1"))],
    routers: &[("g1", Some("hv1")), ("g0", Some("hv1"))],
};

// Ports come first in order of name, then routers, DNAT before SNAT, whatever the order in which they are named.
#[test]
fn who_comes_takes_the_least_numbers_in_order(rt: HostRuntime) -> Result<(), Fail> {
    let wanted = Numbers {
        ports: [Some(1), Some(2), None],
        g0: [Some(3), Some(4)],
        g1: [Some(5), Some(6)],
    };
    assert_eq!(rt; numbers_after(rt.alloc(), &[OUT_OF_ORDER], "hv1")?, wanted);
    Ok(())
}

// Two ports, and a gateway router, on two chassis.
const ON_TWO_CHASSIS: Change = Change {
    ports: &[("p1", Some("hv1")), ("p2", Some("hv2"))],
    routers: &[("g0", Some("hv2"))],
};

// The homes of p1 and g0 after the changes.
fn homes(alloc: Global, changes: &[Change]) -> Result<(Option<Name>, Option<Name>), NoMemory> {
    let (p1, g0) = (name("p1")?, name("g0")?);
    let register = after(alloc, changes)?;
    let homes = register.homes();
    Ok((homes.port(&p1).copied(), homes.router(&g0).copied()))
}

#[test]
fn homes_are_as_they_were_changed(rt: HostRuntime) -> Result<(), Fail> {
    let wanted = (chassis(Some("hv1"))?, chassis(Some("hv2"))?);
    assert_eq!(rt; homes(rt.alloc(), &[ON_TWO_CHASSIS])?, wanted);
    Ok(())
}

// Each chassis has numbers of its own, from 1 on.
#[test]
fn numbers_are_of_one_chassis(rt: HostRuntime) -> Result<(), Fail> {
    let on_hv1 = Numbers {
        ports: [Some(1), None, None],
        g0: [None, None],
        g1: [None, None],
    };
    let on_hv2 = Numbers {
        ports: [None, Some(1), None],
        g0: [Some(2), Some(3)],
        g1: [None, None],
    };
    assert_eq!(rt;
        numbers_after(rt.alloc(), &[ON_TWO_CHASSIS], "hv1")?,
        on_hv1
    );
    assert_eq!(rt;
        numbers_after(rt.alloc(), &[ON_TWO_CHASSIS], "hv2")?,
        on_hv2
    );
    Ok(())
}

const FIRST_TWO: Change = Change {
    ports: &[("p1", Some("hv1")), ("p2", Some("hv1"))],
    routers: &[],
};

const THIRD_FOR_FIRST: Change = Change {
    ports: &[("p1", None), ("p3", Some("hv1"))],
    routers: &[],
};

// The numbers of the three ports on hv1 after the changes.
fn ports(alloc: Global, changes: &[Change]) -> Result<[Option<u16>; 3], NoMemory> {
    Ok(numbers_after(alloc, changes, "hv1")?.ports)
}

// A number that is given up in a change is free for who comes in it; who stays keeps its number, named or not.
#[test]
fn who_stays_keeps_the_number(rt: HostRuntime) -> Result<(), Fail> {
    let given_up = ports(rt.alloc(), &[FIRST_TWO, THIRD_FOR_FIRST])?;
    let back = ports(rt.alloc(), &[FIRST_TWO, THIRD_FOR_FIRST, FIRST_TWO])?;
    assert_eq!(rt;
        (given_up, back),
        ([None, Some(2), Some(1)], [Some(3), Some(2), Some(1)])
    );
    Ok(())
}

// The numbers of g0 on hv1 after the changes.
fn g0(alloc: Global, changes: &[Change]) -> Result<[Option<u16>; 2], NoMemory> {
    Ok(numbers_after(alloc, changes, "hv1")?.g0)
}

const PORTS_AND_ROUTER: Change = Change {
    ports: &[("p1", Some("hv1")), ("p2", Some("hv1"))],
    routers: &[("g0", Some("hv1"))],
};

const ROUTER_AGAIN: Change = Change {
    ports: &[("p1", None)],
    routers: &[("g0", Some("hv1"))],
};

// A gateway router of another birth gives up the numbers of the one before it, and comes.
#[test]
fn a_router_of_another_birth_comes(rt: HostRuntime) -> Result<(), Fail> {
    let first = g0(rt.alloc(), &[PORTS_AND_ROUTER])?;
    let second = g0(rt.alloc(), &[PORTS_AND_ROUTER, ROUTER_AGAIN])?;
    assert_eq!(rt; (first, second), ([Some(3), Some(4)], [Some(1), Some(3)]));
    Ok(())
}

// Zones have 16 bits, as Linux numbers them.
#[test]
fn zones_have_sixteen_bits(rt: HostRuntime) -> Result<(), Fail> {
    assert_eq!(rt; MAX_ZONE, 65535);
    Ok(())
}
