//! What is held, and what comes and goes.
ghost use Rattle.std.specs.Prelude.{◌≡◌, false, IfOk};
ghost use Rattle.std.specs.Ordering.{eq_by_cmp, nat_cmp};
ghost use Rattle.flow_refs.specs.Origins.{IsEachOnce};

use flow_refs::shared::Shared;
use ovn_base::delta::Delta;
use ovn_base::list::List;
use ovn_base::memory::NoMemory;
use std::alloc::Global;
use std::test::Fail;

// One origin with its flows.
fn one(alloc: Global, origin: u8, flows: &[u16]) -> Result<List<(u8, List<u16>)>, NoMemory>
    ensures { IfOk result (IsEachOnce nat_cmp) }
{
    let flows = List::from_slice(alloc, flows)?;
    let mut changes = List::new(alloc);
    changes.push((origin, flows))?;
    Ok(changes)
}

// Two origins with their flows.
fn two(
    alloc: Global,
    first: u8,
    flows: &[u16],
    second: u8,
    others: &[u16],
) -> Result<List<(u8, List<u16>)>, NoMemory>
    requires { eq_by_cmp nat_cmp first second ≡ false }
    ensures { IfOk result (IsEachOnce nat_cmp) }
{
    let flows = List::from_slice(alloc, flows)?;
    let others = List::from_slice(alloc, others)?;
    let mut changes = List::new(alloc);
    changes.push((first, flows))?;
    changes.push((second, others))?;
    Ok(changes)
}

// Changes the flows of one origin.
fn set(
    alloc: Global,
    store: &mut Shared<u16, u8>,
    origin: u8,
    flows: &[u16],
) -> Result<Delta<u16>, NoMemory> {
    let changes = one(alloc, origin, flows)?;
    let patch = store.prepare(changes)?;
    Ok(store.apply(patch))
}

// The store in which origin 1 has the flows 5 and 7, and origin 2 has 7.
fn sharing(alloc: Global) -> Result<Shared<u16, u8>, NoMemory> {
    let mut store: Shared<u16, u8> = Shared::new(alloc)?;
    let changes = two(alloc, 1, &[5, 7, 5], 2, &[7])?;
    let patch = store.prepare(changes)?;
    store.apply(patch);
    Ok(store)
}

#[test]
fn delta_repeats_nothing(rt: HostRuntime) -> Result<(), Fail> {
    let alloc = rt.alloc();
    let mut store: Shared<u16, u8> = Shared::new(alloc)?;
    let changes = two(alloc, 1, &[5, 7, 5], 2, &[7])?;
    let patch = store.prepare(changes)?;
    assert!(rt; !store.holds(&7));
    assert_eq!(rt; patch.delta().added.as_slice(), [5, 7].as_slice());
    assert!(rt; patch.delta().removed.is_empty());
    Ok(())
}

#[test]
fn counts_origins(rt: HostRuntime) -> Result<(), Fail> {
    let store = sharing(rt.alloc())?;
    assert_eq!(rt; store.count(&5), 1);
    assert_eq!(rt; store.count(&7), 2);
    assert_eq!(rt; store.flow(0), Some(&5));
    assert_eq!(rt; store.flow(1), Some(&7));
    assert_eq!(rt; store.flow(2), None);
    store.counts_hold();
    Ok(())
}

#[test]
fn flow_stays_until_no_origin_has_it(rt: HostRuntime) -> Result<(), Fail> {
    let alloc = rt.alloc();
    let mut store = sharing(alloc)?;
    let first = set(alloc, &mut store, 1, &[])?;
    assert_eq!(rt; first.removed.as_slice(), [5].as_slice());
    assert!(rt; store.holds(&7));
    let second = set(alloc, &mut store, 2, &[9])?;
    assert_eq!(rt; second.removed.as_slice(), [7].as_slice());
    assert_eq!(rt; second.added.as_slice(), [9].as_slice());
    assert!(rt; !store.holds(&7));
    Ok(())
}
