//! Lists, and values that hold some.

use ovn_base::boxed::Boxed;
use ovn_base::counted::Counted;
use ovn_base::list::{Bytes, List};
use std::test::Fail;

/// A small value of two parts.
#[derive(Debug, Clone, PartialEq, Eq, PartialOrd, Ord, Hash, Drop)]
struct Point {
    x: u16,
    y: List<u8>,
}

#[test]
fn keeps_numbers_in_order(rt: HostRuntime) -> Result<(), Fail> {
    let mut list: List<u16> = List::new(rt.alloc());
    list.push(5)?;
    list.extend_from_slice(&[7, 9, 11])?;
    list.append(List::from_slice(rt.alloc(), &[13])?)?;
    assert!(rt; list.as_slice() == [5, 7, 9, 11, 13].as_slice());
    assert_eq!(rt;
        format!(in rt.alloc(); "{list:?}")?.as_str(),
        "[5, 7, 9, 11, 13]"
    );
    Ok(())
}

#[test]
fn gives_numbers_up(rt: HostRuntime) -> Result<(), Fail> {
    let mut list: List<u16> = List::from_slice(rt.alloc(), &[5, 7, 9, 11, 13])?;
    assert_eq!(rt; list.swap_remove(1), 7);
    assert_eq!(rt; list.remove(0), 5);
    assert!(rt; list.as_slice() == [13, 9, 11].as_slice());
    Ok(())
}

#[test]
fn copies_values_with_lists_in_them(rt: HostRuntime) -> Result<(), Fail> {
    let y: Bytes = List::from_slice(rt.alloc(), &[1, 2])?;
    let point = Boxed::new(rt.alloc(), Point { x: 1, y })?;
    let copy = point.copy()?;
    assert!(rt; copy == point);
    assert!(rt; copy.into_inner() == point.into_inner());
    Ok(())
}

#[test]
fn a_shared_value_outlives_its_first_owner(rt: HostRuntime) -> Result<(), Fail> {
    let y: Bytes = List::from_slice(rt.alloc(), &[1, 2])?;
    let point = Counted::new(rt.alloc(), Point { x: 1, y })?;
    let copy = point.share()?;
    let clone = copy.clone()?;
    assert!(rt; copy == point);
    drop(point);
    assert_eq!(rt; clone.get().y.as_slice(), [1, 2].as_slice());
    Ok(())
}
