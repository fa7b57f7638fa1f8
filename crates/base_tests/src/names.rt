//! Names, and texts that are none.

use ovn_base::name::Name;
use std::test::Fail;

#[test]
fn names_print_as_they_are(rt: HostRuntime) -> Result<(), Fail> {
    let name = Name::read(b"in0-g").expect(&rt, "a name");
    assert_eq!(rt; format!(in rt.alloc(); "{name}")?.as_str(), "in0-g");
    Ok(())
}

#[test]
fn names_have_1_to_64_bytes(rt: HostRuntime) {
    assert!(rt; Name::read(b"").is_none());
    assert!(rt; Name::read(b"7").is_some());
    assert!(rt; Name::read(&[b'a'; 64]).is_some());
    assert!(rt; Name::read(&[b'a'; 65]).is_none());
}

#[test]
fn names_have_few_bytes(rt: HostRuntime) {
    let names: [&[u8]; 3] = [b"p1", b"in0-g", b"A.b_c:9"];
    for text in names {
        assert!(rt; Name::read(text).is_some());
    }
    let others: [&[u8]; 3] = [b"in 0", b"in/0", b"p\xc3\xa9"];
    for text in others {
        assert!(rt; Name::read(text).is_none());
    }
}

#[test]
fn names_are_in_order_of_bytes(rt: HostRuntime) {
    let texts: [&[u8]; 4] = [b"P2", b"p1", b"p10", b"p2"];
    let names = texts.map(Name::read);
    assert!(rt; names.is_sorted());
    assert!(rt; names[1] == Name::read(b"p1"));
    assert!(rt; names[1] != names[2]);
}
