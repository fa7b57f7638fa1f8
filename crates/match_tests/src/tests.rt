//! What is read of each row's text is what the row says.
use crate::tables;
use match_language::fault::ParseFault;
use match_language::field::Direction;
use match_language::printer::print;
use match_language::reader::parse;
use std::alloc::Global;
use std::test::Fail;

// The text that is printed of what the text spells, or its fault.
fn answer(alloc: Global, text: &[u8], way: Direction) -> Result<Vec<u8>, Fail> {
    let mut out = Vec::new(alloc);
    match parse(alloc, text, way) {
        Ok(expr) => print(&expr, &mut out)?,
        Err(ParseFault::Bad(fault)) => {
            out.extend_from_slice(format!(in alloc; "{fault:?}")?.as_bytes())?;
        }
        Err(fault) => return Err(fault.into()),
    }
    Ok(out)
}

// Whether the row's text is answered as the row says.
fn is_right(alloc: Global, row: &str, way: Direction) -> Result<bool, Fail> {
    let Some((text, wanted)) = row.split_once(" ~ ") else {
        return Ok(false);
    };
    Ok(answer(alloc, text.as_bytes(), way)?.as_slice() == wanted.as_bytes())
}

#[test]
fn to_lport_rules_are_read(rt: HostRuntime) -> Result<(), Fail> {
    let tables = [
        tables::ETHERNET,
        tables::IPV4,
        tables::TRANSPORT,
        tables::ARP,
        tables::PORTS,
        tables::TERMS,
        tables::FAULTS,
        tables::CONSTANTS,
    ];
    for table in tables {
        for row in table.split('\n') {
            let right = is_right(rt.alloc(), row, Direction::ToLport)?;
            assert!(rt; right, "at {row}");
        }
    }
    Ok(())
}

#[test]
fn from_lport_rules_are_read(rt: HostRuntime) -> Result<(), Fail> {
    for row in tables::FROM_LPORT.split('\n') {
        let right = is_right(rt.alloc(), row, Direction::FromLport)?;
        assert!(rt; right, "at {row}");
    }
    Ok(())
}

#[test]
fn levels_are_64(rt: HostRuntime) -> Result<(), Fail> {
    let mut text = Vec::new(rt.alloc());
    for _ in 0..64u8 {
        text.push(b'!')?;
    }
    text.extend_from_slice(b"ip4")?;
    let printed = answer(rt.alloc(), text.as_slice(), Direction::FromLport)?;
    assert_eq!(rt; printed.as_slice(), text.as_slice());
    text.insert(0, b'!')?;
    let fault = answer(rt.alloc(), text.as_slice(), Direction::FromLport)?;
    assert_eq!(rt; fault.as_slice(), b"TooDeep(64)".as_slice());
    Ok(())
}
