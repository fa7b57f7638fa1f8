//! What is read of each row's line is what the row says.
use crate::tables;
use edit_reader::event::{ReadError, ReadRefusal};
use edit_reader::read::read_event;
use std::alloc::Global;
use std::str;
use std::test::Fail;

// A fault, with the name of its field.
fn fault_text(alloc: Global, fault: &ReadRefusal) -> Result<String, Fail> {
    let (word, name) = match fault {
        ReadRefusal::UnknownField(name) => ("UnknownField", name),
        ReadRefusal::MissingField(name) => ("MissingField", name),
        ReadRefusal::WrongKind(name) => ("WrongKind", name),
        ReadRefusal::OutOfRange(name) => ("OutOfRange", name),
        ReadRefusal::BadMatch(fault) => return Ok(format!(in alloc; "BadMatch {fault:?}")?),
        fault => return Ok(format!(in alloc; "{fault:?}")?),
    };
    let name = str::from_utf8(name.as_slice())?;
    Ok(format!(in alloc; "{word} {name}")?)
}

// The line's fault, or `ok`.
fn verdict(alloc: Global, line: &[u8]) -> Result<String, Fail> {
    match read_event(alloc, line) {
        Ok(_) => Ok(format!(in alloc; "ok")?),
        Err(ReadError::Refused(fault)) => fault_text(alloc, &fault),
        Err(fault) => Err(fault.into()),
    }
}

// The line with one row's operation, or with the row as it is.
fn line_of(alloc: Global, row: &str, is_operation: bool) -> Result<String, Fail> {
    if is_operation {
        Ok(format!(in alloc; "{{\"edit\":[{row}]}}")?)
    } else {
        Ok(format!(in alloc; "{row}")?)
    }
}

// Whether the row is answered as it says.
fn is_right(alloc: Global, row: &str, is_operation: bool) -> Result<bool, Fail> {
    let Some((row, wanted)) = row.split_once(" ~ ") else {
        return Ok(false);
    };
    let line = line_of(alloc, row, is_operation)?;
    Ok(verdict(alloc, line.as_bytes())?.as_str() == wanted)
}

#[test]
fn operations_are_read(rt: HostRuntime) -> Result<(), Fail> {
    let tables = [
        tables::SWITCH,
        tables::ROUTER_PORT,
        tables::SWITCH_PORT,
        tables::ADDRESS_SET,
        tables::PORT_GROUP,
        tables::ACL,
        tables::ROUTE,
        tables::NAT,
        tables::LOAD_BALANCER,
        tables::STATIC_MAC,
        tables::SET_AND_REMOVE,
        tables::OPERATIONS,
    ];
    for table in tables {
        for row in table.split('\n') {
            let right = is_right(rt.alloc(), row, true)?;
            assert!(rt; right, "at {row}");
        }
    }
    Ok(())
}

#[test]
fn events_are_read(rt: HostRuntime) -> Result<(), Fail> {
    for table in [tables::EVENTS, tables::LINES] {
        for row in table.split('\n') {
            let right = is_right(rt.alloc(), row, false)?;
            assert!(rt; right, "at {row}");
        }
    }
    Ok(())
}

// So many arrays, one in the other.
fn nested(alloc: Global, levels: usize) -> Result<Vec<u8>, Fail> {
    let mut line = Vec::new(alloc);
    for byte in [b'[', b']'] {
        for _level in 0..levels {
            line.push(byte)?;
        }
    }
    Ok(line)
}

// An edit of so many operations.
fn edit(alloc: Global, operations: usize) -> Result<Vec<u8>, Fail> {
    let mut line = Vec::from_slice(alloc, b"{\"edit\":[")?;
    for _operation in 1..operations {
        line.extend_from_slice(b"{\"set\":\"switch\",\"name\":\"s0\"},")?;
    }
    line.extend_from_slice(b"{\"set\":\"switch\",\"name\":\"s0\"}]}")?;
    Ok(line)
}

#[test]
fn limits_are_where_they_stand(rt: HostRuntime) -> Result<(), Fail> {
    let alloc = rt.alloc();
    for (levels, wanted) in [(127, "NotObject"), (128, "BadJson"), (129, "BadJson")] {
        let said = verdict(alloc, &nested(alloc, levels)?)?;
        assert_eq!(rt; said.as_str(), wanted, "at {levels} levels");
    }
    for (operations, wanted) in [(1, "ok"), (64, "ok"), (65, "OutOfRange edit")] {
        let said = verdict(alloc, &edit(alloc, operations)?)?;
        assert_eq!(rt; said.as_str(), wanted, "at {operations} operations");
    }
    Ok(())
}

// What the line asks for.
fn asked_for(alloc: Global, line: &[u8]) -> Result<String, Fail> {
    let event = read_event(alloc, line)?;
    Ok(format!(in alloc; "{event:?}")?)
}

#[test]
fn fields_are_where_the_line_has_them(rt: HostRuntime) -> Result<(), Fail> {
    for row in tables::VALUES.split('\n') {
        let (line, wanted) = row.split_once(" ~ ").unwrap_or((row, ""));
        let said = asked_for(rt.alloc(), line.as_bytes())?;
        assert_eq!(rt; said.as_str(), wanted);
    }
    Ok(())
}
