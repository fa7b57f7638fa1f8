//! Lines of a source.

use ovn_base::limits::MAX_LINE;
use ovn_base::line_buf::LineBuf;
use ovn_base::list::{Bytes, List};
use ovn_base::memory::NoMemory;
use ovn_base::memory_source::MemorySource;
use ovn_base::next_line::{Line, LineFault, next_line};
use std::alloc::Global;
use std::test::Fail;

// What comes of asking for a line.
#[derive(PartialEq, Eq, Debug, Drop)]
enum Answer {
    Text(Bytes),
    TooLong,
    End,
    Fault(LineFault),
}

// What is told of the first lines of the bytes, of which the takings of these numbers fail.
fn told(
    alloc: Global,
    bytes: &[u8],
    failing: Vec<u64>,
    most: usize,
) -> Result<List<Answer>, NoMemory> {
    let mut source = MemorySource::new(Vec::from_slice(alloc, bytes)?, failing);
    let mut buf = LineBuf::new(alloc)?;
    let mut told = List::new(alloc);
    for _ in 0..most {
        if buf.faulted() {
            break;
        }
        let line = match next_line(&mut source, &mut buf) {
            Ok(Line::Text) => Answer::Text(List::from_slice(alloc, buf.text())?),
            Ok(Line::TooLong) => Answer::TooLong,
            Ok(Line::End) => Answer::End,
            Err(fault) => Answer::Fault(fault),
        };
        told.push(line)?;
    }
    Ok(told)
}

fn text(alloc: Global, bytes: &[u8]) -> Result<Answer, NoMemory> {
    Ok(Answer::Text(List::from_slice(alloc, bytes)?))
}

#[test]
fn gives_each_line(rt: HostRuntime) -> Result<(), Fail> {
    let alloc = rt.alloc();
    let told = told(alloc, b"a\nbc\n\nd", Vec::new(alloc), 6)?;
    let wanted = [
        text(alloc, b"a")?,
        text(alloc, b"bc")?,
        text(alloc, b"")?,
        text(alloc, b"d")?,
        Answer::End,
        Answer::End,
    ];
    assert!(rt; told.as_slice() == wanted.as_slice());
    Ok(())
}

// The first line has as many bytes as a line may have, and the second one more.
#[test]
fn skips_a_long_line(rt: HostRuntime) -> Result<(), Fail> {
    let alloc = rt.alloc();
    let mut bytes = vec![in alloc; b'x'; MAX_LINE]?;
    bytes.extend_from_slice(b"\nx")?;
    bytes.extend_from_slice(&vec![in alloc; b'x'; MAX_LINE]?)?;
    bytes.extend_from_slice(b"\nnext\n")?;
    let told = told(alloc, &bytes, Vec::new(alloc), 4)?;
    let wanted = [
        text(alloc, &vec![in alloc; b'x'; MAX_LINE]?)?,
        Answer::TooLong,
        text(alloc, b"next")?,
        Answer::End,
    ];
    assert!(rt; told.as_slice() == wanted.as_slice());
    Ok(())
}

// The second taking fails, and no line is asked for after it.
#[test]
fn stops_at_a_fault(rt: HostRuntime) -> Result<(), Fail> {
    let alloc = rt.alloc();
    let told = told(alloc, b"a\nb", vec![in alloc; 2]?, 3)?;
    let wanted = [text(alloc, b"a")?, Answer::Fault(LineFault::ReadFault)];
    assert!(rt; told.as_slice() == wanted.as_slice());
    Ok(())
}
