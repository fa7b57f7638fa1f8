//! Sinks and sources in memory.

use ovn_base::memory::Failed;
use ovn_base::memory_sink::{MemorySink, SureSink};
use ovn_base::memory_source::SureSource;
use ovn_base::sink::Sink;
use ovn_base::source::Source;
use std::test::Fail;

// The second call fails behind three bytes, and the third at once.
#[test]
fn fails_at_the_listed_calls(rt: HostRuntime) -> Result<(), Fail> {
    let alloc = rt.alloc();
    let mut sink = MemorySink::new(alloc, 10, vec![in alloc; (2, 3), (2, 0)]?)?;
    assert_eq!(rt; sink.give(b"hello"), Ok(()));
    assert_eq!(rt; sink.give(b"world"), Err(Failed));
    assert_eq!(rt; sink.give(b"abc"), Err(Failed));
    assert!(rt; sink.bytes() == b"hellowor".as_slice());
    Ok(())
}

#[test]
fn a_sure_sink_takes_all(rt: HostRuntime) {
    let mut sink = SureSink::new();
    assert_eq!(rt; sink.give(b"hello"), Ok(()));
}

#[test]
fn a_sure_source_gives_all(rt: HostRuntime) -> Result<(), Fail> {
    let mut source = SureSource::new(Vec::from_slice(rt.alloc(), b"abc")?);
    let mut buf = [0; 2];
    assert_eq!(rt; source.take(&mut buf), Ok(2));
    assert_eq!(rt; source.take(&mut buf), Ok(1));
    assert!(rt; buf == *b"cb");
    assert_eq!(rt; source.take(&mut buf), Ok(0));
    Ok(())
}
