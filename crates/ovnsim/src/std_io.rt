//! Standard input and output as a source and a sink.
ghost use Rattle.ovn_base.specs.streams.Causes.{HasCause};
ghost use Rattle.std.specs.Io.KnownBytes.{IsAtEnd, append_known, prepend_known};
ghost use Rattle.std.specs.Prelude.{IfOk, None, OnErr, OnOk, length, take, ℕ, ◌<◌, ◌≡◌, ◌≤◌};

use ovn_base::memory::Failed;
use ovn_base::sink::Sink;
use ovn_base::source::Source;
use std::io::{ErrorKind, Read, Write};

/// A reader as a source. It tells nothing of its bytes.
#[derive(Drop)]
pub struct StdSource<R> {
    inner: R,
    faults: u64,
}

impl<R: Read + Drop> StdSource<R> {
    /// A source that takes what the reader gives. It has not failed yet.
    pub fn new(inner: R) -> StdSource<R>
        ensures { result.faults ≡ 0 }
    {
        StdSource { inner, faults: 0 }
    }
}

impl<R: Read + Drop> Source for StdSource<R> {
    ghost left = { λ _. None };

    ghost faults = { λ s. s.faults };

    fn take(&mut self, buf: &mut [u8]) -> Result<usize, Failed> {
        // A signal may break off a read, which is then made again.
        'tries: for _ in 0..u32::MAX {
            match self.inner.read(buf) {
                Ok(count) => return Ok(count),
                Err(error) if error.kind() == ErrorKind::Interrupted => {}
                Err(_) => break,
            }
        }
        self.faults = self.faults.saturating_add(1);
        Err(Failed)
    }
}

/// A writer as a sink. It tells nothing of its bytes.
#[derive(Drop)]
pub struct StdSink<W> {
    inner: W,
    faults: u64,
}

impl<W: Write + Drop> StdSink<W> {
    /// A sink that gives its pieces to the writer. It has not failed yet.
    pub fn new(inner: W) -> StdSink<W>
        ensures { result.faults ≡ 0 }
    {
        StdSink { inner, faults: 0 }
    }
}

impl<W: Write + Drop> Sink for StdSink<W> {
    ghost gone = { λ _. None };

    ghost faults = { λ s. s.faults };

    fn give(&mut self, piece: &[u8]) -> Result<(), Failed> {
        if self.inner.write_all(piece).is_err() {
            self.faults = self.faults.saturating_add(1);
            return Err(Failed);
        }
        Ok(())
    }
}

#[cfg(test)]
mod tests {
    use super::*;
    use std::io;
    use std::test::Fail;

    /// A reader and a writer of which each call fails.
    #[derive(Drop)]
    struct Broken;

    impl Read for Broken {
        fn read(&mut self, _buf: &mut [u8]) -> io::Result<usize> {
            Err(io::Error::from(ErrorKind::BrokenPipe))
        }
    }

    impl Write for Broken {
        fn write(&mut self, _buf: &[u8]) -> io::Result<usize> {
            Err(io::Error::from(ErrorKind::BrokenPipe))
        }

        fn flush(&mut self) -> io::Result<()> {
            Ok(())
        }
    }

    #[test]
    fn carries_bytes_and_counts_faults(rt: HostRuntime) -> Result<(), Fail> {
        let mut source = StdSource::new(b"abc".as_slice());
        let mut buf = [0; 2];
        assert_eq!(rt; source.take(&mut buf), Ok(2));
        assert_eq!(rt; buf, *b"ab");
        assert_eq!(rt; source.take(&mut buf), Ok(1));
        assert_eq!(rt; buf, *b"cb");
        assert_eq!(rt; source.take(&mut buf), Ok(0));
        assert_eq!(rt; source.faults, 0);
        let mut sink = StdSink::new(Vec::new(rt.alloc()));
        assert_eq!(rt; sink.give(b"abc"), Ok(()));
        assert_eq!(rt; sink.give(b"de"), Ok(()));
        assert_eq!(rt; sink.inner.as_slice(), b"abcde".as_slice());
        assert_eq!(rt; sink.faults, 0);
        let mut source = StdSource::new(Broken);
        assert_eq!(rt; source.take(&mut buf), Err(Failed));
        assert_eq!(rt; source.faults, 1);
        let mut sink = StdSink::new(Broken);
        assert_eq!(rt; sink.give(b"abc"), Err(Failed));
        assert_eq!(rt; sink.faults, 1);
        Ok(())
    }
}
