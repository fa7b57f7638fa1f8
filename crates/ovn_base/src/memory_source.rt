//! Sources over bytes in memory.
ghost use Rattle.ovn_base.specs.streams.Causes.{HasCause};
ghost use Rattle.ovn_base.specs.streams.MemorySource.{failed_take, is_to_fail, taken_from};
ghost use Rattle.std.specs.Io.KnownBytes.{IsAtEnd, prepend_known};
ghost use Rattle.std.specs.Prelude.{
  drop,
  is_err,
  IfOk,
  IsOk,
  length,
  min,
  OnErr,
  Some,
  take,
  ◌++◌,
  ◌<◌,
  ◌≡◌,
  ◌≤◌,
};

use crate::memory::Failed;
use crate::source::Source;
use std::marker::Model;

/// Puts the front of `bytes` at the front of `buf`, and answers how many bytes that are.
fn copy_front(bytes: &[u8], buf: &mut [u8]) -> usize
    ensures count { result ≡ min (length buf.old) (length bytes.now) }
    ensures bytes { buf.new ≡ take result bytes.now ++ drop result buf.old }
{
    let count = buf.len().min(bytes.len());
    buf[..count].copy_from_slice(&bytes[..count]);
    count
}

/// A source over bytes in memory that fails at the calls that a list names.
#[derive(Drop)]
pub struct MemorySource {
    bytes: Vec<u8>,
    start: usize,
    calls: u64,
    failing: Vec<u64>,
    faults: u64,
}

impl Model for MemorySource {
    ghost use Rattle.ovn_base.specs.streams.MemorySource.{SourceState};
    ghost use Rattle.std.specs.Prelude.{drop, vec_len, ◌≤◌};

    ghost Value = { SourceState };

    ghost view = { λ s.
        record {
          left = drop s.start s.bytes.items;
          calls = s.calls;
          failing = s.failing.items;
          faults = s.faults;
        } };

    ghost invariant = { λ s. s.start ≤ vec_len s.bytes };
}

impl MemorySource {
    /// A source of these bytes that fails at the calls, numbered from 1, that `failing` names. It takes no memory.
    pub fn new(bytes: Vec<u8>, failing: Vec<u64>) -> MemorySource
        ensures { result ≡ record { left = bytes.items; calls = 0; failing = failing.items; faults = 0 } }
    {
        MemorySource {
            bytes,
            start: 0,
            calls: 0,
            failing,
            faults: 0,
        }
    }

    /// Whether the next call is one that the list names.
    fn is_to_fail(&self) -> bool
        ensures { result ≡ is_to_fail self.now }
    {
        let call = u128::from(self.calls) + 1;
        self.failing
            .iter()
            .any(|failing| u128::from(*failing) == call)
    }
}

impl Source for MemorySource {
    ghost left = { λ s. Some s.left };

    ghost faults = { λ s. s.faults };

    fn take(&mut self, buf: &mut [u8]) -> Result<usize, Failed>
        requires { 0 < length buf.old }
        ensures room { IfOk result (λ n. n ≤ length buf.old) }
        ensures bytes { IfOk result (λ n. Some self.old.left ≡ prepend_known (take n buf.new) (Some self.new.left)) }
        ensures end { IfOk result (λ n. n ≡ 0 → IsAtEnd (Some self.new.left)) }
        ensures kept { OnErr result (Some self.new.left ≡ Some self.old.left) }
        ensures cause { HasCause self.old.faults self.new.faults result }

        // It fails at the calls that the list names, and takes as many bytes as there are or as there is room for.
        ensures fails { is_err result ≡ is_to_fail self.old }
        ensures failed { OnErr result (self.new ≡ failed_take self.old) }
        ensures count { IfOk result (λ n. n ≡ min (length buf.old) (length self.old.left)) }
        ensures taken { IfOk result (λ n. self.new ≡ taken_from n self.old) }
        ensures front { IfOk result (λ n. buf.new ≡ take n self.old.left ++ drop n buf.old) }
        ensures buf_kept { OnErr result (buf.new ≡ buf.old) }
    {
        let fails = self.is_to_fail();
        self.calls = self.calls.saturating_add(1);
        if fails {
            self.faults = self.faults.saturating_add(1);
            return Err(Failed);
        }
        let count = copy_front(&self.bytes[self.start..], buf);
        self.start += count;
        Ok(count)
    }
}

/// A source over bytes in memory that never fails.
#[derive(Drop)]
pub struct SureSource {
    bytes: Vec<u8>,
    start: usize,
}

impl Model for SureSource {
    ghost use Rattle.std.specs.Prelude.{drop, List, vec_len, ℕ, ◌≤◌};

    ghost Value = { List ℕ };

    ghost view = { λ s. drop s.start s.bytes.items };

    ghost invariant = { λ s. s.start ≤ vec_len s.bytes };
}

impl SureSource {
    /// A source of these bytes. It takes no memory.
    pub fn new(bytes: Vec<u8>) -> SureSource
        ensures { result ≡ bytes.items }
    {
        SureSource { bytes, start: 0 }
    }
}

impl Source for SureSource {
    ghost left = { λ s. Some s };

    ghost faults = { λ _. 0 };

    fn take(&mut self, buf: &mut [u8]) -> Result<usize, Failed>
        requires { 0 < length buf.old }
        ensures room { IfOk result (λ n. n ≤ length buf.old) }
        ensures bytes { IfOk result (λ n. Some self.old ≡ prepend_known (take n buf.new) (Some self.new)) }
        ensures end { IfOk result (λ n. n ≡ 0 → IsAtEnd (Some self.new)) }
        ensures kept { OnErr result (Some self.new ≡ Some self.old) }
        ensures cause { HasCause 0 0 result }

        // It never fails, and takes as many bytes as there are or as there is room for.
        ensures sure { IsOk result }
        ensures count { IfOk result (λ n. n ≡ min (length buf.old) (length self.old)) }
        ensures taken { IfOk result (λ n. self.new ≡ drop n self.old) }
        ensures front { IfOk result (λ n. buf.new ≡ take n self.old ++ drop n buf.old) }
    {
        let count = copy_front(&self.bytes[self.start..], buf);
        self.start += count;
        Ok(count)
    }
}
