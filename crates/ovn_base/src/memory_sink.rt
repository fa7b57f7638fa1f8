//! Sinks in memory.
ghost use Rattle.ovn_base.specs.streams.Causes.{HasCause};
ghost use Rattle.ovn_base.specs.streams.MemorySink.{given_to, is_to_refuse, listed};
ghost use Rattle.std.specs.Io.KnownBytes.{append_known};
ghost use Rattle.std.specs.Prelude.{
  IfOk,
  is_err,
  IsOk,
  length,
  None,
  OnErr,
  OnOk,
  Some,
  take,
  ℕ,
  ◌++◌,
  ◌+◌,
  ◌≡◌,
  ◌≤◌,
  [],
};

use crate::memory::{Failed, NoMemory};
use crate::sink::Sink;
use std::alloc::Global;
use std::marker::Model;

/// A sink in memory that fails at the calls that a list names, and at a piece that it has no room for.
#[derive(Drop)]
pub struct MemorySink {
    bytes: Vec<u8>,
    end: usize,
    calls: u64,
    failing: Vec<(u64, usize)>,
    faults: u64,
}

impl Model for MemorySink {
    ghost use Rattle.ovn_base.specs.streams.MemorySink.{SinkState};
    ghost use Rattle.std.specs.Prelude.{take, vec_len, ◌≤◌};

    ghost Value = { SinkState };

    ghost view = { λ s.
        record {
          bytes = take s.end s.bytes.items;
          room = vec_len s.bytes;
          calls = s.calls;
          failing = s.failing.items;
          faults = s.faults;
        } };

    ghost invariant = { λ s. s.end ≤ vec_len s.bytes };
}

/// Puts the first `count` bytes of the piece into `bytes`, from `at` on.
fn copy_piece(bytes: &mut [u8], at: usize, piece: &[u8], count: usize)
    requires piece { count ≤ length piece.now }
    requires room { at + count ≤ length bytes.old }
    ensures { take (at + count) bytes.new ≡ take at bytes.old ++ take count piece.now }
{
    bytes[at..at + count].copy_from_slice(&piece[..count]);
}

impl MemorySink {
    /// An empty sink with room for this many bytes. Of the calls, numbered from 1, each that `failing` names keeps as
    /// many bytes of its piece as its first entry says, or all where the piece has fewer, and fails. It takes all
    /// memory for its bytes.
    ///
    /// # Errors
    ///
    /// `NoMemory` alone.
    pub fn new(
        alloc: Global,
        room: usize,
        failing: Vec<(u64, usize)>,
    ) -> Result<MemorySink, NoMemory>
        ensures { IfOk result
            (λ s. s ≡ record { bytes = []; room = room; calls = 0; failing = failing.items; faults = 0 }) }
    {
        Ok(MemorySink {
            bytes: vec![in alloc; 0; room]?,
            end: 0,
            calls: 0,
            failing,
            faults: 0,
        })
    }

    /// The bytes that it has. It takes no memory.
    pub fn bytes(&self) -> &[u8]
        ensures { result.now ≡ self.now.bytes }
    {
        &self.bytes[..self.end]
    }

    /// How many bytes the next call keeps at most, if it is one that the list names.
    fn listed(&self) -> Option<usize>
        ensures { result ≡ listed self.now }
    {
        let call = u128::from(self.calls) + 1;
        let entry = self
            .failing
            .iter()
            .find(|entry| u128::from(entry.0) == call)?;
        Some(entry.1)
    }
}

impl Sink for MemorySink {
    ghost gone = { λ s. Some s.bytes };

    ghost faults = { λ s. s.faults };

    fn give(&mut self, piece: &[u8]) -> Result<(), Failed>
        ensures whole { OnOk result (Some self.new.bytes ≡ append_known (Some self.old.bytes) piece.now) }
        ensures front { OnErr result
            ((n : ℕ) × (Some self.new.bytes ≡ append_known (Some self.old.bytes) (take n piece.now))) }
        ensures cause { HasCause self.old.faults self.new.faults result }

        // It fails where the piece is longer than the room left, and at the calls that the list names.
        ensures fails { is_err result ≡ is_to_refuse self.old piece.now }
        ensures given { self.new ≡ given_to self.old piece.now }
    {
        let listed = self.listed();
        self.calls = self.calls.saturating_add(1);
        if piece.len() > self.bytes.len() - self.end {
            self.faults = self.faults.saturating_add(1);
            return Err(Failed);
        }
        let Some(kept) = listed else {
            copy_piece(&mut self.bytes, self.end, piece, piece.len());
            self.end += piece.len();
            return Ok(());
        };
        let kept = kept.min(piece.len());
        copy_piece(&mut self.bytes, self.end, piece, kept);
        self.end += kept;
        self.faults = self.faults.saturating_add(1);
        Err(Failed)
    }
}

/// A sink that never fails, keeps nothing, and tells nothing of its bytes.
#[derive(Clone, Copy, PartialEq, Eq, Debug)]
pub struct SureSink;

impl SureSink {
    /// A sink that never fails. It takes no memory.
    pub fn new() -> SureSink {
        SureSink
    }
}

impl Sink for SureSink {
    ghost gone = { λ _. None };

    ghost faults = { λ _. 0 };

    fn give(&mut self, _piece: &[u8]) -> Result<(), Failed>
        ensures whole { OnOk result (None ≡ append_known None _piece.now) }
        ensures front { OnErr result ((n : ℕ) × (None ≡ append_known None (take n _piece.now))) }
        ensures cause { HasCause 0 0 result }
        ensures sure { IsOk result }
    {
        Ok(())
    }
}
