//! A fixed buffer over the bytes of a source: those that are held, and the text that was cut off last.
ghost use Rattle.ovn_base.specs.streams.Causes.{HasCause};
ghost use Rattle.std.specs.Io.KnownBytes.{IsAtEnd, prepend_known};
ghost use Rattle.std.specs.Prelude.{
  drop,
  IfOk,
  length,
  OnErr,
  position,
  slice_range,
  take,
  ◌+◌,
  ◌-◌,
  ◌<◌,
  ◌==◌,
  ◌≡◌,
  ◌≤◌,
  [],
};

use crate::memory::{Failed, NoMemory};
use crate::source::Source;
use std::alloc::Global;
use std::marker::Model;

/// A buffer of a fixed size, of which one part is held and one part is the last text.
#[derive(Drop)]
pub(crate) struct Window {
    bytes: Vec<u8>,
    text_start: usize,
    text_end: usize,
    start: usize,
    end: usize,
}

impl Model for Window {
    ghost use Rattle.ovn_base.specs.lines.WindowState.{WindowState};
    ghost use Rattle.std.specs.Prelude.{slice_range, vec_len, ◌-◌, ◌≤◌};

    ghost Value = { WindowState };

    ghost view = { λ w.
        record {
          text = slice_range w.bytes.items w.text_start w.text_end;
          held = slice_range w.bytes.items w.start w.end;
          room = vec_len w.bytes;
          behind = vec_len w.bytes - w.end;
        } };

    ghost invariant = { λ w. (w.text_start ≤ w.text_end) × (w.text_end ≤ vec_len w.bytes) × (w.start ≤ w.end) × (w.end ≤ vec_len w.bytes) };
}

/// Where the first line feed is.
pub(crate) fn find_feed(bytes: &[u8]) -> Option<usize>
    ensures { result ≡ position (λ byte. byte == 10) bytes.now }
{
    bytes.iter().position(|byte| *byte == b'\n')
}

/// Takes at most `most` bytes from the source to the place `at`.
fn take_to<S: Source>(
    source: &mut S,
    bytes: &mut [u8],
    at: usize,
    most: u64,
) -> Result<usize, Failed>
    requires within { at < length bytes.old }
    requires some { 0 < most }
    ensures room { IfOk result (λ n. n ≤ length bytes.old - at) }
    ensures most { IfOk result (λ n. n ≤ most) }
    ensures front { take at bytes.new ≡ take at bytes.old }
    ensures bytes { IfOk result
        (λ n. S.left source.old ≡ prepend_known (take n (drop at bytes.new)) (S.left source.new)) }
    ensures end { IfOk result (λ n. n ≡ 0 → IsAtEnd (S.left source.new)) }
    ensures err { OnErr result (S.left source.new ≡ S.left source.old) }
    ensures cause { HasCause (S.faults source.old) (S.faults source.new) result }
{
    let space = most.min((bytes.len() - at) as u64) as usize;
    let count = source.take(&mut bytes[at..at + space])?;
    Ok(count)
}

impl Window {
    /// An empty window with this room.
    pub(crate) fn new(alloc: Global, room: usize) -> Result<Window, NoMemory>
        ensures { IfOk result (λ w. w ≡ record { text = []; held = []; room = room; behind = room }) }
    {
        Ok(Window {
            bytes: vec![in alloc; 0; room]?,
            text_start: 0,
            text_end: 0,
            start: 0,
            end: 0,
        })
    }

    /// The text that was cut off last.
    pub(crate) fn text(&self) -> &[u8]
        ensures { result.now ≡ self.now.text }
    {
        &self.bytes[self.text_start..self.text_end]
    }

    /// The bytes that are held.
    pub(crate) fn held(&self) -> &[u8]
        ensures { result.now ≡ self.now.held }
    {
        &self.bytes[self.start..self.end]
    }

    /// Cuts the first `at` bytes off as the text, and lets the byte after them go.
    pub(crate) fn cut(&mut self, at: usize)
        requires { at < length self.old.held }
        ensures { self.new ≡ record self.old { text = take at self.old.held; held = drop (at + 1) self.old.held } }
    {
        self.text_start = self.start;
        self.text_end = self.start + at;
        self.start += at + 1;
    }

    /// Cuts all held bytes off as the text.
    pub(crate) fn cut_all(&mut self)
        ensures { self.new ≡ record self.old { text = self.old.held; held = [] } }
    {
        self.text_start = self.start;
        self.text_end = self.end;
        self.start = self.end;
    }

    /// Moves the held bytes to the front where no room is behind them. The text is of no use afterwards.
    fn make_room(&mut self)
        requires { length self.old.held < self.old.room }
        ensures held { self.new.held ≡ self.old.held }
        ensures room { self.new.room ≡ self.old.room }
        ensures behind { 0 < self.new.behind }
    {
        if self.end == self.bytes.len() {
            self.bytes.copy_within(self.start..self.end, 0);
            self.end -= self.start;
            self.start = 0;
        }
    }

    /// Takes at most `most` bytes from the source behind the held ones.
    fn take_behind<S: Source>(&mut self, source: &mut S, most: u64) -> Result<usize, Failed>
        requires behind { 0 < self.old.behind }
        requires some { 0 < most }
        ensures ahead { prepend_known self.new.held (S.left source.new)
            ≡ prepend_known self.old.held (S.left source.old) }
        ensures front { take (length self.old.held) self.new.held ≡ self.old.held }
        ensures count { IfOk result (λ n. (n ≤ most) × (length self.new.held ≡ length self.old.held + n)) }
        ensures end { IfOk result (λ n. n ≡ 0 → IsAtEnd (S.left source.new)) }
        ensures err { OnErr result (self.new.held ≡ self.old.held) }
        ensures room { self.new.room ≡ self.old.room }
        ensures cause { HasCause (S.faults source.old) (S.faults source.new) result }
    {
        let count = take_to(source, &mut self.bytes, self.end, most)?;
        self.end += count;
        Ok(count)
    }

    /// Takes at most `most` bytes from the source, and answers how many: 0 only at its end. The text is of no use
    /// afterwards.
    pub(crate) fn refill<S: Source>(&mut self, source: &mut S, most: u64) -> Result<usize, Failed>
        requires room { length self.old.held < self.old.room }
        requires some { 0 < most }
        ensures ahead { prepend_known self.new.held (S.left source.new)
            ≡ prepend_known self.old.held (S.left source.old) }
        ensures front { take (length self.old.held) self.new.held ≡ self.old.held }
        ensures count { IfOk result (λ n. (n ≤ most) × (length self.new.held ≡ length self.old.held + n)) }
        ensures end { IfOk result (λ n. n ≡ 0 → IsAtEnd (S.left source.new)) }
        ensures err { OnErr result (self.new.held ≡ self.old.held) }
        ensures room { self.new.room ≡ self.old.room }
        ensures cause { HasCause (S.faults source.old) (S.faults source.new) result }
    {
        self.make_room();
        let count = self.take_behind(source, most)?;
        Ok(count)
    }
}
