//! A buffer of lines.
ghost use Rattle.ovn_base.specs.streams.Causes.{Rose};
ghost use Rattle.ovn_base.specs.lines.Cuts.{CutsEnded};
ghost use Rattle.ovn_base.specs.lines.Lines.{HasNoFeed};
ghost use Rattle.ovn_base.specs.lines.Reading.{bytes_taken, unread};
ghost use Rattle.std.specs.Io.KnownBytes.{IsAtEnd};
ghost use Rattle.std.specs.Prelude.{
  false,
  is_err,
  IfOk,
  length,
  MatchBool,
  OnErr,
  OnOk,
  take,
  true,
  ◌+◌,
  ◌<◌,
  if◌then◌else◌,
  ◌≡◌,
  ◌≤◌,
  [],
};

use crate::limits::{MAX_INPUT, MAX_LINE};
use crate::memory::{Failed, NoMemory};
use crate::next_line::LineFault;
use crate::source::Source;
use crate::window::{Window, find_feed};
use std::alloc::Global;
use std::marker::Model;

/// The size of a buffer: room for two lines with their line feeds. So between two moves of held bytes to the front at
/// least as many bytes are taken as are moved.
const BUFFER_SIZE: usize = 2_097_154;

/// The bytes that were taken from a source and aren't given yet, and the line that was given last.
///
/// It holds all memory that reading lines needs.
#[derive(Drop)]
pub struct LineBuf {
    window: Window,
    given: u64,
    ended: bool,
    faulted: bool,
}

impl Model for LineBuf {
    ghost use Rattle.ovn_base.specs.lines.Reading.{Reading};
    ghost use Rattle.ovn_base.specs.declared.limits.TheConstants.{MAX_INPUT, MAX_LINE};
    ghost use Rattle.std.specs.Prelude.{length, true, ◌+◌, ◌<◌, ◌≡◌, ◌≤◌};

    ghost Value = { Reading };

    ghost view = { λ b.
        record {
          given = b.given;
          text = b.window.text;
          held = b.window.held;
          ended = b.ended;
          faulted = b.faulted;
        } };

    ghost invariant = { λ b.
        (MAX_LINE + 1 < b.window.room) × (b.given + length b.window.held ≤ MAX_INPUT)
        × (b.ended ≡ true → b.given + length b.window.held < MAX_INPUT) };
}

impl LineBuf {
    /// A buffer through which nothing was taken. It takes all memory for lines.
    ///
    /// # Errors
    ///
    /// `NoMemory` alone.
    pub fn new(alloc: Global) -> Result<LineBuf, NoMemory>
        ensures { IfOk result
            (λ buf. buf ≡ record { given = 0; text = []; held = []; ended = false; faulted = false }) }
    {
        Ok(LineBuf {
            window: Window::new(alloc, BUFFER_SIZE)?,
            given: 0,
            ended: false,
            faulted: false,
        })
    }

    /// The line that `next_line` gave last, where it was `Line::Text`, without its line feed. After another answer
    /// the text has no meaning.
    pub fn text(&self) -> &[u8]
        ensures { result.now ≡ self.now.text }
    {
        self.window.text()
    }

    /// Whether a `next_line` on this buffer answered a fault.
    pub fn faulted(&self) -> bool
        ensures { result ≡ self.now.faulted }
    {
        self.faulted
    }

    /// Whether the source has answered that nothing is left.
    pub(crate) fn ended(&self) -> bool
        ensures { result ≡ self.now.ended }
    {
        self.ended
    }

    /// How many bytes are held.
    pub(crate) fn held_len(&self) -> usize
        ensures { result ≡ length self.now.held }
    {
        self.window.held().len()
    }

    /// Cuts off the first line that a line feed ends, and answers whether there was one. No line feed is among the
    /// first `scanned` held bytes.
    pub(crate) fn cut_line(&mut self, scanned: usize) -> bool
        requires within { scanned ≤ length self.old.held }
        requires no_feed { HasNoFeed (take scanned self.old.held) }
        ensures cut { MatchBool result (CutsEnded self.old self.new)
            ((self.new ≡ self.old) × HasNoFeed self.old.held) }
        ensures limit { bytes_taken self.new ≤ MAX_INPUT }
        ensures below { self.new.ended ≡ true → bytes_taken self.new < MAX_INPUT }
    {
        let Some(at) = find_feed(&self.window.held()[scanned..]) else {
            return false;
        };
        let at = scanned + at;
        self.given += at as u64 + 1;
        self.window.cut(at);
        true
    }

    /// Cuts all held bytes off.
    pub(crate) fn cut_all(&mut self)
        ensures { self.new ≡ record self.old {
          given = self.old.given + length self.old.held;
          text = self.old.held;
          held = [];
        } }
    {
        self.given += self.window.held().len() as u64;
        self.window.cut_all();
    }

    /// Takes more bytes from the source behind the held ones, or finds its end.
    pub(crate) fn refill<S: Source>(&mut self, source: &mut S) -> Result<(), LineFault>
        requires room { length self.old.held ≤ MAX_LINE }
        requires more { self.old.ended ≡ false }
        ensures ahead { unread self.new (S.left source.new) ≡ unread self.old (S.left source.old) }
        ensures front { take (length self.old.held) self.new.held ≡ self.old.held }
        ensures given { self.new.given ≡ self.old.given }
        ensures progress { OnOk result
            (MatchBool self.new.ended (self.new.held ≡ self.old.held) (length self.old.held < length self.new.held)) }
        ensures at_end { self.new.ended ≡ true → IsAtEnd (S.left source.new) }
        ensures err { OnErr result ((self.new.held ≡ self.old.held) × (self.new.ended ≡ false)) }
        ensures read_fault { result ≡ Err LineFault.ReadFault → Rose (S.faults source.old) (S.faults source.new) }
        ensures read_short { result ≡ Err LineFault.ReadFault → bytes_taken self.new < MAX_INPUT }
        ensures too_long { result ≡ Err LineFault.InputTooLong → bytes_taken self.new ≡ MAX_INPUT }
        ensures faulted { self.new.faulted ≡ (if is_err result then true else self.old.faulted) }
        ensures limit { bytes_taken self.new ≤ MAX_INPUT }
        ensures below { self.new.ended ≡ true → bytes_taken self.new < MAX_INPUT }
        ensures faults { S.faults source.old ≤ S.faults source.new }
    {
        let taken = self.given + self.window.held().len() as u64;
        if taken == MAX_INPUT {
            self.faulted = true;
            return Err(LineFault::InputTooLong);
        }
        match self.window.refill(source, MAX_INPUT - taken) {
            Ok(0) => {
                self.ended = true;
                Ok(())
            }
            Ok(_) => Ok(()),
            Err(Failed) => {
                self.faulted = true;
                Err(LineFault::ReadFault)
            }
        }
    }
}
