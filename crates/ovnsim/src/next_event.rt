//! The events of a source, one after another.
ghost use Rattle.ovn_base.specs.streams.Causes.{Rose};
ghost use Rattle.ovn_base.specs.lines.Reading.{unread};
ghost use Rattle.ovn_base.specs.streams.WhereTold.{WhereTold};
ghost use Rattle.std.specs.Io.KnownBytes.{IsAtEnd};
ghost use Rattle.std.specs.List.{AllPass};
ghost use Rattle.std.specs.Prelude.{◌≡◌, ◌≤◌, ◌↔◌, false, true, Err, IfErr, IfOk, IsTrue, OnOk, length};
ghost use Rattle.ovnsim.specs.Events.{AskedBy, GivesNext, is_line_blank};
ghost use Rattle.ovnsim.specs.Next.{GoesOn, IsAdmittedNext, IsBelowLimit, StopsIn};

use crate::run::Stop;
use edit_reader::event::{Event, ReadError, ReadRefusal};
use edit_reader::read::{read_event, read_is_in_grammar};
use ovn_base::limits::MAX_LINE;
use ovn_base::line_buf::LineBuf;
use ovn_base::memory::NoMemory;
use ovn_base::next_line::{Line, LineFault, next_line};
use ovn_base::source::Source;
use std::alloc::Global;

/// What comes next in the input.
#[derive(Debug, Drop)]
pub enum Next {
    /// An event, or a line that was not read.
    Found(Event),
    /// A line of blanks, which is no event.
    Blank,
    /// The end.
    End,
}

/// Whether a line is one of spaces, tabs and carriage returns alone.
fn is_blank_line(line: &[u8]) -> bool
    ensures { IsTrue result ↔ AllPass is_line_blank line.now }
{
    line.iter()
        .all(|byte| matches!(*byte, b' ' | b'\t' | b'\r'))
}

/// What a line of at most 1,048,576 bytes is.
fn next_of(alloc: Global, line: &[u8]) -> Result<Next, NoMemory>
    requires { length line.now ≤ MAX_LINE }
    ensures asked { IfOk result (AskedBy line.now) }
    ensures admitted { IfOk result IsAdmittedNext }
{
    if is_blank_line(line) {
        return Ok(Next::Blank);
    }
    read_is_in_grammar();
    match read_event(alloc, line) {
        Ok(event) => Ok(Next::Found(event)),
        Err(ReadError::Refused(refusal)) => Ok(Next::Found(Event::Unread(refusal))),
        Err(ReadError::Memory) => Err(NoMemory),
    }
}

/// What the next line of the source is.
///
/// # Errors
///
/// `ReadFault` only where the source failed, `InputTooLong` where 2^40 bytes were taken without an end, and `Memory`.
pub fn next_event<S: Source>(alloc: Global, source: &mut S, buf: &mut LineBuf) -> Result<Next, Stop>
    requires { buf.old.faulted ≡ false }
    ensures next { IfOk result (λ next. WhereTold
        (unread buf.old (S.left source.old)) (unread buf.new (S.left source.new))
        (GivesNext next buf.old buf.new)) }
    ensures admitted { IfOk result IsAdmittedNext }
    ensures progress { IfOk result (λ next. GoesOn next buf.old buf.new) }
    ensures sound { OnOk result (buf.new.faulted ≡ false) }
    ensures stopped { IfErr result (λ stop.
        StopsIn stop buf.old buf.new (unread buf.old (S.left source.old)) (S.left source.new)) }
    ensures read_rose { result ≡ Err Stop.ReadFault → Rose (S.faults source.old) (S.faults source.new) }
    ensures within { IsBelowLimit buf.new }
    ensures after_end { buf.old.ended ≡ true → source.new ≡ source.old }
    ensures at_end { buf.old.ended ≡ false → buf.new.ended ≡ true → IsAtEnd (S.left source.new) }
    ensures faults { S.faults source.old ≤ S.faults source.new }
{
    match next_line(source, buf) {
        Ok(Line::Text) => Ok(next_of(alloc, buf.text())?),
        Ok(Line::TooLong) => Ok(Next::Found(Event::Unread(ReadRefusal::TooLong))),
        Ok(Line::End) => Ok(Next::End),
        Err(LineFault::ReadFault) => Err(Stop::ReadFault),
        Err(LineFault::InputTooLong) => Err(Stop::InputTooLong),
    }
}
