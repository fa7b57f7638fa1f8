//! Lines of a source, one after another.
ghost use Rattle.ovn_base.specs.streams.Causes.{Rose};
ghost use Rattle.ovn_base.specs.lines.Lines.{ended_lines};
ghost use Rattle.ovn_base.specs.lines.Reading.{Gives, Stops, bytes_taken, unread};
ghost use Rattle.ovn_base.specs.streams.WhereTold.{WhereTold};
ghost use Rattle.std.specs.Io.KnownBytes.{IsAtEnd};
ghost use Rattle.std.specs.Prelude.{
  false,
  if◌then◌else◌,
  IfOk,
  is_err,
  length,
  nat_lt,
  OnErr,
  true,
  ◌<◌,
  ◌||◌,
  ◌≡◌,
  ◌≢◌,
  ◌≤◌,
  [],
};

use crate::limits::{MAX_INPUT, MAX_LINE};
use crate::line_buf::LineBuf;
use crate::source::Source;

/// What `next_line` found.
#[derive(Clone, Copy, PartialEq, Eq, Debug)]
pub enum Line {
    /// A line of at most 1,048,576 bytes, which the buffer shows.
    Text,
    /// A line of more than 1,048,576 bytes, its line feed not counted. It was skipped to its end.
    TooLong,
    /// The end of the input, with no line left.
    End,
}

/// Why `next_line` could not go on.
#[derive(Clone, Copy, PartialEq, Eq, Debug)]
pub enum LineFault {
    /// The source failed.
    ReadFault,
    /// The input has no end within 2^40 bytes.
    InputTooLong,
}

/// What a line of this length is, or one of which bytes were let go already.
fn line_of(is_skipped: bool, length: usize) -> Line
    ensures { result ≡ (if is_skipped || nat_lt MAX_LINE length then Line.TooLong else Line.Text) }
{
    if is_skipped || length > MAX_LINE {
        Line::TooLong
    } else {
        Line::Text
    }
}

/// The next line of the source, which the buffer then shows. A last line without a line feed counts where it isn't
/// empty. It takes no memory, and asks for the end once.
///
/// # Errors
///
/// `ReadFault` only where the source failed before 2^40 bytes were taken, and `InputTooLong` where 2^40 bytes were taken
/// without an end. No line that was taken whole is left out then, and the buffer can't be used again.
pub fn next_line<S: Source>(source: &mut S, buf: &mut LineBuf) -> Result<Line, LineFault>
    requires { buf.old.faulted ≡ false }

    // The lines of the bytes, whole and in order.
    ensures line { IfOk result (λ line. WhereTold
        (unread buf.old (S.left source.old)) (unread buf.new (S.left source.new))
        (Gives line buf.old buf.new)) }
    ensures end { result ≡ Ok Line.End → (buf.new.held ≡ []) × (buf.new.ended ≡ true) }
    ensures short { result ≡ Ok Line.Text → length buf.new.text ≤ MAX_LINE }
    ensures progress { IfOk result (λ line. line ≢ Line.End → buf.old.given < buf.new.given) }

    // It takes nothing where a whole line is held or the end was seen before. The end is seen where nothing is left.
    ensures patient { ended_lines buf.old.held ≢ [] → source.new ≡ source.old }
    ensures after_end { buf.old.ended ≡ true → source.new ≡ source.old }
    ensures at_end { buf.old.ended ≡ false → buf.new.ended ≡ true → IsAtEnd (S.left source.new) }

    // A fault leaves out no line that was taken whole.
    ensures fault { OnErr result
        (WhereTold (unread buf.old (S.left source.old)) (S.left source.new) (Stops buf.old buf.new)) }
    ensures none_held { OnErr result (ended_lines buf.new.held ≡ []) }
    ensures before_end { OnErr result (buf.old.ended ≡ false) }
    ensures read_fault { result ≡ Err LineFault.ReadFault → Rose (S.faults source.old) (S.faults source.new) }
    ensures read_short { result ≡ Err LineFault.ReadFault → bytes_taken buf.new < MAX_INPUT }
    ensures too_long { result ≡ Err LineFault.InputTooLong → bytes_taken buf.new ≡ MAX_INPUT }
    ensures faulted { buf.new.faulted ≡ is_err result }

    ensures limit { bytes_taken buf.new ≤ MAX_INPUT }
    ensures below { buf.new.ended ≡ true → bytes_taken buf.new < MAX_INPUT }
    ensures faults { S.faults source.old ≤ S.faults source.new }
{
    // How many of the held bytes have no line feed among them, and whether bytes of the line were let go.
    let mut scanned = 0;
    let mut is_skipped = false;
    'line: loop {
        if buf.cut_line(scanned) {
            return Ok(line_of(is_skipped, buf.text().len()));
        }
        scanned = buf.held_len();
        if buf.ended() {
            if scanned == 0 && !is_skipped {
                return Ok(Line::End);
            }
            buf.cut_all();
            return Ok(line_of(is_skipped, scanned));
        }
        if scanned > MAX_LINE {
            buf.cut_all();
            is_skipped = true;
            scanned = 0;
        }
        buf.refill(source)?;
    }
}
