//! The program as one call.
ghost use Rattle.ovn_base.specs.streams.Causes.{Rose};
ghost use Rattle.ovn_base.specs.streams.WhereTold.{WhereTold};
ghost use Rattle.std.specs.Prelude.{◌≡◌, ◌≢◌, ◌==◌, ◌↔◌, ◌∷◌, [], IfSome, IsTrue, codes, false, map, string_bytes, true};
ghost use Rattle.std.specs.Io.KnownBytes.{IsAtEnd};
ghost use Rattle.std.specs.List.{list_any};
ghost use Rattle.ovnsim.specs.Answers.{Answers, GainsEvents, GainsFront, GainsRead, GainsToLimit, GainsWhole};

use crate::run::{Stop, replay};
use crate::words::is_replay;
use ovn_base::sink::Sink;
use ovn_base::source::Source;
use std::alloc::Global;

/// Each event was accepted.
const ALL_ACCEPTED: u8 = 0;

/// The words are refused.
pub const USAGE: u8 = 2;

/// An event was refused.
const SOME_REFUSED: u8 = 3;

const READ_FAULT: u8 = 4;

const WRITE_FAULT: u8 = 5;

/// Memory was wanted and not found.
pub const NO_MEMORY: u8 = 6;

const INPUT_TOO_LONG: u8 = 8;

/// Runs the program on these words and answers its status.
///
/// The words are `replay` alone. It reads the events of the source, one on each line, and gives the sink the text of
/// each event as one piece, and then the last line.
///
/// - 0: the source was read to its end, and each event was accepted.
/// - 2: the words are others. Nothing was read or written.
/// - 3: the source was read to its end, and at least one event was refused.
/// - 4: the source failed. The texts of the events whose line was taken whole were written.
/// - 5: the sink failed. It has some first bytes of the output.
/// - 6: memory was wanted and not found. The whole texts of some first events were written.
/// - 8: 2^40 bytes were taken without an end. The texts of their events were written.
pub fn ovnsim<S: Source, K: Sink>(
    alloc: Global,
    words: &[String],
    source: &mut S,
    sink: &mut K,
) -> u8
    // Where nothing fails, it writes what the input asks for, in the run whose picks the written lines name.
    ensures headline { map string_bytes words.now ≡ codes "replay" ∷ []
        → ¬ (Rose (S.faults source.old) (S.faults source.new))
        → ¬ (Rose (K.faults sink.old) (K.faults sink.new))
        → result ≢ 6
        → IfSome (S.left source.old) (Answers result (K.gone sink.old) (K.gone sink.new)) }

    // Each status has its cause, and what stands then.
    ensures usage { (result ≡ 2) ↔ ¬ (map string_bytes words.now ≡ codes "replay" ∷ []) }
    ensures untouched { result ≡ 2 → (source.new ≡ source.old) × (sink.new ≡ sink.old) }
    ensures accepted { result ≡ 0 → IsAtEnd (S.left source.new)
        × IfSome (S.left source.old) (GainsWhole false (K.gone sink.old) (K.gone sink.new)) }
    ensures refused { result ≡ 3 → IsAtEnd (S.left source.new)
        × IfSome (S.left source.old) (GainsWhole true (K.gone sink.old) (K.gone sink.new)) }
    ensures read_fault { result ≡ 4 → Rose (S.faults source.old) (S.faults source.new)
        × WhereTold (S.left source.old) (S.left source.new) (GainsRead (K.gone sink.old) (K.gone sink.new)) }
    ensures write_fault { result ≡ 5 → Rose (K.faults sink.old) (K.faults sink.new)
        × IfSome (S.left source.old) (GainsFront (K.gone sink.old) (K.gone sink.new)) }
    ensures memory { result ≡ 6
        → IfSome (S.left source.old) (GainsEvents (K.gone sink.old) (K.gone sink.new)) }
    ensures too_long { result ≡ 8
        → WhereTold (S.left source.old) (S.left source.new) (GainsToLimit (K.gone sink.old) (K.gone sink.new)) }
    ensures statuses { IsTrue (list_any (λ status. status == result) (0 ∷ 2 ∷ 3 ∷ 4 ∷ 5 ∷ 6 ∷ 8 ∷ [])) }
{
    if !is_replay(words) {
        return USAGE;
    }
    match replay(alloc, source, sink) {
        Ok(false) => ALL_ACCEPTED,
        Ok(true) => SOME_REFUSED,
        Err(Stop::ReadFault) => READ_FAULT,
        Err(Stop::WriteFault) => WRITE_FAULT,
        Err(Stop::Memory) => NO_MEMORY,
        Err(Stop::InputTooLong) => INPUT_TOO_LONG,
    }
}
