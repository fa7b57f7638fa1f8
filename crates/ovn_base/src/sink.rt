//! Where bytes go.
ghost use Rattle.ovn_base.specs.streams.Causes.{HasCause};
ghost use Rattle.std.specs.Io.KnownBytes.{append_known};
ghost use Rattle.std.specs.Prelude.{List, OnErr, OnOk, Option, take, ℕ, ◌≡◌};

use crate::memory::Failed;

/// Something to which bytes can be given, one piece after another.
pub trait Sink {
    /// The bytes that it has taken, where it tells them.
    ghost gone: { Self → Option (List ℕ) };

    /// How often it has failed; the count stays at the greatest `u64`.
    ghost faults: { Self → ℕ };

    /// Takes the whole piece, or at `Err` some bytes of its front.
    ///
    /// # Errors
    ///
    /// `Failed` only where the count of failures rose in this call.
    fn give(&mut self, piece: &[u8]) -> Result<(), Failed>
        ensures whole { OnOk result (gone self.new ≡ append_known (gone self.old) piece.now) }
        ensures front { OnErr result ((n : ℕ) × (gone self.new ≡ append_known (gone self.old) (take n piece.now))) }
        ensures cause { HasCause (faults self.old) (faults self.new) result };
}
