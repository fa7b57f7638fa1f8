//! Where bytes come from.
ghost use Rattle.ovn_base.specs.streams.Causes.{HasCause};
ghost use Rattle.std.specs.Io.KnownBytes.{IsAtEnd, prepend_known};
ghost use Rattle.std.specs.Prelude.{IfOk, List, OnErr, Option, length, take, ℕ, ◌<◌, ◌≡◌, ◌≤◌};

use crate::memory::Failed;

/// Something from which bytes can be taken, one piece after another.
pub trait Source {
    /// The bytes that are left, where it tells them.
    ghost left: { Self → Option (List ℕ) };

    /// How often it has failed; the count stays at the greatest `u64`.
    ghost faults: { Self → ℕ };

    /// Puts some of the next bytes at the front of `buf`, and answers how many: 0 only at the end.
    ///
    /// # Errors
    ///
    /// `Failed` only where the count of failures rose in this call. The bytes that are left stay.
    fn take(&mut self, buf: &mut [u8]) -> Result<usize, Failed>
        requires { 0 < length buf.old }
        ensures room { IfOk result (λ n. n ≤ length buf.old) }
        ensures bytes { IfOk result (λ n. left self.old ≡ prepend_known (take n buf.new) (left self.new)) }
        ensures end { IfOk result (λ n. n ≡ 0 → IsAtEnd (left self.new)) }
        ensures kept { OnErr result (left self.new ≡ left self.old) }
        ensures cause { HasCause (faults self.old) (faults self.new) result };
}
