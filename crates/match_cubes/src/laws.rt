//! Laws of matches and packets, each on a function that does nothing: call it, and its clause is a fact of the call.
ghost use Rattle.std.specs.Prelude.{◌≡◌, ℕ, true};
ghost use Rattle.inet_packet.specs.Whole.{IsWhole};
ghost use Rattle.match_language.specs.Nesting.{FitsLevels};
ghost use Rattle.match_cubes.specs.Prefixes.{AreLargest};
ghost use Rattle.match_cubes.specs.Suited.{are_suited, HasFieldsInRange};

use inet_packet::packet::Packet;
use match_language::expr::{Expr, Rel};
use match_language::field::Direction;

/// What the grammar lets stand has cubes: what `parse` gives meets the condition of `cubes`.
#[tactic(auto, using(crate::proofs::SuitedLaws::fits_suited))]
pub fn fitting_is_suited()
    ensures { (way : Direction) (n : ℕ) (x : Expr) → FitsLevels way n x → are_suited x true ≡ true }
{}

/// A whole packet has no number that is wider than its field.
#[tactic(auto, using(crate::proofs::WholeLaws::whole_in_range))]
pub fn whole_is_in_range()
    ensures { (packet : Packet) → IsWhole packet → HasFieldsInRange packet }
{}

/// The range of an order relation falls into the prefixes that lie in it and in no larger one that does.
#[tactic(auto, using(crate::proofs::LargestLaws::are_largest))]
pub fn ranges_are_largest()
    ensures { (w : ℕ) (rel : Rel) (v : ℕ) → AreLargest w rel v }
{}
