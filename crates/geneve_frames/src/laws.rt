//! Laws of the definitions.

ghost use Rattle.std.specs.Prelude.{◌≡◌, ℕ, ◌<◌, ◌^◌, List};
ghost use Rattle.geneve_frames.specs.Meaning.{Spells, IsFirst, canon};
ghost use Rattle.geneve_frames.specs.declared.fault.GeneveFault.{GeneveFault};

/// The one spelling spells its parts, so that [`read`](crate::read) reads back what [`write`](crate::write) wrote.
pub fn reads_back()
    ensures { (vni in_key out_key : ℕ) (inner : List ℕ)
        → vni < 2 ^ 24 → in_key < 2 ^ 15 → out_key < 2 ^ 16
        → Spells (canon vni in_key out_key inner) vni in_key out_key inner }
{}

/// A frame spells at most one network, two keys and one inner frame.
pub fn one_reading()
    ensures { (frame : List ℕ)
        (vni in_key out_key : ℕ) (inner : List ℕ)
        (other_vni other_in other_out : ℕ) (other : List ℕ)
        → Spells frame vni in_key out_key inner
        → Spells frame other_vni other_in other_out other
        → (vni ≡ other_vni) × (in_key ≡ other_in) × (out_key ≡ other_out) × (inner ≡ other) }
{}

/// A frame shows at most one first fault, and none where it spells anything.
pub fn one_fault()
    ensures one { (frame : List ℕ) (fault other : GeneveFault) → IsFirst fault frame → IsFirst other frame → fault ≡ other }
    ensures none { (frame : List ℕ) (vni in_key out_key : ℕ) (inner : List ℕ) (fault : GeneveFault)
        → Spells frame vni in_key out_key inner → ¬ (IsFirst fault frame) }
{}
