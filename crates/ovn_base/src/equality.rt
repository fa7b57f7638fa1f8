//! Laws of `==` and of clones, each on a function that does nothing: call it, and its clause is a fact of the call.
ghost use Rattle.std.specs.Prelude.{◌≡◌, ◌↔◌, ℕ, true};
ghost use Rattle.std.specs.declared.cmp.Ordering.TheVariants.{Equal};

use crate::boxed::Boxed;
use crate::list::{Bytes, List};

/// Lists whose elements are equal only where they are the same are equal only where they are the same.
#[tactic(auto, using(crate::proofs::Exact::pointwise_exact))]
pub fn exact_list<T: PartialEq>()
    requires elements { (x y : T) → T.eq x y ≡ true → x ≡ y }
    ensures { (a b : List T) → ⟦<List<T> as PartialEq>⟧.eq a b ≡ true → a ≡ b }
{}

/// A clone of a list is that list, where a clone of an element is that element.
#[tactic(auto, using(crate::proofs::Exact::zip_exact))]
pub fn exact_list_clone<T: Clone>()
    requires elements { (x y : T) → T.is_clone x y → y ≡ x }
    ensures { (a b : List T) → ⟦<List<T> as Clone>⟧.is_clone a b → b ≡ a }
{}

/// Boxes are equal only where they are the same, where the values in them are.
pub fn exact_boxed<T: PartialEq>()
    requires value { (x y : T) → T.eq x y ≡ true → x ≡ y }
    ensures { (a b : Boxed T) → ⟦<Boxed<T> as PartialEq>⟧.eq a b ≡ true → a ≡ b }
{}

/// A clone of a box is that box, where a clone of its value is that value.
pub fn exact_boxed_clone<T: Clone>()
    requires value { (x y : T) → T.is_clone x y → y ≡ x }
    ensures { (a b : Boxed T) → ⟦<Boxed<T> as Clone>⟧.is_clone a b → b ≡ a }
{}

/// Bytes are equal exactly where they are the same.
#[tactic(auto, using(crate::proofs::Exact::pointwise_exact))]
pub fn exact_bytes()
    ensures { (a b : List ℕ) → (⟦<Bytes as PartialEq>⟧.eq a b ≡ true) ↔ (a ≡ b) }
{}

/// A clone of bytes is those bytes.
#[tactic(auto, using(crate::proofs::Exact::zip_exact))]
pub fn exact_bytes_clone()
    ensures { (a b : List ℕ) → ⟦<Bytes as Clone>⟧.is_clone a b → b ≡ a }
{}

/// What is the same is equal.
pub fn equal_where_same<T: Eq>()
    ensures { (x y : T) → x ≡ y → T.eq x y ≡ true }
{}

/// An order answers `Equal` only where the values are the same, if `==` holds only there.
pub fn exact_order<T: Ord>()
    requires values { (x y : T) → T.eq x y ≡ true → x ≡ y }
    ensures { (x y : T) → T.cmp x y ≡ Equal → x ≡ y }
{}

/// The order of lists answers `Equal` only where they are the same, if that of the elements does.
#[tactic(auto, using(crate::proofs::Exact::slice_cmp_exact))]
pub fn exact_list_order<T: Ord>()
    requires elements { (x y : T) → T.cmp x y ≡ Equal → x ≡ y }
    ensures { (a b : List T) → ⟦<List<T> as Ord>⟧.cmp a b ≡ Equal → a ≡ b }
{}
