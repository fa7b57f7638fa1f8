//! Laws of what differs, each on a function that does nothing: call it, and its clause is a fact of the call.
ghost use Rattle.std.specs.Prelude.{◌≡◌, ℕ, List};
ghost use Rattle.address_sets.specs.Members.{AreDiffering};

/// The members before and after determine the names of those that differ.
pub fn one_list_differs<X>()
    ensures { (old new : List ℕ → List X) (a b : List (List ℕ)) → AreDiffering old new a → AreDiffering old new b → a ≡ b }
{}
