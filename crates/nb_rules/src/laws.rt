//! Laws of records that break no rule, each on a function that does nothing: call it, and its clause is a fact of the call.
ghost use Rattle.std.specs.Prelude.{◌≡◌, ◌↔◌, List, None};
ghost use Rattle.nb_records.specs.Network.{Network};
ghost use Rattle.nb_records.specs.declared.change.Op.{Op};
ghost use Rattle.nb_rules.specs.FirstBroken.{first_broken};
ghost use Rattle.nb_rules.specs.Unbroken.{AreUnbroken};

/// No clause is broken exactly where each is kept by all records, whatever operations came before.
pub fn nothing_broken()
    ensures { (net : Network) (ops : List Op) → (first_broken net ops ≡ None) ↔ AreUnbroken net }
{}
