//! Laws of edits, each on a function that does nothing: call it, and its clause is a fact of the call.
ghost use Rattle.std.specs.Prelude.{◌≡◌, ◌∷◌, [], ℕ, Bool, List, None};
ghost use Rattle.std.specs.List.{AllByRecursion};
ghost use Rattle.ovn_base.specs.declared.address.Backend.{Backend};
ghost use Rattle.ovn_base.specs.declared.name.Name.{Name};
ghost use Rattle.nb_records.specs.Grammar.{IsOpInGrammar};
ghost use Rattle.nb_records.specs.Network.{Network};
ghost use Rattle.nb_records.specs.declared.change.Op.{Op};
ghost use Rattle.nb_records.specs.declared.change.Op.TheVariants as form;
ghost use Rattle.nb_rules.specs.Valid.{IsValid};
ghost use Rattle.net_model.specs.Owners.{owners_only_in};
ghost use Rattle.tunnel_keys.specs.Edits.{IsKeyEdit};
ghost use Rattle.tunnel_keys.specs.Keys.{Keys};
ghost use Rattle.nb_edits.specs.EditLeaves.{AreBorn, AreKeysOf, LeavesSoundRecords};
ghost use Rattle.nb_edits.specs.OpFaults.{fault_of};

/// An edit of valid records with operations in their grammar, in which there is no fault, leaves valid records; each of them, and each
/// owner of keys, is of this event or was there before, but for values that were set; and marks stay ones of listed backends.
pub fn edit_is_sound()
    ensures { (net : Network) (ops : List Op) (n : ℕ) → IsValid net → AllByRecursion IsOpInGrammar ops → fault_of net ops n ≡ None → LeavesSoundRecords net ops n }
{}

/// The owners by which valid records differ are an edit that fits the keys of the records before: each stands once, those that go
/// have live keys and those that come never had one, and afterwards the datapath of each port is there.
#[tactic(auto, using(crate::proofs::KeyEdits::key_edit))]
pub fn edit_fits_keys()
    ensures { (before after : Network) (n : ℕ) (keys : Keys) → IsValid before → IsValid after → AreBorn before after n → AreKeysOf before n keys → IsKeyEdit keys (owners_only_in after before) (owners_only_in before after) }
{}

/// A health event on valid records has no fault: no rule reads the marks.
#[tactic(auto, using(crate::proofs::HealthLaws::health_fine))]
pub fn health_has_no_fault()
    ensures { (net : Network) (balancer : Name) (backend : Backend) (online : Bool) (n : ℕ) → IsValid net → fault_of net (form.Health balancer backend online ∷ []) n ≡ None }
{}
