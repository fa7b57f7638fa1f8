//! What the definitions of keys and of edits come to.
ghost use Rattle.std.specs.Prelude.{◌≡◌, ◌≤◌, ◌↔◌, ◌⊎◌, ℕ, List};
ghost use Rattle.ovn_base.specs.lists.Among.{Among};
ghost use Rattle.tunnel_keys.specs.Keys.{Keys, IsKeys, held_datapaths, held_ports};
ghost use Rattle.tunnel_keys.specs.Births.{AreKeysBorn};
ghost use Rattle.tunnel_keys.specs.Owners.{birth_in};
ghost use Rattle.tunnel_keys.specs.Edits.{IsLive, IsThereAfter, IsMoved, IsAfter, GivesKeys};
ghost use Rattle.tunnel_keys.specs.declared.owner.HeldDatapath.{HeldDatapath};
ghost use Rattle.tunnel_keys.specs.declared.owner.HeldPort.{HeldPort};
ghost use Rattle.tunnel_keys.specs.declared.owner.KeyOwner.{KeyOwner};

/// The keys before an edit and its owners determine the keys after it.
pub fn one_plan()
    ensures { (keys : Keys) (added removed : List KeyOwner) (a b : Keys)
        → IsAfter keys added removed a → IsAfter keys added removed b → a ≡ b }
{}

/// After an edit exactly those have live keys who had them and are not removed, and those who are added.
pub fn owners_after()
    ensures { (keys : Keys) (added removed : List KeyOwner) (after : Keys) → IsKeys keys → GivesKeys keys added removed after
        → (owner : KeyOwner) → IsLive after owner ↔ IsThereAfter keys added removed owner }
{}

/// If no owner of a key, no datapath of a port's key and nobody who comes is younger than an event, then afterwards no owner of
/// a key and no datapath of a port's key is.
pub fn births_after()
    ensures { (keys : Keys) (added removed : List KeyOwner) (after : Keys) (last : ℕ) → IsKeys keys → IsKeys after → GivesKeys keys added removed after
        → AreKeysBorn keys last → ((owner : KeyOwner) → Among owner added → (birth_in owner).0 ≤ last) → AreKeysBorn after last }
{}

/// An edit loses no key, live or retired: whoever had one has it afterwards, with the same number, and a port with the same
/// datapath. Only the key of a port that stays while its datapath is replaced by one of that name is then one of the new one.
pub fn keys_stay()
    ensures datapaths { (keys : Keys) (added removed : List KeyOwner) (after : Keys) → IsKeys keys → GivesKeys keys added removed after
        → (a : HeldDatapath) → Among a (held_datapaths keys) → Among a (held_datapaths after) }
    ensures ports { (keys : Keys) (added removed : List KeyOwner) (after : Keys) → IsKeys keys → GivesKeys keys added removed after → IsKeys after
        → (a : HeldPort) → Among a (held_ports keys) → Among a (held_ports after) ⊎ IsMoved keys added removed after a }
{}
