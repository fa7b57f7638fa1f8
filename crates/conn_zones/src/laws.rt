//! What the definitions of homes and numbers come to.
ghost use Rattle.std.specs.Prelude.{◌≡◌, false, Some};
ghost use Rattle.ovn_base.specs.declared.name.Name.{Name};
ghost use Rattle.conn_zones.specs.Zoning.{Zoned, home_for, number_on};
ghost use Rattle.conn_zones.specs.Rezoning.{names_zone, IsRezoned};
ghost use Rattle.conn_zones.specs.declared.change.HomeChange.{HomeChange};
ghost use Rattle.conn_zones.specs.declared.numbers.ZoneUse.{ZoneUse};

/// What is held and a change determine the homes and the numbers after it.
pub fn one_rezoning()
    ensures { (before : Zoned) (change : HomeChange) (one other : Zoned) → IsRezoned before change one → IsRezoned before change other → one ≡ other }
{}

/// Who isn't named in a change keeps home and numbers.
pub fn unnamed_stay()
    ensures { (before : Zoned) (change : HomeChange) (after : Zoned) → IsRezoned before change after
        → (chassis : Name) (zone : ZoneUse) → names_zone change zone ≡ false → home_for before.homes zone ≡ Some chassis
        → (home_for after.homes zone ≡ Some chassis) × (number_on after.numbers chassis zone ≡ number_on before.numbers chassis zone) }
{}
