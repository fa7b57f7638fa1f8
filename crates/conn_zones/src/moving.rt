//! Homes after a change.
ghost use Rattle.std.specs.Prelude.{◌≡◌, IfOk, OnOk, cond, map};
ghost use Rattle.std.specs.BTreeMap.{is_at};
ghost use Rattle.std.specs.Cmp.Lexicographic.{slice_cmp};
ghost use Rattle.std.specs.Ordering.{nat_cmp};
ghost use Rattle.ovn_base.specs.lists.Once.{EachOnce};
ghost use Rattle.ovn_base.specs.names.ByName.{at, IsByName};
ghost use Rattle.conn_zones.specs.Rezoning.{AreHomesAfter, IsRehomed};
ghost use Rattle.ovn_base.specs.declared.name.Name.{Name};

use crate::change::HomeChange;
use crate::homes::Homes;
use crate::name_map::NameMap;
use ovn_base::memory::NoMemory;
use ovn_base::name::Name;

// One has another home, or none.
fn move_one(homes: &mut NameMap<Name>, name: &Name, home: &Option<Name>) -> Result<(), NoMemory>
    ensures { OnOk result ((q : Name) → at homes.new q ≡ cond (is_at (slice_cmp nat_cmp name.now) q) home.now (at homes.old q)) }
{
    match home {
        Some(chassis) => {
            homes.insert(*name, *chassis)?;
            Ok(())
        }
        None => {
            homes.remove(name);
            Ok(())
        }
    }
}

// The homes after the change.
fn moved(before: &NameMap<Name>, change: &[(Name, Option<Name>)]) -> Result<NameMap<Name>, NoMemory>
    requires { EachOnce (map (λ e. e.0) change.now) }
    ensures { IfOk result (λ m. AreHomesAfter before.now change.now m) }
{
    let mut homes = before.copy()?;
    'change: for (name, home) in change {
        move_one(&mut homes, name, home)?;
    }
    let _in_order = homes.entries();
    Ok(homes)
}

impl Homes {
    // The homes after the change.
    pub(crate) fn after(&self, change: &HomeChange) -> Result<Homes, NoMemory>
        requires ports_once { EachOnce (map (λ e. e.0) change.now.ports) }
        requires routers_once { EachOnce (map (λ e. e.0) change.now.routers) }
        ensures { IfOk result (IsRehomed self.now change.now) }
    {
        Ok(Homes {
            ports: moved(&self.ports, change.ports.as_slice())?,
            routers: moved(&self.routers, change.routers.as_slice())?,
        })
    }
}
