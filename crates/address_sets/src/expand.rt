//! What the names of address sets and port groups stand for.
ghost use Rattle.std.specs.Prelude.{◌≡◌, IfOk, map};
ghost use Rattle.address_sets.specs.Members.{sets_of};

use crate::members::HasMembers;
use match_cubes::sets::Sets;
use nb_records::records::Records;
use ovn_base::list::List;
use ovn_base::memory::NoMemory;
use ovn_base::name::Name;
use std::alloc::Global;
use std::collections::BTreeMap;

/// The address sets and port groups of the records, each with its members, in order of name.
pub fn expand(alloc: Global, records: &Records) -> Result<Sets, NoMemory>
    ensures { IfOk result (λ s. s ≡ sets_of records.now) }
{
    Ok(Sets {
        addresses: with_members(alloc, records.address_sets())?,
        groups: with_members(alloc, records.port_groups())?,
    })
}

// Each name with the members of its record.
fn with_members<V: HasMembers>(
    alloc: Global,
    entries: &BTreeMap<Name, V>,
) -> Result<List<(Name, List<V::Member>)>, NoMemory>
    ensures { IfOk result (λ l. l ≡ map (λ e. (e.0, V.members e.1)) entries.now.entries) }
{
    let mut all = List::new(alloc);
    for (name, value) in entries {
        let members = List::from_slice(alloc, value.members())?;
        all.push((*name, members))?;
    }
    Ok(all)
}
