//! Which address sets and port groups differ.
ghost use Rattle.std.specs.Prelude.{◌≡◌, ◌≢◌, ◌⊎◌, ◌↔◌, ℕ, List, true, IsTrue, IfOk, OnOk};
ghost use Rattle.std.specs.List.Sorted.{IsStrictlySortedBy};
ghost use Rattle.std.specs.Cmp.Lexicographic.{slice_cmp};
ghost use Rattle.std.specs.Ordering.{nat_cmp};
ghost use Rattle.ovn_base.specs.lists.Among.{Among};
ghost use Rattle.ovn_base.specs.names.ByName.{IsByName};
ghost use Rattle.match_cubes.specs.Points.{members_of};
ghost use Rattle.address_sets.specs.Members.{sets_of, members_there, HasOther, AreDiffering};

use crate::members::HasMembers;
use nb_records::records::Records;
use ovn_base::address::exact_set_entry;
use ovn_base::equality::{equal_where_same, exact_list};
use ovn_base::list::List;
use ovn_base::memory::NoMemory;
use ovn_base::name::{Name, exact_name};
use std::alloc::Global;
use std::collections::{BTreeMap, BTreeSet};

/// The names of address sets and of port groups whose members differ, in order of name, each once.
#[derive(Clone, PartialEq, Eq, Debug, Drop)]
pub struct ChangedSets {
    /// Address sets.
    pub sets: List<Name>,
    /// Port groups.
    pub groups: List<Name>,
}

/// The address sets and port groups whose members differ. Members are compared as lists, in the order in which they were given; a
/// name that isn't there has none.
pub fn changed(alloc: Global, old: &Records, new: &Records) -> Result<ChangedSets, NoMemory>
    ensures sets { IfOk result (λ c. AreDiffering (members_of (sets_of old.now)).entries (members_of (sets_of new.now)).entries c.sets) }
    ensures groups { IfOk result (λ c. AreDiffering (members_of (sets_of old.now)).ports (members_of (sets_of new.now)).ports c.groups) }
{
    exact_set_entry();
    exact_name();
    Ok(ChangedSets {
        sets: differing(alloc, old.address_sets(), new.address_sets())?,
        groups: differing(alloc, old.port_groups(), new.port_groups())?,
    })
}

// The names at which the members differ.
fn differing<V: HasMembers>(
    alloc: Global,
    old: &BTreeMap<Name, V>,
    new: &BTreeMap<Name, V>,
) -> Result<List<Name>, NoMemory>
    requires exact { (x y : V.Member) → V.Member.eq x y ≡ true → x ≡ y }
    requires old_sorted { IsByName old.now.entries }
    requires new_sorted { IsByName new.now.entries }
    ensures { IfOk result (λ names. AreDiffering (members_there V.members old.now.entries) (members_there V.members new.now.entries) names) }
{
    let mut names = BTreeSet::new(alloc);
    put_differing(old, new, &mut names)?;
    put_differing(new, old, &mut names)?;
    listed(alloc, &names)
}

// The names as a list, in order.
fn listed(alloc: Global, names: &BTreeSet<Name>) -> Result<List<Name>, NoMemory>
    ensures order { IfOk result (λ l. IsStrictlySortedBy (slice_cmp nat_cmp) l) }
    ensures same { IfOk result (λ l. l ≡ names.now.keys) }
{
    let mut all = List::new(alloc);
    for name in names {
        all.push(*name)?;
    }
    Ok(all)
}

// Puts the names of those entries among the names that have other members than what stands there among the others.
fn put_differing<V: HasMembers>(
    entries: &BTreeMap<Name, V>,
    others: &BTreeMap<Name, V>,
    names: &mut BTreeSet<Name>,
) -> Result<(), NoMemory>
    requires exact { (x y : V.Member) → V.Member.eq x y ≡ true → x ≡ y }
    ensures { OnOk result ((n : List ℕ) → Among n names.new.keys ↔ (Among n names.old.keys ⊎ HasOther V.members others.now.entries entries.now.entries n)) }
{
    for (name, value) in entries {
        put_if_other(name, value, others, names)?;
    }
    Ok(())
}

// Puts the name among the names, if others stand for it among the others.
fn put_if_other<V: HasMembers>(
    name: &Name,
    value: &V,
    others: &BTreeMap<Name, V>,
    names: &mut BTreeSet<Name>,
) -> Result<(), NoMemory>
    requires exact { (x y : V.Member) → V.Member.eq x y ≡ true → x ≡ y }
    ensures { OnOk result ((n : List ℕ) → Among n names.new.keys ↔ (Among n names.old.keys ⊎ ((n ≡ name.now) × (members_there V.members others.now.entries name.now ≢ V.members value.now)))) }
{
    if are_same(members_at(others, name), value.members()) {
        return Ok(());
    }
    names.insert(*name)?;
    Ok(())
}

// The members of what stands at the name; none where nothing does.
fn members_at<'a, V: HasMembers>(entries: &'a BTreeMap<Name, V>, name: &Name) -> &'a [V::Member]
    ensures { result.now ≡ members_there V.members entries.now.entries name.now }
{
    match entries.get(name) {
        Some(value) => value.members(),
        None => &[],
    }
}

// Whether they are the same, in the same order.
fn are_same<X: Eq>(a: &[X], b: &[X]) -> bool
    requires exact { (x y : X) → X.eq x y ≡ true → x ≡ y }
    ensures { IsTrue result ↔ (a.now ≡ b.now) }
{
    exact_list::<X>();
    equal_where_same::<List<X>>();
    a == b
}
