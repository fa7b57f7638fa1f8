//! Values by name, side by side.
ghost use Rattle.std.specs.Prelude.{◌≡◌, [], None, Some, IfErr, IfOk, OnOk, cond};
ghost use Rattle.std.specs.BTreeMap.{is_at};
ghost use Rattle.std.specs.Cmp.Lexicographic.{slice_cmp};
ghost use Rattle.std.specs.Option.{option_copied};
ghost use Rattle.std.specs.Ordering.{nat_cmp};
ghost use Rattle.conn_zones.specs.NameMaps.{IsGapAt, IsPlaceAt};
ghost use Rattle.ovn_base.specs.declared.name.Name.{Name};
ghost use Rattle.ovn_base.specs.names.ByName.{at, put, IsByName};

use ovn_base::memory::NoMemory;
use ovn_base::name::Name;
use std::alloc::Global;
use std::marker::Model;

/// Values by name, in order of name and side by side in memory: a copy of all of them is one piece.
#[derive(Drop)]
pub struct NameMap<V> {
    entries: Vec<(Name, V)>,
}

impl<V> Model for NameMap<V> {
    ghost use Rattle.std.specs.Prelude.{List};
    ghost use Rattle.ovn_base.specs.declared.name.Name.{Name};
    ghost use Rattle.ovn_base.specs.names.ByName.{IsByName};

    ghost Value = { List (Name × V) };

    ghost view = { λ m. m.entries.items };

    ghost invariant = { λ m. IsByName m.entries.items };
}

impl<V> NameMap<V> {
    /// Nobody has a value.
    pub(crate) fn new(alloc: Global) -> NameMap<V>
        ensures { result ≡ [] }
    {
        NameMap {
            entries: Vec::new(alloc),
        }
    }

    /// The entries, in order of name.
    pub(crate) fn entries(&self) -> &[(Name, V)]
        ensures all { result.now ≡ self.now }
        ensures in_order { IsByName self.now }
    {
        self.entries.as_slice()
    }

    /// The value of the name.
    pub(crate) fn get(&self, name: &Name) -> Option<&V>
        ensures { option_copied result ≡ at self.now name.now }
    {
        match self.search(name) {
            Ok(index) => Some(&self.entries[index].1),
            Err(_) => None,
        }
    }

    /// The same as `get`, where the place `near` is tried before a search. If the name is found, `near` becomes the place behind it.
    pub(crate) fn get_near(&self, name: &Name, near: &mut usize) -> Option<&V>
        ensures { option_copied result ≡ at self.now name.now }
    {
        match self.search_near(name, *near) {
            Ok(index) => {
                *near = index + 1;
                Some(&self.entries[index].1)
            }
            Err(_) => None,
        }
    }

    // The same as `search`, where the place `near` is tried first.
    fn search_near(&self, name: &Name, near: usize) -> Result<usize, usize>
        ensures found { IfOk result (IsPlaceAt self.now name.now) }
        ensures absent { IfErr result (IsGapAt self.now name.now) }
    {
        if near < self.entries.len() && self.entries[near].0 == *name {
            return Ok(near);
        }
        self.search(name)
    }

    // Where the name is, or where it would go.
    fn search(&self, name: &Name) -> Result<usize, usize>
        ensures found { IfOk result (IsPlaceAt self.now name.now) }
        ensures absent { IfErr result (IsGapAt self.now name.now) }
    {
        self.entries.binary_search_by(|entry| entry.0.cmp(name))
    }
}

impl<V: Copy> NameMap<V> {
    /// The same entries in memory of their own.
    pub(crate) fn copy(&self) -> Result<NameMap<V>, NoMemory>
        ensures { IfOk result (λ m. m ≡ self.now) }
    {
        let alloc = *self.entries.allocator();
        Ok(NameMap {
            entries: Vec::from_slice(alloc, self.entries.as_slice())?,
        })
    }

    /// The name has the value.
    pub(crate) fn insert(&mut self, name: Name, value: V) -> Result<(), NoMemory>
        ensures entries { OnOk result (self.new ≡ put self.old name value) }
        ensures values { OnOk result ((q : Name) → at self.new q ≡ cond (is_at (slice_cmp nat_cmp name) q) (Some value) (at self.old q)) }
    {
        match self.search(&name) {
            Ok(index) => {
                self.entries[index] = (name, value);
                Ok(())
            }
            Err(index) => {
                self.entries.insert(index, (name, value))?;
                Ok(())
            }
        }
    }

    /// The name has no value.
    pub(crate) fn remove(&mut self, name: &Name)
        ensures { (q : Name) → at self.new q ≡ cond (is_at (slice_cmp nat_cmp name.now) q) None (at self.old q) }
    {
        match self.search(name) {
            Ok(index) => {
                self.entries.remove(index);
            }
            Err(_) => {}
        }
    }
}
