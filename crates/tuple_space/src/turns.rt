//! The turns of all tables.
ghost use Rattle.std.specs.Prelude.{◌≡◌, ◌<◌, ◌≤◌, ℕ, None, [], IsSome, OnOk, is_some, nat_eq};
ghost use Rattle.std.specs.Map.{lookup};
ghost use Rattle.tuple_space.specs.Turns.{IsByBound, HasTurn, turns_of};

use crate::turn::Turn;
use crate::turn_list::{add_turn, raise_turn};
use indexmap::IndexMap;
use ovn_base::memory::NoMemory;
use std::alloc::Global;
use std::marker::Model;

/// The turns of each table, in order of their bounds.
#[derive(Drop)]
pub struct Turns {
    tables: IndexMap<u8, Vec<Turn>>,
}

impl Model for Turns {
    ghost use Rattle.std.specs.Prelude.{ℕ, List};
    ghost use Rattle.tuple_space.specs.declared.turn.Turn.{Turn};
    ghost use Rattle.tuple_space.specs.Turns.{AreByBound, tables_of};

    ghost Value = { List (ℕ × List Turn) };

    ghost view = { λ s. tables_of s.tables.entries };

    ghost invariant = { λ s. AreByBound (tables_of s.tables.entries) };
}

impl Turns {
    /// No table.
    pub fn new(alloc: Global) -> Turns
        ensures { result ≡ [] }
    {
        Turns {
            tables: IndexMap::new(alloc),
        }
    }

    /// The turns of the table.
    pub fn of(&self, table: u8) -> &[Turn]
        ensures turns { result.now ≡ turns_of self.now table }
        ensures order { IsByBound result.now }
    {
        match self.tables.get(&table) {
            Some(turns) => turns.as_slice(),
            None => &[],
        }
    }

    // Whether the table has turns.
    fn has(&self, table: u8) -> bool
        ensures { result ≡ is_some (lookup (nat_eq table) self.now) }
    {
        self.tables.contains_key(&table)
    }

    // Gives the mask a turn in a table that has turns.
    fn add_there(&mut self, table: u8, number: usize) -> Result<(), NoMemory>
        requires { IsSome (lookup (nat_eq table) self.old) }
        ensures has { OnOk result (HasTurn (turns_of self.new table) number 0 0) }
        ensures kept { (k n p r : ℕ) → HasTurn (turns_of self.old k) n p r → HasTurn (turns_of self.new k) n p r }
    {
        match self.tables.get_mut(&table) {
            Some(turns) => add_turn(turns, number),
            None => unreachable!(),
        }
    }

    // Gives the mask a turn in a table that has none.
    fn add_new(&mut self, table: u8, number: usize) -> Result<(), NoMemory>
        requires { lookup (nat_eq table) self.old ≡ None }
        ensures has { OnOk result (HasTurn (turns_of self.new table) number 0 0) }
        ensures kept { (k n p r : ℕ) → HasTurn (turns_of self.old k) n p r → HasTurn (turns_of self.new k) n p r }
    {
        let alloc = *self.tables.allocator();
        let mut turns = Vec::new(alloc);
        add_turn(&mut turns, number)?;
        match self.tables.insert(table, turns) {
            Ok(_) => Ok(()),
            Err(_) => Err(NoMemory),
        }
    }

    /// Gives the mask a turn in the table, if it has none. The others stay, also without memory.
    pub fn add(&mut self, table: u8, number: usize) -> Result<(), NoMemory>
        ensures has { OnOk result (HasTurn (turns_of self.new table) number 0 0) }
        ensures kept { (k n p r : ℕ) → HasTurn (turns_of self.old k) n p r → HasTurn (turns_of self.new k) n p r }
    {
        if self.has(table) {
            self.add_there(table, number)
        } else {
            self.add_new(table, number)
        }
    }

    /// Raises the bound of the mask's turn in the table to at least this. No memory is taken.
    pub fn raise(&mut self, table: u8, number: usize, priority: u16, rank: u8)
        requires { HasTurn (turns_of self.old table) number 0 0 }
        ensures has { HasTurn (turns_of self.new table) number priority rank }
        ensures kept { (k n p r : ℕ) → HasTurn (turns_of self.old k) n p r → HasTurn (turns_of self.new k) n p r }
    {
        match self.tables.get_mut(&table) {
            Some(turns) => raise_turn(turns, number, priority, rank),
            None => unreachable!(),
        }
    }
}
