//! The turns of one table.
ghost use Rattle.std.specs.Prelude.{◌≡◌, ◌<◌, ◌≤◌, ℕ, OnOk, length};
ghost use Rattle.tuple_space.specs.Turns.{IsByBound, HasTurn};

use crate::turn::{Turn, index_of, place_of};
use ovn_base::memory::NoMemory;

/// Gives the mask a turn behind all others, if it has none. The others stay, also without memory.
pub fn add_turn(turns: &mut Vec<Turn>, number: usize) -> Result<(), NoMemory>
    ensures has { OnOk result (HasTurn turns.new.items number 0 0) }
    ensures kept { (n p r : ℕ) → HasTurn turns.old.items n p r → HasTurn turns.new.items n p r }
    ensures order { IsByBound turns.old.items → IsByBound turns.new.items }
{
    if index_of(turns.as_slice(), number).is_some() {
        return Ok(());
    }
    turns.push(Turn {
        number,
        priority: 0,
        rank: 0,
    })?;
    Ok(())
}

/// Raises the bound of the mask's turn to at least this, and moves it up. No memory is taken.
pub fn raise_turn(turns: &mut Vec<Turn>, number: usize, priority: u16, rank: u8)
    requires { HasTurn turns.old.items number 0 0 }
    ensures has { HasTurn turns.new.items number priority rank }
    ensures kept { (n p r : ℕ) → HasTurn turns.old.items n p r → HasTurn turns.new.items n p r }
    ensures order { IsByBound turns.old.items → IsByBound turns.new.items }
{
    let index = match index_of(turns.as_slice(), number) {
        Some(index) => index,
        None => unreachable!(),
    };
    if turns[index].holds_for(priority, rank) {
        return;
    }
    turns.remove(index);
    let place = place_of(turns.as_slice(), priority, rank);
    let turn = Turn {
        number,
        priority,
        rank,
    };
    match turns.insert(place, turn) {
        Ok(()) => {}
        Err(_) => unreachable!(),
    }
}
