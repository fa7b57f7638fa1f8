//! In which order the masks of a table are asked.
ghost use Rattle.std.specs.Prelude.{◌≡◌, ◌↔◌, ◌⊎◌, ◌<◌, ◌≤◌, ℕ, Some, IsTrue, IsSome, OnOk, OnErr, length, take, drop, slice_get};
ghost use Rattle.ovn_base.specs.lists.Among.{Among};
ghost use Rattle.tuple_space.specs.declared.turn.Turn.{Turn};
ghost use Rattle.tuple_space.specs.Turns.{IsUnder, IsByBound, HasTurn, turns_of};
ghost use Rattle.flow_table.specs.declared.flow.Flow.{Flow};

use flow_table::flow::SharedFlow;

/// The turn of a mask: its number, and a bound of the priority and then the rank of its flows.
#[derive(Clone, Copy, PartialEq, Eq, Debug)]
pub struct Turn {
    pub number: usize,
    pub priority: u16,
    pub rank: u8,
}

impl Turn {
    /// Whether a flow of this turn may beat the flow.
    pub fn is_above(&self, flow: &SharedFlow) -> bool
        ensures { IsTrue result ↔ ((flow.now.priority < self.now.priority) ⊎ ((flow.now.priority ≡ self.now.priority) × (flow.now.rank < self.now.rank))) }
    {
        let flow = flow.get();
        flow.priority < self.priority || flow.priority == self.priority && flow.rank < self.rank
    }

    /// Whether the bound is at least this.
    pub fn holds_for(&self, priority: u16, rank: u8) -> bool
        ensures { IsTrue result ↔ IsUnder priority rank self.now }
    {
        priority < self.priority || priority == self.priority && rank <= self.rank
    }
}

/// The index of the mask's turn.
pub fn index_of(turns: &[Turn], number: usize) -> Option<usize>
    ensures found { (i : ℕ) → result ≡ Some i → (t : Turn) × (slice_get turns.now i ≡ Some t) × (t.number ≡ number) }
    ensures some { (t : Turn) → Among t turns.now → t.number ≡ number → IsSome result }
{
    for (i, turn) in turns.iter().enumerate() {
        if turn.number == number {
            return Some(i);
        }
    }
    None
}

/// Where a bound belongs among turns that are in order: before the first that doesn't hold for it.
pub fn place_of(turns: &[Turn], priority: u16, rank: u8) -> usize
    ensures within { result ≤ length turns.now }
    ensures before { (t : Turn) → Among t (take result turns.now) → IsUnder priority rank t }
    ensures behind { IsByBound turns.now → (t : Turn) → Among t (drop result turns.now) → ¬ IsUnder priority rank t }
{
    for (i, turn) in turns.iter().enumerate() {
        if !turn.holds_for(priority, rank) {
            return i;
        }
    }
    turns.len()
}
