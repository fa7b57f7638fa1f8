//! The flows of one mask with the same values.
ghost use Rattle.std.specs.Prelude.{◌≡◌, ◌↔◌, ◌⊎◌, ◌+◌, ◌<◌, ◌≤◌, ℕ, List, [], length, take, drop, slice_get, IsTrue, OnOk, OnErr};
ghost use Rattle.std.specs.Option.{option_copied};
ghost use Rattle.ovn_base.specs.lists.Among.{Among};
ghost use Rattle.ovn_base.specs.lists.Once.{EachOnce};
ghost use Rattle.flow_table.specs.declared.flow.Flow.{Flow};
ghost use Rattle.flow_table.specs.Matching.{Beats};
ghost use Rattle.tuple_space.specs.Bunches.{IsFalling};
ghost use Rattle.tuple_space.specs.Masks.{cube_bits, cube_mask};
ghost use Rattle.tuple_space.specs.Sieving.{bit_of, IsLet, IsLetWhole};
ghost use Rattle.tuple_space.specs.Space.{mask_number};

use crate::line::Line;
use crate::masks::Masks;
use crate::number::note_in;
use crate::sieve::Sieve;
use flow_table::exact::exact_flow;
use flow_table::flow::SharedFlow;
use flow_table::matching::beats;
use ovn_base::memory::NoMemory;
use std::alloc::Global;
use std::marker::Model;

/// The flows of one mask with the same values, the best first, with room for as many more as were promised.
#[derive(Drop)]
pub struct Bucket {
    flows: Line,
    promised: usize,
}

impl Model for Bucket {
    ghost use Rattle.std.specs.Prelude.{◌≤◌};
    ghost use Rattle.tuple_space.specs.Bunches.{Bunch};

    ghost Value = { Bunch };

    ghost view = { λ b. record { flows = b.flows.flows; promised = b.promised } };

    ghost invariant = { λ b. b.promised ≤ b.flows.room };
}

// Where the flow belongs among those that fall: before the first that it beats.
fn place_of(flows: &Line, flow: &SharedFlow) -> usize
    ensures within { result ≤ length flows.now.flows }
    ensures before { (g : Flow) → Among g (take result flows.now.flows) → ¬ Beats flow.now g }
    ensures behind { IsFalling flows.now.flows → (g : Flow) → Among g (drop result flows.now.flows) → ¬ Beats g flow.now }
{
    for i in 0..flows.len() {
        match flows.get(i) {
            Some(held) => {
                if beats(flow, held) {
                    return i;
                }
            }
            None => unreachable!(),
        }
    }
    flows.len()
}

impl Bucket {
    /// No flow, and no room.
    pub fn new(alloc: Global) -> Bucket
        ensures flows { result.flows ≡ [] }
        ensures promised { result.promised ≡ 0 }
    {
        Bucket {
            flows: Line::new(alloc),
            promised: 0,
        }
    }

    /// How many flows there are.
    pub fn len(&self) -> usize
        ensures { result ≡ length self.now.flows }
    {
        self.flows.len()
    }

    /// The flow at the index, counted from 0; `None` past the last.
    pub fn get(&self, index: usize) -> Option<&SharedFlow>
        ensures { option_copied result ≡ slice_get self.now.flows index }
    {
        self.flows.get(index)
    }

    /// Whether there is no flow, and no room is promised.
    pub fn is_idle(&self) -> bool
        ensures { IsTrue result ↔ ((self.now.flows ≡ []) × (self.now.promised ≡ 0)) }
    {
        self.flows.len() == 0 && self.promised == 0
    }

    /// Marks the masks of the flows of the table in its sieve.
    pub fn note_all(&self, masks: &Masks, table: u8, sieve: &mut Sieve)
        ensures kept { (xs : List ℕ) (b : ℕ) → IsLet sieve.old xs b → IsLet sieve.new xs b }
        ensures noted { (f : Flow) → Among f self.now.flows → f.table ≡ table → IsLetWhole sieve.new (cube_bits f.cube) (bit_of (mask_number masks.now (cube_mask f.cube))) }
    {
        for i in 0..self.flows.len() {
            match self.flows.get(i) {
                Some(flow) => note_in(sieve, masks, table, flow),
                None => unreachable!(),
            }
        }
    }

    /// Makes room for one flow more than was promised. The flows stay, also without memory.
    pub fn promise(&mut self) -> Result<(), NoMemory>
        ensures flows { self.new.flows ≡ self.old.flows }
        ensures ok { OnOk result (self.new.promised ≡ self.old.promised + 1) }
        ensures err { OnErr result (self.new.promised ≡ self.old.promised) }
    {
        let promised = match self.promised.checked_add(1) {
            Some(promised) => promised,
            None => return Err(NoMemory),
        };
        self.flows.reserve(promised)?;
        self.promised = promised;
        Ok(())
    }

    /// Puts a flow in, where room was promised. No memory is taken.
    pub fn put(&mut self, flow: SharedFlow)
        requires { 0 < self.old.promised }
        ensures held { (f : Flow) → Among f self.new.flows ↔ ((f ≡ flow) ⊎ Among f self.old.flows) }
        ensures once { EachOnce self.old.flows → ¬ Among flow self.old.flows → EachOnce self.new.flows }
        ensures falls { IsFalling self.old.flows → IsFalling self.new.flows }
        ensures promised { self.new.promised + 1 ≡ self.old.promised }
    {
        let place = place_of(&self.flows, &flow);
        self.promised -= 1;
        self.flows.insert(place, flow);
    }

    /// Takes the flow out, if it is there. No memory is taken, and no room is lost.
    pub fn take_out(&mut self, flow: &SharedFlow)
        ensures kept { (f : Flow) → Among f self.new.flows ↔ (Among f self.old.flows × ¬ (f ≡ flow.now)) }
        ensures once { EachOnce self.old.flows → EachOnce self.new.flows }
        ensures falls { IsFalling self.old.flows → IsFalling self.new.flows }
        ensures promised { self.new.promised ≡ self.old.promised }
    {
        exact_flow();
        self.flows.take_out(flow);
    }
}
