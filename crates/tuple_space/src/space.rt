//! What holds the flows of a chassis in hash maps, by table, mask and values.
ghost use Rattle.std.specs.Prelude.{◌≡◌, ◌↔◌, ◌⊎◌, ◌+◌, ◌<◌, ◌≤◌, ℕ, List, [], IfOk, IfSome, IfNone, OnOk, cond, nat_eq, slice_get};
ghost use Rattle.std.specs.Cmp.Lexicographic.{pointwise};
ghost use Rattle.ovn_base.specs.lists.Among.{Among};
ghost use Rattle.ovn_base.specs.lists.Once.{EachOnce};
ghost use Rattle.flow_table.specs.declared.flow.Flow.{Flow};
ghost use Rattle.std.specs.Option.{option_copied};
ghost use Rattle.flow_table.specs.Matching.{IsBest, NoneMatches};
ghost use Rattle.tuple_space.specs.Masks.{field_values};
ghost use Rattle.tuple_space.specs.Bunches.{flows_in, promised_under, IsBetter};
ghost use Rattle.tuple_space.specs.Sieving.{HasBit, IsLetIn};
ghost use Rattle.tuple_space.specs.Space.{key_in, IsServed, IsSpaceReady, count_under, first_under};

mod each;

use crate::buckets::Buckets;
use crate::fields::{bits_of, values_of};
use crate::marks::{bit_for, has_bit};
use crate::mask::{Key, Mask, asks_of, write_masked};
use crate::masks::Masks;
use crate::number::write_key;
use crate::sieve::Sieve;
use crate::sieves::Sieves;
use crate::turns::Turns;
use flow_table::flow::SharedFlow;
use flow_table::lookup::Lookup;
use flow_table::matching::beats;
use inet_packet::packet::Packet;
use inet_packet::regs::Regs;
use ovn_base::delta::Delta;
use ovn_base::list::List;
use ovn_base::memory::NoMemory;
use std::alloc::Global;
use std::marker::Model;

// A table with no more masks than this has no sieve.
const FEW: usize = 8;

/// Flows by table, mask and values, each once. A look-up asks the masks of its table in the order of their bounds.
#[derive(Drop)]
pub struct TupleSpace {
    masks: Masks,
    turns: Turns,
    sieves: Sieves,
    buckets: Buckets,
}

impl Model for TupleSpace {
    ghost use Rattle.tuple_space.specs.Space.{Space, IsSpace};

    ghost Value = { Space };

    ghost view = { λ s. record { masks = s.masks; turns = s.turns; sieves = s.sieves; bunches = s.buckets } };

    ghost invariant = { λ s. IsSpace s.masks s.turns s.sieves s.buckets };
}

impl TupleSpace {
    /// Without flows.
    pub fn new(alloc: Global) -> Result<TupleSpace, NoMemory>
        ensures { IfOk result (λ s. flows_in s.bunches ≡ []) }
    {
        Ok(TupleSpace {
            masks: Masks::new(alloc),
            turns: Turns::new(alloc),
            sieves: Sieves::new(alloc),
            buckets: Buckets::new(alloc),
        })
    }

    // Gives the flow's mask a number, and a turn in the flow's table.
    fn serve(&mut self, flow: &SharedFlow) -> Result<(), NoMemory>
        ensures served { OnOk result (IsServed self.new.masks self.new.turns flow.now 0 0) }
        ensures stays { (f : Flow) (p r : ℕ) → IsServed self.old.masks self.old.turns f p r → IsServed self.new.masks self.new.turns f p r }
        ensures bunches { self.new.bunches ≡ self.old.bunches }
    {
        let row = flow.get();
        let cube = row.cube.get();
        let bits = bits_of(cube);
        let asks = asks_of(&bits);
        let number = self.masks.number_for(asks.as_slice(), cube.at.is_some())?;
        self.turns.add(row.table, number)
    }

    // Makes room for the flow.
    fn promise(&mut self, flow: &SharedFlow) -> Result<(), NoMemory>
        ensures masks { self.new.masks ≡ self.old.masks }
        ensures turns { self.new.turns ≡ self.old.turns }
        ensures flows { flows_in self.new.bunches ≡ flows_in self.old.bunches }
        ensures promised { OnOk result ((k : List ℕ) → promised_under self.new.bunches k ≡ promised_under self.old.bunches k + cond (pointwise nat_eq (key_in self.old.masks flow.now) k) 1 0) }
    {
        let mut key = Key::new();
        write_key(&self.masks, flow, &mut key);
        self.buckets.promise(key.as_slice())
    }

    // Takes the flow out, if it is held.
    fn take_out(&mut self, flow: &SharedFlow)
        ensures masks { self.new.masks ≡ self.old.masks }
        ensures turns { self.new.turns ≡ self.old.turns }
        ensures kept { (f : Flow) → Among f (flows_in self.new.bunches) ↔ (Among f (flows_in self.old.bunches) × ¬ (f ≡ flow.now)) }
        ensures promised { (k : List ℕ) → promised_under self.new.bunches k ≡ promised_under self.old.bunches k }
    {
        let mut key = Key::new();
        write_key(&self.masks, flow, &mut key);
        self.buckets.hold();
        self.buckets.take_out(key.as_slice(), flow);
        self.buckets.hold();
    }

    // Makes the table's sieve anew, of all flows that are held, for so many more.
    fn sift(&mut self, table: u8, coming: usize) -> Result<(), NoMemory>
        ensures masks { self.new.masks ≡ self.old.masks }
        ensures turns { self.new.turns ≡ self.old.turns }
        ensures bunches { self.new.bunches ≡ self.old.bunches }
    {
        let alloc = self.masks.allocator();
        let flows = self.buckets.len_of(table).saturating_add(coming);
        let more = self.buckets.len() / 8;
        let mut sieve = Sieve::new(
            alloc,
            self.masks.as_slice(),
            self.turns.of(table),
            flows,
            more,
        )?;
        self.buckets.note_all(&self.masks, table, &mut sieve);
        self.sieves.set(table, sieve)
    }

    // Whether the table wants a sieve for so many flows more, and has none.
    fn wants_sieve(&self, table: u8, coming: usize) -> bool {
        let masks = self.turns.of(table).len();
        FEW < masks && self.sieves.is_small(table, masks, coming)
    }

    // Puts a flow in whose mask has a number and a turn, where room was promised.
    fn put(&mut self, flow: SharedFlow)
        requires served { IsServed self.old.masks self.old.turns flow 0 0 }
        requires room { 0 < promised_under self.old.bunches (key_in self.old.masks flow) }
        requires fresh { ¬ Among flow (flows_in self.old.bunches) }
        ensures masks { self.new.masks ≡ self.old.masks }
        ensures held { (f : Flow) → Among f (flows_in self.new.bunches) ↔ ((f ≡ flow) ⊎ Among f (flows_in self.old.bunches)) }
        ensures stays { (f : Flow) (p r : ℕ) → IsServed self.old.masks self.old.turns f p r → IsServed self.new.masks self.new.turns f p r }
        ensures promised { (k : List ℕ) → promised_under self.old.bunches k ≡ promised_under self.new.bunches k + cond (pointwise nat_eq (key_in self.old.masks flow) k) 1 0 }
    {
        let mut key = Key::new();
        let number = write_key(&self.masks, &flow, &mut key);
        self.buckets.hold();
        let row = flow.get();
        self.turns.raise(row.table, number, row.priority, row.rank);
        self.sieves
            .note(row.table, number, &bits_of(row.cube.get()));
        self.buckets.put(key.as_slice(), flow);
        self.buckets.hold();
    }

    // The first of the flows that match under the mask of this number.
    fn ask(
        &self,
        table: u8,
        number: usize,
        regs: &Regs,
        packet: &Packet,
        values: &[u64; 30],
        passed: u128,
        key: &mut Key,
    ) -> Option<&SharedFlow>
        requires values { values.now ≡ field_values regs.now packet.now }
        requires passed { (bit : ℕ) → bit < 128 → IsLetIn self.now.sieves table values.now bit → HasBit passed bit }
        ensures { option_copied result ≡ first_under self.now.masks self.now.bunches table number regs.now packet.now }
    {
        self.buckets.hold();
        if !has_bit(passed, bit_for(number)) {
            return None;
        }
        match mask_at(self.masks.as_slice(), number) {
            Some(mask) => {
                write_masked(table, number, mask, values, &regs.at, key);
                self.buckets.first(key.as_slice())
            }
            None => None,
        }
    }

    // The masks of the table, so many, that are let through where the fields have these values.
    fn passed(&self, table: u8, masks: usize, values: &[u64; 30]) -> u128
        ensures { (bit : ℕ) → bit < 128 → IsLetIn self.now.sieves table values.now bit → HasBit result bit }
    {
        if masks <= FEW {
            u128::MAX
        } else {
            self.sieves.passed(table, values)
        }
    }

    // The best of the flows that match.
    fn best(&self, table: u8, regs: &Regs, packet: &Packet) -> Option<&SharedFlow>
        ensures found { IfSome result (λ f. IsBest (flows_in self.now.bunches) table regs.now packet.now f.now) }
        ensures none { IfNone result (NoneMatches (flows_in self.now.bunches) table regs.now packet.now) }
    {
        self.buckets.hold();
        let values = values_of(regs, packet);
        let turns = self.turns.of(table);
        let passed = self.passed(table, turns.len(), &values);
        let mut key = Key::new();
        let mut best: Option<&SharedFlow> = None;
        for turn in turns {
            if let Some(held) = best {
                if !turn.is_above(held) {
                    return best;
                }
            }
            let found = self.ask(table, turn.number, regs, packet, &values, passed, &mut key);
            best = better(best, found);
        }
        best
    }
}

// The mask of the number.
fn mask_at(masks: &[Mask], number: usize) -> Option<&Mask>
    ensures { option_copied result ≡ slice_get masks.now number }
{
    masks.get(number)
}

// The first of the two, unless the second beats it.
fn better<'a>(best: Option<&'a SharedFlow>, found: Option<&'a SharedFlow>) -> Option<&'a SharedFlow>
    ensures { IsBetter (option_copied best.entry) (option_copied found.entry) (option_copied result) }
{
    match best {
        None => found,
        Some(held) => match found {
            None => best,
            Some(flow) => { if beats(flow, held) { found } else { best } }
        },
    }
}

impl Lookup for TupleSpace {
    ghost flows = { λ s. flows_in s.bunches };

    ghost ready = { IsSpaceReady };

    fn lookup(&self, table: u8, regs: &Regs, packet: &Packet) -> Option<&SharedFlow> {
        self.best(table, regs, packet)
    }

    fn prepare(&mut self, delta: &Delta<SharedFlow>) -> Result<(), NoMemory> {
        self.serve_each(delta.added.as_slice())?;
        self.promise_each(delta.added.as_slice())?;
        self.sift_each(delta.added.as_slice())
    }

    fn replace(&mut self, delta: Delta<SharedFlow>) {
        let Delta { added, removed } = delta;
        self.take_out_each(removed.as_slice());
        self.put_each(added);
    }

    fn flow(&self, index: usize) -> Option<&SharedFlow> {
        self.buckets.hold();
        self.buckets.flow(index)
    }
}
