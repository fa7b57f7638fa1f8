//! Changes by many flows, one after the other.
ghost use Rattle.std.specs.Prelude.{◌≡◌, ◌↔◌, ◌⊎◌, ◌≤◌, ℕ, List, OnOk};
ghost use Rattle.ovn_base.specs.lists.Among.{Among};
ghost use Rattle.ovn_base.specs.lists.Once.{EachOnce};
ghost use Rattle.flow_table.specs.declared.flow.Flow.{Flow};
ghost use Rattle.tuple_space.specs.Bunches.{flows_in, promised_under};
ghost use Rattle.tuple_space.specs.Space.{IsServed, count_under};

use crate::space::TupleSpace;
use flow_table::flow::SharedFlow;
use ovn_base::list::List;
use ovn_base::memory::NoMemory;

// How many of the flows each table has.
fn tables_of(flows: &[SharedFlow]) -> [usize; 256] {
    let mut many: [usize; 256] = [0; 256];
    for flow in flows {
        let table = usize::from(flow.get().table);
        many[table] = many[table].saturating_add(1);
    }
    many
}

impl TupleSpace {
    // Gives the mask of each flow a number and a turn.
    pub(super) fn serve_each(&mut self, flows: &[SharedFlow]) -> Result<(), NoMemory>
        ensures served { OnOk result ((f : Flow) → Among f flows.now → IsServed self.new.masks self.new.turns f 0 0) }
        ensures bunches { self.new.bunches ≡ self.old.bunches }
    {
        for flow in flows {
            self.serve(flow)?;
        }
        Ok(())
    }

    // Makes room for each flow.
    pub(super) fn promise_each(&mut self, flows: &[SharedFlow]) -> Result<(), NoMemory>
        ensures masks { self.new.masks ≡ self.old.masks }
        ensures turns { self.new.turns ≡ self.old.turns }
        ensures flows { flows_in self.new.bunches ≡ flows_in self.old.bunches }
        ensures room { OnOk result ((k : List ℕ) → count_under self.old.masks k flows.now ≤ promised_under self.new.bunches k) }
    {
        for flow in flows {
            self.promise(flow)?;
        }
        Ok(())
    }

    // Takes the flows out.
    pub(super) fn take_out_each(&mut self, flows: &[SharedFlow])
        ensures masks { self.new.masks ≡ self.old.masks }
        ensures turns { self.new.turns ≡ self.old.turns }
        ensures kept { (f : Flow) → Among f (flows_in self.new.bunches) ↔ (Among f (flows_in self.old.bunches) × ¬ Among f flows.now) }
        ensures promised { (k : List ℕ) → promised_under self.new.bunches k ≡ promised_under self.old.bunches k }
    {
        for flow in flows {
            self.take_out(flow);
        }
    }

    // Puts flows in that aren't held, and for which all is ready.
    pub(super) fn put_each(&mut self, flows: List<SharedFlow>)
        requires once { EachOnce flows }
        requires served { (f : Flow) → Among f flows → IsServed self.old.masks self.old.turns f 0 0 }
        requires room { (k : List ℕ) → count_under self.old.masks k flows ≤ promised_under self.old.bunches k }
        requires fresh { (f : Flow) → Among f flows → ¬ Among f (flows_in self.old.bunches) }
        ensures { (f : Flow) → Among f (flows_in self.new.bunches) ↔ (Among f flows ⊎ Among f (flows_in self.old.bunches)) }
    {
        for flow in flows {
            self.put(flow);
        }
    }

    // Makes the sieves anew that are too small for the flows.
    pub(super) fn sift_each(&mut self, flows: &[SharedFlow]) -> Result<(), NoMemory>
        ensures masks { self.new.masks ≡ self.old.masks }
        ensures turns { self.new.turns ≡ self.old.turns }
        ensures bunches { self.new.bunches ≡ self.old.bunches }
    {
        let coming = tables_of(flows);
        for i in 0..256 {
            let table = i as u8;
            if coming[i] > 0 && self.wants_sieve(table, coming[i]) {
                self.sift(table, coming[i])?;
            }
        }
        Ok(())
    }
}
