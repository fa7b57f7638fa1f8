//! What holds the flows of a chassis in a list.
ghost use Rattle.std.specs.Prelude.{◌≡◌, ◌↔◌, IfOk, IsTrue, [], length};
ghost use Rattle.flow_table.specs.HeldFlows.{IsReady};

use crate::flow::SharedFlow;
use crate::flow_list::{best_of, take_out};
use crate::lookup::Lookup;
use inet_packet::packet::Packet;
use inet_packet::regs::Regs;
use ovn_base::delta::Delta;
use ovn_base::memory::NoMemory;
use std::alloc::Global;
use std::marker::Model;

/// Flows in a list, each once. A look-up reads all of them.
#[derive(Drop)]
pub struct Tables {
    flows: Vec<SharedFlow>,
}

impl Model for Tables {
    ghost use Rattle.std.specs.Prelude.{◌-◌, vec_len};
    ghost use Rattle.std.specs.Vec.{vec_capacity};
    ghost use Rattle.ovn_base.specs.lists.Once.{EachOnce};
    ghost use Rattle.flow_table.specs.HeldFlows.{HeldFlows};

    ghost Value = { HeldFlows };

    ghost view = { λ t. record { flows = t.flows.items; room = vec_capacity t.flows - vec_len t.flows } };

    ghost invariant = { λ t. EachOnce t.flows.items };
}

impl Tables {
    /// Without flows.
    pub fn new(alloc: Global) -> Result<Tables, NoMemory>
        ensures { IfOk result (λ t. t.flows ≡ []) }
    {
        Ok(Tables {
            flows: Vec::new(alloc),
        })
    }

    /// How many flows are held.
    pub fn len(&self) -> usize
        ensures { result ≡ length self.now.flows }
    {
        self.flows.len()
    }

    /// Whether no flow is held.
    pub fn is_empty(&self) -> bool
        ensures { IsTrue result ↔ (self.now.flows ≡ []) }
    {
        self.flows.is_empty()
    }
}

impl Lookup for Tables {
    ghost flows = { λ t. t.flows };

    ghost ready = { IsReady };

    fn lookup(&self, table: u8, regs: &Regs, packet: &Packet) -> Option<&SharedFlow> {
        best_of(&self.flows, table, regs, packet)
    }

    fn prepare(&mut self, delta: &Delta<SharedFlow>) -> Result<(), NoMemory> {
        self.flows.reserve(delta.added.len())?;
        Ok(())
    }

    fn replace(&mut self, delta: Delta<SharedFlow>) {
        let Delta { added, removed } = delta;
        take_out(&mut self.flows, &removed);
        let mut added = added.into_vec();
        match self.flows.append(&mut added) {
            Ok(()) => {}
            Err(_) => unreachable!(),
        }
    }

    fn flow(&self, index: usize) -> Option<&SharedFlow> {
        self.flows.get(index)
    }
}
