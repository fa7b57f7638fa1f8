//! The flows that a packet matches on its way.
ghost use Rattle.std.specs.Prelude.{◌≡◌, ◌++◌, ◌∷◌, [], IfOk, OnOk, OnErr};

use crate::effect::Effect;
use flow_table::flow::SharedFlow;
use ovn_base::list::List;
use ovn_base::memory::NoMemory;
use ovn_base::name::Name;
use std::alloc::Global;

/// A flow that a packet matched, and the table in which it did.
#[derive(PartialEq, Eq, Debug, Drop)]
pub struct Step {
    pub table: u8,
    pub flow: SharedFlow,
}

impl Step {
    /// An equal step, which shares its flow.
    pub fn copy(&self) -> Result<Self, NoMemory>
        ensures { IfOk result (λ s. s ≡ self.now) }
    {
        Ok(Step {
            table: self.table,
            flow: self.flow.share()?,
        })
    }
}

// Adds the step that matched the flow in the table.
pub(crate) fn add_step(table: u8, flow: &SharedFlow, steps: &mut List<Step>) -> Result<(), NoMemory>
    ensures ok { OnOk result (steps.new ≡ steps.old ++ record { table = table; flow = flow.now } ∷ []) }
    ensures err { OnErr result (steps.new ≡ steps.old) }
{
    let flow = flow.share()?;
    steps.push(Step { table, flow })
}

// Equal steps, which share their flows.
fn copy_steps(steps: &List<Step>) -> Result<List<Step>, NoMemory>
    ensures { IfOk result (λ s. s ≡ steps.now) }
{
    let mut copy = List::new(steps.allocator());
    'steps: for step in steps.as_slice() {
        copy.push(step.copy()?)?;
    }
    Ok(copy)
}

/// What a walk begins with.
#[derive(Clone, Copy, PartialEq, Eq, Debug)]
pub enum Start {
    /// A packet at the port.
    Port(Name),
    /// The frame of the number, which arrived.
    Frame(u128),
}

/// The flows that were matched on a chassis, from one entry.
#[derive(PartialEq, Eq, Debug, Drop)]
pub struct Walk {
    pub chassis: Name,
    pub start: Start,
    pub steps: List<Step>,
}

impl Walk {
    /// An equal walk, whose steps share their flows.
    pub fn copy(&self) -> Result<Self, NoMemory>
        ensures { IfOk result (λ w. w ≡ self.now) }
    {
        Ok(Walk {
            chassis: self.chassis,
            start: self.start,
            steps: copy_steps(&self.steps)?,
        })
    }
}

// Most walks have no more steps, and so take memory for them once.
const USUAL: usize = 16;

// No step, with room for so many, if there is memory for it.
fn steps_for(alloc: Global, many: usize) -> List<Step>
    ensures { result ≡ [] }
{
    match Vec::with_capacity(alloc, many) {
        Ok(steps) => List::from_vec(steps),
        Err(_) => List::new(alloc),
    }
}

/// What packets came to.
#[derive(PartialEq, Eq, Debug, Drop)]
pub struct RunOut {
    /// The effects, in the order in which they happened.
    pub effects: List<Effect>,
    /// The flows that were matched, in order.
    pub walk: List<Step>,
}

impl RunOut {
    /// Nothing yet.
    pub fn new(alloc: Global) -> Self
        ensures effects { result.effects ≡ [] }
        ensures walk { result.walk ≡ [] }
    {
        RunOut {
            effects: List::new(alloc),
            walk: steps_for(alloc, USUAL),
        }
    }

    /// Equal effects in memory of their own, and equal steps.
    pub fn copy(&self) -> Result<Self, NoMemory>
        ensures { IfOk result (λ o. o ≡ self.now) }
    {
        Ok(RunOut {
            effects: copy_effects(&self.effects)?,
            walk: copy_steps(&self.walk)?,
        })
    }
}

// Equal effects in memory of their own.
fn copy_effects(effects: &List<Effect>) -> Result<List<Effect>, NoMemory>
    ensures { IfOk result (λ e. e ≡ effects.now) }
{
    let mut copy = List::new(effects.allocator());
    'effects: for effect in effects.as_slice() {
        copy.push(effect.copy()?)?;
    }
    Ok(copy)
}
