//! Flows in order.
ghost use Rattle.std.specs.Prelude.{◌≡◌, ◌+◌, ◌<◌, ◌≤◌, [], length, filter, not, insert, slice_get, vec_capacity, IfNone, OnOk};
ghost use Rattle.std.specs.Option.{option_copied};
ghost use Rattle.tuple_space.specs.Lines.{in_line, passes_first};

use flow_table::flow::{Flow, SharedFlow};
use ovn_base::memory::NoMemory;
use std::alloc::Global;
use std::marker::Model;

/// Flows in order. The first stands in place: most lines have no other.
#[derive(Drop)]
pub struct Line {
    first: Option<SharedFlow>,
    rest: Vec<SharedFlow>,
}

impl Model for Line {
    ghost use Rattle.std.specs.Prelude.{◌≡◌, [], IfNone, vec_capacity};
    ghost use Rattle.tuple_space.specs.Lines.{Flows, in_line, line_room};

    ghost Value = { Flows };

    ghost view = { λ l. record { flows = in_line l.first l.rest.items; room = line_room l.first l.rest.items (vec_capacity l.rest) } };

    ghost invariant = { λ l. IfNone l.first (l.rest.items ≡ []) };
}

// Puts the flow in where there is room.
fn put_at(rest: &mut Vec<SharedFlow>, place: usize, flow: SharedFlow)
    requires place { place ≤ length rest.old.items }
    requires room { length rest.old.items < vec_capacity rest.old }
    ensures items { rest.new.items ≡ insert rest.old.items place flow }
    ensures len { length rest.new.items ≡ length rest.old.items + 1 }
    ensures capacity { vec_capacity rest.old ≤ vec_capacity rest.new }
{
    match rest.insert(place, flow) {
        Ok(()) => {}
        Err(_) => unreachable!(),
    }
}

// Whether the flow is the first.
fn is_first(first: &Option<SharedFlow>, flow: &SharedFlow) -> bool
    ensures { result ≡ passes_first (λ f. ⟦<Flow as PartialEq>⟧.eq f flow.now) first.now }
{
    match first {
        Some(first) => first == flow,
        None => false,
    }
}

// Takes the first flow out, if there is one.
fn take_first(rest: &mut Vec<SharedFlow>) -> Option<SharedFlow>
    ensures items { rest.old.items ≡ in_line result rest.new.items }
    ensures none { IfNone result (rest.new.items ≡ []) }
    ensures capacity { vec_capacity rest.new ≡ vec_capacity rest.old }
{
    if rest.is_empty() {
        None
    } else {
        Some(rest.remove(0))
    }
}

impl Line {
    /// No flow, and room for one.
    pub fn new(alloc: Global) -> Line
        ensures flows { result.flows ≡ [] }
        ensures room { result.room ≡ 1 }
    {
        Line {
            first: None,
            rest: Vec::new(alloc),
        }
    }

    /// How many flows there are.
    pub fn len(&self) -> usize
        ensures { result ≡ length self.now.flows }
    {
        match &self.first {
            Some(_) => self.rest.len() + 1,
            None => 0,
        }
    }

    /// The flow at the index, counted from 0; `None` past the last.
    pub fn get(&self, index: usize) -> Option<&SharedFlow>
        ensures { option_copied result ≡ slice_get self.now.flows index }
    {
        if index == 0 {
            self.first.as_ref()
        } else {
            self.rest.get(index - 1)
        }
    }

    /// Makes room for so many flows more. The flows stay, and so does room that was there, also without memory.
    pub fn reserve(&mut self, more: usize) -> Result<(), NoMemory>
        ensures flows { self.new.flows ≡ self.old.flows }
        ensures ok { OnOk result (more ≤ self.new.room) }
        ensures room { self.old.room ≤ self.new.room }
    {
        let behind = match &self.first {
            Some(_) => more,
            None => more.saturating_sub(1),
        };
        self.rest.reserve_exact(behind)?;
        Ok(())
    }

    /// Puts the flow in at the place, where there is room. No memory is taken.
    pub fn insert(&mut self, place: usize, flow: SharedFlow)
        requires place { place ≤ length self.old.flows }
        requires room { 0 < self.old.room }
        ensures flows { self.new.flows ≡ insert self.old.flows place flow }
        ensures room { self.old.room ≤ self.new.room + 1 }
    {
        if place > 0 {
            put_at(&mut self.rest, place - 1, flow);
        } else if let Some(second) = self.first.replace(flow) {
            put_at(&mut self.rest, 0, second);
        }
    }

    /// Takes the flow out wherever it is. No memory is taken, and no room is lost.
    pub fn take_out(&mut self, flow: &SharedFlow)
        ensures flows { self.new.flows ≡ filter (λ z. not (⟦<Flow as PartialEq>⟧.eq z flow.now)) self.old.flows }
        ensures room { self.old.room ≤ self.new.room }
    {
        self.rest.retain(|held| held != flow);
        if is_first(&self.first, flow) {
            self.first = take_first(&mut self.rest);
        }
    }
}
