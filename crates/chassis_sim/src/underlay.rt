//! The underlay: frames on their way between chassis.
ghost use Rattle.std.specs.Prelude.{◌≡◌, ◌+◌, ◌<◌, ◌^◌, ◌++◌, ◌∷◌, [], cond, ℕ, IfOk, OnOk, OnErr, IfSome, length};
ghost use Rattle.std.specs.Option.{option_copied};
ghost use Rattle.std.specs.Map.{remove_entry};
ghost use Rattle.std.specs.BTreeMap.{is_at};
ghost use Rattle.std.specs.Ordering.{nat_cmp};
ghost use Rattle.chassis_sim.specs.Frames.{IsSent};
ghost use Rattle.chassis_sim.specs.State.{numbered};
ghost use Rattle.chassis_sim.specs.Underlay.{IsUnderway};

use ovn_base::list::Bytes;
use ovn_base::memory::NoMemory;
use ovn_base::name::Name;
use std::alloc::Global;
use std::collections::BTreeMap;
use std::marker::Model;

/// A frame on its way to a chassis.
#[derive(PartialEq, Eq, Debug, Drop)]
pub struct WaitingFrame {
    pub to: Name,
    pub bytes: Bytes,
}

// The frames that wait, by number, and the number of the next one.
#[derive(Drop)]
pub(crate) struct Underlay {
    waiting: BTreeMap<u128, WaitingFrame>,
    next: u128,
}

impl Model for Underlay {
    ghost use Rattle.std.specs.List.{AllByRecursion};
    ghost use Rattle.chassis_sim.specs.Underlay.{Underway, IsUnderway};

    ghost Value = { Underway };

    ghost view = { λ u. record { waiting = u.waiting.entries; next = u.next } };

    ghost invariant = { λ u. IsUnderway u.waiting.entries u.next };
}

impl Underlay {
    // No frame; the first will be number 1.
    pub(crate) fn new(alloc: Global) -> Self
        ensures waiting { result.waiting ≡ [] }
        ensures next { result.next ≡ 1 }
    {
        Underlay {
            waiting: BTreeMap::new(alloc),
            next: 1,
        }
    }

    // What always holds. It does nothing.
    pub(crate) fn holds(&self)
        ensures { IsUnderway self.now.waiting self.now.next }
    {
        let _next = self.next;
    }

    // How many frames wait.
    pub(crate) fn len(&self) -> usize
        ensures { result ≡ length self.now.waiting }
    {
        self.waiting.len()
    }

    // The number of the next frame.
    pub(crate) fn next(&self) -> u128
        ensures { result ≡ self.now.next }
    {
        self.next
    }

    // The frame of this number that waits.
    pub(crate) fn frame(&self, number: u128) -> Option<&WaitingFrame>
        ensures frame { option_copied result ≡ numbered self.now.waiting number }
        ensures sent { IfSome result (λ frame. IsSent frame.now.bytes) }
    {
        self.waiting.get(&number)
    }

    // Takes the frame of this number away, if it waits.
    pub(crate) fn take(&mut self, number: u128) -> Option<WaitingFrame>
        ensures frame { result ≡ numbered self.old.waiting number }
        ensures waiting { self.new.waiting ≡ remove_entry (is_at (nat_cmp number)) self.old.waiting }
        ensures next { self.new.next ≡ self.old.next }
    {
        self.waiting.remove(&number)
    }

    // Takes the frame of this number away, unless it is kept.
    pub(crate) fn arrived(&mut self, number: u128, keep: bool)
        ensures waiting { self.new.waiting ≡ cond keep self.old.waiting (remove_entry (is_at (nat_cmp number)) self.old.waiting) }
        ensures next { self.new.next ≡ self.old.next }
    {
        if keep {
            return;
        }
        self.take(number);
    }

    // Sends a frame, which waits behind the others.
    pub(crate) fn send(&mut self, to: Name, bytes: Bytes) -> Result<(), NoMemory>
        requires sent { IsSent bytes }
        requires room { self.old.next + 1 < 2 ^ 128 }
        ensures waiting { OnOk result (self.new.waiting ≡ self.old.waiting ++ (self.old.next, record { to = to; bytes = bytes }) ∷ []) }
        ensures next { OnOk result (self.new.next ≡ self.old.next + 1) }
        ensures err { OnErr result (self.new ≡ self.old) }
    {
        let frame = WaitingFrame { to, bytes };
        self.waiting.insert(self.next, frame)?;
        self.next += 1;
        Ok(())
    }
}
