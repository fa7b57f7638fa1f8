//! Takes packets through tables.
ghost use Rattle.std.specs.Prelude.{◌≡◌, ◌++◌, [], ◌∷◌, cond, IfOk, OnOk, OnErr, reverse};
ghost use Rattle.std.specs.List.{AllByRecursion};
ghost use Rattle.indexmap.specs.IndexMap.{spare};
ghost use Rattle.inet_packet.specs.Whole.{IsWhole};
ghost use Rattle.switch_engine.specs.Advance.{Advances, Extends, IsCarriedInRange};
ghost use Rattle.switch_engine.specs.Framed.{CanBeSent};
ghost use Rattle.switch_engine.specs.Growth.{GainsWalk, KeepsRun};
ghost use Rattle.switch_engine.specs.Outcome.{any_legal, of_program};
ghost use Rattle.switch_engine.specs.Proper.{IsEntry, IsProper};
ghost use Rattle.switch_engine.specs.Range.{IsInRange};
ghost use Rattle.switch_engine.specs.Walk.{start, unmatched};

use crate::actions::{dropped, run_ops};
use crate::carried::Carried;
use crate::effect::{Effect, Entry};
use crate::registers::cleared;
use crate::walk::{RunOut, add_step};
use crate::zones::{ZoneMap, Zones};
use flow_table::flow::Cause;
use flow_table::lookup::Lookup;
use inet_packet::packet::Packet;
use inet_packet::regs::At;
use ovn_base::list::List;
use ovn_base::memory::NoMemory;
use ovn_base::stages::LOCAL_TABLE;
use std::alloc::Global;

// The packet as it comes to table 0.
fn at_start(entry: &Entry, packet: Packet) -> Carried
    ensures { result ≡ start entry.now packet }
{
    let at = match *entry {
        Entry::Vif(port) => At::Local(port),
        Entry::Tunnel { .. } => At::Tunnel,
    };
    Carried {
        from: 0,
        table: 0,
        regs: cleared(at),
        packet,
        found: None,
        passes: 0,
    }
}

// Ends a copy that matches no flow of its table.
fn end_unmatched(entry: &Entry, copy: &Carried, effects: &mut List<Effect>) -> Result<(), NoMemory>
    requires { IsInRange copy.now.regs }
    ensures ok { OnOk result (effects.new ≡ effects.old ++ unmatched entry.now copy.now) }
    ensures err { OnErr result (Extends effects.old effects.new) }
{
    if copy.table != LOCAL_TABLE {
        return Ok(());
    }
    let effect = match *entry {
        Entry::Tunnel { .. } if copy.from == 0 => Effect::Lost,
        _ => dropped(copy.table, Cause::Unbound, &copy.regs),
    };
    effects.push(effect)
}

// Puts the copies onto the pending ones, the first of them last.
fn put_all(copies: List<Carried>, pending: &mut List<Carried>) -> Result<(), NoMemory>
    ensures { OnOk result (reverse pending.new ≡ copies ++ reverse pending.old) }
{
    let mut copies = copies;
    'copies: while let Some(copy) = copies.pop() {
        pending.push(copy)?;
    }
    Ok(())
}

// Takes a copy through the table to which it comes: adds the flow that it matches and the effects, and puts the copies that
// are made onto the pending ones, of which the last is the next to be carried. Tells whether the copy itself goes on before them.
fn advance<T: Lookup>(
    alloc: Global,
    tables: &T,
    zones: &mut ZoneMap,
    entry: &Entry,
    now: u64,
    copy: &mut Carried,
    pending: &mut List<Carried>,
    out: &mut RunOut,
) -> Result<bool, NoMemory>
    requires proper { IsProper (T.flows tables.now) }
    requires entry { IsEntry entry.now }
    requires in_range { IsCarriedInRange copy.old }
    requires all_in_range { AllByRecursion IsCarriedInRange (reverse pending.old) }
    ensures ok { IfOk result (λ goes_on. Advances (T.flows tables.now) entry.now now copy.old zones.old.entries zones.new.entries (reverse pending.old) (cond goes_on (copy.new ∷ []) [] ++ reverse pending.new) out.old out.new) }
    ensures all_in_range { IfOk result (λ goes_on. AllByRecursion IsCarriedInRange (cond goes_on (copy.new ∷ []) [] ++ reverse pending.new)) }
    ensures room { spare zones.new ≡ spare zones.old }
    ensures err { OnErr result (KeepsRun out.old out.new) }
{
    let Some(flow) = tables.lookup(copy.table, &copy.regs, &copy.packet) else {
        end_unmatched(entry, copy, &mut out.effects)?;
        return Ok(false);
    };
    add_step(copy.table, flow, &mut out.walk)?;
    let mut made = List::new(alloc);
    let goes_on = run_ops(
        entry,
        now,
        flow.get().ops.as_slice(),
        copy,
        zones,
        &mut out.effects,
        &mut made,
    )?;
    put_all(made, pending)?;
    Ok(goes_on)
}

// Takes the packet from table 0 on through the tables, until no copy of it is left.
fn walk<T: Lookup>(
    alloc: Global,
    tables: &T,
    zones: &mut ZoneMap,
    entry: &Entry,
    packet: Packet,
    now: u64,
    out: &mut RunOut,
) -> Result<(), NoMemory>
    requires proper { IsProper (T.flows tables.now) }
    requires entry { IsEntry entry.now }
    requires whole { IsWhole packet }
    ensures ok { OnOk result (GainsWalk of_program (T.flows tables.now) entry.now now packet zones.old.entries zones.new.entries out.old out.new) }
    ensures sent { AllByRecursion CanBeSent out.old.effects → OnOk result (AllByRecursion CanBeSent out.new.effects) }
    ensures room { spare zones.new ≡ spare zones.old }
    ensures err { OnErr result (KeepsRun out.old out.new) }
{
    let mut pending = List::new(alloc);
    let mut copy = at_start(entry, packet);
    'copies: loop {
        if advance(
            alloc,
            tables,
            zones,
            entry,
            now,
            &mut copy,
            &mut pending,
            out,
        )? {
            continue;
        }
        let Some(next) = pending.pop() else {
            return Ok(());
        };
        copy = next;
    }
}

/// Takes the packet at the time from table 0 on through the tables until no copy of it is left, and adds its effects and the flows that
/// it matched. Each copy is carried to its end before the next begins: first the one that the actions were done with, then
/// those that were made of it, in order. Where there is a choice, a connection goes to the backend at the sum of its source and its two
/// ports, counted through those that may be picked, and gets the least port that is free. Frames of a whole packet carry whole ones, under
/// keys that fit into a tunnel header. Without memory what was there stays, with a part of them, and the zones may have changed.
pub fn run<T: Lookup>(
    alloc: Global,
    tables: &T,
    zones: &mut Zones,
    entry: &Entry,
    packet: Packet,
    now: u64,
    out: &mut RunOut,
) -> Result<(), NoMemory>
    requires proper { IsProper (T.flows tables.now) }
    requires entry { IsEntry entry.now }
    requires whole { IsWhole packet }
    ensures ok { OnOk result (GainsWalk any_legal (T.flows tables.now) entry.now now packet zones.old.zones zones.new.zones out.old out.new) }
    ensures own { OnOk result (GainsWalk of_program (T.flows tables.now) entry.now now packet zones.old.zones zones.new.zones out.old out.new) }
    ensures sent { AllByRecursion CanBeSent out.old.effects → OnOk result (AllByRecursion CanBeSent out.new.effects) }
    ensures room { zones.new.room ≡ zones.old.room }
    ensures err { OnErr result (KeepsRun out.old out.new) }
{
    walk(alloc, tables, &mut zones.zones, entry, packet, now, out)
}
