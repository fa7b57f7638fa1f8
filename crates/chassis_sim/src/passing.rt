//! A packet goes through the tables and the zones of a chassis.
ghost use Rattle.std.specs.Prelude.{◌≡◌, ℕ, [], Some, IfOk, OnOk};
ghost use Rattle.std.specs.List.{AllByRecursion};
ghost use Rattle.indexmap.specs.IndexMap.{spare};
ghost use Rattle.inet_packet.specs.Whole.{IsWhole};
ghost use Rattle.switch_engine.specs.Framed.{CanBeSent};
ghost use Rattle.switch_engine.specs.Outcome.{any_legal, of_program};
ghost use Rattle.switch_engine.specs.Proper.{IsEntry, IsProper};
ghost use Rattle.chassis_sim.specs.Changing.{HasRoomFor};
ghost use Rattle.chassis_sim.specs.Holding.{AreChassis, IsPassage, IsWalkBy, KeepsOthers, lost_at};
ghost use Rattle.chassis_sim.specs.State.{at_name};
ghost use Rattle.chassis_sim.specs.Tables.{flows_held, zones_held};

use crate::zones::ZoneMap;
use flow_table::lookup::Lookup;
use indexmap::IndexMap;
use inet_packet::packet::Packet;
use ovn_base::memory::NoMemory;
use ovn_base::name::Name;
use std::alloc::Global;
use switch_engine::effect::{Effect, Entry};
use switch_engine::engine::run;
use switch_engine::walk::RunOut;
use switch_engine::zones::Zones;

// What becomes of a packet where no tables are held.
fn lost(alloc: Global, entry: &Entry) -> Result<RunOut, NoMemory>
    ensures walk { IfOk result (λ run. run.walk ≡ []) }
    ensures effects { IfOk result (λ run. run.effects ≡ lost_at entry.now) }
    ensures can { IfOk result (λ run. AllByRecursion CanBeSent run.effects) }
{
    let mut run = RunOut::new(alloc);
    if let Entry::Tunnel { .. } = entry {
        run.effects.push(Effect::Lost)?;
    }
    Ok(run)
}

// Takes the packet through the tables and the zones: the flows that it matches, and what they do.
fn through<T: Lookup>(
    alloc: Global,
    tables: &T,
    zones: &mut Zones,
    entry: &Entry,
    packet: Packet,
    now: u64,
) -> Result<RunOut, NoMemory>
    requires proper { IsProper (T.flows tables.now) }
    requires entry { IsEntry entry.now }
    requires whole { IsWhole packet }
    ensures any { IfOk result (λ run. IsWalkBy any_legal (T.flows tables.now) entry.now now packet zones.old.zones run.walk run.effects zones.new.zones) }
    ensures own { IfOk result (λ run. IsWalkBy of_program (T.flows tables.now) entry.now now packet zones.old.zones run.walk run.effects zones.new.zones) }
    ensures can { IfOk result (λ run. AllByRecursion CanBeSent run.effects) }
    ensures more { OnOk result ((room number : ℕ) → HasRoomFor room number (Some zones.old) → HasRoomFor room number (Some zones.new)) }
    ensures room { zones.new.room ≡ zones.old.room }
{
    let mut out = RunOut::new(alloc);
    run(alloc, tables, zones, entry, packet, now, &mut out)?;
    Ok(out)
}

// Takes the packet through the tables and the zones of the chassis, if it is held. Without memory its zones may have changed.
pub(crate) fn pass<T: Lookup>(
    held: &IndexMap<Name, T>,
    zones: &mut ZoneMap,
    chassis: &Name,
    entry: &Entry,
    packet: Packet,
    now: u64,
) -> Result<RunOut, NoMemory>
    requires chassis { AreChassis (flows_held T.flows held.now.entries) (zones_held zones.old.entries) }
    requires entry { IsEntry entry.now }
    requires whole { IsWhole packet }
    ensures ok { IfOk result (IsPassage chassis.now (at_name (flows_held T.flows held.now.entries) chassis.now) entry.now now packet zones.old.entries zones.new.entries) }
    ensures chassis { AreChassis (flows_held T.flows held.now.entries) (zones_held zones.new.entries) }
    ensures others { KeepsOthers chassis.now zones.old.entries zones.new.entries }
    ensures spare { spare zones.new ≡ spare zones.old }
{
    let alloc = *held.allocator();
    let Some(tables) = held.get(chassis) else {
        return lost(alloc, entry);
    };
    let Some(lists) = zones.get_mut(chassis) else {
        unreachable!();
    };
    through(alloc, tables, lists, entry, packet, now)
}
