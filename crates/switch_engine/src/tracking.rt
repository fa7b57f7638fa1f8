//! What actions do with the connections that are there.
ghost use Rattle.std.specs.Prelude.{◌≡◌, ◌<◌};
ghost use Rattle.indexmap.specs.IndexMap.{spare};
ghost use Rattle.inet_packet.specs.Whole.{IsWhole};
ghost use Rattle.conn_table.specs.Connections.{touched, blocked_as};
ghost use Rattle.conn_table.specs.Tracking.{state_of, seen, tuple_before, NamesEntry};
ghost use Rattle.conn_table.specs.Tuples.{tuple_of};
ghost use Rattle.switch_engine.specs.Range.{IsInRange};
ghost use Rattle.switch_engine.specs.Tracking.{entry_named, entry_changed, is_of, translated_by, state_number, flag_number, noted, looked_up, found_changed, found_translates, undone_list, undone_packet, undone_zones, undone};

use crate::carried::{Carried, Found};
use crate::registers::set;
use crate::zones::ZoneMap;
use conn_table::connection::State;
use conn_table::tuple::Tuple;
use conn_table::zone::Zone;
use inet_packet::packet::Packet;
use inet_packet::regs::Reg;

// ---- one list

// What the list says of the packet.
fn state_in(zone: &Zone, packet: &Packet) -> State
    ensures seen { result ≡ state_of (seen zone.now packet.now) }
    ensures named { NamesEntry zone.now (tuple_of packet.now) result }
{
    let tuple = Tuple::of(packet);
    zone.find(tuple.as_ref())
}

// Whether the entry that the state names is there and blocked, as the flag has it.
fn blocked_flag(zone: &Zone, state: State) -> u32
    ensures flag { result ≡ flag_number (entry_named zone.now state) }
    ensures small { result < 2 }
{
    let slot = match state {
        State::Forward(slot) | State::Reply(slot) => slot,
        State::New | State::Invalid => return 0,
    };
    if zone.has(slot) {
        u32::from(zone.entry(slot).blocked)
    } else {
        0
    }
}

// The tuple of the packets that the state names.
fn tuple_named(zone: &Zone, state: State) -> Option<Tuple>
    ensures { result ≡ tuple_before zone.now state }
{
    match state {
        State::Forward(slot) if zone.has(slot) => Some(zone.entry(slot).forward),
        State::Reply(slot) if zone.has(slot) => Some(zone.entry(slot).reply),
        _ => None,
    }
}

// Whether the packet is of the entry that the state names, as the state says.
fn is_packet_of(zone: &Zone, state: State, packet: &Packet) -> bool
    ensures { result ≡ is_of (tuple_of packet.now) (tuple_before zone.now state) }
{
    let Some(tuple) = Tuple::of(packet) else {
        return false;
    };
    let Some(named) = tuple_named(zone, state) else {
        return false;
    };
    tuple == named
}

// Translates the packet by the entry that the state names.
fn translate_by(zone: &Zone, state: State, packet: &mut Packet)
    ensures packet { packet.new ≡ translated_by zone.now state packet.old }
    ensures whole { IsWhole packet.old → IsWhole packet.new }
{
    if is_packet_of(zone, state, packet) {
        zone.translate(state, packet);
    }
}

// The entry that the state names is used now.
fn touch_entry(zone: &mut Zone, state: State, now: u64)
    ensures { zone.new ≡ entry_changed (touched now) state zone.old }
{
    match state {
        State::Forward(slot) | State::Reply(slot) if zone.has(slot) => zone.touch(slot, now),
        _ => {}
    }
}

// Makes the entry that the state names blocked, or not blocked.
fn block_entry(zone: &mut Zone, state: State, on: bool)
    ensures { zone.new ≡ entry_changed (blocked_as on) state zone.old }
{
    match state {
        State::Forward(slot) | State::Reply(slot) if zone.has(slot) => zone.block(slot, on),
        _ => {}
    }
}

// A reply is used now, and translated back.
fn undo_in(zone: &mut Zone, packet: &mut Packet, now: u64)
    ensures list { zone.new ≡ undone_list now (state_of (seen zone.old packet.old)) zone.old }
    ensures packet { packet.new ≡ undone_packet zone.old (state_of (seen zone.old packet.old)) packet.old }
    ensures whole { IsWhole packet.old → IsWhole packet.new }
{
    if let State::Reply(slot) = state_in(zone, packet) {
        zone.translate(State::Reply(slot), packet);
        zone.touch(slot, now);
    }
}

// ---- the zones of a chassis

// Looks for the packet in the zone, sets what it says and remembers it.
pub(crate) fn look_up(zones: &ZoneMap, number: u16, copy: &mut Carried)
    requires { IsInRange copy.old.regs }
    ensures copy { copy.new ≡ looked_up number zones.now.entries copy.old }
    ensures in_range { IsInRange copy.new.regs }
{
    let Some(zone) = zones.get(&number) else {
        return;
    };
    let state = state_in(zone, &copy.packet);
    set(&mut copy.regs, Reg::State, number_of(state));
    set(&mut copy.regs, Reg::Blocked, blocked_flag(zone, state));
    copy.found = Some(Found {
        zone: number,
        state,
    });
}

fn number_of(state: State) -> u32
    ensures number { result ≡ state_number state }
    ensures small { result < 8 }
{
    match state {
        State::New => 1,
        State::Forward(_) => 2,
        State::Reply(_) => 3,
        State::Invalid => 4,
    }
}

// Translates the packet by what was found.
pub(crate) fn translate(zones: &ZoneMap, found: Option<Found>, packet: &mut Packet)
    ensures packet { packet.new ≡ found_translates found zones.now.entries packet.old }
    ensures whole { IsWhole packet.old → IsWhole packet.new }
{
    let Some(found) = found else {
        return;
    };
    if let Some(zone) = zones.get(&found.zone) {
        translate_by(zone, found.state, packet);
    }
}

// The entry that was found is used now.
pub(crate) fn touch(zones: &mut ZoneMap, found: Option<Found>, now: u64)
    ensures zones { zones.new.entries ≡ found_changed (touched now) found zones.old.entries }
    ensures room { spare zones.new ≡ spare zones.old }
{
    let Some(found) = found else {
        return;
    };
    if let Some(zone) = zones.get_mut(&found.zone) {
        touch_entry(zone, found.state, now);
    }
}

// Makes the entry that was found blocked, or not blocked.
pub(crate) fn block(zones: &mut ZoneMap, found: Option<Found>, on: bool)
    ensures zones { zones.new.entries ≡ found_changed (blocked_as on) found zones.old.entries }
    ensures room { spare zones.new ≡ spare zones.old }
{
    let Some(found) = found else {
        return;
    };
    if let Some(zone) = zones.get_mut(&found.zone) {
        block_entry(zone, found.state, on);
    }
}

// Where the zone says that the packet is a reply, it is used now, and translated back.
pub(crate) fn undo(zones: &mut ZoneMap, number: u16, packet: &mut Packet, now: u64)
    ensures packet { packet.new ≡ undone number zones.old.entries packet.old }
    ensures whole { IsWhole packet.old → IsWhole packet.new }
    ensures zones { zones.new.entries ≡ undone_zones now number packet.old zones.old.entries }
    ensures room { spare zones.new ≡ spare zones.old }
{
    if let Some(zone) = zones.get_mut(&number) {
        undo_in(zone, packet, now);
    }
}
