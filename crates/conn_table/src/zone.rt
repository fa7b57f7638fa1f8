//! Lists of connections.
ghost use Rattle.std.specs.Prelude.{◌≡◌, ◌≤◌, ◌<◌, ◌+◌, [], true, false, not, nat_lt, is_some, IfSome, IfNone, length, Option, Ok, Some, IsOk, IfOk, OnOk, IfErr, OnErr, IsSome, MatchResult};
ghost use Rattle.std.specs.Option.{option_map, option_copied};
ghost use Rattle.inet_packet.specs.Transport.{HasRightSum};
ghost use Rattle.inet_packet.specs.Whole.{IsWhole};
ghost use Rattle.conn_table.specs.declared.connection.CommitFault.TheVariants.{Memory};
ghost use Rattle.conn_table.specs.declared.connection.State.{State};
ghost use Rattle.conn_table.specs.declared.connection.State.TheVariants.{New};
ghost use Rattle.conn_table.specs.declared.tuple.Tuple.{Tuple};
ghost use Rattle.conn_table.specs.Tuples.{has_ports, tuple_of};
ghost use Rattle.conn_table.specs.Connections.{entry_of, answered, is_free, begun, committed, changed, touched, blocked_as, expired, IsPair, IsConnection, IsConnectionList, CanCommit};
ghost use Rattle.conn_table.specs.HeldPorts.{IsBlock, IsFloor, NoneFreeBelow};
ghost use Rattle.conn_table.specs.Order.{tuple_cmp};
ghost use Rattle.conn_table.specs.Picks.{has_free_port, is_free_port, is_least_port, may_pick};
ghost use Rattle.std.specs.BTreeMap.{insert_entry};
ghost use Rattle.std.specs.List.{filter};
ghost use Rattle.std.specs.List.Sorted.{IsStrictlySortedBy};
ghost use Rattle.std.specs.Map.{keys_of};
ghost use Rattle.conn_table.specs.Tracking.{seen_tuple, state_of, IsHeld, NamesEntry, CanTranslate, tuple_after, translated};

use crate::connection::{CommitFault, Entry, Slot, State};
use crate::held_ports::{floor, forget_all_idle, with_port};
use crate::ports::{ALL_PORTS, BLOCK_PORTS, FIRST_PORT};
use crate::rewrite::rewrite;
use crate::tuple::Tuple;
use inet_packet::packet::Packet;
use ovn_base::limits::MAX_CONNECTIONS;
use ovn_base::memory::NoMemory;
use std::alloc::Global;
use std::collections::BTreeMap;
use std::marker::Model;

// How many blocks all ports are in.
const BLOCKS: u32 = ALL_PORTS / BLOCK_PORTS;

/// A list of connections. A contract sees its entries, each at its forward tuple, in order of these; all tuples of different
/// entries differ.
#[derive(Drop)]
pub struct Zone {
    entries: BTreeMap<Tuple, Entry>,
    // the forward tuple of each entry, at its reply tuple
    forwards: BTreeMap<Tuple, Tuple>,
    // what was learnt about held ports, at the tuples of blocks
    floors: BTreeMap<Tuple, u32>,
    // and about all ports of a tuple together, at the tuple with port 0
    starts: BTreeMap<Tuple, u32>,
}

impl Model for Zone {
    ghost use Rattle.conn_table.specs.Connections.{ConnectionList, IsZone};
    ghost use Rattle.conn_table.specs.HeldPorts.{AreLearnt};

    ghost Value = { ConnectionList };

    ghost view = { λ z. z.entries.entries };

    ghost invariant = { λ z. IsZone z.entries.entries z.forwards.entries × AreLearnt z.entries.entries z.floors.entries z.starts.entries };
}

impl Zone {
    /// No connection.
    pub fn new(alloc: Global) -> Result<Zone, NoMemory>
        ensures ok { IfOk result (λ zone. zone ≡ []) }
        ensures succeeds { IsOk result }
    {
        Ok(Zone {
            entries: BTreeMap::new(alloc),
            forwards: BTreeMap::new(alloc),
            floors: BTreeMap::new(alloc),
            starts: BTreeMap::new(alloc),
        })
    }

    /// What always holds of the entries. It does nothing.
    pub fn holds(&self)
        ensures { IsConnectionList self.now }
    {
        let _entries = &self.entries;
    }

    // The forward tuple of the entry that has the reply tuple.
    fn forward_of(&self, reply: &Tuple) -> Option<Tuple>
        ensures { result ≡ option_map (λ e. e.forward) (answered self.now reply.now) }
    {
        self.forwards.get(reply).copied()
    }

    /// What the list says of a packet of the tuple, or of one that has none. The forward tuples are looked through first.
    pub fn find(&self, tuple: Option<&Tuple>) -> State
        ensures seen { result ≡ state_of (seen_tuple self.now (option_copied tuple.entry)) }
        ensures named { NamesEntry self.now (option_copied tuple.entry) result }
    {
        self.holds();
        self.state(tuple)
    }

    fn state(&self, tuple: Option<&Tuple>) -> State
        ensures { result ≡ state_of (seen_tuple self.now (option_copied tuple.entry)) }
    {
        match tuple {
            Some(tuple) => self.state_of(tuple),
            None => State::Invalid,
        }
    }

    fn state_of(&self, tuple: &Tuple) -> State
        ensures { result ≡ state_of (seen_tuple self.now (Some tuple.now)) }
    {
        if self.entries.contains_key(tuple) {
            return State::Forward(Slot { forward: *tuple });
        }
        if let Some(forward) = self.forward_of(tuple) {
            return State::Reply(Slot { forward });
        }
        if tuple.protocol.is_echo_reply() {
            return State::Invalid;
        }
        State::New
    }

    /// Whether no entry has the tuple.
    pub fn is_free(&self, tuple: &Tuple) -> bool
        ensures { result ≡ is_free self.now tuple.now }
    {
        !self.entries.contains_key(tuple) && self.forward_of(tuple).is_none()
    }

    // What is known of the block.
    fn floor(&self, block: &Tuple) -> u32
        requires { IsBlock BLOCK_PORTS block.now }
        ensures { IsFloor BLOCK_PORTS self.now block.now result }
    {
        floor(&self.floors, block)
    }

    // The least port of the block that is free, from this one on, or the block's end.
    fn free_from(&self, block: &Tuple, floor: u32) -> u32
        requires block { IsBlock BLOCK_PORTS block.now }
        requires floor { IsFloor BLOCK_PORTS self.now block.now floor }
        ensures floor { IsFloor BLOCK_PORTS self.now block.now result }
        ensures free { result < block.now.dst_port + BLOCK_PORTS → is_free_port self.now block.now result ≡ true }
    {
        let end = u32::from(block.dst_port) + BLOCK_PORTS;
        'ports: for port in floor..end {
            if self.is_free(&with_port(port as u16, block)) {
                return port;
            }
        }
        end
    }

    // Keeps what was learnt about the block.
    fn learn(&mut self, block: &Tuple, floor: u32) -> Result<(), NoMemory>
        requires block { IsBlock BLOCK_PORTS block.now }
        requires floor { IsFloor BLOCK_PORTS self.old block.now floor }
        ensures { self.new ≡ self.old }
    {
        self.floors.insert(*block, floor)?;
        Ok(())
    }

    // The least port of the block that is free, or the block's end. Ports below it that are known to be held aren't asked for.
    fn least_in(&mut self, block: &Tuple) -> u32
        requires { IsBlock BLOCK_PORTS block.now }
        ensures floor { IsFloor BLOCK_PORTS self.old block.now result }
        ensures free { result < block.now.dst_port + BLOCK_PORTS → is_free_port self.old block.now result ≡ true }
        ensures unchanged { self.new ≡ self.old }
    {
        let known = self.floor(block);
        let port = self.free_from(block, known);
        if known < port {
            // Without memory nothing is learnt.
            let _ = self.learn(block, port);
        }
        port
    }

    // No port that may be picked is free below this number.
    fn start(&self, back: &Tuple) -> u32
        ensures low { FIRST_PORT ≤ result }
        ensures high { result ≤ ALL_PORTS }
        ensures held { NoneFreeBelow self.now back.now result }
    {
        floor(&self.starts, &with_port(0, back)).max(u32::from(FIRST_PORT))
    }

    // Keeps that no port that may be picked is free below this number.
    fn learn_start(&mut self, back: &Tuple, start: u32) -> Result<(), NoMemory>
        requires high { start ≤ ALL_PORTS }
        requires held { NoneFreeBelow self.old back.now start }
        ensures { self.new ≡ self.old }
    {
        self.starts.insert(with_port(0, back), start)?;
        Ok(())
    }

    // The least port that is free and may be picked, or the number of all ports. None is free below `start`, so nothing is asked of the
    // blocks before its own.
    fn least_from(&mut self, start: u32, back: &Tuple) -> u32
        requires low { FIRST_PORT ≤ start }
        requires high { start ≤ ALL_PORTS }
        requires held { NoneFreeBelow self.old back.now start }
        ensures low { FIRST_PORT ≤ result }
        ensures high { result ≤ ALL_PORTS }
        ensures held { NoneFreeBelow self.old back.now result }
        ensures free { result < ALL_PORTS → is_free_port self.old back.now result ≡ true }
        ensures unchanged { self.new ≡ self.old }
    {
        'each: for number in start / BLOCK_PORTS..BLOCKS {
            let first = number * BLOCK_PORTS;
            let port = self.least_in(&with_port(first as u16, back));
            if port < first + BLOCK_PORTS {
                return port;
            }
        }
        ALL_PORTS
    }

    /// The least port that is free and may be picked, if there is one: answers to it would be no other connection's. The list stays as it is;
    /// what the search learns of held ports is kept beside it where there is memory, so that a later one needn't ask for them.
    pub fn least_port(&mut self, back: &Tuple) -> Option<u16>
        requires { has_ports back.now.protocol ≡ true }
        ensures some { IfSome result (λ n. (has_free_port self.old back.now ≡ true) × (may_pick self.old back.now n ≡ true) × (is_least_port self.old back.now n ≡ true)) }
        ensures none { IfNone result (has_free_port self.old back.now ≡ false) }
        ensures unchanged { self.new ≡ self.old }
    {
        let start = self.start(back);
        let port = self.least_from(start, back);
        if start / BLOCK_PORTS < port / BLOCK_PORTS {
            // Without memory nothing is learnt.
            let _ = self.learn_start(back, port);
        }
        if port == ALL_PORTS {
            return None;
        }
        Some(port as u16)
    }

    // Whether there are as many entries as there can be.
    fn is_full(&self) -> bool
        ensures { result ≡ not (nat_lt (length self.now) MAX_CONNECTIONS) }
    {
        self.entries.len() >= MAX_CONNECTIONS
    }

    /// Adds an entry of a connection that begins now, with packets of the forward tuple, which must be new to the list, and
    /// answers of the reply tuple. Where another entry has the reply tuple the answer is `Clash` with it, else `Full` where the
    /// list has as many entries as it can have. On any fault the list stays as it was.
    pub fn commit(&mut self, forward: Tuple, reply: Tuple, now: u64) -> Result<Slot, CommitFault>
        requires is_new { state_of (seen_tuple self.old (Some forward)) ≡ New }
        requires pair { IsPair forward reply }
        ensures slot { IfOk result (λ slot. slot.forward ≡ forward) }
        ensures held { IfOk result (IsHeld self.new) }
        ensures committed { OnOk result (committed self.old forward reply now ≡ Ok self.new) }
        ensures fault { MatchResult (committed self.old forward reply now) (λ list. IfErr result (λ fault. fault ≡ Memory)) (λ fault. IfErr result (λ answer. answer ≡ fault)) }
        ensures unchanged { OnErr result (self.new ≡ self.old) }
    {
        if !self.is_free(&reply) {
            return Err(CommitFault::Clash(reply));
        }
        if self.is_full() {
            return Err(CommitFault::Full);
        }
        self.add(forward, reply, now)?;
        Ok(Slot { forward })
    }

    // Adds the entry; both tuples are free, and there is room.
    fn add(&mut self, forward: Tuple, reply: Tuple, now: u64) -> Result<(), NoMemory>
        requires { CanCommit self.old forward reply }
        ensures held { OnOk result (IsSome (entry_of self.new forward)) }
        ensures ok { OnOk result (self.new ≡ insert_entry tuple_cmp self.old forward (begun forward reply now)) }
        ensures err { OnErr result (self.new ≡ self.old) }
    {
        let entry = Entry {
            forward,
            reply,
            blocked: false,
            used: now,
        };
        self.forwards.insert(reply, forward)?;
        match self.entries.insert(forward, entry) {
            Ok(_) => Ok(()),
            Err(_) => {
                self.forwards.remove(&reply);
                Err(NoMemory)
            }
        }
    }

    /// Whether the entry of the slot is there.
    pub fn has(&self, slot: Slot) -> bool
        ensures { result ≡ is_some (entry_of self.now slot.forward) }
    {
        self.entries.contains_key(&slot.forward)
    }

    /// The entry of the slot.
    pub fn entry(&self, slot: Slot) -> &Entry
        requires { IsHeld self.now slot }
        ensures entry { entry_of self.now slot.forward ≡ Some result.now }
        ensures connection { IsConnection slot.forward result.now }
    {
        &self.entries[&slot.forward]
    }

    /// Gives the packet, whose tuple is the entry's forward or reply tuple, the reverse of the entry's reply or forward tuple.
    /// A packet stays whole, and a right transport sum stays right.
    pub fn translate(&self, state: State, packet: &mut Packet)
        requires { CanTranslate self.now (tuple_of packet.old) state }
        ensures packet { packet.new ≡ translated self.now state packet.old }
        ensures tuple { tuple_of packet.new ≡ tuple_after self.now state }
        ensures whole { IsWhole packet.old → IsWhole packet.new }
        ensures right { IsWhole packet.old → HasRightSum packet.old → HasRightSum packet.new }
    {
        match state {
            State::Forward(slot) => rewrite(packet, &self.entry(slot).reply.reversed()),
            State::Reply(slot) => rewrite(packet, &self.entry(slot).forward.reversed()),
            State::New | State::Invalid => {}
        }
    }

    /// Makes the entry of the slot blocked, or not blocked. Its last use stays.
    pub fn block(&mut self, slot: Slot, on: bool)
        requires { IsHeld self.old slot }
        ensures changed { self.new ≡ changed (blocked_as on) slot.forward self.old }
        ensures kept { (t : Option Tuple) (state : State) → NamesEntry self.old t state → NamesEntry self.new t state }
    {
        set_blocked(&mut self.entries, &slot.forward, on);
    }

    /// The last use of the entry of the slot is now.
    pub fn touch(&mut self, slot: Slot, now: u64)
        requires { IsHeld self.old slot }
        ensures changed { self.new ≡ changed (touched now) slot.forward self.old }
        ensures kept { (t : Option Tuple) (state : State) → NamesEntry self.old t state → NamesEntry self.new t state }
    {
        set_used(&mut self.entries, &slot.forward, now);
    }

    /// Ends all connections.
    pub fn clear(&mut self)
        ensures { self.new ≡ [] }
    {
        self.entries.clear();
        self.forwards.clear();
        self.floors.clear();
        self.starts.clear();
    }

    /// Ends the connections that weren't used for 300 seconds (TCP), 60 seconds (UDP) or 30 seconds (others).
    pub fn expire(&mut self, now: u64)
        ensures { self.new ≡ expired now self.old }
    {
        forget_all_idle(&mut self.floors, &mut self.starts, &self.entries, now);
        keep_active(&mut self.entries, now);
        keep_of(&mut self.forwards, &self.entries);
    }
}

// Makes the entry of the forward tuple blocked, or not blocked.
fn set_blocked(entries: &mut BTreeMap<Tuple, Entry>, forward: &Tuple, on: bool)
    ensures { entries.new.entries ≡ changed (blocked_as on) forward.now entries.old.entries }
{
    if let Some(entry) = entries.get_mut(forward) {
        entry.blocked = on;
    }
}

// The last use of the entry of the forward tuple is now.
fn set_used(entries: &mut BTreeMap<Tuple, Entry>, forward: &Tuple, now: u64)
    ensures { entries.new.entries ≡ changed (touched now) forward.now entries.old.entries }
{
    if let Some(entry) = entries.get_mut(forward) {
        entry.used = now;
    }
}

// Keeps the entries that aren't idle.
fn keep_active(entries: &mut BTreeMap<Tuple, Entry>, now: u64)
    ensures kept { entries.new.entries ≡ expired now entries.old.entries }
    ensures in_order { IsStrictlySortedBy tuple_cmp (keys_of entries.new.entries) }
    ensures fewer { length entries.new.entries ≤ length entries.old.entries }
{
    entries.retain(|_, entry| !entry.is_idle(now));
}

// Keeps the forward tuples of these entries.
fn keep_of(forwards: &mut BTreeMap<Tuple, Tuple>, entries: &BTreeMap<Tuple, Entry>)
    ensures kept { forwards.new.entries ≡ filter (λ e. is_some (entry_of entries.now.entries e.1)) forwards.old.entries }
    ensures in_order { IsStrictlySortedBy tuple_cmp (keys_of forwards.old.entries) }
{
    forwards.retain(|_, forward| entries.contains_key(&*forward));
}
