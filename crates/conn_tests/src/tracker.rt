//! A list of connections that takes every call, and tells where one doesn't fit it. So no test has to prove that its calls fit.
ghost use Rattle.std.specs.Prelude.{IsTrue};
ghost use Rattle.conn_table.specs.Connections.{IsPair};

use conn_table::connection::{CommitFault, State};
use conn_table::tuple::{Protocol, Tuple};
use conn_table::zone::Zone;
use inet_packet::packet::Packet;
use ovn_base::memory::NoMemory;
use std::alloc::Global;

// What becomes of a call.
#[derive(Clone, Copy, PartialEq, Eq, Debug)]
pub(crate) enum Told {
    New,
    Forward,
    Reply,
    Invalid,
    Added,
    Clash,
    Full,
    // It doesn't fit the list.
    Unfit,
    NoMemory,
}

#[derive(Drop)]
pub(crate) struct Tracker {
    list: Zone,
}

// Whether the two tuples form an entry.
fn is_pair(forward: &Tuple, reply: &Tuple) -> bool
    ensures { IsTrue result → IsPair forward.now reply.now }
{
    match (forward.protocol, reply.protocol) {
        (Protocol::Tcp, Protocol::Tcp) => true,
        (Protocol::Udp, Protocol::Udp) => true,
        (Protocol::EchoRequest, Protocol::EchoReply) => forward.src_port == forward.dst_port
            && reply.src_port == reply.dst_port,
        (Protocol::Other(one), Protocol::Other(other)) => one == other
            && forward.src_port == 0
            && forward.dst_port == 0
            && reply.src_port == 0
            && reply.dst_port == 0,
        _ => false,
    }
}

fn as_told(state: State) -> Told {
    match state {
        State::New => Told::New,
        State::Forward(_) => Told::Forward,
        State::Reply(_) => Told::Reply,
        State::Invalid => Told::Invalid,
    }
}

// Adds an entry of the tuples to a list in which a connection can begin with the first.
fn commit(list: &mut Zone, forward: Tuple, reply: Tuple, now: u64) -> Told {
    if !is_pair(&forward, &reply) {
        return Told::Unfit;
    }
    if !matches!(list.find(Some(&forward)), State::New) {
        return Told::Unfit;
    }
    match list.commit(forward, reply, now) {
        Ok(_) => Told::Added,
        Err(CommitFault::Clash(held)) if held == reply => Told::Clash,
        Err(CommitFault::Clash(_)) => Told::Unfit,
        Err(CommitFault::Full) => Told::Full,
        Err(CommitFault::Memory) => Told::NoMemory,
    }
}

impl Tracker {
    // No connection.
    pub(crate) fn new(alloc: Global) -> Result<Tracker, NoMemory> {
        Ok(Tracker {
            list: Zone::new(alloc)?,
        })
    }

    // What the list says of a packet of the tuple, or of one that has none.
    pub(crate) fn find(&self, tuple: Option<&Tuple>) -> Told {
        as_told(self.list.find(tuple))
    }

    // A connection begins, if it can.
    pub(crate) fn begin(&mut self, forward: Tuple, reply: Tuple, now: u64) -> Told {
        commit(&mut self.list, forward, reply, now)
    }

    // The connection of the tuple is used.
    pub(crate) fn touch(&mut self, tuple: &Tuple, now: u64) {
        if let State::Forward(slot) | State::Reply(slot) = self.list.find(Some(tuple)) {
            self.list.touch(slot, now);
        }
    }

    // The connection of the tuple is blocked.
    pub(crate) fn block(&mut self, tuple: &Tuple) {
        if let State::Forward(slot) | State::Reply(slot) = self.list.find(Some(tuple)) {
            self.list.block(slot, true);
        }
    }

    // Whether the connection of the tuple is blocked.
    pub(crate) fn is_blocked(&self, tuple: &Tuple) -> bool {
        match self.list.find(Some(tuple)) {
            State::Forward(slot) | State::Reply(slot) => self.list.entry(slot).blocked,
            State::New | State::Invalid => false,
        }
    }

    // The least port that may be picked for the answers of the tuple, if there is one and the protocol has ports.
    pub(crate) fn pick(&mut self, back: &Tuple) -> Option<u16> {
        if matches!(back.protocol, Protocol::Other(_)) {
            return None;
        }
        self.list.least_port(back)
    }

    // Ends the connections that weren't used for long.
    pub(crate) fn expire(&mut self, now: u64) {
        self.list.expire(now);
    }

    // Ends all connections.
    pub(crate) fn clear(&mut self) {
        self.list.clear();
    }

    // Translates the packet, if it is one of a connection.
    pub(crate) fn translate(&self, packet: &mut Packet) -> Told {
        let tuple = Tuple::of(packet);
        let state = self.list.find(tuple.as_ref());
        if let State::Forward(_) | State::Reply(_) = state {
            self.list.translate(state, packet);
        }
        as_told(state)
    }
}
