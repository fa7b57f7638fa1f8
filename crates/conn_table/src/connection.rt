//! Entries of a list of connections, and the words of its calls.
ghost use Rattle.std.specs.Prelude.{◌≡◌};
ghost use Rattle.conn_table.specs.declared.connection.CommitFault.TheVariants.{Memory};
ghost use Rattle.conn_table.specs.Connections.{idle_limit, is_idle};

use crate::idle::{OTHER_IDLE, TCP_IDLE, UDP_IDLE};
use crate::tuple::{Protocol, Tuple};
use ovn_base::memory::NoMemory;

/// A connection: the tuples of its packets both ways, whether it is blocked, and when it was used last, in seconds.
#[derive(Clone, Copy, PartialEq, Eq, Debug)]
pub struct Entry {
    pub forward: Tuple,
    pub reply: Tuple,
    pub blocked: bool,
    pub used: u64,
}

/// Names an entry of a list, by its forward tuple, as long as it is there.
#[derive(Clone, Copy, PartialEq, Eq, Debug)]
pub struct Slot {
    pub forward: Tuple,
}

/// What a list says of a packet.
#[derive(Clone, Copy, PartialEq, Eq, Debug)]
pub enum State {
    /// A connection can begin with it.
    New,
    /// It is one of this connection.
    Forward(Slot),
    /// It is an answer in this connection.
    Reply(Slot),
    /// Neither, and no connection can begin with it.
    Invalid,
}

/// Why an entry isn't added.
#[derive(Clone, Copy, PartialEq, Eq, Debug)]
pub enum CommitFault {
    /// The reply tuple is this one, which an entry has.
    Clash(Tuple),
    /// The list has as many entries as it can have.
    Full,
    /// Memory was wanted and not found.
    Memory,
}

impl From<NoMemory> for CommitFault {
    ghost from_gives = { λ _ e. e ≡ Memory };

    fn from(_error: NoMemory) -> CommitFault {
        CommitFault::Memory
    }
}

// How long a connection lasts that isn't used, in seconds.
fn idle_limit(protocol: Protocol) -> u64
    ensures { result ≡ idle_limit protocol }
{
    match protocol {
        Protocol::Tcp => TCP_IDLE,
        Protocol::Udp => UDP_IDLE,
        Protocol::EchoRequest | Protocol::EchoReply | Protocol::Other(_) => OTHER_IDLE,
    }
}

impl Entry {
    // Whether its last use lies too long back.
    pub(crate) fn is_idle(&self, now: u64) -> bool
        ensures { result ≡ is_idle now self.now }
    {
        let limit = idle_limit(self.forward.protocol);
        limit <= now && self.used <= now - limit
    }
}
