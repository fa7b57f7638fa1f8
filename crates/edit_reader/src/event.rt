//! What a line asks for.
ghost use Rattle.std.specs.Prelude.{◌≡◌, IfOk};

use match_language::fault::MatchFault;
use nb_records::change::Op;
use nb_records::exact::exact_op;
use ovn_base::address::Backend;
use ovn_base::list::{Bytes, List};
use ovn_base::memory::NoMemory;
use ovn_base::name::Name;
use std::alloc::{AllocError, AllocFailed};

/// What a line asks for.
#[derive(PartialEq, Eq, Debug, Drop)]
pub enum Event {
    /// The 1 to 64 operations are applied in their order.
    Edit(List<Op>),
    /// The port is at home on the chassis.
    Bind {
        port: Name,
        chassis: Name,
    },
    /// The port is at home nowhere.
    Unbind {
        port: Name,
    },
    /// The chassis is there from now on.
    AddChassis(Name),
    /// The chassis is there no more.
    RemoveChassis(Name),
    /// Datapath keys are 1 to `datapaths` (at most 16,777,215), port keys 1 to `ports` (at most 32,767).
    Keys {
        datapaths: u32,
        ports: u16,
    },
    /// The balancer's backend is marked online or offline.
    Health {
        balancer: Name,
        backend: Backend,
        online: bool,
    },
    /// So many seconds pass, at most 1,000,000.
    Clock {
        seconds: u64,
    },
    /// The frame enters at the port. Its bytes begin with the destination, the source and the type (IEEE 802.3 section 3.2).
    Inject {
        port: Name,
        frame: Bytes,
    },
    /// The waiting frame of the number arrives, and waits no more.
    Deliver {
        frame: u64,
    },
    /// The waiting frame of the number waits no more.
    Lose {
        frame: u64,
    },
    /// The waiting frame of the number arrives, and still waits.
    Repeat {
        frame: u64,
    },
    /// The waiting frames arrive, the lowest first, until none waits or 65,536 arrived.
    Drain,
    /// The frame enters at the port and is carried to its ends. Its bytes begin with the destination, the source and the
    /// type (IEEE 802.3 section 3.2).
    Packet {
        port: Name,
        frame: Bytes,
    },
    /// The line was not read.
    Unread(ReadRefusal),
}

/// Why a line was not read. The bytes name a field, or the object that is not of the stated kind.
#[derive(PartialEq, Eq, Debug, Drop)]
pub enum ReadRefusal {
    /// The line has over 1,048,576 bytes.
    TooLong,
    /// The line is no JSON text (RFC 8259).
    BadJson,
    /// The line, or an operation of an edit, is no object.
    NotObject,
    /// The object names no event, or more than one; or the operation names no verb and kind.
    UnknownEvent,
    /// The object has a field that it may not have: the first such in byte order.
    UnknownField(Bytes),
    /// The field has to be there and is not.
    MissingField(Bytes),
    /// The value is of another kind of JSON than the field's.
    WrongKind(Bytes),
    /// The value is outside the field's range or grammar.
    OutOfRange(Bytes),
    /// The match spells no expression.
    BadMatch(MatchFault),
}

/// Why there is no event.
#[derive(PartialEq, Eq, Debug, Drop)]
pub enum ReadError {
    /// The line is refused, whatever memory there is.
    Refused(ReadRefusal),
    /// Memory was wanted and not found.
    Memory,
}

impl From<NoMemory> for ReadError {
    ghost use Rattle.std.specs.Prelude.{◌≡◌};
    ghost use Rattle.edit_reader.specs.declared.event.ReadError.TheVariants.{Memory};

    ghost from_gives = { λ _ error. error ≡ Memory };

    fn from(_error: NoMemory) -> Self {
        ReadError::Memory
    }
}

impl From<AllocError> for ReadError {
    ghost use Rattle.std.specs.Prelude.{◌≡◌};
    ghost use Rattle.edit_reader.specs.declared.event.ReadError.TheVariants.{Memory};

    ghost from_gives = { λ _ error. error ≡ Memory };

    fn from(_error: AllocError) -> Self {
        ReadError::Memory
    }
}

impl<T: Drop> From<AllocFailed<T>> for ReadError {
    ghost use Rattle.std.specs.Prelude.{◌≡◌};
    ghost use Rattle.edit_reader.specs.declared.event.ReadError.TheVariants.{Memory};

    ghost from_gives = { λ _ error. error ≡ Memory };

    fn from(_error: AllocFailed<T>) -> Self {
        ReadError::Memory
    }
}

impl ReadRefusal {
    /// An equal refusal.
    pub fn copy(&self) -> Result<ReadRefusal, NoMemory>
        ensures { IfOk result (λ refusal. refusal ≡ self.now) }
    {
        match self {
            ReadRefusal::TooLong => Ok(ReadRefusal::TooLong),
            ReadRefusal::BadJson => Ok(ReadRefusal::BadJson),
            ReadRefusal::NotObject => Ok(ReadRefusal::NotObject),
            ReadRefusal::UnknownEvent => Ok(ReadRefusal::UnknownEvent),
            ReadRefusal::UnknownField(name) => Ok(ReadRefusal::UnknownField(name.copy()?)),
            ReadRefusal::MissingField(name) => Ok(ReadRefusal::MissingField(name.copy()?)),
            ReadRefusal::WrongKind(name) => Ok(ReadRefusal::WrongKind(name.copy()?)),
            ReadRefusal::OutOfRange(name) => Ok(ReadRefusal::OutOfRange(name.copy()?)),
            ReadRefusal::BadMatch(fault) => Ok(ReadRefusal::BadMatch(*fault)),
        }
    }
}

impl Event {
    /// An equal event in memory of its own.
    pub fn copy(&self) -> Result<Event, NoMemory>
        ensures { IfOk result (λ event. event ≡ self.now) }
    {
        match self {
            Event::Edit(ops) => {
                exact_op();
                Ok(Event::Edit(ops.copy()?))
            }
            Event::Bind { port, chassis } => Ok(Event::Bind {
                port: *port,
                chassis: *chassis,
            }),
            Event::Unbind { port } => Ok(Event::Unbind { port: *port }),
            Event::AddChassis(name) => Ok(Event::AddChassis(*name)),
            Event::RemoveChassis(name) => Ok(Event::RemoveChassis(*name)),
            Event::Keys { datapaths, ports } => Ok(Event::Keys {
                datapaths: *datapaths,
                ports: *ports,
            }),
            Event::Health {
                balancer,
                backend,
                online,
            } => Ok(Event::Health {
                balancer: *balancer,
                backend: *backend,
                online: *online,
            }),
            Event::Clock { seconds } => Ok(Event::Clock { seconds: *seconds }),
            Event::Inject { port, frame } => Ok(Event::Inject {
                port: *port,
                frame: frame.copy()?,
            }),
            Event::Deliver { frame } => Ok(Event::Deliver { frame: *frame }),
            Event::Lose { frame } => Ok(Event::Lose { frame: *frame }),
            Event::Repeat { frame } => Ok(Event::Repeat { frame: *frame }),
            Event::Drain => Ok(Event::Drain),
            Event::Packet { port, frame } => Ok(Event::Packet {
                port: *port,
                frame: frame.copy()?,
            }),
            Event::Unread(refusal) => Ok(Event::Unread(refusal.copy()?)),
        }
    }
}
