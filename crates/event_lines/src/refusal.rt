//! Why an event does nothing.
ghost use Rattle.std.specs.Prelude.{◌≡◌, IfOk};

use edit_reader::event::ReadRefusal;
use nb_rules::fault::SchemaFault;
use ovn_base::address::Backend;
use ovn_base::memory::NoMemory;
use ovn_base::name::Name;

/// Why an event is refused.
#[derive(PartialEq, Eq, Debug, Drop)]
pub enum Refusal {
    /// The line was not read.
    Read(ReadRefusal),
    /// Something is wrong with the edit, or with the records that it would leave.
    Schema(SchemaFault),
    /// More datapaths are added than keys of the range are neither live nor retired.
    NoDatapathKey,
    /// More ports are added to the datapath than keys of the range are neither live nor retired on it.
    NoPortKey(Name),
    /// There is no port, chassis or balancer of the name.
    NoSuch(Name),
    /// No vip of the balancer lists the backend.
    NoSuchBackend(Backend),
    /// The port is bound to no chassis.
    NotBound(Name),
    /// There is a chassis of the name already.
    DuplicateName(Name),
    /// There are 64 chassis already.
    LimitChassis,
    /// The ranges of keys stay from the first accepted event on.
    KeysFixed,
    /// The frame has fewer than 14 bytes.
    TooShort,
    /// The frame has more than 9,216 bytes.
    TooBig,
    /// Version, header length, total length or sum of the IPv4 header is wrong (RFC 791 section 3.1).
    BadIp4,
    /// No frame of the number waits.
    NoFrame(u128),
    /// 65,536 frames or more wait already.
    TooManyFrames,
    /// The event asks for something that is not built.
    NotBuilt,
}

impl Refusal {
    /// An equal refusal in memory of its own.
    pub fn copy(&self) -> Result<Self, NoMemory>
        ensures { IfOk result (λ r. r ≡ self.now) }
    {
        match self {
            Refusal::Read(refusal) => Ok(Refusal::Read(refusal.copy()?)),
            Refusal::Schema(fault) => Ok(Refusal::Schema(*fault)),
            Refusal::NoDatapathKey => Ok(Refusal::NoDatapathKey),
            Refusal::NoPortKey(datapath) => Ok(Refusal::NoPortKey(*datapath)),
            Refusal::NoSuch(name) => Ok(Refusal::NoSuch(*name)),
            Refusal::NoSuchBackend(backend) => Ok(Refusal::NoSuchBackend(*backend)),
            Refusal::NotBound(port) => Ok(Refusal::NotBound(*port)),
            Refusal::DuplicateName(name) => Ok(Refusal::DuplicateName(*name)),
            Refusal::LimitChassis => Ok(Refusal::LimitChassis),
            Refusal::KeysFixed => Ok(Refusal::KeysFixed),
            Refusal::TooShort => Ok(Refusal::TooShort),
            Refusal::TooBig => Ok(Refusal::TooBig),
            Refusal::BadIp4 => Ok(Refusal::BadIp4),
            Refusal::NoFrame(frame) => Ok(Refusal::NoFrame(*frame)),
            Refusal::TooManyFrames => Ok(Refusal::TooManyFrames),
            Refusal::NotBuilt => Ok(Refusal::NotBuilt),
        }
    }
}

/// Why an event was not carried out.
#[derive(PartialEq, Eq, Debug, Drop)]
pub enum StepFault {
    /// The event is refused.
    Refused(Refusal),
    /// Memory was wanted and not found.
    Memory,
}

impl From<NoMemory> for StepFault {
    ghost use Rattle.std.specs.Prelude.{◌≡◌};
    ghost use Rattle.event_lines.specs.declared.refusal.StepFault.TheVariants.{Memory};

    ghost from_gives = { λ _ fault. fault ≡ Memory };

    fn from(_error: NoMemory) -> Self {
        StepFault::Memory
    }
}

impl From<Refusal> for StepFault {
    ghost use Rattle.std.specs.Prelude.{◌≡◌};
    ghost use Rattle.event_lines.specs.declared.refusal.StepFault.TheVariants.{Refused};

    ghost from_gives = { λ refusal fault. fault ≡ Refused refusal };

    fn from(refusal: Refusal) -> Self {
        StepFault::Refused(refusal)
    }
}
