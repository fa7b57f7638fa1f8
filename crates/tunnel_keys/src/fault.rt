//! Why an edit gets no keys.
ghost use Rattle.std.specs.Prelude.{◌≡◌};
ghost use Rattle.tunnel_keys.specs.declared.fault.KeyFault.TheVariants.{Memory};

use ovn_base::memory::NoMemory;
use ovn_base::name::Name;

/// Why an edit gets no keys.
#[derive(Clone, Copy, PartialEq, Eq, Debug)]
pub enum KeyFault {
    /// It adds more datapaths than there are free keys.
    NoDatapathKey,
    /// It adds more ports to this datapath than there are free keys on it.
    NoPortKey(Name),
    /// Memory was wanted and not found.
    Memory,
}

impl From<NoMemory> for KeyFault {
    ghost from_gives = { λ _ e. e ≡ Memory };

    fn from(_error: NoMemory) -> KeyFault {
        KeyFault::Memory
    }
}
