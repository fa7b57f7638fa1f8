ghost use Rattle.std.specs.Prelude.{⊤, [], ◌∷◌, codes};

use bitflags::{Flag, Flags, bitflag_items};
use ovn_base::name::Name;

/// Where a packet came in: at a local port, or from a tunnel.
#[derive(Clone, Copy, PartialEq, Eq, Hash, Debug)]
pub enum At {
    Local(Name),
    Tunnel,
}

/// The flags among the registers.
#[derive(Clone, Copy, PartialEq, Eq, Hash, Debug)]
pub struct RegFlags(pub u8);

bitflag_items! {
    impl RegFlags: u8 {
        const LOOPBACK = 1;
        const TRACKED = 2;
        const BLOCKED = 4;
        const OWN = 8;
        const ARRIVED = 16;
    }
}

impl Flags for RegFlags {
    type Bits = u8;

    ghost exact = { ⊤ };

    ghost table = { (codes "LOOPBACK", 1) ∷ (codes "TRACKED", 2) ∷ (codes "BLOCKED", 4) ∷ (codes "OWN", 8) ∷ (codes "ARRIVED", 16) ∷ [] };

    ghost set_of = { λ f. f.0 };

    fn flags<'a>() -> &'a [Flag<RegFlags>] {
        RegFlags::FLAGS
    }

    fn bits(&self) -> u8 {
        self.0
    }

    fn from_bits_retain(bits: u8) -> RegFlags {
        RegFlags(bits)
    }
}

/// What a packet carries through the tables.
#[derive(Clone, Copy, PartialEq, Eq, Debug)]
pub struct Regs {
    /// The key of the datapath that the packet is on (24 bits).
    pub dp: u32,
    /// The key of the port at which it came into the datapath (16 bits).
    pub in_port: u32,
    /// The key of the port or group to which it goes (16 bits).
    pub out_port: u32,
    /// The IPv4 address of the next hop.
    pub next: u32,
    /// The conntrack zones of the two ports, and the two of a gateway router (16 bits).
    pub z_in: u32,
    pub z_out: u32,
    pub z_dnat: u32,
    pub z_snat: u32,
    /// What tracking says of the packet: 0 none, 1 new, 2 forward, 3 reply, 4 invalid.
    pub state: u32,
    /// What the rules say: 0 default, 1 allow, 2 allow-related, 3 allow-stateless, 4 reject, 5 drop.
    pub verdict: u32,
    /// The tier of rules that is asked.
    pub tier: u32,
    pub flags: RegFlags,
    pub at: At,
}

/// A register or a flag, by its name.
#[derive(Clone, Copy, PartialEq, Eq, Hash, Debug)]
pub enum Reg {
    Dp,
    InPort,
    OutPort,
    Next,
    ZIn,
    ZOut,
    ZDnat,
    ZSnat,
    State,
    Verdict,
    Tier,
    Loopback,
    Tracked,
    Blocked,
    Own,
    Arrived,
}
