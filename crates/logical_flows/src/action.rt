use flow_table::flow::Cause;
pub use flow_table::flow::ZoneOf;
use inet_packet::regs::Reg;
use ovn_base::address::{Backend, Ip4, Mac};
use ovn_base::list::List;
use ovn_base::name::Name;

/// What a logical flow does with a packet that it matches. Ports stand by their names.
#[derive(PartialEq, Eq, Hash, Clone, Debug, Drop)]
pub enum Action {
    /// Sets a register to a number, a flag to 0 or 1, or the port or group to which the packet goes to a group's key.
    Set {
        reg: Reg,
        value: u32,
    },
    /// Sets the port to which the packet goes.
    SetOut(Name),
    /// Sets the port to which the packet goes to that of entry.
    OutIsIn,
    /// Looks for the packet's connection in the zone, sets the state and the flag `blocked`, and remembers the entry.
    Find(ZoneOf),
    /// Where the zone for source NAT says that the packet is a reply: touches the entry and translates.
    Undo,
    /// Translates by the remembered entry.
    Translate,
    /// The remembered entry is used now.
    Touch,
    /// The remembered entry becomes blocked.
    Block,
    /// The remembered entry is no longer blocked.
    Unblock,
    /// Adds the packet's connection to the zone.
    Commit(ZoneOf),
    /// Adds the packet's connection to the zone, with the address as its destination from now on.
    Dnat {
        zone: ZoneOf,
        ip: Ip4,
    },
    /// Adds the packet's connection to the zone, with the address as its source from now on.
    Snat {
        zone: ZoneOf,
        ip: Ip4,
    },
    /// Adds the packet's connection to the zone, with one of the backends of the virtual address as its destination.
    Balance {
        zone: ZoneOf,
        vip: Backend,
        /// Those that are online, in the order in which they are listed.
        backends: List<Backend>,
    },
    /// Turns an ARP request into the reply that the IPv4 address is at the Ethernet address.
    ArpReply {
        mac: Mac,
        ip: Ip4,
    },
    /// Turns an echo request into its reply.
    EchoReply,
    /// Takes one from the time to live.
    DecTtl,
    /// The next hop is the destination.
    NextDst,
    /// Sets the Ethernet source.
    EthSrc(Mac),
    /// Sets the Ethernet destination.
    EthDst(Mac),
    /// Goes on at a table.
    Go(u8),
    /// Drops the packet.
    Drop(Cause),
}
