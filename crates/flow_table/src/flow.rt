ghost use Rattle.std.specs.Prelude.{◌≡◌, IfOk};
ghost use Rattle.flow_table.specs.Causes.{cause_name};
ghost use Rattle.flow_table.specs.declared.flow.FlowOp.TheVariants.{Balance, Copies, Frame, Output};

use crate::exact::exact_op_clone;
use crate::few::Few;
use inet_packet::cube::Cube;
use inet_packet::regs::{At, Reg};
use ovn_base::address::{Backend, Ip4, Mac};
use ovn_base::boxed::Boxed;
use ovn_base::counted::Counted;
use ovn_base::list::List;
use ovn_base::memory::NoMemory;
use ovn_base::name::Name;
use std::alloc::Global;

/// Why a packet is dropped. Most of them stand in flows. `Clash`, `Full`, `NoLiveBackend` and `NoFreePort` come of commits,
/// `HopLimit` of passing into one more datapath, and a packet that no flow finds at home drops as `Unbound`.
#[derive(Clone, Copy, PartialEq, Eq, Hash, Debug)]
pub enum Cause {
    /// The port at which it came in, or by which it would leave, is disabled.
    Disabled,
    /// Its Ethernet source is a group's address.
    BadSource,
    /// It has a VLAN tag.
    Vlan,
    /// The port security of its port doesn't allow its addresses.
    PortSecurity,
    /// A rule drops it.
    Acl,
    /// A rule rejects it.
    Reject,
    /// It belongs to no connection, and can begin none.
    Invalid,
    /// It is a reply on a connection that a rule has blocked.
    Blocked,
    /// The replies of the connection that it begins would be those of another.
    Clash,
    /// No more connections fit into the list to which its own would come.
    Full,
    /// No backend of the virtual address to which it goes is live and free to take it.
    NoLiveBackend,
    /// No port of the switch has the address.
    UnknownAddress,
    /// The packet would leave by the port at which it came in.
    Loopback,
    /// The port that has the address is bound to no chassis.
    Unbound,
    /// It came to a router, but its Ethernet destination isn't the router's.
    NotForRouter,
    /// It is an ARP packet to which the router has no answer.
    Arp,
    /// Its IPv4 source or destination is one that no router passes on.
    BadIp,
    /// Its time to live is spent.
    Ttl,
    /// It is not of IPv4, and came to a router.
    NotIp4,
    /// It is for an address of the router, which does nothing with it.
    ForRouter,
    /// The router has no route to its destination.
    NoRoute,
    /// The router knows no port that has the address of the next hop.
    NoNeighbour,
    /// No port is left to translate its source to.
    NoFreePort,
    /// It would leave the router by a port that has no partner.
    NoPeer,
    /// It has been through as many switches and routers as a packet may.
    HopLimit,
}

impl Cause {
    /// The cause's word, as lines and the texts of flows have it.
    pub fn name(self) -> &'static [u8]
        ensures { result.now ≡ cause_name self }
    {
        match self {
            Cause::Disabled => b"disabled",
            Cause::BadSource => b"bad-source",
            Cause::Vlan => b"vlan",
            Cause::PortSecurity => b"port-security",
            Cause::Acl => b"acl",
            Cause::Reject => b"reject",
            Cause::Invalid => b"invalid",
            Cause::Blocked => b"blocked",
            Cause::Clash => b"clash",
            Cause::Full => b"full",
            Cause::NoLiveBackend => b"no-live-backend",
            Cause::UnknownAddress => b"unknown-address",
            Cause::Loopback => b"loopback",
            Cause::Unbound => b"unbound",
            Cause::NotForRouter => b"not-for-router",
            Cause::Arp => b"arp",
            Cause::BadIp => b"bad-ip",
            Cause::Ttl => b"ttl",
            Cause::NotIp4 => b"not-ip4",
            Cause::ForRouter => b"for-router",
            Cause::NoRoute => b"no-route",
            Cause::NoNeighbour => b"no-neighbour",
            Cause::NoFreePort => b"no-free-port",
            Cause::NoPeer => b"no-peer",
            Cause::HopLimit => b"hop-limit",
        }
    }
}

/// The register in which the zone of a list of connections stands.
#[derive(Clone, Copy, PartialEq, Eq, Hash, Debug)]
pub enum ZoneOf {
    /// That of the port of entry.
    In,
    /// That of the port by which the packet leaves.
    Out,
    /// The gateway router's for destination NAT.
    Dnat,
    /// The gateway router's for source NAT.
    Snat,
}

/// A port that is a member of a group, as a chassis knows it.
#[derive(Clone, Copy, PartialEq, Eq, Hash, Debug)]
pub struct Member {
    /// The key of the port.
    pub key: u16,
    /// The number of the port's zone on the chassis, 0 where it has none.
    pub zone: u16,
}

/// What a flow does with a packet that it matches. Names and lists are shared by all copies, so that an operation is small.
#[derive(PartialEq, Eq, Hash, Clone, Debug, Default, Drop)]
pub enum FlowOp {
    /// Sets a register, or a flag to 0 or 1.
    Set {
        reg: Reg,
        value: u32,
    },
    /// Sets the port to which the packet goes to that of entry.
    #[default]
    OutIsIn,
    /// Looks for the packet's connection in the zone, sets the state and the flag `blocked`, and remembers the entry.
    Find(ZoneOf),
    /// Where the zone for source NAT says that the packet is a reply: touches the entry and translates.
    Undo,
    /// Translates by the remembered entry.
    Translate,
    /// The remembered entry is used now.
    Touch,
    /// The remembered entry becomes blocked.
    Block,
    /// The remembered entry is no longer blocked.
    Unblock,
    /// Adds the packet's connection to the zone.
    Commit(ZoneOf),
    /// Adds the packet's connection to the zone, with the address as its destination from now on.
    Dnat {
        zone: ZoneOf,
        ip: Ip4,
    },
    /// Adds the packet's connection to the zone, with the address as its source from now on.
    Snat {
        zone: ZoneOf,
        ip: Ip4,
    },
    /// Adds the packet's connection to the zone, with one of the backends of the virtual address as its destination.
    Balance {
        zone: ZoneOf,
        vip: Backend,
        /// Those that are online, in the order in which they are listed.
        backends: Counted<List<Backend>>,
    },
    /// Turns an ARP request into the reply that the IPv4 address is at the Ethernet address.
    ArpReply {
        mac: Mac,
        ip: Ip4,
    },
    /// Turns an echo request into its reply.
    EchoReply,
    /// Takes one from the time to live.
    DecTtl,
    /// The next hop is the destination.
    NextDst,
    /// Sets the Ethernet source.
    EthSrc(Mac),
    /// Sets the Ethernet destination.
    EthDst(Mac),
    /// Goes on at a table.
    Go(u8),
    /// Drops the packet.
    Drop(Cause),
    /// Sets the datapath and the two ports from the tunnel header, if the packet came from a tunnel.
    Header,
    /// Sends the packet as a frame to the chassis.
    Frame(Counted<Name>),
    /// Makes a copy for each member but the port of entry, which goes on to that member.
    Copies(Counted<List<Member>>),
    /// Gives the packet out of the port.
    Output(Counted<Name>),
    /// Passes the packet into another datapath: clears all registers, sets these, and goes on at the first table of the
    /// ingress pipeline.
    Patch {
        dp: u32,
        in_port: u16,
        /// The numbers of the zones of the gateway router that is entered, 0 where it has none on the chassis.
        z_dnat: u16,
        z_snat: u16,
    },
}

impl FlowOp {
    /// Sends the packet as a frame to the chassis.
    pub fn frame(alloc: Global, chassis: Name) -> Result<FlowOp, NoMemory>
        ensures { IfOk result (λ op. op ≡ Frame chassis) }
    {
        Ok(FlowOp::Frame(Counted::new(alloc, chassis)?))
    }

    /// Adds the packet's connection to the zone, with one of the backends of the virtual address as its destination.
    pub fn balance(
        alloc: Global,
        zone: ZoneOf,
        vip: Backend,
        backends: &[Backend],
    ) -> Result<FlowOp, NoMemory>
        ensures { IfOk result (λ op. op ≡ Balance zone vip backends.now) }
    {
        let backends = List::from_slice(alloc, backends)?;
        Ok(FlowOp::Balance {
            zone,
            vip,
            backends: Counted::new(alloc, backends)?,
        })
    }

    /// Makes a copy for each of the members but the port of entry.
    pub fn copies(alloc: Global, members: &[Member]) -> Result<FlowOp, NoMemory>
        ensures { IfOk result (λ op. op ≡ Copies members.now) }
    {
        let members = List::from_slice(alloc, members)?;
        Ok(FlowOp::Copies(Counted::new(alloc, members)?))
    }

    /// Gives the packet out of the port.
    pub fn output(alloc: Global, port: Name) -> Result<FlowOp, NoMemory>
        ensures { IfOk result (λ op. op ≡ Output port) }
    {
        Ok(FlowOp::Output(Counted::new(alloc, port)?))
    }
}

/// A row of a table: what it matches, and what it does. A few operations stand in it; the cube, which a look-up by masks doesn't
/// read, has memory of its own.
#[derive(PartialEq, Eq, Hash, Debug, Drop)]
pub struct Flow {
    pub table: u8,
    /// Of the flows that match, one of the greatest priority is taken.
    pub priority: u16,
    /// Of those, one of the greatest rank.
    pub rank: u8,
    pub cube: Boxed<Cube>,
    pub ops: Few<FlowOp>,
    pub cookie: u64,
}

/// A flow that is shared, not copied, where it is passed on: to the chassis, in what comes and goes, and to the steps of walks.
pub type SharedFlow = Counted<Flow>;

impl Flow {
    /// The flow with the cookie 0, to be shared.
    pub fn shared(
        alloc: Global,
        table: u8,
        priority: u16,
        rank: u8,
        cube: Cube,
        ops: &[FlowOp],
    ) -> Result<SharedFlow, NoMemory>
        ensures { IfOk result (λ f. f ≡ record { table = table; priority = priority; rank = rank; cube = cube; ops = ops.now; cookie = 0 }) }
    {
        exact_op_clone();
        let _entry: &Option<At> = &cube.at;
        let flow = Flow {
            table,
            priority,
            rank,
            cube: Boxed::new(alloc, cube)?,
            ops: Few::from_slice(alloc, ops)?,
            cookie: 0,
        };
        Counted::new(alloc, flow)
    }
}
