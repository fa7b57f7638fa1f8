//! What the tables do with a packet.
ghost use Rattle.std.specs.Prelude.{◌≡◌, IfOk};

use flow_table::flow::Cause;
use inet_packet::packet::Packet;
use ovn_base::address::Backend;
use ovn_base::list::Bytes;
use ovn_base::memory::NoMemory;
use ovn_base::name::Name;

/// Where a packet comes to the tables of a chassis.
#[derive(Clone, Copy, PartialEq, Eq, Debug)]
pub enum Entry {
    /// At the local port.
    Vif(Name),
    /// From a tunnel, with the keys of its header: of the datapath (24 bits), of the port of entry (15 bits), and of the
    /// port or group to which the packet goes.
    Tunnel { vni: u32, in_key: u16, out_key: u16 },
}

/// What the tables of a chassis do with a packet.
#[derive(PartialEq, Eq, Debug, Drop)]
pub enum Effect {
    /// The packet leaves the port.
    Out {
        port: Name,
        packet: Packet,
    },
    /// The packet is sent as a frame to the chassis, with the keys of its datapath (24 bits), of the port of entry (15 bits),
    /// and of the port or group to which it goes.
    Frame {
        chassis: Name,
        vni: u32,
        in_key: u16,
        out_key: u16,
        packet: Packet,
    },
    /// The packet is dropped on the datapath of the key (24 bits) at the port of the key (16 bits).
    Drop {
        vni: u32,
        port: u16,
        cause: Cause,
    },
    /// On the datapath of the key a new connection to the virtual address goes to the backend.
    PickBackend {
        vni: u32,
        vip: Backend,
        backend: Backend,
    },
    /// On the datapath of the key the source port of a new connection becomes this one.
    PickPort {
        vni: u32,
        port: u16,
    },
    /// The packet came from a tunnel for a port that isn't here.
    Lost,
}

impl Effect {
    /// An equal effect in memory of its own.
    pub fn copy(&self) -> Result<Self, NoMemory>
        ensures { IfOk result (λ e. e ≡ self.now) }
    {
        match self {
            Effect::Out { port, packet } => Ok(Effect::Out {
                port: *port,
                packet: packet.copy()?,
            }),
            Effect::Frame {
                chassis,
                vni,
                in_key,
                out_key,
                packet,
            } => Ok(Effect::Frame {
                chassis: *chassis,
                vni: *vni,
                in_key: *in_key,
                out_key: *out_key,
                packet: packet.copy()?,
            }),
            Effect::Drop { vni, port, cause } => Ok(Effect::Drop {
                vni: *vni,
                port: *port,
                cause: *cause,
            }),
            Effect::PickBackend { vni, vip, backend } => Ok(Effect::PickBackend {
                vni: *vni,
                vip: *vip,
                backend: *backend,
            }),
            Effect::PickPort { vni, port } => Ok(Effect::PickPort {
                vni: *vni,
                port: *port,
            }),
            Effect::Lost => Ok(Effect::Lost),
        }
    }
}

/// What an event does in the network, with names in place of keys.
#[derive(PartialEq, Eq, Debug, Drop)]
pub enum NetEffect {
    /// A datapath is given a key of 24 bits.
    DatapathKey {
        name: Name,
        key: u32,
    },
    /// A port is given a key of 15 bits.
    PortKey {
        name: Name,
        key: u16,
    },
    /// On the datapath a new connection to the virtual address goes to the backend.
    PickBackend {
        datapath: Name,
        vip: Backend,
        backend: Backend,
    },
    /// On the router the source port of a new connection becomes this one.
    PickPort {
        router: Name,
        port: u16,
    },
    /// The bytes are the frame of the number, which is sent from one chassis to another.
    Tunnel {
        frame: u128,
        from: Name,
        to: Name,
        bytes: Bytes,
    },
    /// The packet leaves the port.
    Out {
        port: Name,
        packet: Packet,
    },
    /// A packet is dropped on the datapath at the port.
    Drop {
        datapath: Name,
        port: Name,
        cause: Cause,
    },
    /// The frame of the number is lost where it arrived.
    Lost {
        frame: u128,
    },
}

impl NetEffect {
    /// An equal effect in memory of its own.
    pub fn copy(&self) -> Result<Self, NoMemory>
        ensures { IfOk result (λ e. e ≡ self.now) }
    {
        match self {
            NetEffect::DatapathKey { name, key } => Ok(NetEffect::DatapathKey {
                name: *name,
                key: *key,
            }),
            NetEffect::PortKey { name, key } => Ok(NetEffect::PortKey {
                name: *name,
                key: *key,
            }),
            NetEffect::PickBackend {
                datapath,
                vip,
                backend,
            } => Ok(NetEffect::PickBackend {
                datapath: *datapath,
                vip: *vip,
                backend: *backend,
            }),
            NetEffect::PickPort { router, port } => Ok(NetEffect::PickPort {
                router: *router,
                port: *port,
            }),
            NetEffect::Tunnel {
                frame,
                from,
                to,
                bytes,
            } => Ok(NetEffect::Tunnel {
                frame: *frame,
                from: *from,
                to: *to,
                bytes: bytes.copy()?,
            }),
            NetEffect::Out { port, packet } => Ok(NetEffect::Out {
                port: *port,
                packet: packet.copy()?,
            }),
            NetEffect::Drop {
                datapath,
                port,
                cause,
            } => Ok(NetEffect::Drop {
                datapath: *datapath,
                port: *port,
                cause: *cause,
            }),
            NetEffect::Lost { frame } => Ok(NetEffect::Lost { frame: *frame }),
        }
    }
}
