//! The tuples of packets.
ghost use Rattle.std.specs.Prelude.{◌≡◌, ◌↔◌, true, IsTrue, IfSome, Some, refl};
ghost use Rattle.std.specs.BTreeMap.{is_at};
ghost use Rattle.std.specs.Cmp.{partial_equiv_from_equiv, on_po};
ghost use Rattle.std.specs.Cmp.Lexicographic.{on_texts, on_texts_equal, texts_po, texts_ties};
ghost use Rattle.conn_table.specs.Order.{protocol_number, tuple_numbers, same_tuple, tuple_cmp};
ghost use Rattle.conn_table.specs.Tuples.{tuple_between, echo_protocol, ip4_tuple, tuple_of, reversed_protocol, reversed, is_echo_reply, has_ports, HasItsPorts};

use inet_packet::packet::{Body, Ip4Packet, Packet, Part};
use ovn_base::address::Ip4;
use std::cmp::Ordering;

/// What the packets of a tuple carry.
#[derive(Clone, Copy, PartialEq, Eq, Debug)]
pub enum Protocol {
    Tcp,
    Udp,
    /// ICMP of type 8 and code 0 (RFC 792).
    EchoRequest,
    /// ICMP of type 0 and code 0.
    EchoReply,
    /// Another protocol, by its number; also TCP and UDP whose transport header is cut.
    Other(u8),
}

/// From where to where a packet goes. The two ports of an echo are its identifier; those of another protocol are 0.
#[derive(Clone, Copy, Debug)]
pub struct Tuple {
    pub protocol: Protocol,
    pub src: Ip4,
    pub src_port: u16,
    pub dst: Ip4,
    pub dst_port: u16,
}

impl Protocol {
    // The place of the protocol in the order of tuples.
    fn number(self) -> u32
        ensures { result ≡ protocol_number self }
    {
        match self {
            Protocol::Tcp => 0,
            Protocol::Udp => 1,
            Protocol::EchoRequest => 2,
            Protocol::EchoReply => 3,
            Protocol::Other(number) => 4 + u32::from(number),
        }
    }

    /// The protocol of the answers: echo requests and replies answer one another.
    pub fn reversed(self) -> Protocol
        ensures { result ≡ reversed_protocol self }
    {
        match self {
            Protocol::EchoRequest => Protocol::EchoReply,
            Protocol::EchoReply => Protocol::EchoRequest,
            Protocol::Tcp => Protocol::Tcp,
            Protocol::Udp => Protocol::Udp,
            Protocol::Other(number) => Protocol::Other(number),
        }
    }

    // Whether it is that of an echo reply.
    pub(crate) fn is_echo_reply(self) -> bool
        ensures { result ≡ is_echo_reply self }
    {
        match self {
            Protocol::EchoReply => true,
            Protocol::Tcp | Protocol::Udp | Protocol::EchoRequest | Protocol::Other(_) => false,
        }
    }

    /// Whether its packets have ports, or an identifier.
    pub fn has_ports(self) -> bool
        ensures { result ≡ has_ports self }
    {
        match self {
            Protocol::Tcp | Protocol::Udp | Protocol::EchoRequest | Protocol::EchoReply => true,
            Protocol::Other(_) => false,
        }
    }
}

impl Tuple {
    /// The tuple of the packet. A fragment has none, nor has ICMP that is no echo or is cut, nor what isn't IPv4.
    pub fn of(packet: &Packet) -> Option<Tuple>
        ensures tuple { result ≡ tuple_of packet.now }
        ensures ports { IfSome result (λ t. HasItsPorts t.protocol t.src_port t.dst_port) }
    {
        match &packet.body {
            Body::Ip4(ip) => ip4_tuple(ip),
            Body::Arp(_) | Body::Other { .. } => None,
        }
    }

    /// The tuple of the answers: its ends swapped, and its protocol reversed.
    pub fn reversed(&self) -> Tuple
        ensures { result ≡ reversed self.now }
    {
        Tuple {
            protocol: self.protocol.reversed(),
            src: self.dst,
            src_port: self.dst_port,
            dst: self.src,
            dst_port: self.src_port,
        }
    }

    // Tuples are compared by these numbers in turn.
    fn numbers(&self) -> [u32; 5]
        ensures { result ≡ tuple_numbers self.now }
    {
        [
            self.protocol.number(),
            self.src.0,
            u32::from(self.src_port),
            self.dst.0,
            u32::from(self.dst_port),
        ]
    }
}

// A tuple between the addresses of the packet.
fn between(packet: &Ip4Packet, protocol: Protocol, src_port: u16, dst_port: u16) -> Tuple
    ensures { result ≡ tuple_between protocol src_port dst_port packet.now }
{
    Tuple {
        protocol,
        src: packet.src,
        src_port,
        dst: packet.dst,
        dst_port,
    }
}

// What an ICMP message of the type and code is, if it is an echo.
fn echo_protocol(kind: u8, code: u8) -> Option<Protocol>
    ensures { result ≡ echo_protocol kind code }
{
    if code == 0 && kind == 8 {
        Some(Protocol::EchoRequest)
    } else if code == 0 && kind == 0 {
        Some(Protocol::EchoReply)
    } else {
        None
    }
}

fn ip4_tuple(packet: &Ip4Packet) -> Option<Tuple>
    ensures { result ≡ ip4_tuple packet.now packet.now.part }
{
    match &packet.part {
        Part::Tcp {
            src_port,
            dst_port,
            ..
        } => Some(between(packet, Protocol::Tcp, *src_port, *dst_port)),
        Part::Udp {
            src_port,
            dst_port,
            ..
        } => Some(between(packet, Protocol::Udp, *src_port, *dst_port)),
        Part::Icmp {
            kind,
            code,
            ident,
            ..
        } => match echo_protocol(*kind, *code) {
            Some(protocol) => Some(between(packet, protocol, *ident, *ident)),
            None => None,
        },
        Part::OtherIp => {
            if packet.proto == 1 {
                return None;
            }
            Some(between(packet, Protocol::Other(packet.proto), 0, 0))
        }
        Part::Fragment => None,
    }
}

impl PartialEq for Tuple {
    ghost eq = { same_tuple };

    ghost laws = { partial_equiv_from_equiv (on_texts_equal tuple_numbers) };

    fn eq(&self, other: &Self) -> bool {
        self.numbers() == other.numbers()
    }
}

impl Eq for Tuple {
    ghost laws = { on_texts_equal tuple_numbers };
}

impl PartialOrd for Tuple {
    ghost partial_cmp = { λ a b. Some (tuple_cmp a b) };

    ghost laws = { on_po tuple_numbers texts_po };

    fn partial_cmp(&self, other: &Self) -> Option<Ordering> {
        Some(self.cmp(other))
    }
}

impl Ord for Tuple {
    ghost cmp = { tuple_cmp };

    ghost total = { on_texts tuple_numbers };

    ghost matches_partial_cmp = { λ a b. refl };

    ghost matches_eq = { λ a b. texts_ties (tuple_numbers a) (tuple_numbers b) };

    fn cmp(&self, other: &Self) -> Ordering {
        self.numbers().as_slice().cmp(other.numbers().as_slice())
    }
}

/// Equal tuples are the same, by `==`, by their order and by a clone.
pub fn exact_tuple()
    ensures equal { (a b : Tuple) → (⟦<Tuple as PartialEq>⟧.eq a b ≡ true) ↔ (a ≡ b) }
    ensures order { (a b : Tuple) → (is_at (⟦<Tuple as Ord>⟧.cmp a) b ≡ true) ↔ (a ≡ b) }
    ensures clone { (a b : Tuple) → ⟦<Tuple as Clone>⟧.is_clone a b → b ≡ a }
{}
