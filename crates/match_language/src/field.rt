//! Fields and predicates, with their names.
ghost use Rattle.std.specs.Prelude.{◌≡◌};
ghost use Rattle.std.specs.List.{find};
ghost use Rattle.match_language.specs.Tables as spec;

/// A field of a packet, or a port that it passes.
#[derive(Clone, Copy, PartialEq, Eq, Hash, Debug)]
pub enum Field {
    EthSrc,
    EthDst,
    EthType,
    Ip4Src,
    Ip4Dst,
    IpProto,
    IpTtl,
    TcpSrc,
    TcpDst,
    UdpSrc,
    UdpDst,
    Icmp4Type,
    Icmp4Code,
    ArpOp,
    ArpSpa,
    ArpTpa,
    ArpSha,
    ArpTha,
    /// The port by which the packet comes, by its name.
    Inport,
    /// The port by which the packet leaves, by its name. It stands in to-lport rules alone.
    Outport,
}

/// A word that is true or false of a packet.
#[derive(Clone, Copy, PartialEq, Eq, Hash, Debug)]
pub enum Predicate {
    Ip4,
    Ip6,
    Arp,
    /// IPv4 or IPv6.
    Ip,
    Tcp,
    Udp,
    Icmp4,
    /// The Ethernet destination is all ones.
    EthBcast,
    /// The Ethernet destination has the multicast bit.
    EthMcast,
    /// The IPv4 destination is in 224.0.0.0/4.
    Ip4Mcast,
}

/// The way that a rule's packets go, seen from the switch's ports.
#[derive(Clone, Copy, PartialEq, Eq, Hash, Debug)]
pub enum Direction {
    FromLport,
    ToLport,
}

// The field of Ethernet or ARP of that name.
fn link_named(word: &[u8]) -> Option<Field>
    ensures { result ≡ find (spec.is_named word.now) spec.link_fields }
{
    match word {
        b"eth.src" => Some(Field::EthSrc),
        b"eth.dst" => Some(Field::EthDst),
        b"eth.type" => Some(Field::EthType),
        b"arp.op" => Some(Field::ArpOp),
        b"arp.spa" => Some(Field::ArpSpa),
        b"arp.tpa" => Some(Field::ArpTpa),
        b"arp.sha" => Some(Field::ArpSha),
        b"arp.tha" => Some(Field::ArpTha),
        _ => None,
    }
}

// The field of IPv4 or ICMP of that name.
fn ip_named(word: &[u8]) -> Option<Field>
    ensures { result ≡ find (spec.is_named word.now) spec.ip_fields }
{
    match word {
        b"ip4.src" => Some(Field::Ip4Src),
        b"ip4.dst" => Some(Field::Ip4Dst),
        b"ip.proto" => Some(Field::IpProto),
        b"ip.ttl" => Some(Field::IpTtl),
        b"icmp4.type" => Some(Field::Icmp4Type),
        b"icmp4.code" => Some(Field::Icmp4Code),
        _ => None,
    }
}

// The field of TCP or UDP of that name, or the port.
fn port_named(word: &[u8]) -> Option<Field>
    ensures { result ≡ find (spec.is_named word.now) spec.port_fields }
{
    match word {
        b"tcp.src" => Some(Field::TcpSrc),
        b"tcp.dst" => Some(Field::TcpDst),
        b"udp.src" => Some(Field::UdpSrc),
        b"udp.dst" => Some(Field::UdpDst),
        b"inport" => Some(Field::Inport),
        b"outport" => Some(Field::Outport),
        _ => None,
    }
}

impl Field {
    /// The field's name in a text.
    pub fn name(self) -> &'static [u8]
        ensures { result.now ≡ spec.field_name self }
    {
        match self {
            Field::EthSrc => b"eth.src",
            Field::EthDst => b"eth.dst",
            Field::EthType => b"eth.type",
            Field::Ip4Src => b"ip4.src",
            Field::Ip4Dst => b"ip4.dst",
            Field::IpProto => b"ip.proto",
            Field::IpTtl => b"ip.ttl",
            Field::TcpSrc => b"tcp.src",
            Field::TcpDst => b"tcp.dst",
            Field::UdpSrc => b"udp.src",
            Field::UdpDst => b"udp.dst",
            Field::Icmp4Type => b"icmp4.type",
            Field::Icmp4Code => b"icmp4.code",
            Field::ArpOp => b"arp.op",
            Field::ArpSpa => b"arp.spa",
            Field::ArpTpa => b"arp.tpa",
            Field::ArpSha => b"arp.sha",
            Field::ArpTha => b"arp.tha",
            Field::Inport => b"inport",
            Field::Outport => b"outport",
        }
    }

    /// The number of the field's bits; 0 for a port field, which has no number.
    pub fn bits(self) -> u32
        ensures { result ≡ spec.field_bits self }
    {
        match self {
            Field::EthSrc | Field::EthDst | Field::ArpSha | Field::ArpTha => 48,
            Field::Ip4Src | Field::Ip4Dst | Field::ArpSpa | Field::ArpTpa => 32,
            Field::EthType | Field::ArpOp => 16,
            Field::TcpSrc | Field::TcpDst | Field::UdpSrc | Field::UdpDst => 16,
            Field::IpProto | Field::IpTtl | Field::Icmp4Type | Field::Icmp4Code => 8,
            Field::Inport | Field::Outport => 0,
        }
    }

    /// The greatest number of the field, all of its bits set; 0 for a port field.
    pub fn max(self) -> u64
        ensures { result ≡ spec.field_max self }
    {
        match self {
            Field::EthSrc | Field::EthDst | Field::ArpSha | Field::ArpTha => 0xffff_ffff_ffff,
            Field::Ip4Src | Field::Ip4Dst | Field::ArpSpa | Field::ArpTpa => 0xffff_ffff,
            Field::EthType | Field::ArpOp => 0xffff,
            Field::TcpSrc | Field::TcpDst | Field::UdpSrc | Field::UdpDst => 0xffff,
            Field::IpProto | Field::IpTtl | Field::Icmp4Type | Field::Icmp4Code => 0xff,
            Field::Inport | Field::Outport => 0,
        }
    }

    /// Whether the field is a port.
    pub fn is_port(self) -> bool
        ensures { result ≡ spec.is_port_field self }
    {
        match self {
            Field::Inport | Field::Outport => true,
            _ => false,
        }
    }

    /// The predicate without which a comparison of the field is false, if there is one.
    pub fn prerequisite(self) -> Option<Predicate>
        ensures { result ≡ spec.prerequisite self }
    {
        match self {
            Field::EthSrc | Field::EthDst | Field::EthType | Field::Inport | Field::Outport => None,
            Field::Ip4Src | Field::Ip4Dst | Field::IpProto | Field::IpTtl => Some(Predicate::Ip4),
            Field::TcpSrc | Field::TcpDst => Some(Predicate::Tcp),
            Field::UdpSrc | Field::UdpDst => Some(Predicate::Udp),
            Field::Icmp4Type | Field::Icmp4Code => Some(Predicate::Icmp4),
            Field::ArpOp | Field::ArpSpa | Field::ArpTpa => Some(Predicate::Arp),
            Field::ArpSha | Field::ArpTha => Some(Predicate::Arp),
        }
    }

    /// Whether the field stands in rules of the direction.
    pub fn stands(self, way: Direction) -> bool
        ensures { result ≡ spec.stands way self }
    {
        match (self, way) {
            (Field::Outport, Direction::FromLport) => false,
            _ => true,
        }
    }

    /// The field of that name.
    #[tactic(auto, using(crate::proofs::FieldNames::named_split))]
    pub(crate) fn named(word: &[u8]) -> Option<Field>
        ensures { result ≡ spec.field_named word.now }
    {
        if let Some(field) = link_named(word) {
            return Some(field);
        }
        if let Some(field) = ip_named(word) {
            return Some(field);
        }
        port_named(word)
    }
}

impl Predicate {
    /// The predicate's name in a text.
    pub fn name(self) -> &'static [u8]
        ensures { result.now ≡ spec.predicate_name self }
    {
        match self {
            Predicate::Ip4 => b"ip4",
            Predicate::Ip6 => b"ip6",
            Predicate::Arp => b"arp",
            Predicate::Ip => b"ip",
            Predicate::Tcp => b"tcp",
            Predicate::Udp => b"udp",
            Predicate::Icmp4 => b"icmp4",
            Predicate::EthBcast => b"eth.bcast",
            Predicate::EthMcast => b"eth.mcast",
            Predicate::Ip4Mcast => b"ip4.mcast",
        }
    }

    /// The predicate of that name.
    #[tactic(auto, unfolding(crate::specs::Tables::predicate_named))]
    pub(crate) fn named(word: &[u8]) -> Option<Predicate>
        ensures { result ≡ spec.predicate_named word.now }
    {
        match word {
            b"ip4" => Some(Predicate::Ip4),
            b"ip6" => Some(Predicate::Ip6),
            b"arp" => Some(Predicate::Arp),
            b"ip" => Some(Predicate::Ip),
            b"tcp" => Some(Predicate::Tcp),
            b"udp" => Some(Predicate::Udp),
            b"icmp4" => Some(Predicate::Icmp4),
            b"eth.bcast" => Some(Predicate::EthBcast),
            b"eth.mcast" => Some(Predicate::EthMcast),
            b"ip4.mcast" => Some(Predicate::Ip4Mcast),
            _ => None,
        }
    }
}
