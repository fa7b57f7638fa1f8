//! Rewrites of packets in place. Sums change word by word (RFC 1624), and no memory is taken.
ghost use Rattle.std.specs.Prelude.{◌≡◌, ◌<◌, ◌/◌, ◌%◌};
ghost use Rattle.inet_packet.specs.Fields.{ip_ttl, icmp4_type, icmp4_code};
ghost use Rattle.inet_packet.specs.Rewrites.{not_word, updated, updated_set, udp_updated, over_address, part_over_address, part_with_ports, part_as_reply, ip4_with_src, ip4_with_dst, ip4_with_ttl, ip4_dec_ttl, ip4_with_ports, ip4_as_reply, over_ip4, with_ip4, arp_as_reply, with_arp_reply, HasPorts, CanSetPorts, IsArp};
ghost use Rattle.inet_packet.specs.Transport.{HasRightSum};
ghost use Rattle.inet_packet.specs.Whole.{IsWhole};

use crate::frame_sums::add;
use crate::packet::{Arp, Body, Ip4Packet, Packet, Part};
use ovn_base::address::{Ip4, Mac};

// The sum after a word has become another.
fn updated(sum: u16, old: u16, new: u16) -> u16
    ensures { result ≡ updated sum old new }
{
    if old == new {
        sum
    } else {
        !add(add(!sum, !old), new)
    }
}

// The same where 0 says that there is no sum.
fn updated_set(sum: u16, old: u16, new: u16) -> u16
    ensures { result ≡ updated_set sum old new }
{
    if old == new {
        return sum;
    }
    match updated(sum, old, new) {
        0 => 0xffff,
        sum => sum,
    }
}

// The same for UDP, where a sum of 0 was not given.
fn udp_updated(sum: u16, old: u16, new: u16) -> u16
    ensures { result ≡ udp_updated sum old new }
{
    if sum == 0 {
        0
    } else {
        updated_set(sum, old, new)
    }
}

fn high(ip: Ip4) -> u16
    ensures { result ≡ ip.0 / 65536 }
{
    (ip.0 / 65536) as u16
}

fn low(ip: Ip4) -> u16
    ensures { result ≡ ip.0 % 65536 }
{
    (ip.0 % 65536) as u16
}

fn over_address(sum: u16, old: Ip4, new: Ip4) -> u16
    ensures { result ≡ over_address updated sum old.0 new.0 }
{
    updated(updated(sum, high(old), high(new)), low(old), low(new))
}

fn udp_over_address(sum: u16, old: Ip4, new: Ip4) -> u16
    ensures { result ≡ over_address udp_updated sum old.0 new.0 }
{
    udp_updated(udp_updated(sum, high(old), high(new)), low(old), low(new))
}

impl Part {
    fn over_address(&mut self, old: Ip4, new: Ip4)
        ensures { self.new ≡ part_over_address old.0 new.0 self.old }
    {
        match self {
            Part::Tcp { sum, .. } => *sum = over_address(*sum, old, new),
            Part::Udp { sum, .. } => *sum = udp_over_address(*sum, old, new),
            Part::Icmp { .. } | Part::OtherIp | Part::Fragment => {}
        }
    }

    fn with_ports(self, src: u16, dst: u16) -> Part
        ensures { result ≡ part_with_ports src dst self }
    {
        match self {
            Part::Tcp {
                src_port,
                dst_port,
                middle,
                sum,
                urgent,
            } => Part::Tcp {
                src_port: src,
                dst_port: dst,
                middle,
                sum: updated(updated(sum, src_port, src), dst_port, dst),
                urgent,
            },
            Part::Udp {
                src_port,
                dst_port,
                len,
                sum,
            } => Part::Udp {
                src_port: src,
                dst_port: dst,
                len,
                sum: udp_updated(udp_updated(sum, src_port, src), dst_port, dst),
            },
            Part::Icmp {
                kind,
                code,
                sum,
                ident,
            } => Part::Icmp {
                kind,
                code,
                sum: updated_set(sum, ident, src),
                ident: src,
            },
            Part::OtherIp => Part::OtherIp,
            Part::Fragment => Part::Fragment,
        }
    }

    fn reply(&mut self)
        ensures { self.new ≡ part_as_reply self.old }
    {
        if let Part::Icmp {
            kind,
            code,
            sum,
            ..
        } = self
        {
            *sum = updated_set(*sum, u16::from_be_bytes([*kind, *code]), u16::from(*code));
            *kind = 0;
        }
    }
}

impl Ip4Packet {
    fn set_src(&mut self, ip: Ip4)
        ensures { self.new ≡ ip4_with_src ip self.old }
    {
        self.sum = over_address(self.sum, self.src, ip);
        self.part.over_address(self.src, ip);
        self.src = ip;
    }

    fn set_dst(&mut self, ip: Ip4)
        ensures { self.new ≡ ip4_with_dst ip self.old }
    {
        self.sum = over_address(self.sum, self.dst, ip);
        self.part.over_address(self.dst, ip);
        self.dst = ip;
    }

    fn set_ttl(&mut self, ttl: u8)
        ensures { self.new ≡ ip4_with_ttl ttl self.old }
    {
        let old = u16::from_be_bytes([self.ttl, self.proto]);
        let new = u16::from_be_bytes([ttl, self.proto]);
        self.sum = updated(self.sum, old, new);
        self.ttl = ttl;
    }

    fn reply(&mut self)
        ensures { self.new ≡ ip4_as_reply self.old }
    {
        let (src, dst) = (self.src, self.dst);
        self.set_src(dst);
        self.set_dst(src);
        self.set_ttl(255);
        self.part.reply();
    }
}

impl Body {
    fn set_src(&mut self, ip: Ip4)
        ensures { self.new ≡ over_ip4 (ip4_with_src ip) self.old }
    {
        if let Body::Ip4(packet) = self {
            packet.set_src(ip);
        }
    }

    fn set_dst(&mut self, ip: Ip4)
        ensures { self.new ≡ over_ip4 (ip4_with_dst ip) self.old }
    {
        if let Body::Ip4(packet) = self {
            packet.set_dst(ip);
        }
    }

    fn dec_ttl(&mut self)
        requires { 0 < ip_ttl self.old }
        ensures { self.new ≡ over_ip4 ip4_dec_ttl self.old }
    {
        if let Body::Ip4(packet) = self {
            let ttl = packet.ttl - 1;
            packet.set_ttl(ttl);
        }
    }

    fn set_ports(&mut self, src: u16, dst: u16)
        ensures { self.new ≡ over_ip4 (ip4_with_ports src dst) self.old }
    {
        if let Body::Ip4(packet) = self {
            packet.part = packet.part.with_ports(src, dst);
        }
    }

    fn arp_reply(&mut self, mac: Mac, ip: Ip4)
        ensures { self.new ≡ arp_as_reply mac ip self.old }
    {
        if let Body::Arp(arp) = self {
            *arp = Arp {
                op: 2,
                sha: mac,
                spa: ip,
                tha: arp.sha,
                tpa: arp.spa,
            };
        }
    }

    fn echo_reply(&mut self)
        ensures { self.new ≡ over_ip4 ip4_as_reply self.old }
    {
        if let Body::Ip4(packet) = self {
            packet.reply();
        }
    }
}

/// Each rewrite keeps a packet whole, and a right transport sum right.
impl Packet {
    /// Another source address in an IPv4 header; another body stays as it is.
    pub fn set_src(&mut self, ip: Ip4)
        ensures packet { self.new ≡ with_ip4 (ip4_with_src ip) self.old }
        ensures whole { IsWhole self.old → IsWhole self.new }
        ensures right { IsWhole self.old → HasRightSum self.old → HasRightSum self.new }
    {
        self.body.set_src(ip);
    }

    /// Another destination address in an IPv4 header; another body stays as it is.
    pub fn set_dst(&mut self, ip: Ip4)
        ensures packet { self.new ≡ with_ip4 (ip4_with_dst ip) self.old }
        ensures whole { IsWhole self.old → IsWhole self.new }
        ensures right { IsWhole self.old → HasRightSum self.old → HasRightSum self.new }
    {
        self.body.set_dst(ip);
    }

    /// The time to live one less.
    pub fn dec_ttl(&mut self)
        requires { 0 < ip_ttl self.old.body }
        ensures packet { self.new ≡ with_ip4 ip4_dec_ttl self.old }
        ensures whole { IsWhole self.old → IsWhole self.new }
        ensures right { IsWhole self.old → HasRightSum self.old → HasRightSum self.new }
    {
        self.body.dec_ttl();
    }

    /// Other ports in a TCP or UDP header; in an ICMP message the identifier.
    pub fn set_ports(&mut self, src: u16, dst: u16)
        requires { CanSetPorts src dst self.old.body }
        ensures packet { self.new ≡ with_ip4 (ip4_with_ports src dst) self.old }
        ensures whole { IsWhole self.old → IsWhole self.new }
        ensures right { IsWhole self.old → HasRightSum self.old → HasRightSum self.new }
    {
        self.body.set_ports(src, dst);
    }

    /// The answer to an ARP request for the protocol address `ip`, from the hardware address `mac`.
    pub fn arp_reply(&mut self, mac: Mac, ip: Ip4)
        requires { IsArp self.old.body }
        ensures packet { self.new ≡ with_arp_reply mac ip self.old }
        ensures whole { IsWhole self.old → IsWhole self.new }
    {
        self.body.arp_reply(mac, ip);
        self.dst = self.src;
        self.src = mac;
    }

    /// The answer to an ICMP echo request: its addresses swapped, a time to live of 255, and type 0.
    pub fn echo_reply(&mut self)
        requires kind { icmp4_type self.old.body ≡ 8 }
        requires code { icmp4_code self.old.body ≡ 0 }
        ensures packet { self.new ≡ with_ip4 ip4_as_reply self.old }
        ensures whole { IsWhole self.old → IsWhole self.new }
        ensures right { IsWhole self.old → HasRightSum self.old → HasRightSum self.new }
    {
        self.body.echo_reply();
    }
}
