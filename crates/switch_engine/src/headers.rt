//! The headers of a packet. Where a packet has no such header it stays.
ghost use Rattle.std.specs.Prelude.{◌≡◌};
ghost use Rattle.inet_packet.specs.Whole.{IsWhole};
ghost use Rattle.switch_engine.specs.Headers.{arp_answered, echo_answered, ttl_spent};

use inet_packet::packet::{Body, Packet};
use ovn_base::address::{Ip4, Mac};

// Turns an ARP packet into the answer that the IPv4 address is at the Ethernet address.
pub(crate) fn answer_arp(packet: &mut Packet, mac: Mac, ip: Ip4)
    ensures packet { packet.new ≡ arp_answered mac ip packet.old }
    ensures whole { IsWhole packet.old → IsWhole packet.new }
{
    if let Body::Arp(_) = packet.body {
        packet.arp_reply(mac, ip);
    }
}

// Turns an echo request into its reply.
pub(crate) fn answer_echo(packet: &mut Packet)
    ensures packet { packet.new ≡ echo_answered packet.old }
    ensures whole { IsWhole packet.old → IsWhole packet.new }
{
    if packet.body.icmp4_type() == 8 && packet.body.icmp4_code() == 0 {
        packet.echo_reply();
    }
}

// Takes one from the time to live, down to 0.
pub(crate) fn spend_ttl(packet: &mut Packet)
    ensures packet { packet.new ≡ ttl_spent packet.old }
    ensures whole { IsWhole packet.old → IsWhole packet.new }
{
    if packet.body.ip_ttl() != 0 {
        packet.dec_ttl();
    }
}
