//! Matches with their widths, and whether they hold of each packet; frames of the packets.

/// The packets: TCP, UDP to a group, ICMP, ARP, IPv6, a fragment, and TCP to port 1024.
pub(crate) const FRAMES: [&[u8]; 7] = [
    b"\x0a\x00\x00\x00\x00\x02\x0a\x00\x00\x00\x00\x01\x08\x00\x45\x00\x00\x28\x00\x01\x00\x00\x40\x06\xad\x1c\x0a\x01\x02\x03\xc0\xa8\x01\x07\x9c\x40\x00\x50\x00\x00\x00\x00\x00\x00\x00\x00\x00\x00\x00\x00\x00\x00\x00\x00",
    b"\x01\x00\x5e\x00\x00\x05\x0a\x00\x00\x00\x00\x02\x08\x00\x45\x00\x00\x1c\x00\x01\x00\x00\x01\x11\x18\x1c\xc0\xa8\x01\x07\xe0\x00\x00\x05\x00\x44\x00\x43\x00\x08\x00\x00",
    b"\x0a\x00\x00\x00\x00\x01\x0a\x00\x00\x00\x00\x02\x08\x00\x45\x00\x00\x1c\x00\x01\x00\x00\xff\x01\xa7\xdd\x0a\x00\x00\x01\x0a\x00\x00\x02\x08\x00\x00\x00\x00\x01\x00\x01",
    b"\xff\xff\xff\xff\xff\xff\x0a\x00\x00\x00\x00\x01\x08\x06\x00\x01\x08\x00\x06\x04\x00\x01\x0a\x00\x00\x00\x00\x01\x0a\x00\x00\x01\x00\x00\x00\x00\x00\x00\x0a\x00\x00\x09",
    b"\x0a\x00\x00\x00\x00\x02\x0a\x00\x00\x00\x00\x01\x86\xdd\x00\x00\x00\x00\x00\x00\x00\x00\x00\x00\x00\x00\x00\x00\x00\x00\x00\x00\x00\x00",
    b"\x0a\x00\x00\x00\x00\x02\x0c\x00\x00\x00\x00\x03\x08\x00\x45\x00\x00\x24\x00\x01\x00\x07\x40\x06\x5d\xb9\x0a\x09\x09\x09\x0a\x00\x00\x02\x00\x00\x00\x00\x00\x00\x00\x00\x00\x00\x00\x00\x00\x00\x00\x00",
    b"\x0a\x00\x00\x00\x00\x01\x0c\x00\x00\x00\x00\x03\x08\x00\x45\x00\x00\x28\x00\x01\x00\x00\x40\x06\xc4\xbc\xac\x10\x00\x01\x0a\x00\x00\x02\x00\x01\x04\x00\x00\x00\x00\x00\x00\x00\x00\x00\x00\x00\x00\x00\x00\x00\x00\x00",
];

/// The keys of the ports by which each packet comes and leaves.
pub(crate) const KEYS: [(u32, u32); 7] = [(1, 2), (2, 3), (3, 1), (1, 3), (2, 1), (3, 2), (1, 2)];

/// Each match with its width and a digit a packet, 1 where it holds; or with how it is too wide.
pub(crate) const MATCHES: &str = "1 ~ 1 1111111
0 ~ 1 0000000
!1 ~ 1 0000000
!0 ~ 1 1111111
ip4 ~ 1 1110011
!ip4 ~ 16 0001100
ip6 ~ 1 0000100
!ip6 ~ 16 1111011
arp ~ 1 0001000
!arp ~ 16 1110111
ip ~ 2 1110111
!ip ~ 256 0001000
tcp ~ 1 1000011
!tcp ~ 24 0111100
udp ~ 1 0100000
!udp ~ 24 1011111
icmp4 ~ 1 0010000
!icmp4 ~ 24 1101111
eth.bcast ~ 1 0001000
!eth.bcast ~ 48 1110111
eth.mcast ~ 1 0101000
!eth.mcast ~ 1 1010111
ip4.mcast ~ 1 0100000
!ip4.mcast ~ 20 1011111
!!tcp ~ 1 1000011
eth.src == 0a:00:00:00:00:01 ~ 1 1001100
eth.src != 0a:00:00:00:00:01 ~ 48 0110011
eth.src == 0c:00:00:00:00:00/ff:00:00:00:00:00 ~ 1 0000011
eth.dst != {0a:00:00:00:00:01, 0a:00:00:00:00:02} ~ 2304 0101000
eth.src == $macs ~ 2 1001111
eth.src != $macs ~ 2304 0110000
eth.src == $nets ~ 2 0000000
eth.src != $nets ~ 1 1111111
eth.type == {0x800, 0x806} ~ 2 1111011
eth.type != 0x800 ~ 16 0001100
eth.type < 0x806 ~ 3 1110011
eth.type <= 0x806 ~ 4 1111011
eth.type > 0x806 ~ 13 0000100
eth.type >= 0x806 ~ 13 0001100
ip4.src == 10.0.0.0/8 ~ 1 1010010
!(ip4.src == 10.0.0.0/8) ~ 8 0100001
ip4.src != {10.0.0.1, 192.168.1.7} ~ 1024 1000011
ip4.src == $nets ~ 2 1110010
ip4.src != $nets ~ 256 0000001
ip4.src == $macs ~ 2 0000000
ip4.src != $macs ~ 1 1110011
ip4.dst == $none ~ 0 0000000
ip4.dst != $none ~ 1 1110011
ip4.dst == $unknown ~ 0 0000000
ip4.dst != $unknown ~ 1 1110011
ip4.dst != 0/0 ~ 0 0000000
ip4.dst == 0/0 ~ 1 1110011
ip.proto == {6, 17} ~ 2 1100011
ip.proto != {6, 17} ~ 64 0010000
ip.ttl <= 1 ~ 1 0100000
ip.ttl < 1 ~ 1 0000000
ip.ttl > 254 ~ 1 0010000
ip.ttl >= 255 ~ 1 0010000
ip.ttl > 255 ~ 0 0000000
tcp.dst >= 1024 ~ 6 0000001
tcp.dst < 1024 ~ 1 1000010
!(tcp.dst < 1024) ~ 6 0000001
tcp.dst > 1024 ~ 15 0000000
tcp.dst <= 65535 ~ 1 1000011
tcp.dst < 0 ~ 0 0000000
tcp.src == 0 ~ 1 0000010
tcp.src != 1 ~ 16 1000010
udp.dst == 67 ~ 1 0100000
udp.dst != 67 ~ 16 0000000
!(udp.dst == 67 && udp.src == 68) ~ 32 0000000
icmp4.type == 8 ~ 1 0010000
icmp4.type != 8 ~ 8 0000000
icmp4.code == 0 ~ 1 0010000
arp.op == 1 ~ 1 0001000
arp.op != 1 ~ 16 0000000
!(arp.op == 1) ~ 16 0000000
arp.tpa == 10.0.0.9 ~ 1 0001000
arp.spa == 10.0.0.0/8 ~ 1 0001000
arp.sha == $macs ~ 2 0001000
arp.tha == 00:00:00:00:00:00 ~ 1 0001000
inport == \"p1\" ~ 1 1001001
inport != \"p1\" ~ 16 0110110
inport == {\"p1\", \"p2\"} ~ 2 1101101
inport != {\"p1\", \"p2\"} ~ 256 0010010
inport == \"gone\" ~ 1 0000000
inport != \"gone\" ~ 16 1111111
inport == @two ~ 3 1101101
inport != @two ~ 4096 0010010
outport == @dead ~ 1 0000000
outport != @dead ~ 16 1111111
outport == @empty ~ 0 0000000
outport != @empty ~ 1 1111111
outport == \"p2\" && ip4 ~ 1 1000011
!(outport == \"p2\" && ip4) ~ 32 0111100
!(outport == \"p2\" || ip4) ~ 256 0001100
ip4 && tcp && tcp.dst == 80 ~ 1 1000000
ip4 || arp ~ 2 1111011
(ip4 || arp) && eth.src == $macs ~ 4 1001011
tcp && udp ~ 1 0000000
tcp || udp || icmp4 ~ 3 1110011
eth.src != {0a:00:00:00:00:01, 0a:00:00:00:00:02, 0c:00:00:00:00:03} ~ TooWide(110592)
ip4.src != {10.0.0.1, 10.0.0.2, 10.0.0.3} && ip.proto != 6 ~ TooWide(262144)
tcp.src != {1, 2, 3} && tcp.dst != {4, 5, 6} ~ TooWide(16777216)
0 && eth.src != {0a:00:00:00:00:01, 0a:00:00:00:00:02} ~ 2304 0000000
ip4.src != {10.0.0.1, 10.0.0.2, 10.0.0.3} && tcp.dst >= 1024 ~ TooWide(196608)";
