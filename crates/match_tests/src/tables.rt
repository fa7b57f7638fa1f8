//! Texts, each with what is printed of what it spells, or with its fault: a row a line, with ` ~ ` between the two.

/// Ethernet fields with every relation, and what is printed of them.
pub(crate) const ETHERNET: &str = "eth.src==0A:0B:0C:0D:0E:0F ~ eth.src == 0a:0b:0c:0d:0e:0f
eth.src != 01:00:00:00:00:00/01:00:00:00:00:00 ~ eth.src != 01:00:00:00:00:00/01:00:00:00:00:00
eth.src<281474976710655 ~ eth.src < ff:ff:ff:ff:ff:ff
eth.src <=0x10 ~ eth.src <= 00:00:00:00:00:10
eth.src> 258 ~ eth.src > 00:00:00:00:01:02
eth.src >= 0 ~ eth.src >= 00:00:00:00:00:00
eth.dst == ff:ff:ff:ff:ff:ff/FF:FF:FF:FF:FF:FF ~ eth.dst == ff:ff:ff:ff:ff:ff
eth.dst != {1, 0x2} ~ eth.dst != {00:00:00:00:00:01, 00:00:00:00:00:02}
eth.dst < 0a:00:00:00:00:01 ~ eth.dst < 0a:00:00:00:00:01
eth.dst <= 65536 ~ eth.dst <= 00:00:00:01:00:00
eth.dst > 0xabcdef ~ eth.dst > 00:00:00:ab:cd:ef
eth.dst >= 1099511627776 ~ eth.dst >= 01:00:00:00:00:00
eth.type == 0x0800 ~ eth.type == 2048
eth.type != 0x86dd ~ eth.type != 34525
eth.type < 0x0600 ~ eth.type < 1536
eth.type <= 65535 ~ eth.type <= 65535
eth.type > 0 ~ eth.type > 0
eth.type >= 2054 ~ eth.type >= 2054";

/// IPv4 and ICMP fields with every relation, and what is printed of them.
pub(crate) const IPV4: &str = "ip4.src == 10.0.0.0/255.255.255.0 ~ ip4.src == 10.0.0.0/24
ip4.src != {10.0.0.1 $a} ~ ip4.src != {10.0.0.1, $a}
ip4.src < 167772160 ~ ip4.src < 10.0.0.0
ip4.src <= 0xC0A80001 ~ ip4.src <= 192.168.0.1
ip4.src > 4294967295 ~ ip4.src > 255.255.255.255
ip4.src >= 0 ~ ip4.src >= 0.0.0.0
ip4.dst == 224.0.0.0/4 ~ ip4.dst == 224.0.0.0/4
ip4.dst != 0.0.0.5/0.0.0.255 ~ ip4.dst != 0.0.0.5/0.0.0.255
ip4.dst < 10.0.0.1 ~ ip4.dst < 10.0.0.1
ip4.dst <= 1 ~ ip4.dst <= 0.0.0.1
ip4.dst > 256 ~ ip4.dst > 0.0.1.0
ip4.dst >= 0x00ff ~ ip4.dst >= 0.0.0.255
ip.proto == {6, 17} ~ ip.proto == {6, 17}
ip.proto != 0x11 ~ ip.proto != 17
ip.proto < 255 ~ ip.proto < 255
ip.proto <= 0xff ~ ip.proto <= 255
ip.proto > 0x0 ~ ip.proto > 0
ip.proto >= 1 ~ ip.proto >= 1
ip.ttl == {0 1} ~ ip.ttl == {0, 1}
ip.ttl != 3/0x03 ~ ip.ttl != 3/3
ip.ttl < 2 ~ ip.ttl < 2
ip.ttl <= 1 ~ ip.ttl <= 1
ip.ttl > 0x40 ~ ip.ttl > 64
ip.ttl >= 255 ~ ip.ttl >= 255
icmp4.type == 8 ~ icmp4.type == 8
icmp4.type != {0, 8/0xff} ~ icmp4.type != {0, 8}
icmp4.type < 0x10 ~ icmp4.type < 16
icmp4.type <= 3 ~ icmp4.type <= 3
icmp4.type > 7 ~ icmp4.type > 7
icmp4.type >= 0 ~ icmp4.type >= 0
icmp4.code == 0x01 ~ icmp4.code == 1
icmp4.code != 255 ~ icmp4.code != 255
icmp4.code < 4 ~ icmp4.code < 4
icmp4.code <= 0x7f ~ icmp4.code <= 127
icmp4.code > 0 ~ icmp4.code > 0
icmp4.code >= 13 ~ icmp4.code >= 13";

/// TCP and UDP fields with every relation, and what is printed of them.
pub(crate) const TRANSPORT: &str = "tcp.src == 0/0 ~ tcp.src == 0/0
tcp.src != {80,443} ~ tcp.src != {80, 443}
tcp.src < 1024 ~ tcp.src < 1024
tcp.src <= 0x3FF ~ tcp.src <= 1023
tcp.src > 65535 ~ tcp.src > 65535
tcp.src >= 0x00001 ~ tcp.src >= 1
tcp.dst == 0x1f90/0xffff ~ tcp.dst == 8080
tcp.dst != {22} ~ tcp.dst != 22
tcp.dst < 65535 ~ tcp.dst < 65535
tcp.dst <= 0 ~ tcp.dst <= 0
tcp.dst > 0xA ~ tcp.dst > 10
tcp.dst >= 49152 ~ tcp.dst >= 49152
udp.src == 68 ~ udp.src == 68
udp.src != 0x40/0xC0 ~ udp.src != 64/192
udp.src < 0xFFFF ~ udp.src < 65535
udp.src <= 67 ~ udp.src <= 67
udp.src > 1023 ~ udp.src > 1023
udp.src >= 1 ~ udp.src >= 1
udp.dst == {67 68,0x35} ~ udp.dst == {67, 68, 53}
udp.dst != 4789 ~ udp.dst != 4789
udp.dst < 1 ~ udp.dst < 1
udp.dst <= 6081 ~ udp.dst <= 6081
udp.dst > 0x8000 ~ udp.dst > 32768
udp.dst >= 53 ~ udp.dst >= 53";

/// ARP fields with every relation, and what is printed of them.
pub(crate) const ARP: &str = "arp.op == 1 ~ arp.op == 1
arp.op != 0x0002 ~ arp.op != 2
arp.op < 3 ~ arp.op < 3
arp.op <= 65535 ~ arp.op <= 65535
arp.op > 0x100 ~ arp.op > 256
arp.op >= 2 ~ arp.op >= 2
arp.spa == 10.0.0.1/32 ~ arp.spa == 10.0.0.1
arp.spa != $servers ~ arp.spa != $servers
arp.spa < 255.255.255.255 ~ arp.spa < 255.255.255.255
arp.spa <= 0xA000001 ~ arp.spa <= 10.0.0.1
arp.spa > 10.0.0.0 ~ arp.spa > 10.0.0.0
arp.spa >= 65536 ~ arp.spa >= 0.1.0.0
arp.tpa == {10.0.0.1, 10.0.1.0/24} ~ arp.tpa == {10.0.0.1, 10.0.1.0/24}
arp.tpa != 0xa000000/4278190080 ~ arp.tpa != 10.0.0.0/8
arp.tpa < 0.0.0.1 ~ arp.tpa < 0.0.0.1
arp.tpa <= 127.0.0.1 ~ arp.tpa <= 127.0.0.1
arp.tpa > 0xffffffff ~ arp.tpa > 255.255.255.255
arp.tpa >= 3232235777 ~ arp.tpa >= 192.168.1.1
arp.sha == 0A:00:00:00:00:01 ~ arp.sha == 0a:00:00:00:00:01
arp.sha != $macs ~ arp.sha != $macs
arp.sha < 0xFFFFFFFFFFFF ~ arp.sha < ff:ff:ff:ff:ff:ff
arp.sha <= 16 ~ arp.sha <= 00:00:00:00:00:10
arp.sha > 00:00:00:00:00:00 ~ arp.sha > 00:00:00:00:00:00
arp.sha >= 4294967296 ~ arp.sha >= 00:01:00:00:00:00
arp.tha == 0 ~ arp.tha == 00:00:00:00:00:00
arp.tha != 5/7 ~ arp.tha != 00:00:00:00:00:05/00:00:00:00:00:07
arp.tha < 0b:0B:0c:0C:0d:0D ~ arp.tha < 0b:0b:0c:0c:0d:0d
arp.tha <= 01:02:03:04:05:06 ~ arp.tha <= 01:02:03:04:05:06
arp.tha > 0x00000000000000000a ~ arp.tha > 00:00:00:00:00:0a
arp.tha >= ff:ff:ff:ff:ff:ff ~ arp.tha >= ff:ff:ff:ff:ff:ff";

/// Ports with every relation.
pub(crate) const PORTS: &str = "inport == \"p 1\" ~ inport == \"p 1\"
inport != {@g,\"q\"} ~ inport != {@g, \"q\"}
outport==@g ~ outport == @g
outport != \"p\" ~ outport != \"p\"
inport < \"p\" ~ BadConstant(9)
inport <= \"p\" ~ BadConstant(10)
inport > @g ~ BadConstant(9)
inport >= {\"p\"} ~ BadConstant(10)
outport < @g ~ BadConstant(10)
outport <= {\"p\"} ~ BadConstant(11)
outport > \"p\" ~ BadConstant(10)
outport >= 3 ~ BadConstant(11)";

/// Terms, lists, masks and blanks, and what is printed of them.
pub(crate) const TERMS: &str = "1 ~ 1
ip4&&tcp ~ ip4 && tcp
(ip4||arp)&&!tcp ~ (ip4 || arp) && !tcp
!(ip4 && tcp) ~ !(ip4 && tcp)
((ip4)) ~ ip4
eth.type==0x0800 ~ eth.type == 2048
ip4.src == 0x0A000000/0xFF000000 ~ ip4.src == 10.0.0.0/8
ip4.src == 10.0.0.0/255.0.0.0 ~ ip4.src == 10.0.0.0/8
ip4.src == 0.0.0.0/0 ~ ip4.src == 0.0.0.0/0
ip4.src == 10.0.0.1/32 ~ ip4.src == 10.0.0.1
ip4.src == 10.0.0.1/255.0.0.255 ~ ip4.src == 10.0.0.1/255.0.0.255
eth.src == 0A:00:00:00:00:fE ~ eth.src == 0a:00:00:00:00:fe
eth.src == 1/1 ~ eth.src == 00:00:00:00:00:01/00:00:00:00:00:01
tcp.src != {1 2,3/0xff} ~ tcp.src != {1, 2, 3/255}
tcp.src == {4} ~ tcp.src == 4
ip4.src != $a-b ~ ip4.src != $a-b
inport == {\"p q\", @g} ~ inport == {\"p q\", @g}
ip.ttl >= 3 ~ ip.ttl >= 3
outport != \"\" ~ outport != \"\"";

/// The first fault of a text, and the byte of its token.
pub(crate) const FAULTS: &str = " ~ Syntax(0)
   ~ Syntax(2)
ip4 && tcp || udp ~ MixedAndOr(11)
(ip4 || arp) && tcp || udp ~ MixedAndOr(20)
ip4 & tcp ~ Token(4)
ip4\r ~ Token(3)
inport == \"p ~ Token(10)
ip4.src == $ ~ Token(11)
ip5 ~ UnknownField(0)
!(ip5 == 4) ~ UnknownField(2)
ip4 arp ~ Syntax(4)
ip4 ip5 ~ Syntax(4)
tcp.src ~ Syntax(7)
tcp.src ==  ~ Syntax(11)
tcp.src == ip4 ~ Syntax(11)
(ip4 ~ Syntax(4)
7 ~ Syntax(0)
0x0 ~ Syntax(0)
tcp.src == 65536 ~ BadConstant(11)
tcp.src == 010 ~ BadConstant(11)
tcp.src == 10.0.0.1 ~ BadConstant(11)
ip4.src == 10.0.0.256 ~ BadConstant(11)
ip4.src == 10.0.0.1/8 ~ BadConstant(11)
ip4.src == 10.0.0.0/33 ~ BadConstant(20)
ip4.src == 10.0.0.0/0x8 ~ BadConstant(20)
ip4.src == 10.0.0.0/arp ~ Syntax(20)
tcp.src < 4/4 ~ BadConstant(12)
tcp.src < {4} ~ BadConstant(10)
tcp.src == {4,} ~ Syntax(14)
tcp.src == {} ~ Syntax(12)
inport == 4 ~ BadConstant(10)
inport < \"p\" ~ BadConstant(9)
tcp.src == $a ~ BadConstant(11)
inport < ip4 ~ Syntax(9)
inport < ~ Syntax(8)
tcp.src < 4/ip4 ~ Syntax(12)
tcp.src < 4/ ~ Syntax(12)
tcp.src == {4 65536 ~ BadConstant(14)
tcp.src == {4 && ip4 ~ Syntax(14)
tcp.src == 4 && ip4 || arp ~ MixedAndOr(20)";

/// Constants that are too wide or of another kind than the field, and what an order relation doesn't take.
pub(crate) const CONSTANTS: &str = "eth.src == 281474976710656 ~ BadConstant(11)
eth.src != 10.0.0.1 ~ BadConstant(11)
eth.dst > 0x1000000000000 ~ BadConstant(10)
eth.dst >= $a ~ BadConstant(11)
eth.dst == \"p\" ~ BadConstant(11)
eth.type == $a ~ BadConstant(12)
eth.type <= 65536 ~ BadConstant(12)
eth.type < {2048} ~ BadConstant(11)
ip4.src == 0a:00:00:00:00:01 ~ BadConstant(11)
ip4.src < 4294967296 ~ BadConstant(10)
ip4.src > $a ~ BadConstant(10)
ip4.dst != @g ~ BadConstant(11)
ip4.dst <= 10.0.0.0/8 ~ BadConstant(20)
ip.proto >= 256 ~ BadConstant(12)
ip.proto == $a ~ BadConstant(12)
ip.ttl > 0x100 ~ BadConstant(9)
ip.ttl != 0.0.0.1 ~ BadConstant(10)
tcp.src < \"p\" ~ BadConstant(10)
tcp.src < 4/3 ~ BadConstant(12)
tcp.src == 4/65536 ~ BadConstant(13)
tcp.src == 4/3 ~ BadConstant(11)
tcp.dst <= 70000 ~ BadConstant(11)
tcp.dst >= @g ~ BadConstant(11)
udp.src == 00:00:00:00:00:01 ~ BadConstant(11)
udp.src > {1, 2} ~ BadConstant(10)
udp.dst != 65536 ~ BadConstant(11)
udp.dst < $a ~ BadConstant(10)
icmp4.type == 256 ~ BadConstant(14)
icmp4.type >= 1/1 ~ BadConstant(16)
icmp4.code != $a ~ BadConstant(14)
icmp4.code <= 0x1ff ~ BadConstant(14)
arp.op == 0.0.0.1 ~ BadConstant(10)
arp.op > 65536 ~ BadConstant(9)
arp.spa >= {10.0.0.1} ~ BadConstant(11)
arp.spa != 10.0.0.1/24 ~ BadConstant(11)
arp.tpa < 10.0.0.0/0 ~ BadConstant(19)
arp.tpa == 10.0.0.0/33 ~ BadConstant(20)
arp.sha == 10.0.0.1 ~ BadConstant(11)
arp.sha <= $a ~ BadConstant(11)
arp.tha != 0a:00:00:00:00:01/48 ~ BadConstant(29)";

/// What from-lport rules may not say, and what of it shows first.
pub(crate) const FROM_LPORT: &str = "outport == \"p\" ~ UnknownField(0)
outport != @g ~ UnknownField(0)
outport < \"p\" ~ UnknownField(0)
outport <= 3 ~ UnknownField(0)
outport > \"p\" ~ UnknownField(0)
outport >= \"p\" ~ UnknownField(0)
ip4 outport ~ Syntax(4)
inport == \"p\" ~ inport == \"p\"";
