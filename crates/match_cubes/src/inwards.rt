//! Negation pushed inwards, and predicates by what they ask for.
ghost use Rattle.std.specs.Prelude.{◌≡◌};
ghost use Rattle.match_cubes.specs.Inwards as spec;

use inet_packet::cube::Bits;
use match_language::expr::Rel;
use match_language::field::{Field, Predicate};

/// The truth, or its opposite where it is negated.
pub(crate) fn turn(positive: bool, truth: bool) -> bool
    ensures { result ≡ spec.turn positive truth }
{
    positive == truth
}

/// The relation, or its opposite where the comparison is negated.
pub(crate) fn turned_rel(positive: bool, rel: Rel) -> Rel
    ensures { result ≡ spec.turned_rel positive rel }
{
    if positive {
        return rel;
    }
    match rel {
        Rel::Eq => Rel::Ne,
        Rel::Ne => Rel::Eq,
        Rel::Lt => Rel::Ge,
        Rel::Le => Rel::Gt,
        Rel::Gt => Rel::Le,
        Rel::Ge => Rel::Lt,
    }
}

const IP4: (Field, Bits) = (
    Field::EthType,
    Bits {
        value: 0x800,
        mask: 0xffff,
    },
);

/// The fields that the predicate asks for, each with its value.
pub(crate) fn tests(predicate: Predicate) -> &'static [(Field, Bits)]
    ensures { result.now ≡ spec.tests predicate }
{
    match predicate {
        Predicate::Ip4 => &[IP4],
        Predicate::Ip6 => &[(
            Field::EthType,
            Bits {
                value: 0x86dd,
                mask: 0xffff,
            },
        )],
        Predicate::Arp => &[(
            Field::EthType,
            Bits {
                value: 0x806,
                mask: 0xffff,
            },
        )],
        Predicate::Ip => &[
            IP4,
            (
                Field::EthType,
                Bits {
                    value: 0x86dd,
                    mask: 0xffff,
                },
            ),
        ],
        Predicate::Tcp => &[
            IP4,
            (
                Field::IpProto,
                Bits {
                    value: 6,
                    mask: 0xff,
                },
            ),
        ],
        Predicate::Udp => &[
            IP4,
            (
                Field::IpProto,
                Bits {
                    value: 17,
                    mask: 0xff,
                },
            ),
        ],
        Predicate::Icmp4 => &[
            IP4,
            (
                Field::IpProto,
                Bits {
                    value: 1,
                    mask: 0xff,
                },
            ),
        ],
        Predicate::EthBcast => &[(
            Field::EthDst,
            Bits {
                value: 0xffff_ffff_ffff,
                mask: 0xffff_ffff_ffff,
            },
        )],
        Predicate::EthMcast => &[(
            Field::EthDst,
            Bits {
                value: 0x100_0000_0000,
                mask: 0x100_0000_0000,
            },
        )],
        Predicate::Ip4Mcast => &[
            IP4,
            (
                Field::Ip4Dst,
                Bits {
                    value: 0xe000_0000,
                    mask: 0xf000_0000,
                },
            ),
        ],
    }
}

/// Whether it asks for all of them; else for one of them.
pub(crate) fn asks_all(predicate: Predicate) -> bool
    ensures { result ≡ spec.asks_all predicate }
{
    match predicate {
        Predicate::Ip => false,
        _ => true,
    }
}
