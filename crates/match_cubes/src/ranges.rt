//! The ranges of order relations, as prefixes.
ghost use Rattle.std.specs.Prelude.{◌≡◌, ◌≤◌, ◌<◌, ◌^◌, ◌*◌, ◌++◌, OnOk, length};
ghost use Rattle.match_language.specs.declared.expr.Rel.TheVariants as rel;
ghost use Rattle.match_cubes.specs.Prefixes as spec;

use crate::ternary::bit;
use inet_packet::cube::Bits;
use match_language::expr::Rel;
use ovn_base::list::List;
use ovn_base::memory::NoMemory;

// The prefix of numbers of so many bits, behind which some are free.
#[tactic(auto, using(crate::proofs::PrefixEnds::shifts_order))]
fn prefix(width: u32, free: u32, number: u64) -> Bits
    requires wide { width ≤ 48 }
    requires free { free ≤ width }
    requires within { number * 2 ^ free < 2 ^ 64 }
    ensures { result ≡ spec.prefix width free number }
{
    Bits {
        value: number << free,
        mask: (1 << width) - (1 << free),
    }
}

#[tactic(auto, using(crate::proofs::PrefixSteps::less_start, crate::proofs::PrefixSteps::less_next, crate::proofs::PrefixSteps::less_same, crate::proofs::PrefixSteps::less_all))]
fn push_less(width: u32, bound: u64, out: &mut List<Bits>) -> Result<(), NoMemory>
    requires wide { width ≤ 48 }
    requires within { bound < 2 ^ width }
    ensures { OnOk result (out.new ≡ out.old ++ spec.prefixes width rel.Lt bound) }
{
    for free in (0..width).rev() {
        if bit(bound, free) == 1 {
            out.push(prefix(width, free, (bound >> free) - 1))?;
        }
    }
    Ok(())
}

#[tactic(auto, using(crate::proofs::PrefixSteps::greater_start, crate::proofs::PrefixSteps::greater_next, crate::proofs::PrefixSteps::greater_same, crate::proofs::PrefixSteps::greater_all))]
fn push_greater(width: u32, bound: u64, out: &mut List<Bits>) -> Result<(), NoMemory>
    requires wide { width ≤ 48 }
    requires within { bound < 2 ^ width }
    ensures { OnOk result (out.new ≡ out.old ++ spec.prefixes width rel.Gt bound) }
{
    for free in 0..width {
        if bit(bound, free) == 0 {
            out.push(prefix(width, free, (bound >> free) + 1))?;
        }
    }
    Ok(())
}

#[tactic(auto, using(crate::proofs::PrefixEnds::at_most_is, crate::proofs::PrefixEnds::at_least_back, crate::proofs::PrefixEnds::at_most_shifted, crate::proofs::PrefixEnds::at_least_all, crate::proofs::PrefixEnds::no_order))]
fn push_within(width: u32, rel: Rel, bound: u64, out: &mut List<Bits>) -> Result<(), NoMemory>
    requires wide { width ≤ 48 }
    requires within { bound < 2 ^ width }
    ensures { OnOk result (out.new ≡ out.old ++ spec.prefixes width rel bound) }
{
    match rel {
        Rel::Lt => push_less(width, bound, out),
        Rel::Le => {
            if bound + 1 == 1 << width {
                out.push(prefix(width, width, 0))
            } else {
                push_less(width, bound + 1, out)
            }
        }
        Rel::Gt => push_greater(width, bound, out),
        Rel::Ge => {
            if bound == 0 {
                out.push(prefix(width, width, 0))
            } else {
                push_greater(width, bound - 1, out)
            }
        }
        _ => Ok(()),
    }
}

/// Adds the largest prefixes of numbers of so many bits that stand in the relation to the bound.
#[tactic(auto, using(crate::proofs::PrefixEnds::is_within, crate::proofs::PrefixEnds::full_less, crate::proofs::PrefixEnds::full_most, crate::proofs::PrefixEnds::full_none))]
pub(crate) fn push_prefixes(
    width: u32,
    rel: Rel,
    bound: u64,
    out: &mut List<Bits>,
) -> Result<(), NoMemory>
    requires { width ≤ 48 }
    ensures { OnOk result (out.new ≡ out.old ++ spec.prefixes width rel bound) }
{
    if bound >> width == 0 {
        return push_within(width, rel, bound, out);
    }
    match rel {
        Rel::Lt => out.push(prefix(width, width, 0)),
        Rel::Le => out.push(prefix(width, width, 0)),
        _ => Ok(()),
    }
}

// How many prefixes there are, of a bound within the width.
fn count_within(width: u32, rel: Rel, bound: u64) -> u32
    requires wide { width ≤ 48 }
    requires within { bound < 2 ^ width }
    ensures { result ≡ length (spec.prefixes width rel bound) }
{
    match rel {
        Rel::Lt => bound.count_ones(),
        Rel::Le => {
            if bound + 1 == 1 << width {
                1
            } else {
                (bound + 1).count_ones()
            }
        }
        Rel::Gt => width - bound.count_ones(),
        Rel::Ge => {
            if bound == 0 {
                1
            } else {
                width - (bound - 1).count_ones()
            }
        }
        _ => 0,
    }
}

/// How many prefixes there are.
pub(crate) fn prefix_count(width: u32, rel: Rel, bound: u64) -> u32
    requires { width ≤ 48 }
    ensures { result ≡ length (spec.prefixes width rel bound) }
{
    if bound >> width == 0 {
        return count_within(width, rel, bound);
    }
    match rel {
        Rel::Lt => 1,
        Rel::Le => 1,
        _ => 0,
    }
}
