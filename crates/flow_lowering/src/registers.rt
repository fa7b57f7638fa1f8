//! What cubes ask of registers.
ghost use Rattle.std.specs.Prelude.{◌≡◌, ◌∷◌};
ghost use Rattle.flow_lowering.specs.Registers as spec;

use inet_packet::cube::{Bits, Cube};
use inet_packet::regs::{Reg, RegFlags};
use logical_flows::flow::RegIs;
use match_cubes::ternary::{agree, both_bits};

// The greatest number that the register may have.
fn reg_max(reg: Reg) -> u32
    ensures { result ≡ spec.reg_max reg }
{
    match reg {
        Reg::Dp => 0xff_ffff,
        Reg::Next => 0xffff_ffff,
        Reg::InPort | Reg::OutPort | Reg::ZIn | Reg::ZOut | Reg::ZDnat | Reg::ZSnat => 0xffff,
        Reg::State | Reg::Verdict | Reg::Tier => 7,
        Reg::Loopback | Reg::Tracked | Reg::Blocked | Reg::Own | Reg::Arrived => 1,
    }
}

// The number, where the register stands in its word.
fn in_word(reg: Reg, number: u32) -> u64
    ensures { result ≡ spec.in_word reg number }
{
    let number = u64::from(number);
    match reg {
        Reg::Tracked => number * u64::from(RegFlags::TRACKED.0),
        Reg::Blocked => number * u64::from(RegFlags::BLOCKED.0),
        Reg::Own => number * u64::from(RegFlags::OWN.0),
        Reg::Arrived => number * u64::from(RegFlags::ARRIVED.0),
        _ => number,
    }
}

// All bits of the register count, and have to be those of the number.
fn reg_bits(test: &RegIs) -> Bits
    ensures { result ≡ spec.reg_bits test.now }
{
    Bits {
        value: in_word(test.reg, test.value),
        mask: in_word(test.reg, reg_max(test.reg)),
    }
}

// What the cube asks of the word in which the register stands.
fn asked_of_reg(cube: &Cube, reg: Reg) -> Bits
    ensures { result ≡ spec.asked_of_reg reg cube.now }
{
    match reg {
        Reg::Dp => cube.dp,
        Reg::InPort => cube.in_port,
        Reg::OutPort => cube.out_port,
        Reg::Next => cube.next,
        Reg::ZIn => cube.z_in,
        Reg::ZOut => cube.z_out,
        Reg::ZDnat => cube.z_dnat,
        Reg::ZSnat => cube.z_snat,
        Reg::State => cube.state,
        Reg::Verdict => cube.verdict,
        Reg::Tier => cube.tier,
        Reg::Loopback | Reg::Tracked | Reg::Blocked | Reg::Own | Reg::Arrived => cube.flags,
    }
}

// Has the cube ask this of it.
fn ask_reg(cube: &mut Cube, reg: Reg, bits: Bits)
    ensures { cube.new ≡ spec.ask_reg reg bits cube.old }
{
    match reg {
        Reg::Dp => cube.dp = bits,
        Reg::InPort => cube.in_port = bits,
        Reg::OutPort => cube.out_port = bits,
        Reg::Next => cube.next = bits,
        Reg::ZIn => cube.z_in = bits,
        Reg::ZOut => cube.z_out = bits,
        Reg::ZDnat => cube.z_dnat = bits,
        Reg::ZSnat => cube.z_snat = bits,
        Reg::State => cube.state = bits,
        Reg::Verdict => cube.verdict = bits,
        Reg::Tier => cube.tier = bits,
        Reg::Loopback | Reg::Tracked | Reg::Blocked | Reg::Own | Reg::Arrived => cube.flags = bits,
    }
}

// The cube met with the register.
#[tactic(auto, unfolding(crate::specs::Registers::met_with))]
fn met_with(cube: &Cube, test: &RegIs) -> Option<Cube>
    ensures { result ≡ spec.met_with test.now cube.now }
{
    let asked = asked_of_reg(cube, test.reg);
    let wanted = reg_bits(test);
    if !agree(&asked, &wanted) {
        return None;
    }
    let mut met = *cube;
    ask_reg(&mut met, test.reg, both_bits(&asked, &wanted));
    Some(met)
}

/// The cube met with each of the registers; `None`, where they ask for both values of one bit.
pub(crate) fn met_with_all(cube: &Cube, tests: &[RegIs]) -> Option<Cube>
    ensures { result ≡ spec.met_with_all tests.now cube.now }
{
    let mut met = *cube;
    for test in tests {
        match met_with(&met, test) {
            Some(more) => met = more,
            None => return None,
        }
    }
    Some(met)
}

/// The cube met with the datapath of this key, and with each of the registers.
pub(crate) fn met_on(cube: &Cube, key: u32, tests: &[RegIs]) -> Option<Cube>
    ensures { result ≡ spec.met_with_all (spec.dp_is key ∷ tests.now) cube.now }
{
    let datapath = RegIs {
        reg: Reg::Dp,
        value: key,
    };
    match met_with(cube, &datapath) {
        Some(met) => met_with_all(&met, tests),
        None => None,
    }
}
