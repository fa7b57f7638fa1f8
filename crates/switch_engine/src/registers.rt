//! The registers of a copy.
ghost use Rattle.std.specs.Prelude.{◌≡◌};
ghost use Rattle.switch_engine.specs.Actions.{set_flag, set_reg, with_header, cleared};
ghost use Rattle.switch_engine.specs.Proper.{IsEntry};
ghost use Rattle.switch_engine.specs.Range.{IsInRange};
ghost use Rattle.switch_engine.specs.Zones.{zone_number};

use crate::effect::Entry;
use flow_table::flow::ZoneOf;
use inet_packet::regs::{At, Reg, RegFlags, Regs};

// All registers are 0.
pub(crate) fn cleared(at: At) -> Regs
    ensures { result ≡ cleared at }
{
    Regs {
        dp: 0,
        in_port: 0,
        out_port: 0,
        next: 0,
        z_in: 0,
        z_out: 0,
        z_dnat: 0,
        z_snat: 0,
        state: 0,
        verdict: 0,
        tier: 0,
        flags: RegFlags(0),
        at,
    }
}

// The number of the zone in its register.
pub(crate) fn zone_number(zone: ZoneOf, regs: &Regs) -> u16
    requires { IsInRange regs.now }
    ensures { result ≡ zone_number zone regs.now }
{
    let number = match zone {
        ZoneOf::In => regs.z_in,
        ZoneOf::Out => regs.z_out,
        ZoneOf::Dnat => regs.z_dnat,
        ZoneOf::Snat => regs.z_snat,
    };
    number as u16
}

// The flags, with one of them cleared at 0 and set otherwise.
fn with_flag(flags: RegFlags, flag: RegFlags, value: u32) -> RegFlags
    ensures { result ≡ set_flag flag.0 value flags }
{
    if value == 0 {
        RegFlags(flags.0 & !flag.0)
    } else {
        RegFlags(flags.0 | flag.0)
    }
}

pub(crate) fn set(regs: &mut Regs, reg: Reg, value: u32)
    ensures { regs.new ≡ set_reg reg value regs.old }
{
    match reg {
        Reg::Dp => regs.dp = value,
        Reg::InPort => regs.in_port = value,
        Reg::OutPort => regs.out_port = value,
        Reg::Next => regs.next = value,
        Reg::ZIn => regs.z_in = value,
        Reg::ZOut => regs.z_out = value,
        Reg::ZDnat => regs.z_dnat = value,
        Reg::ZSnat => regs.z_snat = value,
        Reg::State => regs.state = value,
        Reg::Verdict => regs.verdict = value,
        Reg::Tier => regs.tier = value,
        Reg::Loopback => regs.flags = with_flag(regs.flags, RegFlags::LOOPBACK, value),
        Reg::Tracked => regs.flags = with_flag(regs.flags, RegFlags::TRACKED, value),
        Reg::Blocked => regs.flags = with_flag(regs.flags, RegFlags::BLOCKED, value),
        Reg::Own => regs.flags = with_flag(regs.flags, RegFlags::OWN, value),
        Reg::Arrived => regs.flags = with_flag(regs.flags, RegFlags::ARRIVED, value),
    }
}

// Sets the registers from the header of the tunnel from which the packet came.
pub(crate) fn read_header(entry: &Entry, regs: &mut Regs)
    requires entry { IsEntry entry.now }
    requires in_range { IsInRange regs.old }
    ensures regs { regs.new ≡ with_header entry.now regs.old }
    ensures in_range { IsInRange regs.new }
{
    if let Entry::Tunnel {
        vni,
        in_key,
        out_key,
    } = *entry
    {
        regs.dp = vni;
        regs.in_port = u32::from(in_key);
        regs.out_port = u32::from(out_key);
    }
}
