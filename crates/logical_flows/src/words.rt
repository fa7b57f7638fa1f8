// The words of which texts of flows consist.
ghost use Rattle.std.specs.Prelude.{◌≡◌, ◌++◌, OnOk};
ghost use Rattle.logical_flows.specs.FlowText as spec;

use crate::action::ZoneOf;
use inet_packet::regs::Reg;
use ovn_base::memory::NoMemory;

// Adds the bytes.
pub fn put(text: &[u8], out: &mut Vec<u8>) -> Result<(), NoMemory>
    ensures { OnOk result (out.new.items ≡ out.old.items ++ text.now) }
{
    out.extend_from_slice(text)?;
    Ok(())
}

// The register's name in a text.
pub fn reg_name(reg: Reg) -> &'static [u8]
    ensures { result.now ≡ spec.reg_name reg }
{
    match reg {
        Reg::Dp => b"dp",
        Reg::InPort => b"in",
        Reg::OutPort => b"out",
        Reg::Next => b"next",
        Reg::ZIn => b"z_in",
        Reg::ZOut => b"z_out",
        Reg::ZDnat => b"z_dnat",
        Reg::ZSnat => b"z_snat",
        Reg::State => b"state",
        Reg::Verdict => b"verdict",
        Reg::Tier => b"tier",
        Reg::Loopback => b"loopback",
        Reg::Tracked => b"tracked",
        Reg::Blocked => b"blocked",
        Reg::Own => b"own",
        Reg::Arrived => b"arrived",
    }
}

// Where the register stands in the order of the registers.
pub fn reg_place(reg: Reg) -> u8
    ensures { result ≡ spec.reg_place reg }
{
    match reg {
        Reg::Dp => 0,
        Reg::InPort => 1,
        Reg::OutPort => 2,
        Reg::Next => 3,
        Reg::ZIn => 4,
        Reg::ZOut => 5,
        Reg::ZDnat => 6,
        Reg::ZSnat => 7,
        Reg::State => 8,
        Reg::Verdict => 9,
        Reg::Tier => 10,
        Reg::Loopback => 11,
        Reg::Tracked => 12,
        Reg::Blocked => 13,
        Reg::Own => 14,
        Reg::Arrived => 15,
    }
}

// The zone's name in a text.
pub fn zone_name(zone: ZoneOf) -> &'static [u8]
    ensures { result.now ≡ spec.zone_name zone }
{
    match zone {
        ZoneOf::In => b"in",
        ZoneOf::Out => b"out",
        ZoneOf::Dnat => b"dnat",
        ZoneOf::Snat => b"snat",
    }
}
