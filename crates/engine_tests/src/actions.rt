//! Single actions, and copies of what came of them.
ghost use Rattle.switch_engine.specs.Proper.{IsProper};

use crate::rows::row;
use crate::tables::{Comes, all, leads_to, name, sent, set, shows, tables};
use flow_table::flow::{Cause, FlowOp};
use flow_table::tables::Tables;
use inet_packet::regs::Reg;
use ovn_base::list::List;
use ovn_base::memory::NoMemory;
use ovn_base::name::Name;
use std::alloc::Global;
use std::test::Fail;
use switch_engine::effect::{Entry, NetEffect};
use switch_engine::walk::{RunOut, Start, Walk};

// Whether the header that the packet came with is read, and where it came without one its frame has the datapath alone.
fn header_is_read(alloc: Global, tables: &Tables, p1: Name, hv2: Name) -> Result<bool, NoMemory>
    requires { IsProper tables.now.flows }
{
    let tunnel = Entry::Tunnel {
        vni: 0xff_ffff,
        in_key: 0x7fff,
        out_key: 0xffff,
    };
    let carried = Comes::Frame {
        chassis: hv2,
        vni: 0xff_ffff,
        in_key: 0x7fff,
        out_key: 0xffff,
    };
    let stayed = Comes::Frame {
        chassis: hv2,
        vni: 5,
        in_key: 0,
        out_key: 0,
    };
    Ok(
        leads_to(alloc, tables, tunnel, &[carried], &[0])?
            && leads_to(alloc, tables, Entry::Vif(p1), &[stayed], &[0])?,
    )
}

// The header is read where there is one.
#[test]
fn reads_the_header(rt: HostRuntime) -> Result<(), Fail> {
    let alloc = rt.alloc();
    let (p1, hv2) = (name("p1")?, name("hv2")?);
    let send = FlowOp::frame(alloc, hv2)?;
    let ops = [set(Reg::Dp, 5), FlowOp::Header, send];
    let tables = tables(alloc, &[], [row(alloc, 0, all(), ops)])?;
    assert!(rt; header_is_read(alloc, &tables, p1, hv2)?);
    Ok(())
}

// In table 0 a packet has no datapath and no port yet.
#[test]
fn drops(rt: HostRuntime) -> Result<(), Fail> {
    let alloc = rt.alloc();
    let p1 = name("p1")?;
    let rows = [row(alloc, 0, all(), [FlowOp::Drop(Cause::Vlan)])];
    let dropped = Comes::Drops {
        vni: 0,
        port: 0,
        cause: Cause::Vlan,
    };
    assert!(rt; shows(alloc, &[], rows, Entry::Vif(p1), &[dropped], &[0])?);
    Ok(())
}

#[test]
fn matches_nothing(rt: HostRuntime) -> Result<(), Fail> {
    let p1 = name("p1")?;
    assert!(rt; shows(rt.alloc(), &[], [], Entry::Vif(p1), &[], &[])?);
    Ok(())
}

// What comes of a packet that is sent as a frame.
fn one_frame(alloc: Global, p1: Name) -> Result<RunOut, NoMemory> {
    let send = FlowOp::frame(alloc, p1)?;
    let tables = tables(alloc, &[], [row(alloc, 0, all(), [send])])?;
    sent(alloc, &tables, Entry::Vif(p1))
}

// Whether a walk with the steps of the run is equal to its copy.
fn is_walk_copied(out: RunOut, p1: Name) -> Result<bool, NoMemory> {
    let walk = Walk {
        chassis: p1,
        start: Start::Frame(1),
        steps: out.walk,
    };
    Ok(walk.copy()? == walk)
}

// Whether a run that sends a frame is equal to its copy, and a walk with the copied steps is.
fn are_run_and_walk_copied(alloc: Global, p1: Name) -> Result<bool, NoMemory> {
    let out = one_frame(alloc, p1)?;
    let copy = out.copy()?;
    Ok(copy == out && is_walk_copied(copy, p1)?)
}

// Whether a frame is equal to its copy.
fn is_effect_copied(alloc: Global, p1: Name) -> Result<bool, NoMemory> {
    let lost = NetEffect::Tunnel {
        frame: 1,
        from: p1,
        to: p1,
        bytes: List::from_slice(alloc, b"frame")?,
    };
    Ok(lost.copy()? == lost)
}

// A walk, a run and an effect have copies.
#[test]
fn copies(rt: HostRuntime) -> Result<(), Fail> {
    let p1 = name("p1")?;
    assert!(rt; are_run_and_walk_copied(rt.alloc(), p1)? && is_effect_copied(rt.alloc(), p1)?);
    Ok(())
}
