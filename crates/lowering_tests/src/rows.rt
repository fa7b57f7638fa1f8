//! Logical flows of a switch with two ports, and the flows to which they are lowered.
ghost use Rattle.std.specs.Prelude.{◌≡◌, ◌≤◌, true, IfOk, IsTrue, IsSome};
ghost use Rattle.ovn_base.specs.declared.limits.TheConstants.{MAX_WIDTH};
ghost use Rattle.ovn_base.specs.names.ByName.{at};
ghost use Rattle.match_cubes.specs.Points.{members_of};
ghost use Rattle.match_cubes.specs.Suited.{are_suited};
ghost use Rattle.match_cubes.specs.Width.{width_of};

use flow_lowering::lower::lower;
use flow_table::flow::SharedFlow;
use key_tests::register::Register;
use logical_flows::action::Action;
use logical_flows::flow::{LFlow, RegIs};
use logical_flows::stage::{Pipeline, Stage};
use match_cubes::laws::fitting_is_suited;
use match_cubes::sets::{SetEntry, Sets};
use match_cubes::width::width;
use match_language::expr::Expr;
use match_language::field::Direction;
use match_language::reader::parse;
use ovn_base::address::{Cidr, Ip4};
use ovn_base::limits::{MAX_DATAPATH_KEY, MAX_PORT_KEY, MAX_WIDTH};
use ovn_base::list::List;
use ovn_base::memory::NoMemory;
use ovn_base::name::Name;
use ovn_base::steps::Steps;
use std::alloc::Global;
use tunnel_keys::fault::KeyFault;
use tunnel_keys::store::KeyStore;

/// Names the counter of calls.
pub(crate) struct Lowerings;

pub(crate) fn name(text: &[u8]) -> Result<Name, NoMemory> {
    Name::read(text).ok_or(NoMemory)
}

// The datapaths r0 and s0 come, and the ports p1 and p2 of s0.
fn come(register: &mut Register, datapaths: [Name; 2], ports: [Name; 2]) -> Result<(), KeyFault> {
    let [r0, s0] = datapaths;
    let [p1, p2] = ports;
    register.add_datapath(r0)?;
    register.add_datapath(s0)?;
    register.add_port(s0, p1)?;
    register.add_port(s0, p2)
}

/// The datapaths r0 and s0, which have the keys 1 and 2, and the ports p1 and p2 of s0, which have 1 and 2.
pub(crate) fn some_keys(alloc: Global) -> Result<Register, NoMemory> {
    let datapaths = [name(b"r0")?, name(b"s0")?];
    let ports = [name(b"p1")?, name(b"p2")?];
    let mut register = Register::with_ranges(alloc, MAX_DATAPATH_KEY, MAX_PORT_KEY)?;
    match come(&mut register, datapaths, ports) {
        Ok(()) => Ok(register),
        Err(_) => Err(NoMemory),
    }
}

// The set `nets` of two subnets.
fn nets(alloc: Global) -> Result<List<SetEntry>, NoMemory> {
    let nets = [
        SetEntry::Ip(Cidr {
            addr: Ip4(0x0a00_0000),
            len: 8,
        }),
        SetEntry::Ip(Cidr {
            addr: Ip4(0xc0a8_0107),
            len: 32,
        }),
    ];
    List::from_slice(alloc, &nets)
}

fn some_sets(alloc: Global) -> Result<Sets, NoMemory> {
    let mut addresses = List::new(alloc);
    addresses.push((name(b"nets")?, nets(alloc)?))?;
    Ok(Sets {
        addresses,
        groups: List::new(alloc),
    })
}

fn read(alloc: Global, text: &[u8]) -> Result<Expr, NoMemory>
    ensures { IfOk result (λ x. are_suited x true ≡ true) }
{
    fitting_is_suited();
    match parse(alloc, text, Direction::ToLport) {
        Ok(expr) => Ok(expr),
        Err(_) => Err(NoMemory),
    }
}

// Whether the match is no wider than it may be.
fn is_narrow(expr: &Expr, sets: &Sets) -> bool
    ensures { IsTrue result → width_of (members_of sets.now) expr.now ≤ MAX_WIDTH }
{
    width(expr, sets) <= MAX_WIDTH
}

// Whether the datapath has a live key.
fn has_datapath(keys: &KeyStore, datapath: &Name) -> bool
    ensures { IsTrue result → IsSome (at keys.now.datapaths datapath.now) }
{
    keys.datapath(datapath).is_some()
}

// Whether the port has a live key.
fn has_port(keys: &KeyStore, port: &Name) -> bool
    ensures { IsTrue result → IsSome (at keys.now.ports port.now) }
{
    keys.port(port).is_some()
}

/// The flows, on s0, of the match and the registers in the stage of rules: they send the packet to p2. Each call counts a step.
pub(crate) fn flows(
    alloc: Global,
    keys: &KeyStore,
    text: &[u8],
    regs: &[RegIs],
    steps: &mut Steps<Lowerings>,
) -> Result<List<SharedFlow>, NoMemory> {
    let (s0, p2) = (name(b"s0")?, name(b"p2")?);
    if !has_datapath(keys, &s0) || !has_port(keys, &p2) {
        return Err(NoMemory);
    }
    let sets = some_sets(alloc)?;
    let matching = read(alloc, text)?;
    if !is_narrow(&matching, &sets) {
        return Err(NoMemory);
    }
    let mut actions = List::new(alloc);
    actions.push(Action::SetOut(p2))?;
    actions.push(Action::Go(12))?;
    let flow = LFlow {
        pipeline: Pipeline::Ingress,
        stage: Stage::SwitchAclIn,
        priority: 2000,
        rank: 6,
        regs: List::from_slice(alloc, regs)?,
        matching,
        actions,
    };
    let mut out = List::new(alloc);
    lower(&flow, &s0, keys, &sets, &mut out, steps)?;
    Ok(out)
}
