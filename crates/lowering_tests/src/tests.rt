//! Flows of matches and registers are as the formats of tables have them.
use crate::rows::{Lowerings, flows, some_keys};
use flow_table::flow::{Flow, FlowOp, SharedFlow};
use flow_table::matching::matches;
use inet_packet::cube::{Bits, Cube};
use inet_packet::decode::decode;
use inet_packet::regs::{At, Reg, RegFlags, Regs};
use logical_flows::flow::RegIs;
use ovn_base::list::List;
use ovn_base::memory::NoMemory;
use ovn_base::steps::Steps;
use std::alloc::Global;
use std::test::Fail;
use tunnel_keys::store::KeyStore;

fn on(dp: u32) -> Regs {
    Regs {
        dp,
        in_port: 1,
        out_port: 0,
        next: 0,
        z_in: 0,
        z_out: 0,
        z_dnat: 0,
        z_snat: 0,
        state: 0,
        verdict: 0,
        tier: 0,
        flags: RegFlags(0),
        at: At::Tunnel,
    }
}

// How many of the flows match the frame in the stage's table, on the datapath of this key.
fn count(alloc: Global, flows: &[SharedFlow], dp: u32, frame: &[u8]) -> Result<usize, NoMemory> {
    let Ok(packet) = decode(alloc, frame) else {
        return Err(NoMemory);
    };
    let regs = on(dp);
    let matching = flows
        .iter()
        .filter(|flow| matches(flow, 11, &regs, &packet));
    Ok(matching.count())
}

// From 10.0.0.1 to 10.0.0.2: UDP, TCP to port 1024 and TCP to port 1023.
const UDP: &[u8] =
    b"\x0a\x00\x00\x00\x00\x02\x0a\x00\x00\x00\x00\x01\x08\x00\x45\x00\x00\x1c\x00\x01\x00\x00\x40\x11\x66\xce\x0a\x00\x00\x01\x0a\x00\x00\x02\x13\x88\x13\x89\x00\x08\x00\x00";

const TO_1024: &[u8] =
    b"\x0a\x00\x00\x00\x00\x02\x0a\x00\x00\x00\x00\x01\x08\x00\x45\x00\x00\x28\x00\x01\x00\x00\x40\x06\x66\xcd\x0a\x00\x00\x01\x0a\x00\x00\x02\x13\x88\x04\x00\x00\x00\x00\x00\x00\x00\x00\x00\x50\x02\xff\xff\x00\x00\x00\x00";

const TO_1023: &[u8] =
    b"\x0a\x00\x00\x00\x00\x02\x0a\x00\x00\x00\x00\x01\x08\x00\x45\x00\x00\x28\x00\x01\x00\x00\x40\x06\x66\xcd\x0a\x00\x00\x01\x0a\x00\x00\x02\x13\x88\x03\xff\x00\x00\x00\x00\x00\x00\x00\x00\x50\x02\xff\xff\x00\x00\x00\x00";

// How many of the flows match each of the frames.
fn count_each(alloc: Global, flows: &[SharedFlow], dp: u32) -> Result<[usize; 3], NoMemory> {
    Ok([
        count(alloc, flows, dp, UDP)?,
        count(alloc, flows, dp, TO_1024)?,
        count(alloc, flows, dp, TO_1023)?,
    ])
}

// How many flows there are, and how many of them match each of the frames on s0 and on r0.
type FlowCounts = (usize, [usize; 3], [usize; 3]);

// Those of the match.
fn counts(
    alloc: Global,
    keys: &KeyStore,
    text: &[u8],
    steps: &mut Steps<Lowerings>,
) -> Result<FlowCounts, NoMemory> {
    let flows = flows(alloc, keys, text, &[], steps)?;
    let on_s0 = count_each(alloc, flows.as_slice(), 2)?;
    let on_r0 = count_each(alloc, flows.as_slice(), 1)?;
    Ok((flows.len(), on_s0, on_r0))
}

// Those of a match that names no address twice, and of one that names a range of ports, and how many steps both take.
fn both_counts(alloc: Global) -> Result<(FlowCounts, FlowCounts, u64), NoMemory> {
    let register = some_keys(alloc)?;
    let mut steps = Steps::new();
    let unlike = b"ip4.src != {10.0.0.1, 10.0.0.2}";
    let unlike = counts(alloc, register.keys(), unlike, &mut steps)?;
    let ports = counts(alloc, register.keys(), b"tcp.dst >= 1024", &mut steps)?;
    Ok((unlike, ports, steps.count()))
}

// Of 32 times 32 meets two ask for both values of a bit, in which the addresses differ.
#[test]
fn widths(rt: HostRuntime) -> Result<(), Fail> {
    let unlike = (1022, [0, 0, 0], [0, 0, 0]);
    let ports = (6, [0, 1, 0], [0, 0, 0]);
    assert_eq!(rt; both_counts(rt.alloc())?, (unlike, ports, 2));
    Ok(())
}

// The flows on the packets between the ports of a reply that is not blocked.
fn of_replies(alloc: Global) -> Result<List<SharedFlow>, NoMemory> {
    let register = some_keys(alloc)?;
    let is = |reg, value| RegIs { reg, value };
    let regs = [is(Reg::Tracked, 1), is(Reg::State, 3), is(Reg::Blocked, 0)];
    let text = b"inport == \"p1\" && outport == {\"p2\", \"gone\"}";
    flows(alloc, register.keys(), text, &regs, &mut Steps::new())
}

// The keys 2, 1 and 2 of s0, p1 and p2, and the registers.
fn cube_of_replies() -> Cube {
    let mut cube = Cube::EVERYTHING;
    cube.dp = Bits::exactly(24, 2);
    cube.in_port = Bits::exactly(16, 1);
    cube.out_port = Bits::exactly(16, 2);
    cube.state = Bits::exactly(3, 3);
    cube.flags = Bits { value: 2, mask: 6 };
    cube
}

// The one flow that they are to be.
fn flow_of_replies(alloc: Global) -> Result<SharedFlow, NoMemory> {
    let mut ops = List::new(alloc);
    ops.push(FlowOp::Set {
        reg: Reg::OutPort,
        value: 2,
    })?;
    ops.push(FlowOp::Go(12))?;
    Flow::shared(alloc, 11, 2000, 6, cube_of_replies(), ops.as_slice())
}

#[test]
fn a_flow_asks_for_keys_and_registers(rt: HostRuntime) -> Result<(), Fail> {
    let wanted = flow_of_replies(rt.alloc())?;
    let flows = of_replies(rt.alloc())?;
    assert!(rt; flows.as_slice() == [wanted].as_slice());
    Ok(())
}

// How many flows there are of a match with the register at two numbers, and of one with a set of two subnets.
fn of_states_and_sets(alloc: Global) -> Result<(usize, usize), NoMemory> {
    let register = some_keys(alloc)?;
    let keys = register.keys();
    let state = |value| RegIs {
        reg: Reg::State,
        value,
    };
    let mut steps = Steps::new();
    let both = flows(alloc, keys, b"1", &[state(1), state(2)], &mut steps)?;
    let sets = flows(alloc, keys, b"ip4.dst == $nets", &[state(1)], &mut steps)?;
    Ok((both.len(), sets.len()))
}

#[test]
fn a_register_has_one_number(rt: HostRuntime) -> Result<(), Fail> {
    assert_eq!(rt; of_states_and_sets(rt.alloc())?, (0, 2));
    Ok(())
}
