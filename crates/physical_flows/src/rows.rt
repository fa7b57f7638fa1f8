//! The flows of the tables around the pipelines, row by row.
ghost use Rattle.std.specs.Prelude.{◌≡◌, ◌++◌, [], ◌∷◌, map, IfOk, OnOk};
ghost use Rattle.flow_table.specs.declared.flow.FlowOp.TheVariants.{Set, Go, Frame};
ghost use Rattle.physical_flows.specs.Around.{exit_rows};
ghost use Rattle.physical_flows.specs.GroupKeys.{group_key};
ghost use Rattle.inet_packet.specs.Cubes.{any, exactly, everything};
ghost use Rattle.physical_flows.specs.Rows.{on_entry, on_tunnel, on_exit, on_return, on_way, on_group, arrived_is, flow_of, remote_row, spread_row, copies_row, return_row, output_row, pass_row, enter_row, patch_row, no_peer_row};
ghost use Rattle.physical_flows.specs.TableList.{group_rows, local_rows, common_rows};

use crate::beyond::Beyond;
use crate::priorities::{BASE_PRIORITY, PHYSICAL_PRIORITY};
use flow_table::flow::{Cause, Flow, FlowOp, Member, SharedFlow};
use inet_packet::cube::{Bits, Cube};
use inet_packet::regs::{At, Reg};
use net_model::crossing::Group;
use ovn_base::limits::{FLOOD_KEY, UNKNOWN_KEY};
use ovn_base::list::List;
use ovn_base::memory::NoMemory;
use ovn_base::name::Name;
use ovn_base::stages::{
    ADMIT_TABLE, EGRESS_TRACK_TABLE, ENTRY_TABLE, LOCAL_TABLE, LOOPBACK_TABLE, OUTPUT_TABLE,
    REMOTE_TABLE,
};
use std::alloc::Global;

// The number of a group.
fn number_of(group: Group) -> u16
    ensures { result ≡ group_key group }
{
    match group {
        Group::Flood => FLOOD_KEY,
        Group::Unknown => UNKNOWN_KEY,
    }
}

fn entry_cube(port: Name) -> Cube
    ensures { result ≡ on_entry port }
{
    Cube {
        at: Some(At::Local(port)),
        ..Cube::EVERYTHING
    }
}

fn tunnel_cube() -> Cube
    ensures { result ≡ on_tunnel }
{
    Cube {
        at: Some(At::Tunnel),
        ..Cube::EVERYTHING
    }
}

fn exit_cube(dp: u32, key: u16) -> Cube
    ensures { result ≡ on_exit dp key }
{
    Cube {
        dp: Bits::exactly(24, u64::from(dp)),
        out_port: Bits::exactly(16, u64::from(key)),
        ..Cube::EVERYTHING
    }
}

fn return_cube(dp: u32, key: u16) -> Cube
    ensures { result ≡ on_return dp key }
{
    Cube {
        dp: Bits::exactly(24, u64::from(dp)),
        in_port: Bits::exactly(16, u64::from(key)),
        out_port: Bits::exactly(16, u64::from(key)),
        flags: Bits { value: 0, mask: 1 },
        ..Cube::EVERYTHING
    }
}

fn way_cube(dp: u32, key: u16) -> Cube
    ensures { result ≡ on_way dp key }
{
    Cube {
        dp: Bits::exactly(24, u64::from(dp)),
        out_port: Bits::exactly(16, u64::from(key)),
        flags: Bits { value: 0, mask: 16 },
        ..Cube::EVERYTHING
    }
}

fn group_cube(dp: u32, group: Group, arrived: bool) -> Cube
    ensures { result ≡ on_group dp group arrived }
{
    let value = if arrived { 16 } else { 0 };
    Cube {
        dp: Bits::exactly(24, u64::from(dp)),
        out_port: Bits::exactly(16, u64::from(number_of(group))),
        flags: Bits { value, mask: 16 },
        ..Cube::EVERYTHING
    }
}

// Adds a flow of rank 0.
fn push_flow(
    table: u8,
    priority: u16,
    cube: Cube,
    ops: List<FlowOp>,
    flows: &mut List<SharedFlow>,
) -> Result<(), NoMemory>
    ensures { OnOk result (flows.new ≡ flows.old ++ flow_of table priority cube ops ∷ []) }
{
    let flow = Flow::shared(flows.allocator(), table, priority, 0, cube, ops.as_slice())?;
    flows.push(flow)
}

// Adds a flow with one action.
fn push_one(
    alloc: Global,
    table: u8,
    priority: u16,
    cube: Cube,
    op: FlowOp,
    flows: &mut List<SharedFlow>,
) -> Result<(), NoMemory>
    ensures { OnOk result (flows.new ≡ flows.old ++ flow_of table priority cube (op ∷ []) ∷ []) }
{
    let ops = List::from_vec(vec![in alloc; op]?);
    push_flow(table, priority, cube, ops, flows)
}

// The actions that set a register and go on.
fn set_and_go(alloc: Global, reg: Reg, value: u32, table: u8) -> Result<List<FlowOp>, NoMemory>
    ensures { IfOk result (λ ops. ops ≡ Set reg value ∷ Go table ∷ []) }
{
    Ok(List::from_vec(vec![in alloc; FlowOp::Set { reg, value }, FlowOp::Go(table)]?))
}

// The actions that send a frame to each of the chassis.
fn frames_to(alloc: Global, homes: &[Name]) -> Result<List<FlowOp>, NoMemory>
    ensures { IfOk result (λ ops. ops ≡ map (λ home. Frame home) homes.now) }
{
    let mut ops = List::new(alloc);
    'homes: for home in homes {
        ops.push(FlowOp::frame(alloc, *home)?)?;
    }
    Ok(ops)
}

// Adds the row that sends a packet for a group to the other chassis that have a member.
fn push_spread(
    alloc: Global,
    dp: u32,
    group: Group,
    homes: &[Name],
    flows: &mut List<SharedFlow>,
) -> Result<(), NoMemory>
    ensures { OnOk result (flows.new ≡ flows.old ++ spread_row dp group homes.now ∷ []) }
{
    let mut ops = frames_to(alloc, homes)?;
    ops.push(FlowOp::Go(LOCAL_TABLE))?;
    push_flow(
        REMOTE_TABLE,
        PHYSICAL_PRIORITY,
        group_cube(dp, group, false),
        ops,
        flows,
    )
}

// Adds the row that makes a copy for each member here.
fn push_copies(
    alloc: Global,
    dp: u32,
    group: Group,
    arrived: bool,
    members: &[Member],
    flows: &mut List<SharedFlow>,
) -> Result<(), NoMemory>
    ensures { OnOk result (flows.new ≡ flows.old ++ copies_row dp group arrived members.now ∷ []) }
{
    let copies = FlowOp::copies(alloc, members)?;
    push_one(
        alloc,
        LOCAL_TABLE,
        PHYSICAL_PRIORITY,
        group_cube(dp, group, arrived),
        copies,
        flows,
    )
}

/// Adds the rows of a group of a switch: `homes` are the other chassis that have a member, `members` those that are here, and
/// `reached` those of them that a packet out of a tunnel reaches.
pub fn push_group(
    alloc: Global,
    dp: u32,
    group: Group,
    homes: &[Name],
    members: &[Member],
    reached: &[Member],
    flows: &mut List<SharedFlow>,
) -> Result<(), NoMemory>
    ensures { OnOk result (flows.new ≡ flows.old ++ group_rows dp group homes.now members.now reached.now) }
{
    push_spread(alloc, dp, group, homes, flows)?;
    push_copies(alloc, dp, group, false, members, flows)?;
    push_copies(alloc, dp, group, true, reached, flows)
}

/// Adds the rows by which packets leave at a port: none goes back to where it came from, and at a virtual port it goes out.
pub fn push_exits(
    alloc: Global,
    virtual_port: bool,
    dp: u32,
    name: Name,
    key: u16,
    flows: &mut List<SharedFlow>,
) -> Result<(), NoMemory>
    ensures { OnOk result (flows.new ≡ flows.old ++ exit_rows virtual_port dp name key) }
{
    push_return(alloc, dp, key, flows)?;
    if virtual_port {
        push_output(alloc, dp, name, key, flows)?;
    }
    Ok(())
}

// Adds the row by which no packet goes back to where it came from.
fn push_return(
    alloc: Global,
    dp: u32,
    key: u16,
    flows: &mut List<SharedFlow>,
) -> Result<(), NoMemory>
    ensures { OnOk result (flows.new ≡ flows.old ++ return_row dp key ∷ []) }
{
    let drop = FlowOp::Drop(Cause::Loopback);
    push_one(
        alloc,
        LOOPBACK_TABLE,
        PHYSICAL_PRIORITY,
        return_cube(dp, key),
        drop,
        flows,
    )
}

// Adds the row by which packets go out at a virtual port.
fn push_output(
    alloc: Global,
    dp: u32,
    name: Name,
    key: u16,
    flows: &mut List<SharedFlow>,
) -> Result<(), NoMemory>
    ensures { OnOk result (flows.new ≡ flows.old ++ output_row dp name key ∷ []) }
{
    push_one(
        alloc,
        OUTPUT_TABLE,
        PHYSICAL_PRIORITY,
        exit_cube(dp, key),
        FlowOp::output(alloc, name)?,
        flows,
    )
}

/// Adds the row of a port by which packets pass into another datapath.
pub fn push_patch(
    alloc: Global,
    dp: u32,
    key: u16,
    to: Beyond,
    flows: &mut List<SharedFlow>,
) -> Result<(), NoMemory>
    ensures { OnOk result (flows.new ≡ flows.old ++ patch_row dp key to ∷ []) }
{
    let patch = FlowOp::Patch {
        dp: to.dp,
        in_port: to.in_port,
        z_dnat: to.z_dnat,
        z_snat: to.z_snat,
    };
    push_one(
        alloc,
        OUTPUT_TABLE,
        PHYSICAL_PRIORITY,
        exit_cube(dp, key),
        patch,
        flows,
    )
}

/// Adds the row of a port that leads nowhere.
pub fn push_no_peer(
    alloc: Global,
    dp: u32,
    key: u16,
    flows: &mut List<SharedFlow>,
) -> Result<(), NoMemory>
    ensures { OnOk result (flows.new ≡ flows.old ++ no_peer_row dp key ∷ []) }
{
    push_one(
        alloc,
        OUTPUT_TABLE,
        PHYSICAL_PRIORITY,
        exit_cube(dp, key),
        FlowOp::Drop(Cause::NoPeer),
        flows,
    )
}

/// Adds the row of a port that leads into another datapath, where it is at home on this chassis alone.
pub fn push_pass(
    alloc: Global,
    dp: u32,
    key: u16,
    flows: &mut List<SharedFlow>,
) -> Result<(), NoMemory>
    ensures { OnOk result (flows.new ≡ flows.old ++ pass_row dp key ∷ []) }
{
    push_one(
        alloc,
        LOCAL_TABLE,
        PHYSICAL_PRIORITY,
        exit_cube(dp, key),
        FlowOp::Go(LOOPBACK_TABLE),
        flows,
    )
}

/// Adds the row of a port that leads into another datapath, where it is at home on every chassis.
pub fn push_enter(
    alloc: Global,
    dp: u32,
    key: u16,
    flows: &mut List<SharedFlow>,
) -> Result<(), NoMemory>
    ensures { OnOk result (flows.new ≡ flows.old ++ enter_row dp key ∷ []) }
{
    push_one(
        alloc,
        LOCAL_TABLE,
        PHYSICAL_PRIORITY,
        way_cube(dp, key),
        FlowOp::Go(LOOPBACK_TABLE),
        flows,
    )
}

/// Adds the row of a port that is at home on another chassis.
pub fn push_remote(
    alloc: Global,
    dp: u32,
    key: u16,
    home: Name,
    flows: &mut List<SharedFlow>,
) -> Result<(), NoMemory>
    ensures { OnOk result (flows.new ≡ flows.old ++ remote_row dp key home ∷ []) }
{
    push_one(
        alloc,
        REMOTE_TABLE,
        PHYSICAL_PRIORITY,
        exit_cube(dp, key),
        FlowOp::frame(alloc, home)?,
        flows,
    )
}

/// Adds the rows of a port that is bound here.
pub fn push_local(
    alloc: Global,
    dp: u32,
    name: Name,
    key: u16,
    zone: u16,
    flows: &mut List<SharedFlow>,
) -> Result<(), NoMemory>
    ensures { OnOk result (flows.new ≡ flows.old ++ local_rows dp name key zone) }
{
    let entry = vec![in alloc;
        set(Reg::Dp, dp),
        set(Reg::InPort, u32::from(key)),
        set(Reg::ZIn, u32::from(zone)),
        FlowOp::Go(ADMIT_TABLE),
    ]?;
    push_flow(
        ENTRY_TABLE,
        PHYSICAL_PRIORITY,
        entry_cube(name),
        List::from_vec(entry),
        flows,
    )?;
    let home = set_and_go(alloc, Reg::ZOut, u32::from(zone), LOOPBACK_TABLE)?;
    push_flow(
        LOCAL_TABLE,
        PHYSICAL_PRIORITY,
        exit_cube(dp, key),
        home,
        flows,
    )
}

/// Adds the rows that are no unit's.
pub fn push_common(alloc: Global, flows: &mut List<SharedFlow>) -> Result<(), NoMemory>
    ensures { OnOk result (flows.new ≡ flows.old ++ common_rows) }
{
    let on = FlowOp::Go(LOCAL_TABLE);
    let arrival = vec![in alloc; FlowOp::Header, set(Reg::Arrived, 1), on]?;
    push_flow(
        ENTRY_TABLE,
        PHYSICAL_PRIORITY,
        tunnel_cube(),
        List::from_vec(arrival),
        flows,
    )?;
    push_one(
        alloc,
        REMOTE_TABLE,
        BASE_PRIORITY,
        Cube::EVERYTHING,
        FlowOp::Go(LOCAL_TABLE),
        flows,
    )?;
    let leave = vec![in alloc;
        set(Reg::Tracked, 0),
        set(Reg::State, 0),
        set(Reg::Blocked, 0),
        set(Reg::Verdict, 0),
        FlowOp::Go(EGRESS_TRACK_TABLE),
    ]?;
    push_flow(
        LOOPBACK_TABLE,
        BASE_PRIORITY,
        Cube::EVERYTHING,
        List::from_vec(leave),
        flows,
    )
}

fn set(reg: Reg, value: u32) -> FlowOp
    ensures { result ≡ Set reg value }
{
    FlowOp::Set { reg, value }
}
