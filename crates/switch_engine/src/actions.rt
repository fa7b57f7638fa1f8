//! What the actions of a flow do.
ghost use Rattle.std.specs.Prelude.{◌≡◌, ◌++◌, [], ◌∷◌, true, cond, Some, None, IfOk, OnOk, OnErr};
ghost use Rattle.std.specs.List.{AllByRecursion};
ghost use Rattle.indexmap.specs.IndexMap.{spare};
ghost use Rattle.switch_engine.specs.Actions.{drop_at, frame_to, copies_for, patched_regs};
ghost use Rattle.switch_engine.specs.Advance.{Brings, ActionDoes, DoesAll, Extends, IsCarriedInRange};
ghost use Rattle.switch_engine.specs.Outcome.{act, may_begin, changed_copy, changed_zones, patches};
ghost use Rattle.switch_engine.specs.Proper.{CanPatch, IsEntry, Sets};
ghost use Rattle.switch_engine.specs.Range.{IsInRange};
ghost use Rattle.switch_engine.specs.Zones.{ZoneLists};
ghost use Rattle.switch_engine.specs.declared.effect.Entry.{Entry};

use crate::carried::Carried;
use crate::commits::{balance, commit, dnat, snat};
use crate::effect::{Effect, Entry};
use crate::headers::{answer_arp, answer_echo, spend_ttl};
use crate::registers::{cleared, read_header, set, zone_number};
use crate::tracking::{block, look_up, touch, translate, undo};
use crate::zones::ZoneMap;
use flow_table::flow::{Cause, FlowOp, Member, ZoneOf};
use inet_packet::regs::{At, Regs};
use ovn_base::limits::MAX_HOPS;
use ovn_base::list::List;
use ovn_base::memory::NoMemory;
use ovn_base::name::Name;
use ovn_base::stages::{ADMIT_TABLE, LOOKUP_TABLE, LOOPBACK_TABLE};

/// What becomes of a copy after an action.
#[derive(Clone, Copy, PartialEq, Eq, Debug)]
pub enum Turn {
    /// The next action follows.
    Next,
    /// It goes on at its table.
    Leaves,
    /// It has come to its end.
    Ends,
}

// The drop of a packet in the table.
pub(crate) fn dropped(table: u8, cause: Cause, regs: &Regs) -> Effect
    requires { IsInRange regs.now }
    ensures { result ≡ drop_at table cause regs.now }
{
    let port = if table <= LOOKUP_TABLE {
        regs.in_port
    } else {
        regs.out_port
    };
    Effect::Drop {
        vni: regs.dp,
        port: port as u16,
        cause,
    }
}

// The frame that takes the copy to the chassis.
fn framed(chassis: Name, copy: &Carried) -> Result<Effect, NoMemory>
    requires { IsInRange copy.now.regs }
    ensures { IfOk result (λ e. e ≡ frame_to chassis copy.now) }
{
    let packet = copy.packet.copy()?;
    Ok(Effect::Frame {
        chassis,
        vni: copy.regs.dp,
        in_key: copy.regs.in_port as u16,
        out_key: copy.regs.out_port as u16,
        packet,
    })
}

// Makes a copy for each of the members but the port of entry.
fn copy_to(members: &[Member], copy: &Carried, made: &mut List<Carried>) -> Result<(), NoMemory>
    requires in_range { IsCarriedInRange copy.now }
    requires all_in_range { AllByRecursion IsCarriedInRange made.old }
    ensures ok { OnOk result (made.new ≡ made.old ++ copies_for copy.now members.now) }
    ensures all_in_range { OnOk result (AllByRecursion IsCarriedInRange made.new) }
{
    'members: for member in members {
        let out_port = u32::from(member.key);
        if out_port == copy.regs.in_port {
            continue;
        }
        let mut regs = copy.regs;
        regs.out_port = out_port;
        regs.z_out = u32::from(member.zone);
        made.push(Carried {
            from: copy.table,
            table: LOOPBACK_TABLE,
            regs,
            packet: copy.packet.copy()?,
            found: copy.found,
            passes: copy.passes,
        })?;
    }
    Ok(())
}

// Does an action that changes the copy, its packet or the connections that are there.
fn change(entry: &Entry, now: u64, op: &FlowOp, copy: &mut Carried, zones: &mut ZoneMap)
    requires entry { IsEntry entry.now }
    requires sets { Sets op.now }
    requires in_range { IsCarriedInRange copy.old }
    ensures copy { copy.new ≡ changed_copy entry.now op.now zones.old.entries copy.old }
    ensures zones { zones.new.entries ≡ changed_zones now op.now copy.old zones.old.entries }
    ensures in_range { IsCarriedInRange copy.new }
    ensures room { spare zones.new ≡ spare zones.old }
{
    match op {
        FlowOp::Set { reg, value } => set(&mut copy.regs, *reg, *value),
        FlowOp::OutIsIn => copy.regs.out_port = copy.regs.in_port,
        FlowOp::Header => read_header(entry, &mut copy.regs),
        FlowOp::NextDst => copy.regs.next = copy.packet.body.ip4_dst(),
        FlowOp::EthSrc(mac) => copy.packet.src = *mac,
        FlowOp::EthDst(mac) => copy.packet.dst = *mac,
        FlowOp::ArpReply { mac, ip } => answer_arp(&mut copy.packet, *mac, *ip),
        FlowOp::EchoReply => answer_echo(&mut copy.packet),
        FlowOp::DecTtl => spend_ttl(&mut copy.packet),
        FlowOp::Find(zone) => look_up(zones, zone_number(*zone, &copy.regs), copy),
        FlowOp::Undo => undo(
            zones,
            zone_number(ZoneOf::Snat, &copy.regs),
            &mut copy.packet,
            now,
        ),
        FlowOp::Translate => translate(zones, copy.found, &mut copy.packet),
        FlowOp::Touch => touch(zones, copy.found, now),
        FlowOp::Block => block(zones, copy.found, true),
        FlowOp::Unblock => block(zones, copy.found, false),
        _ => {}
    }
}

// Drops the copy.
pub(crate) fn drop_copy(
    cause: Cause,
    copy: &Carried,
    effects: &mut List<Effect>,
) -> Result<(), NoMemory>
    requires { IsInRange copy.now.regs }
    ensures effects { OnOk result (effects.new ≡ effects.old ++ drop_at copy.now.table cause copy.now.regs ∷ []) }
    ensures err { OnErr result (effects.new ≡ effects.old) }
{
    effects.push(dropped(copy.table, cause, &copy.regs))?;
    Ok(())
}

// The registers with which a copy comes into another datapath.
fn patched_regs(dp: u32, in_port: u16, z_dnat: u16, z_snat: u16, regs: &Regs) -> Regs
    requires { CanPatch dp in_port z_dnat z_snat }
    ensures regs { result ≡ patched_regs dp in_port z_dnat z_snat regs.now }
    ensures in_range { IsInRange result }
{
    let mut regs = cleared(regs.at);
    regs.dp = dp;
    regs.in_port = u32::from(in_port);
    regs.z_dnat = u32::from(z_dnat);
    regs.z_snat = u32::from(z_snat);
    regs
}

// Takes the copy with these registers into another datapath, unless it passed into one too often.
fn patch(regs: Regs, copy: &mut Carried, effects: &mut List<Effect>) -> Result<Turn, NoMemory>
    requires regs { IsInRange regs }
    requires in_range { IsCarriedInRange copy.old }
    ensures does { (zones : ZoneLists) → IfOk result (λ turn. ActionDoes (patches regs) turn copy.old copy.new zones zones effects.old effects.new []) }
    ensures in_range { OnOk result (IsCarriedInRange copy.new) }
    ensures err { OnErr result (effects.new ≡ effects.old) }
{
    if copy.passes >= MAX_HOPS {
        drop_copy(Cause::HopLimit, copy, effects)?;
        return Ok(Turn::Ends);
    }
    copy.regs = regs;
    copy.from = copy.table;
    copy.table = ADMIT_TABLE;
    copy.passes += 1;
    Ok(Turn::Leaves)
}

// Whether the action is one that begins a connection.
fn may_begin(op: &FlowOp) -> bool
    ensures { result ≡ may_begin op.now }
{
    matches!(
        op,
        FlowOp::Commit(_) | FlowOp::Dnat { .. } | FlowOp::Snat { .. } | FlowOp::Balance { .. }
    )
}

// Does such an action.
fn begin(
    now: u64,
    op: &FlowOp,
    copy: &mut Carried,
    zones: &mut ZoneMap,
    effects: &mut List<Effect>,
) -> Result<Turn, NoMemory>
    requires begins { may_begin op.now ≡ true }
    requires in_range { IsCarriedInRange copy.old }
    ensures does { (entry : Entry) → IfOk result (λ turn. ActionDoes (act entry now op.now) turn copy.old copy.new zones.old.entries zones.new.entries effects.old effects.new []) }
    ensures in_range { OnOk result (IsCarriedInRange copy.new) }
    ensures room { spare zones.new ≡ spare zones.old }
    ensures err { OnErr result (Extends effects.old effects.new) }
{
    match op {
        FlowOp::Commit(zone) => {
            let number = zone_number(*zone, &copy.regs);
            let turn = commit(zones, number, now, copy, effects)?;
            Ok(turn)
        }
        FlowOp::Dnat { zone, ip } => {
            let number = zone_number(*zone, &copy.regs);
            let turn = dnat(zones, number, *ip, now, copy, effects)?;
            Ok(turn)
        }
        FlowOp::Snat { zone, ip } => {
            let number = zone_number(*zone, &copy.regs);
            let turn = snat(zones, number, *ip, now, copy, effects)?;
            Ok(turn)
        }
        FlowOp::Balance {
            zone,
            vip,
            backends,
        } => {
            let number = zone_number(*zone, &copy.regs);
            let turn = balance(
                zones,
                number,
                *vip,
                backends.get().as_slice(),
                now,
                copy,
                effects,
            )?;
            Ok(turn)
        }
        _ => unreachable!(),
    }
}

// Does an action at the time with the copy and the zones. Adds its effects, and the copies that are made.
fn act(
    entry: &Entry,
    now: u64,
    op: &FlowOp,
    copy: &mut Carried,
    zones: &mut ZoneMap,
    effects: &mut List<Effect>,
    made: &mut List<Carried>,
) -> Result<Turn, NoMemory>
    requires entry { IsEntry entry.now }
    requires sets { Sets op.now }
    requires in_range { AllByRecursion IsCarriedInRange (copy.old ∷ made.old) }
    ensures does { IfOk result (λ turn. DoesAll (act entry.now now op.now) turn copy.old copy.new zones.old.entries zones.new.entries effects.old effects.new made.old made.new) }
    ensures room { spare zones.new ≡ spare zones.old }
    ensures err { OnErr result (Extends effects.old effects.new) }
{
    if may_begin(op) {
        let turn = begin(now, op, copy, zones, effects)?;
        return Ok(turn);
    }
    match op {
        FlowOp::Go(table) => {
            copy.from = copy.table;
            copy.table = *table;
            Ok(Turn::Leaves)
        }
        FlowOp::Drop(cause) => {
            drop_copy(*cause, copy, effects)?;
            Ok(Turn::Ends)
        }
        FlowOp::Frame(chassis) => {
            effects.push(framed(*chassis.get(), copy)?)?;
            Ok(Turn::Next)
        }
        FlowOp::Copies(members) => {
            copy_to(members.get().as_slice(), copy, made)?;
            Ok(Turn::Next)
        }
        FlowOp::Output(port) => {
            effects.push(Effect::Out {
                port: *port.get(),
                packet: copy.packet.copy()?,
            })?;
            Ok(Turn::Next)
        }
        FlowOp::Patch {
            dp,
            in_port,
            z_dnat,
            z_snat,
        } => {
            let regs = patched_regs(*dp, *in_port, *z_dnat, *z_snat, &copy.regs);
            let turn = patch(regs, copy, effects)?;
            Ok(turn)
        }
        _ => {
            change(entry, now, op, copy, zones);
            Ok(Turn::Next)
        }
    }
}

// Does the actions at the time with the copy and the zones, up to one after which it goes on at a table or ends. Adds their effects and
// the copies that are made, and tells whether the copy itself goes on.
pub(crate) fn run_ops(
    entry: &Entry,
    now: u64,
    ops: &[FlowOp],
    copy: &mut Carried,
    zones: &mut ZoneMap,
    effects: &mut List<Effect>,
    made: &mut List<Carried>,
) -> Result<bool, NoMemory>
    requires entry { IsEntry entry.now }
    requires sets { AllByRecursion Sets ops.now }
    requires in_range { AllByRecursion IsCarriedInRange (copy.old ∷ made.old) }
    ensures brings { IfOk result (λ goes_on. Brings entry.now now ops.now copy.old (cond goes_on (Some copy.new) None) zones.old.entries zones.new.entries effects.old effects.new made.old made.new) }
    ensures room { spare zones.new ≡ spare zones.old }
    ensures err { OnErr result (Extends effects.old effects.new) }
{
    'ops: for op in ops {
        match act(entry, now, op, copy, zones, effects, made)? {
            Turn::Next => {}
            Turn::Leaves => return Ok(true),
            Turn::Ends => return Ok(false),
        }
    }
    Ok(false)
}
