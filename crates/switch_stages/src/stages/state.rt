//! The rows of s_state_in and s_state_out: what is decided by what the rules say and by the state of the connection.
ghost use Rattle.std.specs.Prelude.{◌≡◌, ◌++◌, ◌∷◌, [], IfOk, OnOk};
ghost use Rattle.stage_rows.specs.Rows as rows;
ghost use Rattle.stage_rows.specs.Rows.{when};
ghost use Rattle.stage_rows.specs.StateRows as spec;
ghost use Rattle.switch_stages.specs.StateGroups.{untracked_rows, reply_rows, allowed_rows};

use flow_table::flow::Cause;
use inet_packet::regs::Reg;
use logical_flows::action::{Action, ZoneOf};
use logical_flows::flow::{LFlow, RegIs};
use logical_flows::stage::Stage;
use ovn_base::list::List;
use ovn_base::memory::NoMemory;
use stage_rows::priorities::{
    ALLOWED_PRIORITY, INVALID_PRIORITY, REFUSED_PRIORITY, REPLY_PRIORITY, UNTRACKED_PRIORITY,
    UNTRACKED_REFUSED_PRIORITY,
};
use stage_rows::rows::{IS_FORWARD, IS_INVALID, IS_NEW, IS_REPLY, go_on, known_actions, state_row};
use stage_rows::terms::only;
use std::alloc::Global;

// ---- registers

// Whether the connection was looked for.
const IS_UNTRACKED: RegIs = RegIs {
    reg: Reg::Tracked,
    value: 0,
};

const IS_ON_TRACK: RegIs = RegIs {
    reg: Reg::Tracked,
    value: 1,
};

// What the rules say.
const SAYS_STATELESS: RegIs = RegIs {
    reg: Reg::Verdict,
    value: 3,
};

const SAYS_REJECT: RegIs = RegIs {
    reg: Reg::Verdict,
    value: 4,
};

const SAYS_DROP: RegIs = RegIs {
    reg: Reg::Verdict,
    value: 5,
};

// Whether a rule has blocked the connection.
const IS_BLOCKED: RegIs = RegIs {
    reg: Reg::Blocked,
    value: 1,
};

const IS_UNBLOCKED: RegIs = RegIs {
    reg: Reg::Blocked,
    value: 0,
};

// ---- refusals

// What is done before a packet is refused: its connection is blocked, or nothing.
fn first_actions(alloc: Global, blocks: bool) -> Result<List<Action>, NoMemory>
    ensures { IfOk result (λ l. l ≡ when blocks (Action.Block ∷ [])) }
{
    if blocks {
        only(alloc, Action::Block)
    } else {
        Ok(List::new(alloc))
    }
}

// Adds the row that drops for this cause.
fn push_refusal(
    alloc: Global,
    stage: Stage,
    priority: u16,
    regs: &[RegIs],
    blocks: bool,
    cause: Cause,
    out: &mut List<LFlow>,
) -> Result<(), NoMemory>
    ensures { OnOk result (out.new ≡ out.old ++ spec.state_row stage priority regs.now (when blocks (Action.Block ∷ []) ++ Action.Drop cause ∷ []) ∷ []) }
{
    let mut actions = first_actions(alloc, blocks)?;
    actions.push(Action::Drop(cause))?;
    out.push(state_row(alloc, stage, priority, regs, actions)?)
}

// Adds the rows of this state where the rules say drop, and where they say reject.
fn push_refusals(
    alloc: Global,
    stage: Stage,
    priority: u16,
    state: RegIs,
    blocks: bool,
    out: &mut List<LFlow>,
) -> Result<(), NoMemory>
    ensures { OnOk result (out.new ≡ out.old ++ spec.refusals stage priority state (when blocks (Action.Block ∷ []))) }
{
    let drop = [state, SAYS_DROP];
    push_refusal(alloc, stage, priority, &drop, blocks, Cause::Acl, out)?;
    let reject = [state, SAYS_REJECT];
    push_refusal(alloc, stage, priority, &reject, blocks, Cause::Reject, out)
}

// ---- groups of rows

// Adds a row that goes on, where these registers are so.
fn push_pass(
    alloc: Global,
    stage: Stage,
    priority: u16,
    regs: &[RegIs],
    out: &mut List<LFlow>,
) -> Result<(), NoMemory>
    ensures { OnOk result (out.new ≡ out.old ++ spec.state_row stage priority regs.now (rows.go_on stage ∷ []) ∷ []) }
{
    let actions = only(alloc, go_on(stage))?;
    out.push(state_row(alloc, stage, priority, regs, actions)?)
}

// Adds the rows for what isn't tracked, and for what a rule lets through without a connection.
fn push_untracked(alloc: Global, stage: Stage, out: &mut List<LFlow>) -> Result<(), NoMemory>
    ensures { OnOk result (out.new ≡ out.old ++ untracked_rows stage) }
{
    push_refusals(
        alloc,
        stage,
        UNTRACKED_REFUSED_PRIORITY,
        IS_UNTRACKED,
        false,
        out,
    )?;
    push_pass(alloc, stage, UNTRACKED_PRIORITY, &[IS_UNTRACKED], out)?;
    push_pass(
        alloc,
        stage,
        UNTRACKED_PRIORITY,
        &[IS_ON_TRACK, SAYS_STATELESS],
        out,
    )
}

// Adds the rows for what belongs to no connection and can't begin one.
fn push_invalid(
    alloc: Global,
    stateful: bool,
    stage: Stage,
    out: &mut List<LFlow>,
) -> Result<(), NoMemory>
    ensures { OnOk result (out.new ≡ out.old ++ spec.invalid_rows stateful stage) }
{
    if !stateful {
        return push_refusals(alloc, stage, INVALID_PRIORITY, IS_INVALID, false, out);
    }
    let actions = only(alloc, Action::Drop(Cause::Invalid))?;
    out.push(state_row(alloc, stage, INVALID_PRIORITY, &[IS_INVALID], actions)?)
}

// Adds the rows for replies.
fn push_replies(alloc: Global, stage: Stage, out: &mut List<LFlow>) -> Result<(), NoMemory>
    ensures { OnOk result (out.new ≡ out.old ++ reply_rows stage) }
{
    let drop = only(alloc, Action::Drop(Cause::Blocked))?;
    let row = state_row(alloc, stage, REPLY_PRIORITY, &[IS_REPLY, IS_BLOCKED], drop)?;
    out.push(row)?;
    let pass = known_actions(alloc, stage)?;
    let row = state_row(
        alloc,
        stage,
        REPLY_PRIORITY,
        &[IS_REPLY, IS_UNBLOCKED],
        pass,
    )?;
    out.push(row)
}

// Unblocks the connection before the actions of a known one.
fn forward_actions(alloc: Global, stage: Stage) -> Result<List<Action>, NoMemory>
    ensures { IfOk result (λ l. l ≡ Action.Unblock ∷ Action.Touch ∷ Action.Translate ∷ rows.go_on stage ∷ []) }
{
    let mut actions = only(alloc, Action::Unblock)?;
    actions.append(known_actions(alloc, stage)?)?;
    Ok(actions)
}

// Adds a connection to the zone, and goes on.
fn new_actions(alloc: Global, stage: Stage, zone: ZoneOf) -> Result<List<Action>, NoMemory>
    ensures { IfOk result (λ l. l ≡ Action.Commit zone ∷ rows.go_on stage ∷ []) }
{
    let mut actions = only(alloc, Action::Commit(zone))?;
    actions.push(go_on(stage))?;
    Ok(actions)
}

// Adds the rows for what no rule refuses.
fn push_allowed(
    alloc: Global,
    stage: Stage,
    zone: ZoneOf,
    out: &mut List<LFlow>,
) -> Result<(), NoMemory>
    ensures { OnOk result (out.new ≡ out.old ++ allowed_rows stage zone) }
{
    let forward = forward_actions(alloc, stage)?;
    out.push(state_row(alloc, stage, ALLOWED_PRIORITY, &[IS_FORWARD], forward)?)?;
    let new = new_actions(alloc, stage, zone)?;
    out.push(state_row(alloc, stage, ALLOWED_PRIORITY, &[IS_NEW], new)?)?;
    push_pass(alloc, stage, 0, &[], out)
}

/// Adds the rows of the stage, of a switch that is stateful or not, whose connections are in the zone.
pub(crate) fn push_state(
    alloc: Global,
    stateful: bool,
    stage: Stage,
    zone: ZoneOf,
    out: &mut List<LFlow>,
) -> Result<(), NoMemory>
    ensures { OnOk result (out.new ≡ out.old ++ spec.state_rows stateful stage zone) }
{
    push_untracked(alloc, stage, out)?;
    push_invalid(alloc, stateful, stage, out)?;
    push_replies(alloc, stage, out)?;
    push_refusals(alloc, stage, REFUSED_PRIORITY, IS_FORWARD, true, out)?;
    push_refusals(alloc, stage, REFUSED_PRIORITY, IS_NEW, false, out)?;
    push_allowed(alloc, stage, zone, out)?;
    Ok(())
}
