//! Rows, and the registers and actions of which they are made.
ghost use Rattle.std.specs.Prelude.{◌≡◌, ◌++◌, ◌∷◌, [], IfOk, OnOk};
ghost use Rattle.stage_rows.specs.Rows as spec;
ghost use Rattle.stage_rows.specs.StateRows as states;
ghost use Rattle.stage_rows.specs.SwitchRows as switches;

use crate::terms::only;
use flow_table::flow::Cause;
use inet_packet::regs::Reg;
use logical_flows::action::Action;
use logical_flows::flow::{LFlow, RegIs};
use logical_flows::stage::Stage;
use match_language::expr::Expr;
use ovn_base::address::{Ip4, Mac};
use ovn_base::list::List;
use ovn_base::memory::NoMemory;
use ovn_base::stages::{OUTPUT_TABLE, REMOTE_TABLE};
use std::alloc::Global;

// ---- what the list of connections says of a packet

/// It would begin a connection.
pub const IS_NEW: RegIs = RegIs {
    reg: Reg::State,
    value: 1,
};

/// It goes the way of the packet that began its connection.
pub const IS_FORWARD: RegIs = RegIs {
    reg: Reg::State,
    value: 2,
};

/// It is a reply.
pub const IS_REPLY: RegIs = RegIs {
    reg: Reg::State,
    value: 3,
};

/// It belongs to no connection, and can begin none.
pub const IS_INVALID: RegIs = RegIs {
    reg: Reg::State,
    value: 4,
};

// ---- actions

/// The action that goes on behind the stage.
pub fn go_on(stage: Stage) -> Action
    ensures { result ≡ spec.go_on stage }
{
    match stage {
        Stage::SwitchSecurityOut | Stage::RouterSnat => Action::Go(OUTPUT_TABLE),
        _ => Action::Go(stage.table() + 1),
    }
}

/// The action that goes on where the port or group has been found to which the packet goes.
pub fn deliver() -> Action
    ensures { result ≡ spec.deliver }
{
    Action::Go(REMOTE_TABLE)
}

/// Touches the known connection, translates by it, and goes on behind the stage.
pub fn known_actions(alloc: Global, stage: Stage) -> Result<List<Action>, NoMemory>
    ensures { IfOk result (λ l. l ≡ Action.Touch ∷ Action.Translate ∷ spec.go_on stage ∷ []) }
{
    let mut actions = only(alloc, Action::Touch)?;
    actions.push(Action::Translate)?;
    actions.push(go_on(stage))?;
    Ok(actions)
}

/// Answers a request for the address, and sends the answer back by the port of entry.
pub fn answer_actions(alloc: Global, mac: Mac, ip: Ip4) -> Result<List<Action>, NoMemory>
    ensures { IfOk result (λ l. l ≡ switches.answer_actions mac ip) }
{
    let mut actions = only(alloc, Action::ArpReply { mac, ip })?;
    actions.push(Action::OutIsIn)?;
    actions.push(Action::Set {
        reg: Reg::Loopback,
        value: 1,
    })?;
    actions.push(deliver())?;
    Ok(actions)
}

// ---- rows

// All of the terms hold.
fn all_of(terms: List<Expr>) -> Expr
    ensures { result ≡ spec.all_of terms }
{
    let mut terms = terms;
    if terms.len() > 1 {
        return Expr::All(terms);
    }
    match terms.pop() {
        Some(term) => term,
        None => Expr::Const(true),
    }
}

/// A row of rank 0 that asks for registers and for all of the terms.
pub fn tracked_row(
    stage: Stage,
    priority: u16,
    regs: List<RegIs>,
    terms: List<Expr>,
    actions: List<Action>,
) -> LFlow
    ensures { result ≡ spec.tracked_row stage priority regs terms actions }
{
    LFlow {
        pipeline: stage.pipeline(),
        stage,
        priority,
        rank: 0,
        regs,
        matching: all_of(terms),
        actions,
    }
}

/// A row that asks for no register.
pub fn match_row(
    alloc: Global,
    stage: Stage,
    priority: u16,
    terms: List<Expr>,
    actions: List<Action>,
) -> LFlow
    ensures { result ≡ spec.match_row stage priority terms actions }
{
    tracked_row(stage, priority, List::new(alloc), terms, actions)
}

/// A row that asks for registers alone.
pub fn state_row(
    alloc: Global,
    stage: Stage,
    priority: u16,
    regs: &[RegIs],
    actions: List<Action>,
) -> Result<LFlow, NoMemory>
    ensures { IfOk result (λ r. r ≡ states.state_row stage priority regs.now actions) }
{
    let regs = List::from_slice(alloc, regs)?;
    Ok(tracked_row(stage, priority, regs, List::new(alloc), actions))
}

/// A row that drops.
pub fn drop_row(
    alloc: Global,
    stage: Stage,
    priority: u16,
    terms: List<Expr>,
    cause: Cause,
) -> Result<LFlow, NoMemory>
    ensures { IfOk result (λ r. r ≡ spec.drop_row stage priority terms cause) }
{
    let actions = only(alloc, Action::Drop(cause))?;
    Ok(match_row(alloc, stage, priority, terms, actions))
}

/// A row that goes on behind the stage.
pub fn pass_row(
    alloc: Global,
    stage: Stage,
    priority: u16,
    terms: List<Expr>,
) -> Result<LFlow, NoMemory>
    ensures { IfOk result (λ r. r ≡ spec.pass_row stage priority terms) }
{
    let actions = only(alloc, go_on(stage))?;
    Ok(match_row(alloc, stage, priority, terms, actions))
}

/// Adds the row of the stage that all packets pass where no other row matches.
pub fn push_base(alloc: Global, stage: Stage, out: &mut List<LFlow>) -> Result<(), NoMemory>
    ensures { OnOk result (out.new ≡ out.old ++ spec.base_row stage ∷ []) }
{
    out.push(pass_row(alloc, stage, 0, List::new(alloc))?)
}
