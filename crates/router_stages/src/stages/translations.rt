//! The rows of r_undo, r_dnat, r_find and r_snat that a router has: translations by connections that are known.
ghost use Rattle.std.specs.Prelude.{◌≡◌, ◌++◌, ◌∷◌, [], IfOk, OnOk};
ghost use Rattle.stage_rows.specs.RouterRows as spec;
ghost use Rattle.stage_rows.specs.Rows as rows;
ghost use Rattle.stage_rows.specs.declared.priorities.TheConstants.{FIND_PRIORITY, UNDO_PRIORITY};

use inet_packet::regs::Reg;
use logical_flows::action::{Action, ZoneOf};
use logical_flows::flow::{LFlow, RegIs};
use logical_flows::stage::Stage;
use match_language::expr::Expr;
use match_language::field::Predicate;
use ovn_base::list::List;
use ovn_base::memory::NoMemory;
use stage_rows::priorities::{
    FIND_PRIORITY, KNOWN_DNAT_PRIORITY, KNOWN_SNAT_PRIORITY, UNDO_PRIORITY,
};
use stage_rows::rows::{
    IS_FORWARD, IS_REPLY, go_on, known_actions, match_row, push_base, state_row, tracked_row,
};
use stage_rows::terms::only;
use std::alloc::Global;

// The packet is no answer of the router's own.
const IS_PASSING: RegIs = RegIs {
    reg: Reg::Own,
    value: 0,
};

// ---- r_undo

// Undoes the translation of sources, looks for the connection of destinations, and goes on.
fn undo_row(alloc: Global) -> Result<LFlow, NoMemory>
    ensures { IfOk result (λ r. r ≡ rows.match_row Stage.RouterUndo UNDO_PRIORITY (Expr.Is Predicate.Ip4 ∷ []) (Action.Undo ∷ Action.Find ZoneOf.Dnat ∷ rows.go_on Stage.RouterUndo ∷ [])) }
{
    let terms = only(alloc, Expr::Is(Predicate::Ip4))?;
    let mut actions = only(alloc, Action::Undo)?;
    actions.push(Action::Find(ZoneOf::Dnat))?;
    actions.push(go_on(Stage::RouterUndo))?;
    Ok(match_row(alloc, Stage::RouterUndo, UNDO_PRIORITY, terms, actions))
}

/// Adds the rows of r_undo of a router that translates or doesn't.
pub(crate) fn push_undo(
    alloc: Global,
    translating: bool,
    out: &mut List<LFlow>,
) -> Result<(), NoMemory>
    ensures { OnOk result (out.new ≡ out.old ++ spec.router_undo translating) }
{
    if translating {
        out.push(undo_row(alloc)?)?;
    }
    push_base(alloc, Stage::RouterUndo, out)
}

// ---- r_dnat and r_snat

// Adds the row for packets of a known connection, in this state.
fn push_known(
    alloc: Global,
    stage: Stage,
    priority: u16,
    state: RegIs,
    out: &mut List<LFlow>,
) -> Result<(), NoMemory>
    ensures { OnOk result (out.new ≡ out.old ++ rows.tracked_row stage priority (state ∷ []) [] (Action.Touch ∷ Action.Translate ∷ rows.go_on stage ∷ []) ∷ []) }
{
    let actions = known_actions(alloc, stage)?;
    out.push(state_row(alloc, stage, priority, &[state], actions)?)
}

/// Adds the rows of r_dnat.
pub(crate) fn push_router_dnat(alloc: Global, out: &mut List<LFlow>) -> Result<(), NoMemory>
    ensures { OnOk result (out.new ≡ out.old ++ spec.router_dnat) }
{
    push_known(
        alloc,
        Stage::RouterDnat,
        KNOWN_DNAT_PRIORITY,
        IS_FORWARD,
        out,
    )?;
    push_known(alloc, Stage::RouterDnat, KNOWN_DNAT_PRIORITY, IS_REPLY, out)?;
    push_base(alloc, Stage::RouterDnat, out)
}

/// Adds the rows of r_snat.
pub(crate) fn push_router_snat(alloc: Global, out: &mut List<LFlow>) -> Result<(), NoMemory>
    ensures { OnOk result (out.new ≡ out.old ++ spec.router_snat) }
{
    push_known(
        alloc,
        Stage::RouterSnat,
        KNOWN_SNAT_PRIORITY,
        IS_FORWARD,
        out,
    )?;
    push_base(alloc, Stage::RouterSnat, out)
}

// ---- r_find

// Looks for the connection of sources, unless the packet is the router's own answer, and goes on.
fn find_row(alloc: Global) -> Result<LFlow, NoMemory>
    ensures { IfOk result (λ r. r ≡ rows.tracked_row Stage.RouterFind FIND_PRIORITY (rows.reg_is Reg.Own 0 ∷ []) (Expr.Is Predicate.Ip4 ∷ []) (Action.Find ZoneOf.Snat ∷ rows.go_on Stage.RouterFind ∷ [])) }
{
    let regs = only(alloc, IS_PASSING)?;
    let terms = only(alloc, Expr::Is(Predicate::Ip4))?;
    let mut actions = only(alloc, Action::Find(ZoneOf::Snat))?;
    actions.push(go_on(Stage::RouterFind))?;
    Ok(tracked_row(Stage::RouterFind, FIND_PRIORITY, regs, terms, actions))
}

/// Adds the rows of r_find of a router that translates or doesn't.
pub(crate) fn push_find(
    alloc: Global,
    translating: bool,
    out: &mut List<LFlow>,
) -> Result<(), NoMemory>
    ensures { OnOk result (out.new ≡ out.old ++ spec.router_find translating) }
{
    if translating {
        out.push(find_row(alloc)?)?;
    }
    push_base(alloc, Stage::RouterFind, out)
}
