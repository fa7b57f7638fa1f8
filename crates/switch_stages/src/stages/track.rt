//! The rows of s_track and s_track_out: whose packets are looked for in a port's list of connections.
ghost use Rattle.std.specs.Prelude.{◌≡◌, ◌++◌, ◌∷◌, [], IfOk, OnOk};
ghost use Rattle.stage_rows.specs.Rows as rows;
ghost use Rattle.stage_rows.specs.Rows.{when};
ghost use Rattle.stage_rows.specs.SwitchRows as spec;

use flow_table::flow::Cause;
use inet_packet::regs::Reg;
use logical_flows::action::{Action, ZoneOf};
use logical_flows::flow::LFlow;
use logical_flows::stage::Stage;
use match_language::expr::Expr;
use match_language::field::Predicate;
use nb_records::switch::SwitchPort;
use ovn_base::list::List;
use ovn_base::memory::NoMemory;
use stage_rows::priorities::{DISABLED_PRIORITY, TRACKS_PRIORITY};
use stage_rows::rows::{drop_row, go_on, match_row};
use stage_rows::terms::{in_is, only, out_is, unicast};
use std::alloc::Global;

// Of what passes the port, IPv4 to an Ethernet address that is no group's.
fn tracks(alloc: Global, port: Expr) -> Result<List<Expr>, NoMemory>
    ensures { IfOk result (λ l. l ≡ spec.tracks port) }
{
    let mut terms = only(alloc, port)?;
    terms.push(Expr::Is(Predicate::Ip4))?;
    terms.push(unicast(alloc)?)?;
    Ok(terms)
}

// Looks for the connection in the zone, says that this was done, and goes on behind the stage.
fn find_actions(alloc: Global, zone: ZoneOf, stage: Stage) -> Result<List<Action>, NoMemory>
    ensures { IfOk result (λ l. l ≡ Action.Find zone ∷ Action.Set Reg.Tracked 1 ∷ rows.go_on stage ∷ []) }
{
    let mut actions = only(alloc, Action::Find(zone))?;
    actions.push(Action::Set {
        reg: Reg::Tracked,
        value: 1,
    })?;
    actions.push(go_on(stage))?;
    Ok(actions)
}

// The row for what comes by the port.
fn port_track_row(alloc: Global, port: &SwitchPort) -> Result<LFlow, NoMemory>
    ensures { IfOk result (λ r. r ≡ spec.port_track_row port.now) }
{
    let terms = tracks(alloc, in_is(alloc, &port.name)?)?;
    let actions = find_actions(alloc, ZoneOf::In, Stage::SwitchTrack)?;
    Ok(match_row(alloc, Stage::SwitchTrack, TRACKS_PRIORITY, terms, actions))
}

// The row for what leaves by the port.
fn port_track_out_row(alloc: Global, port: &SwitchPort) -> Result<LFlow, NoMemory>
    ensures { IfOk result (λ r. r ≡ spec.port_track_out_row port.now) }
{
    let terms = tracks(alloc, out_is(alloc, &port.name)?)?;
    let actions = find_actions(alloc, ZoneOf::Out, Stage::SwitchTrackOut)?;
    Ok(match_row(
        alloc,
        Stage::SwitchTrackOut,
        TRACKS_PRIORITY,
        terms,
        actions,
    ))
}

/// Adds the row of s_track of a port that is tracked or isn't.
pub(crate) fn push_port_track(
    alloc: Global,
    tracked: bool,
    port: &SwitchPort,
    out: &mut List<LFlow>,
) -> Result<(), NoMemory>
    ensures { OnOk result (out.new ≡ out.old ++ when tracked (spec.port_track_row port.now ∷ [])) }
{
    if tracked {
        out.push(port_track_row(alloc, port)?)
    } else {
        Ok(())
    }
}

/// Adds the row of s_track_out of a disabled port: it drops what is to leave by it.
pub(crate) fn push_disabled_out(
    alloc: Global,
    port: &SwitchPort,
    out: &mut List<LFlow>,
) -> Result<(), NoMemory>
    ensures { OnOk result (out.new ≡ out.old ++ spec.port_disabled_out port.now) }
{
    if port.enabled {
        return Ok(());
    }
    let terms = only(alloc, out_is(alloc, &port.name)?)?;
    let row = drop_row(
        alloc,
        Stage::SwitchTrackOut,
        DISABLED_PRIORITY,
        terms,
        Cause::Disabled,
    )?;
    out.push(row)
}

/// Adds the row of s_track_out of a port that is tracked or isn't.
pub(crate) fn push_port_track_out(
    alloc: Global,
    tracked: bool,
    port: &SwitchPort,
    out: &mut List<LFlow>,
) -> Result<(), NoMemory>
    ensures { OnOk result (out.new ≡ out.old ++ when tracked (spec.port_track_out_row port.now ∷ [])) }
{
    if tracked {
        out.push(port_track_out_row(alloc, port)?)
    } else {
        Ok(())
    }
}
