//! A row of NAT of a router.
ghost use Rattle.std.specs.Prelude.{◌≡◌, ◌+◌, ◌++◌, ◌∷◌, [], IfOk, OnOk, OnErr};
ghost use Rattle.ovn_base.specs.numbers.Steps.{after_steps};
ghost use Rattle.logical_flows.specs.declared.unit.UnitId.TheVariants.{Nat};
ghost use Rattle.stage_rows.specs.Admitting.{AdmitsNat};
ghost use Rattle.stage_rows.specs.NatRows as spec;
ghost use Rattle.stage_rows.specs.Reads as reads;
ghost use Rattle.stage_rows.specs.Rows as rows;
ghost use Rattle.stage_rows.specs.Units.{rows_of};
ghost use Rattle.stage_rows.specs.declared.priorities.TheConstants.{SNAT_PRIORITY};
ghost use Rattle.nat_stages.specs.NatList.{nat_list};
ghost use Rattle.nat_stages.specs.NatLaw.{nat_law};

use flow_table::flow::Cause;
use logical_flows::action::{Action, ZoneOf};
use logical_flows::flow::{LFlow, RegIs};
use logical_flows::stage::Stage;
use logical_flows::stage_unit::StageUnit;
use match_language::field::Field;
use nb_records::records::Records;
use nb_records::router::Nat;
use ovn_base::list::List;
use ovn_base::memory::NoMemory;
use ovn_base::name::Name;
use ovn_base::steps::Steps;
use stage_rows::priorities::{DNAT_PRIORITY, SNAT_PRIORITY};
use stage_rows::rows::{IS_INVALID, IS_NEW, go_on, tracked_row};
use stage_rows::terms::{ip_in, ip_is, only};
use std::alloc::Global;

/// A row of NAT: it has rows in r_dnat where it translates destinations, and in r_snat where it translates sources.
#[derive(Clone, Copy, PartialEq, Eq, Debug)]
pub struct NatUnit {
    pub nat: Name,
}

// ---- r_dnat

// Adds the row by which a new connection to the external address goes to the logical one.
fn push_dnat(alloc: Global, nat: &Nat, out: &mut List<LFlow>) -> Result<(), NoMemory>
    ensures { OnOk result (out.new ≡ out.old ++ spec.nat_dnat nat.now) }
{
    let regs = only(alloc, IS_NEW)?;
    let terms = only(alloc, ip_is(alloc, Field::Ip4Dst, nat.external_ip)?)?;
    let to_logical = Action::Dnat {
        zone: ZoneOf::Dnat,
        ip: nat.logical_ip.addr,
    };
    let mut actions = only(alloc, to_logical)?;
    actions.push(go_on(Stage::RouterDnat))?;
    out.push(tracked_row(Stage::RouterDnat, DNAT_PRIORITY, regs, terms, actions))
}

// ---- r_snat

// The row for what comes from a logical address, in this state of its connection. The longer prefix goes first.
fn source_row(
    alloc: Global,
    nat: &Nat,
    state: RegIs,
    actions: List<Action>,
) -> Result<LFlow, NoMemory>
    ensures { IfOk result (λ r. r ≡ rows.tracked_row Stage.RouterSnat (SNAT_PRIORITY + nat.now.logical_ip.len) (state ∷ []) (rows.ip_in Field.Ip4Src nat.now.logical_ip ∷ []) actions) }
{
    let regs = only(alloc, state)?;
    let terms = only(alloc, ip_in(alloc, Field::Ip4Src, nat.logical_ip)?)?;
    let priority = SNAT_PRIORITY + u16::from(nat.logical_ip.len);
    Ok(tracked_row(Stage::RouterSnat, priority, regs, terms, actions))
}

// Adds the rows by which a new connection from a logical address comes from the external one, and what can begin none drops.
fn push_snat(alloc: Global, nat: &Nat, out: &mut List<LFlow>) -> Result<(), NoMemory>
    ensures { OnOk result (out.new ≡ out.old ++ spec.nat_snat nat.now) }
{
    let from_external = Action::Snat {
        zone: ZoneOf::Snat,
        ip: nat.external_ip,
    };
    let mut new = only(alloc, from_external)?;
    new.push(go_on(Stage::RouterSnat))?;
    out.push(source_row(alloc, nat, IS_NEW, new)?)?;
    let invalid = only(alloc, Action::Drop(Cause::Invalid))?;
    out.push(source_row(alloc, nat, IS_INVALID, invalid)?)
}

// ---- the unit

/// The rows of a row of NAT, in the order of the stages.
pub fn nat_rows(alloc: Global, nat: &Nat) -> Result<List<LFlow>, NoMemory>
    ensures { IfOk result (λ l. l ≡ nat_list nat.now) }
{
    let mut rows = List::new(alloc);
    if nat.kind.translates_destinations() {
        push_dnat(alloc, nat, &mut rows)?;
    }
    if nat.kind.translates_sources() {
        push_snat(alloc, nat, &mut rows)?;
    }
    Ok(rows)
}

impl StageUnit for NatUnit {
    type Facts = Records;

    ghost flows_of = { λ u net. rows_of net (Nat u.nat) };

    ghost reads_of = { λ u net. reads.reads_of net (Nat u.nat) };

    ghost Agree = { reads.Agree };

    ghost fits = { λ u net. AdmitsNat net u.nat };

    #[tactic(auto, using(crate::proofs::NatUnits::is_found, crate::proofs::NatUnits::rows_of_found))]
    fn translate<L>(
        &self,
        alloc: Global,
        facts: &Records,
        out: &mut List<LFlow>,
        steps: &mut Steps<L>,
    ) -> Result<(), NoMemory> {
        steps.tick();
        match facts.nat(&self.nat) {
            Some(nat) => out.append(nat_rows(alloc, nat)?),
            None => Ok(()),
        }
    }

    ghost law = { λ u f g a b same. nat_law f g u.nat a b same };
}
