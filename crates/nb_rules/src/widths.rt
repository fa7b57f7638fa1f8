//! The widths of matches, and how many records there may be.
ghost use Rattle.std.specs.Prelude.{◌≡◌, ◌+◌, nat_lt, length};
ghost use Rattle.match_cubes.specs.Width.{saturated};
ghost use Rattle.nb_records.specs.Switches as facts;
ghost use Rattle.nb_rules.specs.Widths as spec;

use crate::fault::{Limited, SchemaFault};
use crate::first::{Clause, first_of};
use crate::sets::RecordSets;
use match_cubes::width::width;
use nb_records::records::Records;
use nb_records::rule::Acl;
use nb_records::scopes::applies;
use ovn_base::limits::{MAX_ACLS, MAX_DATAPATHS, MAX_PORTS, MAX_WIDTH};

// The width of the rule's match, or the greatest number where it is wider.
fn rule_width(records: &Records, rule: &Acl) -> u128
    ensures { result ≡ saturated (spec.rule_width records.now rule.now) }
{
    width(&rule.matching, &RecordSets(records))
}

#[derive(Drop)]
struct TooWide<'a>(&'a Records);

impl Clause<Acl> for TooWide<'_> {
    ghost broken = { λ c r. spec.width_fault (spec.rule_width c.0.now r) };

    fn broken(&self, rule: &Acl) -> Option<SchemaFault> {
        let width = rule_width(self.0, rule);
        if width > MAX_WIDTH {
            Some(SchemaFault::TooWide(width))
        } else {
            None
        }
    }
}

/// The first rule whose match is too wide.
#[tactic(auto, unfolding(crate::specs::Widths::too_wide))]
pub(crate) fn too_wide(records: &Records) -> Option<SchemaFault>
    ensures { result ≡ spec.too_wide records.now }
{
    first_of(&TooWide(records), records.acls())
}

// ---- limits

// The sum so far with the cubes of the rule on all switches, or the greatest number where there are more.
#[tactic(auto, using(crate::proofs::SumCaps::add_applying, crate::proofs::SumCaps::add_none))]
fn with_rule(records: &Records, so_far: u128, rule: &Acl) -> u128
    ensures { result ≡ saturated (so_far + spec.cubes_of records.now rule.now) }
{
    let width = rule_width(records, rule).max(1);
    let mut total = so_far;
    'switches: for (_name, switch) in records.switches() {
        if applies(records, &switch.name, rule) {
            total = total.saturating_add(width);
        }
    }
    total
}

// The cubes of all rules on all switches, or the greatest number where there are more.
fn all_cubes(records: &Records) -> u128
    ensures { result ≡ saturated (spec.all_cubes records.now) }
{
    let mut total: u128 = 0;
    'rules: for (_name, rule) in records.acls() {
        total = with_rule(records, total, rule);
    }
    total
}

fn over_count(most: usize, count: usize, what: Limited) -> Option<SchemaFault>
    ensures { result ≡ spec.over most count what }
{
    if count > most {
        Some(SchemaFault::Limit(what))
    } else {
        None
    }
}

fn over_cubes(records: &Records) -> Option<SchemaFault>
    ensures { result ≡ spec.over MAX_WIDTH (spec.all_cubes records.now) Limited.Cubes }
{
    if all_cubes(records) > MAX_WIDTH {
        Some(SchemaFault::Limit(Limited::Cubes))
    } else {
        None
    }
}

/// The first limit that the records are over.
#[tactic(auto, unfolding(crate::specs::Widths::over_limit))]
pub(crate) fn over_limit(records: &Records) -> Option<SchemaFault>
    ensures { result ≡ spec.over_limit records.now }
{
    let datapaths = records.switches().len() + records.routers().len();
    if let Some(fault) = over_count(MAX_DATAPATHS, datapaths, Limited::Datapath) {
        return Some(fault);
    }
    let ports = records.router_ports().len() + records.switch_ports().len();
    if let Some(fault) = over_count(MAX_PORTS, ports, Limited::Port) {
        return Some(fault);
    }
    if let Some(fault) = over_count(MAX_ACLS, records.acls().len(), Limited::Acl) {
        return Some(fault);
    }
    over_cubes(records)
}
