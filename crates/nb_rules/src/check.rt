//! The first rule that records break.
ghost use Rattle.std.specs.Prelude.{◌≡◌, [], Ok, Err, None, Some, IfOk, MatchResult};
ghost use Rattle.nb_rules.specs.Claims.{ApartIf};
ghost use Rattle.nb_rules.specs.FirstBroken as spec;
ghost use Rattle.nb_rules.specs.References as references;

use crate::addresses::bad_address;
use crate::claims::are_apart;
use crate::fault::SchemaFault;
use crate::gateways::nat_needs_chassis;
use crate::holders::duplicate_address;
use crate::peers::bad_peer;
use crate::prefixes::{duplicate_prefix, no_network};
use crate::references::{Missing, first_missing};
use crate::widths::{over_limit, too_wide};
use nb_records::change::Op;
use nb_records::records::Records;
use ovn_base::memory::NoMemory;
use std::alloc::Global;

/// The first rule that the records break, as they stand. It takes no memory.
pub fn check(records: &Records) -> Result<(), SchemaFault>
    ensures { MatchResult result (λ _. spec.first_broken records.now [] ≡ None) (λ fault. spec.first_broken records.now [] ≡ Some fault) }
{
    match first_broken(records, &[]) {
        None => Ok(()),
        Some(fault) => Err(fault),
    }
}

#[tactic(auto, unfolding(crate::specs::References::no_such))]
fn no_such(records: &Records, ops: &[Op]) -> Option<SchemaFault>
    ensures { result ≡ references.no_such records.now ops.now }
{
    first_missing(&Missing {
        records,
        ops,
        removed: false,
    })
}

#[tactic(auto, unfolding(crate::specs::References::still_used))]
fn still_used(records: &Records, ops: &[Op]) -> Option<SchemaFault>
    ensures { result ≡ references.still_used records.now ops.now }
{
    first_missing(&Missing {
        records,
        ops,
        removed: true,
    })
}

/// The first rule that the records break after these operations. It takes no memory.
pub fn first_broken(records: &Records, ops: &[Op]) -> Option<SchemaFault>
    ensures { result ≡ spec.first_broken records.now ops.now }
{
    first_given(records, ops, false)
}

/// The same, with an index of the ports' addresses in place of comparing each port with all others, where no two of a switch share one.
pub fn first_broken_indexed(
    alloc: Global,
    records: &Records,
    ops: &[Op],
) -> Result<Option<SchemaFault>, NoMemory>
    ensures { IfOk result (λ fault. fault ≡ spec.first_broken records.now ops.now) }
{
    let apart = are_apart(alloc, records)?;
    Ok(first_given(records, ops, apart))
}

// The same, where it may be known that no two ports of a switch have one address.
#[tactic(auto, unfolding(crate::specs::FirstBroken::first_broken))]
fn first_given(records: &Records, ops: &[Op], apart: bool) -> Option<SchemaFault>
    requires { ApartIf apart records.now }
    ensures { result ≡ spec.first_broken records.now ops.now }
{
    if let Some(fault) = no_such(records, ops) {
        return Some(fault);
    }
    if let Some(fault) = still_used(records, ops) {
        return Some(fault);
    }
    if let Some(fault) = bad_address(records) {
        return Some(fault);
    }
    if let Some(fault) = bad_peer(records) {
        return Some(fault);
    }
    if let Some(fault) = duplicate_address(records, apart) {
        return Some(fault);
    }
    if let Some(fault) = duplicate_prefix(records) {
        return Some(fault);
    }
    if let Some(fault) = no_network(records) {
        return Some(fault);
    }
    if let Some(fault) = nat_needs_chassis(records) {
        return Some(fault);
    }
    if let Some(fault) = too_wide(records) {
        return Some(fault);
    }
    over_limit(records)
}
