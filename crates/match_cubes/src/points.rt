//! The values that sets, groups and ports stand for.
ghost use Rattle.std.specs.Prelude.{◌≡◌, ◌++◌, IfOk, OnOk, map};
ghost use Rattle.match_cubes.specs.Points as spec;

use crate::asked::width;
use crate::sets::{SetEntry, Sets, named};
use crate::ternary::under;
use inet_packet::cube::Bits;
use match_language::expr::Value;
use match_language::field::Field;
use match_language::prefix::prefix_mask;
use ovn_base::list::List;
use ovn_base::memory::NoMemory;
use ovn_base::name::Name;
use ovn_base::ports::Ports;
use std::alloc::Global;

// The entry as a value of the field, if it is an address of the field's kind.
fn entry_bits(field: Field, entry: &SetEntry) -> Option<Bits>
    ensures { result ≡ spec.entry_bits field entry.now }
{
    match entry {
        SetEntry::Ip(cidr) => {
            if width(field) == 32 {
                Some(under(u64::from(cidr.addr.0), prefix_mask(u64::from(cidr.len))))
            } else {
                None
            }
        }
        SetEntry::Ether(mac) => {
            if width(field) == 48 {
                Some(under(mac.number(), 0xffff_ffff_ffff))
            } else {
                None
            }
        }
    }
}

// The port by its key, if it is live.
fn port_bits(ports: &Ports, text: &[u8]) -> Option<Bits>
    ensures { result ≡ spec.key_bits (spec.named ports.now.list text.now) }
{
    match named(ports.list.as_slice(), text) {
        Some(key) => Some(under(u64::from(*key), 0xffff)),
        None => None,
    }
}

fn push_entries(
    field: Field,
    entries: &[SetEntry],
    out: &mut List<Option<Bits>>,
) -> Result<(), NoMemory>
    ensures { OnOk result (out.new ≡ out.old ++ map (spec.entry_bits field) entries.now) }
{
    for entry in entries {
        out.push(entry_bits(field, entry))?;
    }
    Ok(())
}

fn push_ports(ports: &Ports, names: &[Name], out: &mut List<Option<Bits>>) -> Result<(), NoMemory>
    ensures { OnOk result (out.new ≡ out.old ++ map (λ name. spec.key_bits (spec.named ports.now.list name)) names.now) }
{
    for name in names {
        out.push(port_bits(ports, name.text()))?;
    }
    Ok(())
}

// Adds the values for which one value of the text stands.
fn push_points(
    field: Field,
    value: &Value,
    sets: &Sets,
    ports: &Ports,
    out: &mut List<Option<Bits>>,
) -> Result<(), NoMemory>
    ensures { OnOk result (out.new ≡ out.old ++ spec.points_of (spec.setting sets.now ports.now) field value.now) }
{
    match value {
        Value::Number { bits, mask } => out.push(Some(under(*bits, *mask))),
        Value::Port(text) => out.push(port_bits(ports, text.as_slice())),
        Value::Set(name) => push_entries(field, sets.entries(name), out),
        Value::Group(name) => push_ports(ports, sets.ports(name), out),
    }
}

/// The values for which the values of the text stand.
#[tactic(auto, unfolding(crate::specs::Points::points))]
pub(crate) fn points(
    alloc: Global,
    field: Field,
    values: &[Value],
    sets: &Sets,
    ports: &Ports,
) -> Result<List<Option<Bits>>, NoMemory>
    ensures { IfOk result (λ all. all ≡ spec.points (spec.setting sets.now ports.now) field values.now) }
{
    let mut all = List::new(alloc);
    for value in values {
        push_points(field, value, sets, ports, &mut all)?;
    }
    Ok(all)
}
