//! The terms of which the matches of rows are made.
ghost use Rattle.std.specs.Prelude.{◌≡◌, ◌∷◌, [], IfOk};
ghost use Rattle.stage_rows.specs.Rows as spec;

use match_language::expr::{Expr, Rel, Value};
use match_language::field::{Field, Predicate};
use match_language::prefix::prefix_mask;
use ovn_base::address::{Cidr, Ip4, Mac};
use ovn_base::boxed::Boxed;
use ovn_base::list::List;
use ovn_base::memory::NoMemory;
use ovn_base::name::Name;
use std::alloc::Global;

/// The list of the one item.
pub fn only<T: Drop>(alloc: Global, item: T) -> Result<List<T>, NoMemory>
    ensures { IfOk result (λ l. l ≡ item ∷ []) }
{
    let mut items = List::new(alloc);
    items.push(item)?;
    Ok(items)
}

// The field has one of the values.
fn field_with(field: Field, values: List<Value>) -> Expr
    ensures { result ≡ spec.field_with field values }
{
    Expr::Compare {
        field,
        rel: Rel::Eq,
        values,
    }
}

// ---- numbers

// The number as a value of the field, of which all bits count.
fn whole_number(field: Field, number: u64) -> Value
    ensures { result ≡ spec.whole_number field number }
{
    Value::Number {
        bits: number,
        mask: field.max(),
    }
}

/// The field has the number.
pub fn field_is(alloc: Global, field: Field, number: u64) -> Result<Expr, NoMemory>
    ensures { IfOk result (λ x. x ≡ spec.field_is field number) }
{
    let value = whole_number(field, number);
    Ok(field_with(field, only(alloc, value)?))
}

/// The field has one of the numbers.
pub fn field_among(alloc: Global, field: Field, numbers: &[u64]) -> Result<Expr, NoMemory>
    ensures { IfOk result (λ x. x ≡ spec.field_among field numbers.now) }
{
    let mut values = List::new(alloc);
    'numbers: for number in numbers {
        values.push(whole_number(field, *number))?;
    }
    Ok(field_with(field, values))
}

/// The field has the Ethernet address.
pub fn mac_is(alloc: Global, field: Field, mac: Mac) -> Result<Expr, NoMemory>
    ensures { IfOk result (λ x. x ≡ spec.mac_is field mac) }
{
    field_is(alloc, field, mac.number())
}

/// The field has the IPv4 address.
pub fn ip_is(alloc: Global, field: Field, ip: Ip4) -> Result<Expr, NoMemory>
    ensures { IfOk result (λ x. x ≡ spec.ip_is field ip) }
{
    field_is(alloc, field, u64::from(ip.0))
}

/// The field has this bit.
pub fn has_bit(alloc: Global, field: Field, bit: u64) -> Result<Expr, NoMemory>
    ensures { IfOk result (λ x. x ≡ spec.field_with field (Value.Number bit bit ∷ [])) }
{
    let value = Value::Number {
        bits: bit,
        mask: bit,
    };
    Ok(field_with(field, only(alloc, value)?))
}

// ---- prefixes

// The prefix as a value of a field.
fn prefix_value(prefix: Cidr) -> Value
    ensures { result ≡ spec.prefix_value prefix }
{
    let mask = prefix_mask(u64::from(prefix.len));
    Value::Number {
        bits: u64::from(prefix.addr.0) & mask,
        mask,
    }
}

/// The address of the field lies in the prefix.
pub fn ip_in(alloc: Global, field: Field, prefix: Cidr) -> Result<Expr, NoMemory>
    ensures { IfOk result (λ x. x ≡ spec.ip_in field prefix) }
{
    Ok(field_with(field, only(alloc, prefix_value(prefix))?))
}

/// The address of the field lies in one of the prefixes.
pub fn ip_in_some(alloc: Global, field: Field, prefixes: &[Cidr]) -> Result<Expr, NoMemory>
    ensures { IfOk result (λ x. x ≡ spec.ip_in_some field prefixes.now) }
{
    let mut values = List::new(alloc);
    'prefixes: for prefix in prefixes {
        values.push(prefix_value(*prefix))?;
    }
    Ok(field_with(field, values))
}

// ---- ports

/// The packet comes by the port.
pub fn in_is(alloc: Global, port: &Name) -> Result<Expr, NoMemory>
    ensures { IfOk result (λ x. x ≡ spec.in_is port.now) }
{
    let text = List::from_slice(alloc, port.text())?;
    Ok(field_with(Field::Inport, only(alloc, Value::Port(text))?))
}

/// The packet leaves by the port.
pub fn out_is(alloc: Global, port: &Name) -> Result<Expr, NoMemory>
    ensures { IfOk result (λ x. x ≡ spec.out_is port.now) }
{
    let text = List::from_slice(alloc, port.text())?;
    Ok(field_with(Field::Outport, only(alloc, Value::Port(text))?))
}

// ---- destinations and requests

/// The Ethernet destination is no group's.
pub fn unicast(alloc: Global) -> Result<Expr, NoMemory>
    ensures { IfOk result (λ x. x ≡ spec.unicast) }
{
    Ok(Expr::Not(Boxed::new(alloc, Expr::Is(Predicate::EthMcast))?))
}

/// It is an ARP request for the address.
pub fn asks_for(alloc: Global, ip: Ip4) -> Result<List<Expr>, NoMemory>
    ensures { IfOk result (λ l. l ≡ spec.asks_for ip) }
{
    let mut terms = only(alloc, field_is(alloc, Field::ArpOp, 1)?)?;
    terms.push(ip_is(alloc, Field::ArpTpa, ip)?)?;
    Ok(terms)
}
