//! Names of records that aren't there.
ghost use Rattle.std.specs.Prelude.{◌≡◌, [], ◌∷◌, true, false, option_map};
ghost use Rattle.std.specs.List.{list_any, flat_map};
ghost use Rattle.nb_records.specs.declared.kinds.Kind.TheVariants as kind;
ghost use Rattle.nb_records.specs.declared.record.Record.TheVariants as row;
ghost use Rattle.nb_rules.specs.First as first;
ghost use Rattle.nb_rules.specs.First.{first_record};
ghost use Rattle.nb_rules.specs.References as spec;

use crate::fault::SchemaFault;
use crate::first::{Clause, first_of};
use match_language::expr::{Expr, Value};
use nb_records::balancer::LoadBalancer;
use nb_records::change::Op;
use nb_records::kinds::Kind;
use nb_records::records::Records;
use nb_records::references::is_given;
use nb_records::router::{Nat, Route, RouterPort, StaticMac};
use nb_records::rule::{Acl, PortGroup};
use nb_records::switch::SwitchPort;
use ovn_base::name::Name;

/// The clause on names of records that aren't there: those that an operation removed, or those that none did.
#[derive(Drop)]
pub(crate) struct Missing<'a> {
    pub records: &'a Records,
    pub ops: &'a [Op],
    pub removed: bool,
}

// An operation removes the record of that kind and name.
fn is_removed(ops: &[Op], kind: Kind, name: &Name) -> bool
    ensures { result ≡ spec.is_removed ops.now (kind, name.now) }
{
    ops.iter().any(|op| removes(op, kind, name))
}

fn removes(op: &Op, kind: Kind, name: &Name) -> bool
    ensures { result ≡ spec.removes (kind, name.now) op.now }
{
    match op {
        Op::Remove {
            kind: other,
            name: gone,
        } => is_same(*other, kind) && *gone == *name,
        _ => false,
    }
}

fn is_same(a: Kind, b: Kind) -> bool
    ensures { result ≡ spec.same_kind a b }
{
    match (a, b) {
        (Kind::Switch, Kind::Switch)
        | (Kind::Router, Kind::Router)
        | (Kind::RouterPort, Kind::RouterPort)
        | (Kind::SwitchPort, Kind::SwitchPort)
        | (Kind::AddressSet, Kind::AddressSet)
        | (Kind::PortGroup, Kind::PortGroup)
        | (Kind::Acl, Kind::Acl)
        | (Kind::Route, Kind::Route)
        | (Kind::Nat, Kind::Nat)
        | (Kind::LoadBalancer, Kind::LoadBalancer)
        | (Kind::StaticMac, Kind::StaticMac) => true,
        _ => false,
    }
}

impl Missing<'_> {
    // The record isn't there, and the operations fit.
    fn is_missing(&self, kind: Kind, name: &Name) -> bool
        ensures { result ≡ spec.is_missing self.now.records.now self.now.ops.now self.now.removed (kind, name.now) }
    {
        if self.removed {
            is_removed(self.ops, kind, name) && !self.records.is_there(kind, name)
        } else {
            !self.records.is_there(kind, name) && !is_removed(self.ops, kind, name)
        }
    }

    // The name, if it is missing.
    fn in_name(&self, kind: Kind, name: &Name) -> Option<Name>
        ensures { result ≡ spec.first_named (spec.is_missing self.now.records.now self.now.ops.now self.now.removed) (spec.to_each kind (name.now ∷ [])) }
    {
        if self.is_missing(kind, name) {
            Some(*name)
        } else {
            None
        }
    }

    // The name, if it is given and missing.
    fn in_given(&self, kind: Kind, name: &Option<Name>) -> Option<Name>
        ensures { result ≡ spec.first_named (spec.is_missing self.now.records.now self.now.ops.now self.now.removed) (spec.to_given kind name.now) }
    {
        match name {
            Some(name) if self.is_missing(kind, name) => Some(*name),
            _ => None,
        }
    }

    // The first of the names that is missing.
    fn in_each(&self, kind: Kind, names: &[Name]) -> Option<Name>
        ensures { result ≡ spec.first_named (spec.is_missing self.now.records.now self.now.ops.now self.now.removed) (spec.to_each kind names.now) }
    {
        for name in names {
            if self.is_missing(kind, name) {
                return Some(*name);
            }
        }
        None
    }

    // The first address set or port group of the values that is missing.
    #[tactic(auto, using(crate::proofs::FirstNames::named_append))]
    fn in_values(&self, values: &[Value]) -> Option<Name>
        ensures { result ≡ spec.first_named (spec.is_missing self.now.records.now self.now.ops.now self.now.removed) (flat_map spec.value_references values.now) }
    {
        for value in values {
            if let Some(name) = self.in_value(value) {
                return Some(name);
            }
        }
        None
    }

    fn in_value(&self, value: &Value) -> Option<Name>
        ensures { result ≡ spec.first_named (spec.is_missing self.now.records.now self.now.ops.now self.now.removed) (spec.value_references value.now) }
    {
        match value {
            Value::Set(name) => self.in_name(Kind::AddressSet, name),
            Value::Group(name) => self.in_name(Kind::PortGroup, name),
            _ => None,
        }
    }

    // The first of the terms' that is missing.
    #[cycle(matches)]
    #[tactic(auto, using(crate::proofs::FirstNames::named_append))]
    fn in_terms(&self, terms: &[Expr]) -> Option<Name>
        ensures { result ≡ spec.first_named (spec.is_missing self.now.records.now self.now.ops.now self.now.removed) (flat_map spec.match_references terms.now) }
    {
        for term in terms {
            if let Some(name) = self.in_match(term) {
                return Some(name);
            }
        }
        None
    }

    // The first address set or port group of the match that is missing.
    #[cycle(matches)]
    #[tactic(auto, using(crate::proofs::FirstNames::references_const, crate::proofs::FirstNames::references_is, crate::proofs::FirstNames::references_not, crate::proofs::FirstNames::references_all, crate::proofs::FirstNames::references_any, crate::proofs::FirstNames::references_compare))]
    fn in_match(&self, expr: &Expr) -> Option<Name>
        ensures { result ≡ spec.first_named (spec.is_missing self.now.records.now self.now.ops.now self.now.removed) (spec.match_references expr.now) }
    {
        match expr {
            Expr::Const(_) => None,
            Expr::Is(_) => None,
            Expr::Not(term) => self.in_match(term.get()),
            Expr::All(terms) => self.in_terms(terms.as_slice()),
            Expr::Any(terms) => self.in_terms(terms.as_slice()),
            Expr::Compare { values, .. } => self.in_values(values.as_slice()),
        }
    }

    // What is wrong, where a name is missing that the record of this name gives.
    fn fault(&self, by: &Name, missing: Option<Name>) -> Option<SchemaFault>
        ensures { result ≡ option_map (spec.missing_by self.now.removed by.now) missing }
    {
        let missing = missing?;
        if self.removed {
            Some(SchemaFault::StillUsed(*by))
        } else {
            Some(SchemaFault::NoSuch(missing))
        }
    }
}

impl Clause<RouterPort> for Missing<'_> {
    ghost broken = { λ m r. spec.reference_fault m.records.now m.ops.now m.removed (row.RouterPort r) };

    fn broken(&self, port: &RouterPort) -> Option<SchemaFault> {
        if let Some(name) = self.in_name(Kind::Router, &port.router) {
            return self.fault(&port.name, Some(name));
        }
        self.fault(&port.name, self.in_given(Kind::RouterPort, &port.peer))
    }
}

impl Clause<PortGroup> for Missing<'_> {
    ghost broken = { λ m r. spec.reference_fault m.records.now m.ops.now m.removed (row.PortGroup r) };

    fn broken(&self, group: &PortGroup) -> Option<SchemaFault> {
        self.fault(
            &group.name,
            self.in_each(Kind::SwitchPort, group.ports.as_slice()),
        )
    }
}

impl Clause<Acl> for Missing<'_> {
    ghost broken = { λ m r. spec.reference_fault m.records.now m.ops.now m.removed (row.Acl r) };

    #[tactic(auto, using(crate::proofs::FirstNames::named_append))]
    fn broken(&self, rule: &Acl) -> Option<SchemaFault> {
        if let Some(name) = self.in_given(Kind::Switch, &rule.switch) {
            return self.fault(&rule.name, Some(name));
        }
        if let Some(name) = self.in_given(Kind::PortGroup, &rule.port_group) {
            return self.fault(&rule.name, Some(name));
        }
        self.fault(&rule.name, self.in_match(&rule.matching))
    }
}

impl Clause<Route> for Missing<'_> {
    ghost broken = { λ m r. spec.reference_fault m.records.now m.ops.now m.removed (row.Route r) };

    fn broken(&self, route: &Route) -> Option<SchemaFault> {
        self.fault(&route.name, self.in_name(Kind::Router, &route.router))
    }
}

impl Clause<Nat> for Missing<'_> {
    ghost broken = { λ m r. spec.reference_fault m.records.now m.ops.now m.removed (row.Nat r) };

    fn broken(&self, nat: &Nat) -> Option<SchemaFault> {
        self.fault(&nat.name, self.in_name(Kind::Router, &nat.router))
    }
}

impl Clause<LoadBalancer> for Missing<'_> {
    ghost broken = { λ m r. spec.reference_fault m.records.now m.ops.now m.removed (row.LoadBalancer r) };

    #[tactic(auto, using(crate::proofs::FirstNames::named_append))]
    fn broken(&self, balancer: &LoadBalancer) -> Option<SchemaFault> {
        if let Some(name) = self.in_each(Kind::Switch, balancer.switches.as_slice()) {
            return self.fault(&balancer.name, Some(name));
        }
        self.fault(
            &balancer.name,
            self.in_each(Kind::Router, balancer.routers.as_slice()),
        )
    }
}

impl Clause<StaticMac> for Missing<'_> {
    ghost broken = { λ m r. spec.reference_fault m.records.now m.ops.now m.removed (row.StaticMac r) };

    fn broken(&self, binding: &StaticMac) -> Option<SchemaFault> {
        self.fault(&binding.name, self.in_name(Kind::RouterPort, &binding.port))
    }
}

// What is wrong with the port, if it names a record that is missing. Its switch may be known not to be.
fn port_fault(clause: &Missing, port: &SwitchPort, is_known: bool) -> Option<SchemaFault>
    requires { is_known ≡ true → spec.is_missing clause.now.records.now clause.now.ops.now clause.now.removed (kind.Switch, port.now.switch) ≡ false }
    ensures { result ≡ spec.reference_fault clause.now.records.now clause.now.ops.now clause.now.removed (row.SwitchPort port.now) }
{
    if !is_known {
        if let Some(name) = clause.in_name(Kind::Switch, &port.switch) {
            return clause.fault(&port.name, Some(name));
        }
    }
    clause.fault(
        &port.name,
        clause.in_given(Kind::RouterPort, &port.router_port),
    )
}

// What is wrong with the first switch port that names a record that is missing. Its switch is looked up where the port before it
// has another.
fn first_port(clause: &Missing) -> Option<SchemaFault>
    ensures { result ≡ first.first_of (λ r. spec.reference_fault clause.now.records.now clause.now.ops.now clause.now.removed (row.SwitchPort r)) clause.now.records.now.switch_ports }
{
    let mut known: Option<Name> = None;
    'ports: for (_name, port) in clause.records.switch_ports() {
        if let Some(fault) = port_fault(clause, port, is_given(&port.switch, &known)) {
            return Some(fault);
        }
        known = Some(port.switch);
    }
    None
}

/// What is wrong with the first record that names one that is missing.
#[tactic(auto, using(crate::proofs::EachKind::all_references))]
pub(crate) fn first_missing(clause: &Missing) -> Option<SchemaFault>
    ensures { result ≡ first_record (spec.reference_fault clause.now.records.now clause.now.ops.now clause.now.removed) clause.now.records.now }
{
    let records = clause.records;
    if let Some(fault) = first_of(clause, records.router_ports()) {
        return Some(fault);
    }
    if let Some(fault) = first_port(clause) {
        return Some(fault);
    }
    if let Some(fault) = first_of(clause, records.port_groups()) {
        return Some(fault);
    }
    if let Some(fault) = first_of(clause, records.acls()) {
        return Some(fault);
    }
    if let Some(fault) = first_of(clause, records.routes()) {
        return Some(fault);
    }
    if let Some(fault) = first_of(clause, records.nats()) {
        return Some(fault);
    }
    if let Some(fault) = first_of(clause, records.load_balancers()) {
        return Some(fault);
    }
    first_of(clause, records.static_macs())
}
