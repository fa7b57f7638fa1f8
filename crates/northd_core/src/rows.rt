//! The rows of a unit, of whatever kind it is.
ghost use Rattle.std.specs.Prelude.{◌≡◌, IfOk, None, map};
ghost use Rattle.logical_flows.specs.declared.unit.UnitId.TheVariants.{Balancer, Nat, Neighbour, Port, Route, Router, Rule, Switch};
ghost use Rattle.nb_rules.specs.Valid.{IsValid};
ghost use Rattle.ovn_base.specs.names.ByName.{at};
ghost use Rattle.stage_rows.specs.Rows.{on_some};
ghost use Rattle.stage_rows.specs.Units.{datapath_of, rows_of};
ghost use Rattle.northd_core.specs.Listing.{HasCountedOn};
ghost use Rattle.northd_core.specs.Routed.{is_balancer_on};
ghost use Rattle.northd_core.specs.RulesOn.{is_rule_on};

use acl_stages::rule_unit::RuleUnit;
use lb_stages::balancer_unit::BalancerUnit;
use logical_flows::flow::LFlow;
use logical_flows::stage_unit::StageUnit;
use logical_flows::unit::UnitId;
use nat_stages::nat_unit::NatUnit;
use nb_records::records::Records;
use nb_records::references::serves;
use nb_records::scopes::applies;
use net_model::neighbours::neighbour;
use ovn_base::address::Ip4;
use ovn_base::list::List;
use ovn_base::memory::NoMemory;
use ovn_base::name::Name;
use ovn_base::steps::Steps;
use router_stages::neighbour_unit::NeighbourUnit;
use router_stages::port_unit::RouterPortUnit;
use router_stages::route_unit::RouteUnit;
use router_stages::router_unit::RouterUnit;
use std::alloc::Global;
use switch_stages::port_unit::PortUnit;
use switch_stages::switch_unit::SwitchUnit;

// The rows of a port that is none of a switch.
#[tactic(auto, using(crate::proofs::RowUnits::admits_router_port, crate::proofs::RowUnits::no_port, crate::proofs::Counted::none_counted, crate::proofs::Counted::one_counted))]
fn rows_of_router_port<L>(
    alloc: Global,
    records: &Records,
    port: &Name,
    steps: &mut Steps<L>,
) -> Result<List<LFlow>, NoMemory>
    requires valid { IsValid records.now }
    requires none { at records.now.switch_ports port.now ≡ None }
    ensures rows { IfOk result (λ rows. rows ≡ rows_of records.now (Port port.now)) }
    ensures steps { HasCountedOn steps.old steps.new }
{
    match records.router_port(port) {
        Some(_) => {
            let mut rows = List::new(alloc);
            let unit = RouterPortUnit { port: *port };
            unit.translate(alloc, records, &mut rows, steps)?;
            Ok(rows)
        }
        None => Ok(List::new(alloc)),
    }
}

// The rows of a port.
#[tactic(auto, using(crate::proofs::RowUnits::admits_port, crate::proofs::Counted::one_counted))]
fn rows_of_port<L>(
    alloc: Global,
    records: &Records,
    port: &Name,
    steps: &mut Steps<L>,
) -> Result<List<LFlow>, NoMemory>
    requires valid { IsValid records.now }
    ensures rows { IfOk result (λ rows. rows ≡ rows_of records.now (Port port.now)) }
    ensures steps { HasCountedOn steps.old steps.new }
{
    match records.switch_port(port) {
        Some(_) => {
            let mut rows = List::new(alloc);
            let unit = PortUnit { port: *port };
            unit.translate(alloc, records, &mut rows, steps)?;
            Ok(rows)
        }
        None => rows_of_router_port(alloc, records, port, steps),
    }
}

/// Whether the rule is there and applies to the switch.
pub(crate) fn is_on(records: &Records, rule: &Name, switch: &Name) -> bool
    ensures { result ≡ is_rule_on records.now rule.now switch.now }
{
    match records.acl(rule) {
        Some(record) => applies(records, switch, record),
        None => false,
    }
}

// The rows of a rule on a switch.
#[tactic(auto, using(crate::proofs::RowUnits::on_rule, crate::proofs::RowUnits::off_rule, crate::proofs::Counted::none_counted, crate::proofs::Counted::one_counted))]
fn rows_of_rule<L>(
    alloc: Global,
    records: &Records,
    rule: &Name,
    switch: &Name,
    steps: &mut Steps<L>,
) -> Result<List<LFlow>, NoMemory>
    requires valid { IsValid records.now }
    ensures rows { IfOk result (λ rows. rows ≡ rows_of records.now (Rule rule.now switch.now)) }
    ensures steps { HasCountedOn steps.old steps.new }
{
    let mut rows = List::new(alloc);
    if is_on(records, rule, switch) {
        let unit = RuleUnit {
            rule: *rule,
            switch: *switch,
        };
        unit.translate(alloc, records, &mut rows, steps)?;
    }
    Ok(rows)
}

// The rows of a switch beside its ports.
#[tactic(auto, using(crate::proofs::Counted::none_counted, crate::proofs::Counted::one_counted))]
fn rows_of_switch<L>(
    alloc: Global,
    records: &Records,
    switch: &Name,
    steps: &mut Steps<L>,
) -> Result<List<LFlow>, NoMemory>
    ensures rows { IfOk result (λ rows. rows ≡ rows_of records.now (Switch switch.now)) }
    ensures steps { HasCountedOn steps.old steps.new }
{
    let mut rows = List::new(alloc);
    if records.switch(switch).is_some() {
        let unit = SwitchUnit { switch: *switch };
        unit.translate(alloc, records, &mut rows, steps)?;
    }
    Ok(rows)
}

// The rows of a route.
#[tactic(auto, using(crate::proofs::RowUnits::admits_route, crate::proofs::RowUnits::no_route, crate::proofs::Counted::none_counted, crate::proofs::Counted::one_counted))]
fn rows_of_route<L>(
    alloc: Global,
    records: &Records,
    route: &Name,
    steps: &mut Steps<L>,
) -> Result<List<LFlow>, NoMemory>
    requires valid { IsValid records.now }
    ensures rows { IfOk result (λ rows. rows ≡ rows_of records.now (Route route.now)) }
    ensures steps { HasCountedOn steps.old steps.new }
{
    let mut rows = List::new(alloc);
    if records.route(route).is_some() {
        let unit = RouteUnit { route: *route };
        unit.translate(alloc, records, &mut rows, steps)?;
    }
    Ok(rows)
}

// The row of an address that a router's port may reach.
#[tactic(auto, using(crate::proofs::RowUnits::admits_neighbour, crate::proofs::RowUnits::no_neighbour, crate::proofs::Counted::none_counted, crate::proofs::Counted::one_counted))]
fn rows_of_neighbour<L>(
    alloc: Global,
    records: &Records,
    port: &Name,
    ip: Ip4,
    steps: &mut Steps<L>,
) -> Result<List<LFlow>, NoMemory>
    ensures rows { IfOk result (λ rows. rows ≡ rows_of records.now (Neighbour port.now ip)) }
    ensures steps { HasCountedOn steps.old steps.new }
{
    match neighbour(records, port, ip) {
        Some(_) => {
            let mut rows = List::new(alloc);
            let unit = NeighbourUnit { port: *port, ip };
            unit.translate(alloc, records, &mut rows, steps)?;
            Ok(rows)
        }
        None => Ok(List::new(alloc)),
    }
}

// The rows of a row of NAT.
#[tactic(auto, using(crate::proofs::RowUnits::admits_nat, crate::proofs::RowUnits::no_nat, crate::proofs::Counted::none_counted, crate::proofs::Counted::one_counted))]
fn rows_of_nat<L>(
    alloc: Global,
    records: &Records,
    nat: &Name,
    steps: &mut Steps<L>,
) -> Result<List<LFlow>, NoMemory>
    requires valid { IsValid records.now }
    ensures rows { IfOk result (λ rows. rows ≡ rows_of records.now (Nat nat.now)) }
    ensures steps { HasCountedOn steps.old steps.new }
{
    let mut rows = List::new(alloc);
    if records.nat(nat).is_some() {
        let unit = NatUnit { nat: *nat };
        unit.translate(alloc, records, &mut rows, steps)?;
    }
    Ok(rows)
}

/// Whether the balancer is there and serves the switch or router.
pub(crate) fn is_serving(records: &Records, balancer: &Name, datapath: &Name) -> bool
    ensures { result ≡ is_balancer_on records.now balancer.now datapath.now }
{
    match records.load_balancer(balancer) {
        Some(record) => serves(record, datapath),
        None => false,
    }
}

// The rows of a balancer on a switch or router.
#[tactic(auto, using(crate::proofs::RowUnits::admits_balancer, crate::proofs::RowUnits::off_balancer, crate::proofs::Counted::none_counted, crate::proofs::Counted::one_counted))]
fn rows_of_balancer<L>(
    alloc: Global,
    records: &Records,
    balancer: &Name,
    datapath: &Name,
    steps: &mut Steps<L>,
) -> Result<List<LFlow>, NoMemory>
    ensures rows { IfOk result (λ rows. rows ≡ rows_of records.now (Balancer balancer.now datapath.now)) }
    ensures steps { HasCountedOn steps.old steps.new }
{
    let mut rows = List::new(alloc);
    if is_serving(records, balancer, datapath) {
        let unit = BalancerUnit {
            balancer: *balancer,
            datapath: *datapath,
        };
        unit.translate(alloc, records, &mut rows, steps)?;
    }
    Ok(rows)
}

// The rows of a router beside its ports.
#[tactic(auto, using(crate::proofs::RowUnits::admits_router, crate::proofs::RowUnits::no_router, crate::proofs::Counted::none_counted, crate::proofs::Counted::one_counted))]
fn rows_of_router<L>(
    alloc: Global,
    records: &Records,
    router: &Name,
    steps: &mut Steps<L>,
) -> Result<List<LFlow>, NoMemory>
    ensures rows { IfOk result (λ rows. rows ≡ rows_of records.now (Router router.now)) }
    ensures steps { HasCountedOn steps.old steps.new }
{
    let mut rows = List::new(alloc);
    if records.router(router).is_some() {
        let unit = RouterUnit { router: *router };
        unit.translate(alloc, records, &mut rows, steps)?;
    }
    Ok(rows)
}

/// The rows of the unit, none where it isn't one of the network.
pub fn unit_rows<L>(
    alloc: Global,
    records: &Records,
    unit: &UnitId,
    steps: &mut Steps<L>,
) -> Result<List<LFlow>, NoMemory>
    requires valid { IsValid records.now }
    ensures rows { IfOk result (λ rows. rows ≡ rows_of records.now unit.now) }
    ensures steps { HasCountedOn steps.old steps.new }
{
    match unit {
        UnitId::Port(port) => rows_of_port(alloc, records, port, steps),
        UnitId::Rule { rule, switch } => rows_of_rule(alloc, records, rule, switch, steps),
        UnitId::Route(route) => rows_of_route(alloc, records, route, steps),
        UnitId::Neighbour { port, ip } => rows_of_neighbour(alloc, records, port, *ip, steps),
        UnitId::Nat(nat) => rows_of_nat(alloc, records, nat, steps),
        UnitId::Balancer { balancer, datapath } => {
            rows_of_balancer(alloc, records, balancer, datapath, steps)
        }
        UnitId::Switch(switch) => rows_of_switch(alloc, records, switch, steps),
        UnitId::Router(router) => rows_of_router(alloc, records, router, steps),
    }
}

/// The datapath of the unit.
pub fn unit_datapath(records: &Records, unit: &UnitId) -> Option<Name>
    ensures { result ≡ datapath_of records.now unit.now }
{
    match unit {
        UnitId::Port(port) => match records.switch_port(port) {
            Some(record) => Some(record.switch),
            None => records.router_port(port).map(|record| record.router),
        },
        UnitId::Rule { switch, .. } => Some(*switch),
        UnitId::Route(route) => records.route(route).map(|record| record.router),
        UnitId::Neighbour { port, .. } => records.router_port(port).map(|record| record.router),
        UnitId::Nat(nat) => records.nat(nat).map(|record| record.router),
        UnitId::Balancer { datapath, .. } => Some(*datapath),
        UnitId::Switch(datapath) => Some(*datapath),
        UnitId::Router(datapath) => Some(*datapath),
    }
}

/// The rows with the datapath, none where there is none.
pub fn paired(
    alloc: Global,
    datapath: Option<Name>,
    rows: &[LFlow],
) -> Result<List<(LFlow, Name)>, NoMemory>
    ensures { IfOk result (λ pairs. pairs ≡ on_some datapath (λ d. map (λ r. (r, d)) rows.now)) }
{
    let mut pairs = List::new(alloc);
    if let Some(on) = datapath {
        'rows: for row in rows {
            pairs.push((row.copy()?, on))?;
        }
    }
    Ok(pairs)
}
