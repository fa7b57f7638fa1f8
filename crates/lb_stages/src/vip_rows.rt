//! The rows by which a balancer spreads new connections to its virtual addresses.
ghost use Rattle.std.specs.Prelude.{◌≡◌, ◌++◌, ◌∷◌, [], map, filter, IfOk, OnOk};
ghost use Rattle.nb_records.specs.Network.{is_online};
ghost use Rattle.stage_rows.specs.BalancerRows as spec;
ghost use Rattle.stage_rows.specs.Rows as rows;

use inet_packet::regs::Reg;
use logical_flows::action::{Action, ZoneOf};
use logical_flows::flow::{LFlow, RegIs};
use logical_flows::stage::Stage;
use match_language::expr::Expr;
use match_language::field::{Field, Predicate};
use nb_records::balancer::{BalancerProtocol, LoadBalancer, Vip};
use nb_records::records::Records;
use ovn_base::address::Backend;
use ovn_base::list::List;
use ovn_base::memory::NoMemory;
use ovn_base::name::Name;
use stage_rows::priorities::{ROUTER_VIP_PRIORITY, SWITCH_VIP_PRIORITY};
use stage_rows::rows::{IS_NEW, go_on, tracked_row};
use stage_rows::terms::{field_is, ip_is, only};
use std::alloc::Global;

// The packet's connection is looked for.
const IS_ON_TRACK: RegIs = RegIs {
    reg: Reg::Tracked,
    value: 1,
};

// ---- parts of a row

// The packet is of the kind, and goes to the virtual address and, in the field, its port.
fn to_port(
    alloc: Global,
    kind: Predicate,
    field: Field,
    vip: Backend,
) -> Result<List<Expr>, NoMemory>
    ensures { IfOk result (λ l. l ≡ Expr.Is kind ∷ rows.ip_is Field.Ip4Dst vip.ip ∷ rows.field_is field vip.port ∷ []) }
{
    let mut terms = only(alloc, Expr::Is(kind))?;
    terms.push(ip_is(alloc, Field::Ip4Dst, vip.ip)?)?;
    terms.push(field_is(alloc, field, u64::from(vip.port))?)?;
    Ok(terms)
}

// The packet is of the protocol, and goes to the virtual address and its port.
fn to_vip(alloc: Global, protocol: BalancerProtocol, vip: Backend) -> Result<List<Expr>, NoMemory>
    ensures { IfOk result (λ l. l ≡ spec.to_vip protocol vip) }
{
    match protocol {
        BalancerProtocol::Tcp => to_port(alloc, Predicate::Tcp, Field::TcpDst, vip),
        BalancerProtocol::Udp => to_port(alloc, Predicate::Udp, Field::UdpDst, vip),
    }
}

// Those of the balancer's backends that are online, in the order in which they are listed.
fn online_among(
    alloc: Global,
    records: &Records,
    balancer: &Name,
    backends: &[Backend],
) -> Result<List<Backend>, NoMemory>
    ensures { IfOk result (λ l. l ≡ filter (is_online records.now balancer.now) backends.now) }
{
    let mut online = List::new(alloc);
    'backends: for backend in backends {
        if records.is_online(balancer, *backend) {
            online.push(*backend)?;
        }
    }
    Ok(online)
}

// The connection begins with one of the backends that are online, and the packet goes on behind the stage.
fn balance_actions(
    alloc: Global,
    records: &Records,
    balancer: &Name,
    vip: &Vip,
    zone: ZoneOf,
    stage: Stage,
) -> Result<List<Action>, NoMemory>
    ensures { IfOk result (λ l. l ≡ spec.balance (is_online records.now balancer.now) vip.now zone ∷ rows.go_on stage ∷ []) }
{
    let backends = online_among(alloc, records, balancer, vip.backends.as_slice())?;
    let balance = Action::Balance {
        zone,
        vip: vip.at,
        backends,
    };
    let mut actions = only(alloc, balance)?;
    actions.push(go_on(stage))?;
    Ok(actions)
}

// ---- s_state_in

// The row of a virtual address on a switch, where a connection begins at its port of entry.
fn switch_vip_row(
    alloc: Global,
    records: &Records,
    balancer: &Name,
    protocol: BalancerProtocol,
    vip: &Vip,
) -> Result<LFlow, NoMemory>
    ensures { IfOk result (λ r. r ≡ spec.switch_vip_row (is_online records.now balancer.now) protocol vip.now) }
{
    let stage = Stage::SwitchStateIn;
    let mut regs = only(alloc, IS_ON_TRACK)?;
    regs.push(IS_NEW)?;
    let terms = to_vip(alloc, protocol, vip.at)?;
    let actions = balance_actions(alloc, records, balancer, vip, ZoneOf::In, stage)?;
    Ok(tracked_row(stage, SWITCH_VIP_PRIORITY, regs, terms, actions))
}

/// Adds the rows of the balancer of that name on a switch, one for each of its virtual addresses.
pub(crate) fn push_switch_vips(
    alloc: Global,
    records: &Records,
    name: &Name,
    balancer: &LoadBalancer,
    out: &mut List<LFlow>,
) -> Result<(), NoMemory>
    ensures { OnOk result (out.new ≡ out.old ++ spec.switch_vips (is_online records.now name.now) balancer.now) }
{
    'vips: for vip in balancer.vips.as_slice() {
        out.push(switch_vip_row(alloc, records, name, balancer.protocol, vip)?)?;
    }
    Ok(())
}

// ---- r_dnat

// The row of a virtual address on a router.
fn router_vip_row(
    alloc: Global,
    records: &Records,
    balancer: &Name,
    protocol: BalancerProtocol,
    vip: &Vip,
) -> Result<LFlow, NoMemory>
    ensures { IfOk result (λ r. r ≡ spec.router_vip_row (is_online records.now balancer.now) protocol vip.now) }
{
    let stage = Stage::RouterDnat;
    let regs = only(alloc, IS_NEW)?;
    let terms = to_vip(alloc, protocol, vip.at)?;
    let actions = balance_actions(alloc, records, balancer, vip, ZoneOf::Dnat, stage)?;
    Ok(tracked_row(stage, ROUTER_VIP_PRIORITY, regs, terms, actions))
}

/// Adds the rows of the balancer of that name on a router, one for each of its virtual addresses.
pub(crate) fn push_router_vips(
    alloc: Global,
    records: &Records,
    name: &Name,
    balancer: &LoadBalancer,
    out: &mut List<LFlow>,
) -> Result<(), NoMemory>
    ensures { OnOk result (out.new ≡ out.old ++ spec.router_vips (is_online records.now name.now) balancer.now) }
{
    'vips: for vip in balancer.vips.as_slice() {
        out.push(router_vip_row(alloc, records, name, balancer.protocol, vip)?)?;
    }
    Ok(())
}
