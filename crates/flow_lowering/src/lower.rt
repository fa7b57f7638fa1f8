//! Lowering: the flows of a logical flow on a datapath.
ghost use Rattle.std.specs.Prelude.{◌≡◌, ◌≤◌, ◌∷◌, ◌++◌, true, map, filter_map, IsSome, IfOk, OnOk, OnErr};
ghost use Rattle.std.specs.List.{AllByRecursion};
ghost use Rattle.ovn_base.specs.declared.limits.TheConstants.{MAX_WIDTH};
ghost use Rattle.ovn_base.specs.names.ByName.{at};
ghost use Rattle.ovn_base.specs.numbers.Steps.{after_steps};
ghost use Rattle.match_cubes.specs.Cubes.{cubes_of};
ghost use Rattle.match_cubes.specs.Points.{members_of, setting};
ghost use Rattle.match_cubes.specs.Suited.{are_suited};
ghost use Rattle.match_cubes.specs.Width.{width_of};
ghost use Rattle.flow_lowering.specs.LoweredFlows as spec;
ghost use Rattle.flow_lowering.specs.Registers.{dp_is, met_with_all};

use crate::registers::met_on;
use flow_table::flow::{Flow, FlowOp, SharedFlow};
use inet_packet::cube::Cube;
use inet_packet::regs::{At, Reg};
use logical_flows::action::Action;
use logical_flows::flow::LFlow;
use match_cubes::cubes::cubes;
use match_cubes::fault::CubeFault;
use match_cubes::sets::Sets;
use match_language::expr::Expr;
use ovn_base::list::List;
use ovn_base::memory::NoMemory;
use ovn_base::name::Name;
use ovn_base::ports::Ports;
use ovn_base::steps::Steps;
use std::alloc::Global;
use tunnel_keys::store::KeyStore;

// The action, with a port's key in place of its name.
#[tactic(auto, unfolding(crate::specs::LoweredFlows::lowered_op))]
fn lowered_op(keys: &KeyStore, action: &Action) -> Result<FlowOp, NoMemory>
    requires { spec.NamesLivePort keys.now action.now }
    ensures { IfOk result (λ op. op ≡ spec.lowered_op keys.now action.now) }
{
    match action {
        Action::Set { reg, value } => {
            Ok(FlowOp::Set {
                reg: *reg,
                value: *value,
            })
        }
        Action::SetOut(port) => {
            match keys.port(port) {
                Some(key) => {
                    Ok(FlowOp::Set {
                        reg: Reg::OutPort,
                        value: u32::from(key),
                    })
                }
                None => unreachable!(),
            }
        }
        Action::OutIsIn => Ok(FlowOp::OutIsIn),
        Action::Find(zone) => Ok(FlowOp::Find(*zone)),
        Action::Undo => Ok(FlowOp::Undo),
        Action::Translate => Ok(FlowOp::Translate),
        Action::Touch => Ok(FlowOp::Touch),
        Action::Block => Ok(FlowOp::Block),
        Action::Unblock => Ok(FlowOp::Unblock),
        Action::Commit(zone) => Ok(FlowOp::Commit(*zone)),
        Action::Dnat { zone, ip } => {
            Ok(FlowOp::Dnat {
                zone: *zone,
                ip: *ip,
            })
        }
        Action::Snat { zone, ip } => {
            Ok(FlowOp::Snat {
                zone: *zone,
                ip: *ip,
            })
        }
        Action::Balance {
            zone,
            vip,
            backends,
        } => FlowOp::balance(backends.allocator(), *zone, *vip, backends.as_slice()),
        Action::ArpReply { mac, ip } => { Ok(FlowOp::ArpReply { mac: *mac, ip: *ip }) }
        Action::EchoReply => Ok(FlowOp::EchoReply),
        Action::DecTtl => Ok(FlowOp::DecTtl),
        Action::NextDst => Ok(FlowOp::NextDst),
        Action::EthSrc(mac) => Ok(FlowOp::EthSrc(*mac)),
        Action::EthDst(mac) => Ok(FlowOp::EthDst(*mac)),
        Action::Go(table) => Ok(FlowOp::Go(*table)),
        Action::Drop(cause) => Ok(FlowOp::Drop(*cause)),
    }
}

fn lowered_ops(alloc: Global, keys: &KeyStore, actions: &[Action]) -> Result<List<FlowOp>, NoMemory>
    requires { AllByRecursion (spec.NamesLivePort keys.now) actions.now }
    ensures { IfOk result (λ ops. ops ≡ spec.lowered_ops keys.now actions.now) }
{
    let mut ops = List::new(alloc);
    for action in actions {
        ops.push(lowered_op(keys, action)?)?;
    }
    Ok(ops)
}

// The cubes of a matching that isn't too wide.
fn narrow_cubes(
    alloc: Global,
    matching: &Expr,
    sets: &Sets,
    ports: &Ports,
) -> Result<List<Cube>, NoMemory>
    requires suited { are_suited matching.now true ≡ true }
    requires narrow { width_of (members_of sets.now) matching.now ≤ MAX_WIDTH }
    ensures { IfOk result (λ all. all ≡ cubes_of (setting sets.now ports.now) matching.now) }
{
    match cubes(alloc, matching, sets, ports) {
        Ok(all) => Ok(all),
        Err(CubeFault::Memory) => Err(NoMemory),
        Err(CubeFault::TooWide(_)) => unreachable!(),
    }
}

// The flow on the packets of the cube, with these operations.
fn flow_on(alloc: Global, flow: &LFlow, ops: &[FlowOp], cube: Cube) -> Result<SharedFlow, NoMemory>
    ensures { IfOk result (λ f. f ≡ spec.flow_on flow.now ops.now cube) }
{
    Flow::shared(
        alloc,
        flow.stage.table(),
        flow.priority,
        flow.rank,
        cube,
        ops,
    )
}

// The flows on the packets of the cubes that are on the datapath of this key.
fn flows_on(
    alloc: Global,
    flow: &LFlow,
    ops: &[FlowOp],
    key: u32,
    cubes: &[Cube],
) -> Result<List<SharedFlow>, NoMemory>
    ensures { IfOk result (λ flows. flows ≡ map (spec.flow_on flow.now ops.now) (filter_map (met_with_all (dp_is key ∷ flow.now.regs)) cubes.now)) }
{
    let mut flows = List::new(alloc);
    for cube in cubes {
        if let Some(met) = met_on(cube, key, flow.regs.as_slice()) {
            let _entry: &Option<At> = &met.at;
            flows.push(flow_on(alloc, flow, ops, met)?)?;
        }
    }
    Ok(flows)
}

fn lowered_flows(
    alloc: Global,
    flow: &LFlow,
    datapath: &Name,
    keys: &KeyStore,
    sets: &Sets,
) -> Result<List<SharedFlow>, NoMemory>
    requires suited { are_suited flow.now.matching true ≡ true }
    requires narrow { width_of (members_of sets.now) flow.now.matching ≤ MAX_WIDTH }
    requires datapath { IsSome (at keys.now.datapaths datapath.now) }
    requires ports { AllByRecursion (spec.NamesLivePort keys.now) flow.now.actions }
    ensures { IfOk result (λ flows. flows ≡ spec.lowered_flows keys.now sets.now flow.now datapath.now) }
{
    let (Some(key), Some(ports)) = (keys.datapath(datapath), keys.ports(datapath)) else {
        unreachable!()
    };
    let cubes = narrow_cubes(alloc, &flow.matching, sets, ports)?;
    let ops = lowered_ops(alloc, keys, flow.actions.as_slice())?;
    flows_on(alloc, flow, ops.as_slice(), key, cubes.as_slice())
}

/// Adds the flows to which the logical flow is lowered on the datapath, one for each cube of what it matches there, and counts
/// one step. Without memory `out` stays as it was.
///
/// The matching has to be one that the grammar lets stand, and no wider than 65,536 cubes; the datapath, and each port that an
/// action names, have to have live keys.
pub fn lower<L>(
    flow: &LFlow,
    datapath: &Name,
    keys: &KeyStore,
    sets: &Sets,
    out: &mut List<SharedFlow>,
    steps: &mut Steps<L>,
) -> Result<(), NoMemory>
    requires suited { are_suited flow.now.matching true ≡ true }
    requires narrow { width_of (members_of sets.now) flow.now.matching ≤ MAX_WIDTH }
    requires datapath { IsSome (at keys.now.datapaths datapath.now) }
    requires ports { AllByRecursion (spec.NamesLivePort keys.now) flow.now.actions }
    ensures lowered { OnOk result (out.new ≡ out.old ++ spec.lowered_flows keys.now sets.now flow.now datapath.now) }
    ensures unchanged { OnErr result (out.new ≡ out.old) }
    ensures steps { steps.new ≡ after_steps 1 steps.old }
{
    steps.tick();
    let flows = lowered_flows(out.allocator(), flow, datapath, keys, sets)?;
    out.append(flows)
}
