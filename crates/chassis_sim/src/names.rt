//! The names of pairs of keys, and effects of the tables said in names.
ghost use Rattle.std.specs.Prelude.{◌≡◌, ◌+◌, ◌<◌, ◌≤◌, ◌^◌, ◌++◌, ◌∷◌, [], IfOk, OnOk, OnErr, codes, length};
ghost use Rattle.std.specs.List.{AllByRecursion};
ghost use Rattle.inet_packet.specs.Frame.{frame_of};
ghost use Rattle.inet_packet.specs.Whole.{IsWhole};
ghost use Rattle.geneve_frames.specs.Meaning.{canon};
ghost use Rattle.switch_engine.specs.Framed.{CanBeSent};
ghost use Rattle.chassis_sim.specs.Frames.{IsSent};
ghost use Rattle.chassis_sim.specs.InNames.{name_of, arrived_as, in_names, all_in_names, next_after, next_after_all, sent_by, frames_sent};
ghost use Rattle.chassis_sim.specs.Passing.{AddsWalk, KeepsOut, IsFront};

use crate::frames::spelled;
use crate::out::SimOut;
use crate::underlay::Underlay;
use indexmap::IndexMap;
use ovn_base::list::List;
use ovn_base::memory::NoMemory;
use ovn_base::name::Name;
use std::alloc::Global;
use switch_engine::effect::{Effect, NetEffect};
use switch_engine::walk::{RunOut, Start, Walk};

// The names of pairs of a datapath key and a port key.
pub(crate) type Names = IndexMap<(u32, u16), Name>;

// The name of what was never named.
fn dash() -> Name
    ensures { result ≡ codes "-" }
{
    match Name::read(b"-") {
        Some(name) => name,
        None => unreachable!(),
    }
}

// The name of the pair of keys.
pub(crate) fn name_at(names: &Names, vni: u32, port: u16) -> Name
    ensures { result ≡ name_of names.now.entries vni port }
{
    match names.get(&(vni, port)) {
        Some(name) => *name,
        None => dash(),
    }
}

// The number of the frame that arrived.
fn arrived_as(start: &Start) -> u128
    ensures { result ≡ arrived_as start.now }
{
    match start {
        Start::Port(_) => 0,
        Start::Frame(number) => *number,
    }
}

// Tells an effect on the chassis in names. If it is a frame, that waits from then on.
fn tell_one(
    alloc: Global,
    names: &Names,
    underlay: &mut Underlay,
    chassis: Name,
    start: &Start,
    effect: Effect,
    told: &mut List<NetEffect>,
) -> Result<(), NoMemory>
    requires can { CanBeSent effect }
    requires room { underlay.old.next + 1 < 2 ^ 128 }
    ensures told { OnOk result (told.new ≡ told.old ++ in_names names.now.entries chassis start.now underlay.old.next effect ∷ []) }
    ensures waiting { OnOk result (underlay.new.waiting ≡ underlay.old.waiting ++ sent_by (in_names names.now.entries chassis start.now underlay.old.next effect)) }
    ensures next { OnOk result (underlay.new.next ≡ next_after underlay.old.next effect) }
    ensures kept { IsFront told.old told.new }
    ensures few { underlay.new.next + length told.old ≤ underlay.old.next + length told.new }
{
    match effect {
        Effect::Out { port, packet } => told.push(NetEffect::Out { port, packet }),
        Effect::Frame {
            chassis: to,
            vni,
            in_key,
            out_key,
            packet,
        } => {
            let bytes = spelled(alloc, vni, in_key, out_key, &packet)?;
            told.push(NetEffect::Tunnel {
                frame: underlay.next(),
                from: chassis,
                to,
                bytes: bytes.copy()?,
            })?;
            underlay.send(to, bytes)
        }
        Effect::Drop { vni, port, cause } => told.push(NetEffect::Drop {
            datapath: name_at(names, vni, 0),
            port: name_at(names, vni, port),
            cause,
        }),
        Effect::PickBackend { vni, vip, backend } => told.push(NetEffect::PickBackend {
            datapath: name_at(names, vni, 0),
            vip,
            backend,
        }),
        Effect::PickPort { vni, port } => told.push(NetEffect::PickPort {
            router: name_at(names, vni, 0),
            port,
        }),
        Effect::Lost => told.push(NetEffect::Lost {
            frame: arrived_as(start),
        }),
    }
}

// Tells effects on the chassis in names. The frames among them wait from then on.
fn tell_effects(
    alloc: Global,
    names: &Names,
    underlay: &mut Underlay,
    chassis: Name,
    start: &Start,
    effects: List<Effect>,
    told: &mut List<NetEffect>,
) -> Result<(), NoMemory>
    requires can { AllByRecursion CanBeSent effects }
    requires room { underlay.old.next < 2 ^ 127 }
    ensures told { OnOk result (told.new ≡ told.old ++ all_in_names names.now.entries chassis start.now underlay.old.next effects) }
    ensures waiting { OnOk result (underlay.new.waiting ≡ underlay.old.waiting ++ frames_sent (all_in_names names.now.entries chassis start.now underlay.old.next effects)) }
    ensures next { OnOk result (underlay.new.next ≡ next_after_all underlay.old.next effects) }
    ensures kept { IsFront told.old told.new }
    ensures few { underlay.new.next + length told.old ≤ underlay.old.next + length told.new }
{
    'effects: for effect in effects {
        tell_one(alloc, names, underlay, chassis, start, effect, told)?;
    }
    Ok(())
}

// Tells what came of a packet on the chassis: its effects in names, and its walk. The frames among the effects wait from
// then on.
pub(crate) fn tell(
    names: &Names,
    underlay: &mut Underlay,
    chassis: Name,
    start: &Start,
    run: RunOut,
    out: &mut SimOut,
) -> Result<(), NoMemory>
    requires can { AllByRecursion CanBeSent run.effects }
    requires room { underlay.old.next < 2 ^ 127 }
    ensures told { OnOk result (AddsWalk chassis start.now run.walk (all_in_names names.now.entries chassis start.now underlay.old.next run.effects) out.old out.new) }
    ensures waiting { OnOk result (underlay.new.waiting ≡ underlay.old.waiting ++ frames_sent (all_in_names names.now.entries chassis start.now underlay.old.next run.effects)) }
    ensures next { OnOk result (underlay.new.next ≡ next_after_all underlay.old.next run.effects) }
    ensures kept { KeepsOut out.old out.new }
    ensures few { underlay.new.next + length out.old.effects ≤ underlay.old.next + length out.new.effects }
{
    let RunOut { effects, walk } = run;
    let alloc = effects.allocator();
    tell_effects(
        alloc,
        names,
        underlay,
        chassis,
        start,
        effects,
        &mut out.effects,
    )?;
    out.walks.push(Walk {
        chassis,
        start: *start,
        steps: walk,
    })
}
