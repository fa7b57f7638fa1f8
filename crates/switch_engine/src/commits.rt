//! What actions do with a packet that begins a connection.
ghost use Rattle.std.specs.Prelude.{◌≡◌, ◌≢◌, ◌++◌, [], Some, IfSome, IfOk, OnOk, OnErr, length, slice_get};
ghost use Rattle.std.specs.List.{filter};
ghost use Rattle.indexmap.specs.IndexMap.{spare};
ghost use Rattle.conn_table.specs.declared.connection.State.TheVariants.{New};
ghost use Rattle.conn_table.specs.Connections.{committed, IsPair};
ghost use Rattle.conn_table.specs.Picks.{towards, is_free_backend, backend_index};
ghost use Rattle.conn_table.specs.Tracking.{with_option, seen, seen_tuple, state_of};
ghost use Rattle.conn_table.specs.Tuples.{reversed, tuple_of, with_tuple, CanBecome};
ghost use Rattle.switch_engine.specs.Advance.{ActionDoes, Extends, IsCarriedInRange};
ghost use Rattle.switch_engine.specs.Beginning.{tuple_if_new, new_tuple, IsNewAt, commit_refusal, list_after, refusal_in, zones_after, backend_of, backend_in, IsSource, IsSourceIn};
ghost use Rattle.switch_engine.specs.Commits.{Newcomer, newcomer, adds, begins, commits, translates_to, balances, hides_behind, is_balanced};
ghost use Rattle.switch_engine.specs.Zones.{zone_at};

use crate::actions::{Turn, drop_copy};
use crate::carried::Carried;
use crate::effect::Effect;
use crate::zones::ZoneMap;
use conn_table::connection::{CommitFault, State};
use conn_table::held_ports::with_port;
use conn_table::rewrite::rewrite;
use conn_table::tuple::{Protocol, Tuple};
use conn_table::zone::Zone;
use flow_table::flow::Cause;
use inet_packet::packet::Packet;
use ovn_base::address::{Backend, Ip4};
use ovn_base::list::List;
use ovn_base::memory::NoMemory;

// ---- one list

// Adds the connection, or says why not.
fn add_to(zone: &mut Zone, from: Tuple, back: Tuple, now: u64) -> Result<Option<Cause>, NoMemory>
    requires is_new { state_of (seen_tuple zone.old (Some from)) ≡ New }
    requires pair { IsPair from back }
    ensures refused { IfOk result (λ refused. refused ≡ commit_refusal (committed zone.old from back now)) }
    ensures list { OnOk result (zone.new ≡ list_after zone.old (committed zone.old from back now)) }
{
    match zone.commit(from, back, now) {
        Ok(_) => Ok(None),
        Err(CommitFault::Clash(_)) => Ok(Some(Cause::Clash)),
        Err(CommitFault::Full) => Ok(Some(Cause::Full)),
        Err(CommitFault::Memory) => Err(NoMemory),
    }
}

// TCP and UDP alone have ports to which a virtual address can be given.
fn is_balanced(protocol: Protocol) -> bool
    ensures { result ≡ is_balanced protocol }
{
    matches!(protocol, Protocol::Tcp | Protocol::Udp)
}

// The tuple to the backend.
fn towards(tuple: &Tuple, backend: Backend) -> Tuple
    ensures { result ≡ towards backend tuple.now }
{
    Tuple {
        dst: backend.ip,
        dst_port: backend.port,
        ..*tuple
    }
}

// Whether the answers of the backend are no other connection's.
fn is_free_backend(zone: &Zone, tuple: &Tuple, backend: Backend) -> bool
    ensures { result ≡ is_free_backend zone.now tuple.now backend }
{
    zone.is_free(&towards(tuple, backend).reversed())
}

// How many of the backends may be picked.
fn count_free(zone: &Zone, tuple: &Tuple, backends: &[Backend]) -> usize
    ensures { result ≡ length (filter (is_free_backend zone.now tuple.now) backends.now) }
{
    let mut count = 0;
    'backends: for backend in backends {
        if !is_free_backend(zone, tuple, *backend) {
            continue;
        }
        count += 1;
    }
    count
}

// The backend at the index among those that may be picked.
fn nth_free(zone: &Zone, tuple: &Tuple, backends: &[Backend], index: usize) -> Option<Backend>
    ensures { result ≡ slice_get (filter (is_free_backend zone.now tuple.now) backends.now) index }
{
    let mut left = index;
    'backends: for backend in backends {
        if !is_free_backend(zone, tuple, *backend) {
            continue;
        }
        if left == 0 {
            return Some(*backend);
        }
        left -= 1;
    }
    None
}

// By the source and the two ports, so that the packets of one tuple go one way.
fn backend_index(tuple: &Tuple, count: usize) -> usize
    requires { count ≢ 0 }
    ensures { result ≡ backend_index tuple.now count }
{
    let sum = u64::from(tuple.src.0) + u64::from(tuple.src_port) + u64::from(tuple.dst_port);
    (sum % count as u64) as usize
}

// One of the backends that may be picked, if there is one.
fn backend_of(zone: &Zone, tuple: &Tuple, backends: &[Backend]) -> Option<Backend>
    ensures { result ≡ backend_of tuple.now (filter (is_free_backend zone.now tuple.now) backends.now) }
{
    let count = count_free(zone, tuple, backends);
    if count == 0 {
        return None;
    }
    nth_free(zone, tuple, backends, backend_index(tuple, count))
}

// From where a new connection comes, once its source has another address.
#[derive(Clone, Copy)]
enum Source {
    // From the port that it has.
    Kept,
    // From this one.
    Port(u16),
    // There is none that is free.
    NoneFree,
}

// From where a connection comes whose answers have the tuple, if the port is kept.
fn source_in(zone: &mut Zone, back: &Tuple) -> Source
    ensures source { IsSource back.now result zone.old }
    ensures unchanged { zone.new ≡ zone.old }
{
    if zone.is_free(back) {
        return Source::Kept;
    }
    if !back.protocol.has_ports() {
        return Source::NoneFree;
    }
    match zone.least_port(back) {
        Some(port) => Source::Port(port),
        None => Source::NoneFree,
    }
}

// The tuple of the packet, where it is new to the list.
fn new_to(zone: &Zone, packet: &Packet) -> Option<Tuple>
    ensures tuple { result ≡ tuple_if_new (seen zone.now packet.now) }
    ensures of_packet { IfSome result (λ t. tuple_of packet.now ≡ Some t) }
    ensures pair { IfSome result (λ t. IsPair t (reversed t)) }
{
    let tuple = Tuple::of(packet)?;
    match zone.find(Some(&tuple)) {
        State::New => Some(tuple),
        State::Forward(_) | State::Reply(_) | State::Invalid => None,
    }
}

// ---- the zones of a chassis

// The tuple of the packet, where it begins a connection in the zone.
fn newcomer(zones: &ZoneMap, number: u16, packet: &Packet) -> Option<Tuple>
    ensures tuple { result ≡ new_tuple number zones.now.entries packet.now }
    ensures of_packet { IfSome result (λ t. tuple_of packet.now ≡ Some t) }
    ensures pair { IfSome result (λ t. IsPair t (reversed t)) }
{
    match zones.get(&number) {
        Some(zone) => new_to(zone, packet),
        None => None,
    }
}

// Adds the connection to the zone, or says why not.
fn add(
    zones: &mut ZoneMap,
    number: u16,
    from: Tuple,
    back: Tuple,
    now: u64,
) -> Result<Option<Cause>, NoMemory>
    requires is_new { IsNewAt number zones.old.entries from }
    requires pair { IsPair from back }
    ensures refused { IfOk result (λ refused. refused ≡ refusal_in now from back (zone_at zones.old.entries number)) }
    ensures zones { OnOk result (zones.new.entries ≡ zones_after now number from back zones.old.entries) }
    ensures room { spare zones.new ≡ spare zones.old }
{
    match zones.get_mut(&number) {
        Some(zone) => add_to(zone, from, back, now),
        None => Ok(None),
    }
}

fn backend_in(zones: &ZoneMap, number: u16, tuple: &Tuple, backends: &[Backend]) -> Option<Backend>
    ensures { result ≡ backend_in tuple.now backends.now (zone_at zones.now.entries number) }
{
    match zones.get(&number) {
        Some(zone) => backend_of(zone, tuple, backends),
        None => None,
    }
}

fn source_at(zones: &mut ZoneMap, number: u16, back: &Tuple) -> Source
    ensures source { IsSourceIn back.now result (zone_at zones.old.entries number) }
    ensures unchanged { zones.new.entries ≡ zones.old.entries }
    ensures room { spare zones.new ≡ spare zones.old }
{
    match zones.get_mut(&number) {
        Some(zone) => source_in(zone, back),
        None => Source::NoneFree,
    }
}

// ---- a packet that begins a connection

// A connection that begins: the tuple of its packets, that of their answers, and the tuple that the packets get, if it is another.
#[derive(Clone, Copy)]
struct Connection {
    from: Tuple,
    back: Tuple,
    to: Option<Tuple>,
}

// Adds the connection to the zone and gives the packet its tuple, or drops the copy.
fn begin(
    zones: &mut ZoneMap,
    number: u16,
    connection: &Connection,
    now: u64,
    copy: &mut Carried,
    effects: &mut List<Effect>,
) -> Result<Turn, NoMemory>
    requires is_new { new_tuple number zones.old.entries copy.old.packet ≡ Some connection.now.from }
    requires pair { IsPair connection.now.from connection.now.back }
    requires to { IfSome connection.now.to (λ t. CanBecome t copy.old.packet) }
    requires in_range { IsCarriedInRange copy.old }
    ensures does { (n : Newcomer) → newcomer number zones.old.entries copy.old.packet ≡ Some n → IfOk result (λ turn. ActionDoes (adds now n connection.now.back (with_option connection.now.to copy.old.packet)) turn copy.old copy.new zones.old.entries zones.new.entries effects.old effects.new []) }
    ensures in_range { OnOk result (IsCarriedInRange copy.new) }
    ensures room { spare zones.new ≡ spare zones.old }
    ensures err { OnErr result (effects.new ≡ effects.old) }
{
    if let Some(cause) = add(zones, number, connection.from, connection.back, now)? {
        drop_copy(cause, copy, effects)?;
        return Ok(Turn::Ends);
    }
    if let Some(to) = &connection.to {
        rewrite(&mut copy.packet, to);
    }
    Ok(Turn::Next)
}

// Adds the connection of a packet that begins one.
pub(crate) fn commit(
    zones: &mut ZoneMap,
    number: u16,
    now: u64,
    copy: &mut Carried,
    effects: &mut List<Effect>,
) -> Result<Turn, NoMemory>
    requires in_range { IsCarriedInRange copy.old }
    ensures does { IfOk result (λ turn. ActionDoes (begins number (commits now)) turn copy.old copy.new zones.old.entries zones.new.entries effects.old effects.new []) }
    ensures in_range { OnOk result (IsCarriedInRange copy.new) }
    ensures room { spare zones.new ≡ spare zones.old }
    ensures err { OnErr result (Extends effects.old effects.new) }
{
    let Some(from) = newcomer(zones, number, &copy.packet) else {
        return Ok(Turn::Next);
    };
    let connection = Connection {
        from,
        back: from.reversed(),
        to: None,
    };
    let turn = begin(zones, number, &connection, now, copy, effects)?;
    Ok(turn)
}

// Adds the connection of a packet that begins one, with the address as its destination from now on.
pub(crate) fn dnat(
    zones: &mut ZoneMap,
    number: u16,
    ip: Ip4,
    now: u64,
    copy: &mut Carried,
    effects: &mut List<Effect>,
) -> Result<Turn, NoMemory>
    requires in_range { IsCarriedInRange copy.old }
    ensures does { IfOk result (λ turn. ActionDoes (begins number (translates_to now ip)) turn copy.old copy.new zones.old.entries zones.new.entries effects.old effects.new []) }
    ensures in_range { OnOk result (IsCarriedInRange copy.new) }
    ensures room { spare zones.new ≡ spare zones.old }
    ensures err { OnErr result (Extends effects.old effects.new) }
{
    let Some(from) = newcomer(zones, number, &copy.packet) else {
        return Ok(Turn::Next);
    };
    let to = Tuple { dst: ip, ..from };
    let connection = Connection {
        from,
        back: to.reversed(),
        to: Some(to),
    };
    let turn = begin(zones, number, &connection, now, copy, effects)?;
    Ok(turn)
}

// Adds the connection of a packet that begins one, with one of the backends as its destination from now on.
pub(crate) fn balance(
    zones: &mut ZoneMap,
    number: u16,
    vip: Backend,
    backends: &[Backend],
    now: u64,
    copy: &mut Carried,
    effects: &mut List<Effect>,
) -> Result<Turn, NoMemory>
    requires in_range { IsCarriedInRange copy.old }
    ensures does { IfOk result (λ turn. ActionDoes (begins number (balances now vip backends.now)) turn copy.old copy.new zones.old.entries zones.new.entries effects.old effects.new []) }
    ensures in_range { OnOk result (IsCarriedInRange copy.new) }
    ensures room { spare zones.new ≡ spare zones.old }
    ensures err { OnErr result (Extends effects.old effects.new) }
{
    let Some(from) = newcomer(zones, number, &copy.packet) else {
        return Ok(Turn::Next);
    };
    if !is_balanced(from.protocol) {
        return Ok(Turn::Next);
    }
    let Some(backend) = backend_in(zones, number, &from, backends) else {
        drop_copy(Cause::NoLiveBackend, copy, effects)?;
        return Ok(Turn::Ends);
    };
    let pick = Effect::PickBackend {
        vni: copy.regs.dp,
        vip,
        backend,
    };
    effects.push(pick)?;
    let to = towards(&from, backend);
    let connection = Connection {
        from,
        back: to.reversed(),
        to: Some(to),
    };
    let sent = begin(zones, number, &connection, now, copy, effects)?;
    Ok(sent)
}

// Adds the connection of a packet that begins one and lets the packet come from where the answers go, or drops the copy.
fn begin_from(
    zones: &mut ZoneMap,
    number: u16,
    from: Tuple,
    back: Tuple,
    now: u64,
    copy: &mut Carried,
    effects: &mut List<Effect>,
) -> Result<Turn, NoMemory>
    requires is_new { new_tuple number zones.old.entries copy.old.packet ≡ Some from }
    requires of_packet { tuple_of copy.old.packet ≡ Some from }
    requires pair { IsPair from back }
    requires in_range { IsCarriedInRange copy.old }
    ensures does { (n : Newcomer) → newcomer number zones.old.entries copy.old.packet ≡ Some n → IfOk result (λ turn. ActionDoes (adds now n back (with_tuple (reversed back) copy.old.packet)) turn copy.old copy.new zones.old.entries zones.new.entries effects.old effects.new []) }
    ensures in_range { OnOk result (IsCarriedInRange copy.new) }
    ensures room { spare zones.new ≡ spare zones.old }
    ensures err { OnErr result (effects.new ≡ effects.old) }
{
    let connection = Connection {
        from,
        back,
        to: Some(back.reversed()),
    };
    begin(zones, number, &connection, now, copy, effects)
}

// Adds the connection of a packet that begins one, with the address as its source from now on.
pub(crate) fn snat(
    zones: &mut ZoneMap,
    number: u16,
    ip: Ip4,
    now: u64,
    copy: &mut Carried,
    effects: &mut List<Effect>,
) -> Result<Turn, NoMemory>
    requires in_range { IsCarriedInRange copy.old }
    ensures does { IfOk result (λ turn. ActionDoes (begins number (hides_behind now ip)) turn copy.old copy.new zones.old.entries zones.new.entries effects.old effects.new []) }
    ensures in_range { OnOk result (IsCarriedInRange copy.new) }
    ensures room { spare zones.new ≡ spare zones.old }
    ensures err { OnErr result (Extends effects.old effects.new) }
{
    let Some(from) = newcomer(zones, number, &copy.packet) else {
        return Ok(Turn::Next);
    };
    let kept = Tuple { src: ip, ..from }.reversed();
    match source_at(zones, number, &kept) {
        Source::Kept => {
            let turn = begin_from(zones, number, from, kept, now, copy, effects)?;
            Ok(turn)
        }
        Source::Port(port) => {
            effects.push(Effect::PickPort {
                vni: copy.regs.dp,
                port,
            })?;
            let back = with_port(port, &kept);
            let turn = begin_from(zones, number, from, back, now, copy, effects)?;
            Ok(turn)
        }
        Source::NoneFree => {
            drop_copy(Cause::NoFreePort, copy, effects)?;
            Ok(Turn::Ends)
        }
    }
}
