//! What is learnt about held ports: for a block of ports of a reply tuple, a floor below which none that may be picked is free. Blocks of
//! two sizes are kept, each size in a map of its own.
ghost use Rattle.std.specs.Prelude.{◌≡◌, ◌<◌};
ghost use Rattle.conn_table.specs.HeldPorts.{block_of, floor_of, Forgets, AreForgotten, IsWithout};
ghost use Rattle.conn_table.specs.Picks.{with_port};

use crate::connection::Entry;
use crate::ports::{ALL_PORTS, BLOCK_PORTS};
use crate::tuple::{Protocol, Tuple};
use std::collections::BTreeMap;

/// The reply tuple that comes back to the port. An echo has its identifier twice.
pub fn with_port(port: u16, back: &Tuple) -> Tuple
    ensures { result ≡ with_port port back.now }
{
    match back.protocol {
        Protocol::EchoReply => Tuple {
            src_port: port,
            dst_port: port,
            ..*back
        },
        _ => Tuple {
            dst_port: port,
            ..*back
        },
    }
}

// The block of this size that the port of the tuple is in, as the tuple with its first port.
fn block_of(size: u32, tuple: &Tuple) -> Tuple
    requires { 0 < size }
    ensures { result ≡ block_of size tuple.now }
{
    let port = u32::from(tuple.dst_port);
    with_port((port - port % size) as u16, tuple)
}

// The number below which, as far as is known, no port of the block that may be picked is free.
pub(crate) fn floor(floors: &BTreeMap<Tuple, u32>, block: &Tuple) -> u32
    ensures { result ≡ floor_of floors.now.entries block.now }
{
    match floors.get(block) {
        Some(floor) => *floor,
        None => u32::from(block.dst_port),
    }
}

// Forgets what was learnt about the block of this size that the port of the tuple is in.
fn forget(floors: &mut BTreeMap<Tuple, u32>, size: u32, tuple: &Tuple)
    requires { 0 < size }
    ensures { IsWithout (block_of size tuple.now) floors.old.entries floors.new.entries }
{
    floors.remove(&block_of(size, tuple));
}

// Forgets it for both tuples of the entry, if the entry ends.
fn forget_idle(floors: &mut BTreeMap<Tuple, u32>, size: u32, entry: &Entry, now: u64)
    requires { 0 < size }
    ensures { Forgets size now entry.now floors.old.entries floors.new.entries }
{
    if !entry.is_idle(now) {
        return;
    }
    forget(floors, size, &entry.forward);
    forget(floors, size, &entry.reply);
}

/// Forgets what was learnt about the blocks of all entries that end, those of few ports and those of all.
pub(crate) fn forget_all_idle(
    floors: &mut BTreeMap<Tuple, u32>,
    starts: &mut BTreeMap<Tuple, u32>,
    entries: &BTreeMap<Tuple, Entry>,
    now: u64,
)
    ensures few { AreForgotten BLOCK_PORTS now entries.now.entries floors.old.entries floors.new.entries }
    ensures all { AreForgotten ALL_PORTS now entries.now.entries starts.old.entries starts.new.entries }
{
    for (_, entry) in entries {
        forget_idle(floors, BLOCK_PORTS, entry, now);
        forget_idle(starts, ALL_PORTS, entry, now);
    }
}
