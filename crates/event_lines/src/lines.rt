//! The lines of events.
ghost use Rattle.std.specs.Prelude.{◌≡◌, ◌++◌, codes, decimal, take, OnOk, OnErr};
ghost use Rattle.flow_table.specs.Causes.{cause_name};
ghost use Rattle.event_lines.specs.Lines.{route_words, words_of, line_of, ok_line, accepted_lines, refused_line, end_line};
ghost use Rattle.event_lines.specs.Text.{StartsWith, backend_text};

use crate::put::{put, put_backend, put_count, put_frame, put_hex, put_number, put_wide};
use crate::refusal::Refusal;
use crate::refusals::put_refusal;
use flow_table::flow::Cause;
use ovn_base::address::Backend;
use ovn_base::memory::NoMemory;
use ovn_base::name::Name;
use switch_engine::effect::NetEffect;

fn put_cause(cause: Cause, out: &mut Vec<u8>) -> Result<(), NoMemory>
    ensures ok { OnOk result (out.new.items ≡ out.old.items ++ cause_name cause) }
    ensures err { OnErr result (StartsWith out.new.items out.old.items) }
{
    put(cause.name(), out)
}

// On the datapath, at the port, for the cause.
fn put_drop(datapath: &Name, port: &Name, cause: Cause, out: &mut Vec<u8>) -> Result<(), NoMemory>
    ensures ok { OnOk result (out.new.items ≡ out.old.items ++ (codes "drop " ++ (datapath.now ++ (codes " " ++ (port.now ++ (codes " " ++ cause_name cause)))))) }
    ensures err { OnErr result (StartsWith out.new.items out.old.items) }
{
    put(b"drop ", out)?;
    put(datapath.text(), out)?;
    put(b" ", out)?;
    put(port.text(), out)?;
    put(b" ", out)?;
    put_cause(cause, out)
}

// The kind, the name and its number.
fn put_named(kind: &[u8], name: &Name, number: u64, out: &mut Vec<u8>) -> Result<(), NoMemory>
    ensures ok { OnOk result (out.new.items ≡ out.old.items ++ (kind.now ++ (name.now ++ (codes " " ++ decimal number)))) }
    ensures err { OnErr result (StartsWith out.new.items out.old.items) }
{
    put(kind, out)?;
    put(name.text(), out)?;
    put(b" ", out)?;
    put_number(number, out)
}

// The virtual address, and the backend.
fn put_pair(vip: Backend, backend: Backend, out: &mut Vec<u8>) -> Result<(), NoMemory>
    ensures ok { OnOk result (out.new.items ≡ out.old.items ++ (backend_text vip ++ (codes " " ++ backend_text backend))) }
    ensures err { OnErr result (StartsWith out.new.items out.old.items) }
{
    put_backend(vip, out)?;
    put(b" ", out)?;
    put_backend(backend, out)
}

// The kind, the datapath, and for the virtual address the backend.
fn put_pick(
    kind: &[u8],
    datapath: &Name,
    vip: Backend,
    backend: Backend,
    out: &mut Vec<u8>,
) -> Result<(), NoMemory>
    ensures ok { OnOk result (out.new.items ≡ out.old.items ++ (kind.now ++ (datapath.now ++ (codes " " ++ (backend_text vip ++ (codes " " ++ backend_text backend)))))) }
    ensures err { OnErr result (StartsWith out.new.items out.old.items) }
{
    put(kind, out)?;
    put(datapath.text(), out)?;
    put(b" ", out)?;
    put_pair(vip, backend, out)
}

// From one chassis to another, and the bytes in hexadecimal digits.
fn put_route(from: &Name, to: &Name, bytes: &[u8], out: &mut Vec<u8>) -> Result<(), NoMemory>
    ensures ok { OnOk result (out.new.items ≡ out.old.items ++ route_words from.now to.now bytes.now) }
    ensures err { OnErr result (StartsWith out.new.items out.old.items) }
{
    put(from.text(), out)?;
    put(b" ", out)?;
    put(to.text(), out)?;
    put(b" ", out)?;
    put_hex(bytes, out)
}

fn put_words(effect: &NetEffect, out: &mut Vec<u8>) -> Result<(), NoMemory>
    ensures ok { OnOk result (out.new.items ≡ out.old.items ++ words_of effect.now) }
    ensures err { OnErr result (StartsWith out.new.items out.old.items) }
{
    match effect {
        NetEffect::DatapathKey { name, key } => {
            put_named(b"key datapath ", name, u64::from(*key), out)
        }
        NetEffect::PortKey { name, key } => put_named(b"key port ", name, u64::from(*key), out),
        NetEffect::PickBackend {
            datapath,
            vip,
            backend,
        } => put_pick(b"pick backend ", datapath, *vip, *backend, out),
        NetEffect::PickPort { router, port } => {
            put_named(b"pick port ", router, u64::from(*port), out)
        }
        NetEffect::Tunnel {
            frame,
            from,
            to,
            bytes,
        } => {
            put(b"tunnel ", out)?;
            put_wide(*frame, out)?;
            put(b" ", out)?;
            put_route(from, to, bytes.as_slice(), out)
        }
        NetEffect::Out { port, packet } => {
            put(b"out ", out)?;
            put(port.text(), out)?;
            put(b" ", out)?;
            put_frame(packet, out)
        }
        NetEffect::Drop {
            datapath,
            port,
            cause,
        } => put_drop(datapath, port, *cause, out),
        NetEffect::Lost { frame } => put_count(b"lost ", *frame, out),
    }
}

// The line of an effect of the event of this number.
fn put_line(effect: &NetEffect, number: u64, out: &mut Vec<u8>) -> Result<(), NoMemory>
    ensures ok { OnOk result (out.new.items ≡ out.old.items ++ line_of number (words_of effect.now)) }
    ensures err { OnErr result (StartsWith out.new.items out.old.items) }
{
    put_number(number, out)?;
    put(b" ", out)?;
    put_words(effect, out)?;
    put(b"\n", out)
}

// The last line of an accepted event.
fn put_ok(walks: u128, number: u64, out: &mut Vec<u8>) -> Result<(), NoMemory>
    ensures ok { OnOk result (out.new.items ≡ out.old.items ++ ok_line number walks) }
    ensures err { OnErr result (StartsWith out.new.items out.old.items) }
{
    put_number(number, out)?;
    put(b" ", out)?;
    put_count(b"ok walks=", walks, out)?;
    put(b"\n", out)
}

// A line for each effect, and the last one.
fn put_accepted(
    effects: &[NetEffect],
    walks: u128,
    number: u64,
    out: &mut Vec<u8>,
) -> Result<(), NoMemory>
    ensures ok { OnOk result (out.new.items ≡ out.old.items ++ accepted_lines number effects.now walks) }
    ensures err { OnErr result (StartsWith out.new.items out.old.items) }
{
    'effects: for effect in effects {
        put_line(effect, number, out)?;
    }
    put_ok(walks, number, out)
}

// The line of a refused event of this number.
fn put_refused(refusal: &Refusal, number: u64, out: &mut Vec<u8>) -> Result<(), NoMemory>
    ensures ok { OnOk result (out.new.items ≡ out.old.items ++ refused_line number refusal.now) }
    ensures err { OnErr result (StartsWith out.new.items out.old.items) }
{
    put_number(number, out)?;
    put(b" ", out)?;
    put(b"refused ", out)?;
    put_refusal(refusal, out)?;
    put(b"\n", out)
}

// The last line of all.
fn put_end(
    events: u64,
    accepted: u64,
    refused: u64,
    waiting: usize,
    out: &mut Vec<u8>,
) -> Result<(), NoMemory>
    ensures ok { OnOk result (out.new.items ≡ out.old.items ++ end_line events accepted refused waiting) }
    ensures err { OnErr result (StartsWith out.new.items out.old.items) }
{
    put_count(b"end events=", events as u128, out)?;
    put_count(b" accepted=", accepted as u128, out)?;
    put_count(b" refused=", refused as u128, out)?;
    put_count(b" waiting=", waiting as u128, out)?;
    put(b"\n", out)
}

// Where memory was wanting, what was added behind the first bytes, so many, goes again.
fn or_as_before(added: Result<(), NoMemory>, len: usize, out: &mut Vec<u8>) -> Result<(), NoMemory>
    ensures same { result ≡ added }
    ensures ok { OnOk added (out.new.items ≡ out.old.items) }
    ensures err { OnErr added (out.new.items ≡ take len out.old.items) }
{
    if added.is_err() {
        out.truncate(len);
    }
    added
}

/// Adds the line of an effect of the event of this number. Without memory the text is as it was.
pub fn line(effect: &NetEffect, number: u64, out: &mut Vec<u8>) -> Result<(), NoMemory>
    ensures ok { OnOk result (out.new.items ≡ out.old.items ++ line_of number (words_of effect.now)) }
    ensures err { OnErr result (out.new.items ≡ out.old.items) }
{
    let len = out.len();
    let added = put_line(effect, number, out);
    or_as_before(added, len, out)
}

/// Adds the lines of an accepted event: one for each effect, and the last with the number of flows that were matched.
/// Without memory the text is as it was.
pub fn accepted(
    effects: &[NetEffect],
    walks: u128,
    number: u64,
    out: &mut Vec<u8>,
) -> Result<(), NoMemory>
    ensures ok { OnOk result (out.new.items ≡ out.old.items ++ accepted_lines number effects.now walks) }
    ensures err { OnErr result (out.new.items ≡ out.old.items) }
{
    let len = out.len();
    let added = put_accepted(effects, walks, number, out);
    or_as_before(added, len, out)
}

/// Adds the line of a refused event of this number. Without memory the text is as it was.
pub fn refused(refusal: &Refusal, number: u64, out: &mut Vec<u8>) -> Result<(), NoMemory>
    ensures ok { OnOk result (out.new.items ≡ out.old.items ++ refused_line number refusal.now) }
    ensures err { OnErr result (out.new.items ≡ out.old.items) }
{
    let len = out.len();
    let added = put_refused(refusal, number, out);
    or_as_before(added, len, out)
}

/// Adds the last line of all: how many events there were, how many of them were accepted and refused, and how many
/// frames wait. Without memory the text is as it was.
pub fn end(
    events: u64,
    accepted: u64,
    refused: u64,
    waiting: usize,
    out: &mut Vec<u8>,
) -> Result<(), NoMemory>
    ensures ok { OnOk result (out.new.items ≡ out.old.items ++ end_line events accepted refused waiting) }
    ensures err { OnErr result (out.new.items ≡ out.old.items) }
{
    let len = out.len();
    let added = put_end(events, accepted, refused, waiting, out);
    or_as_before(added, len, out)
}
