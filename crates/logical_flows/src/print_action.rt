//! Writes the actions of a flow as a text.
ghost use Rattle.std.specs.Prelude.{◌≡◌, ◌++◌, ◌∷◌, map, codes, decimal, OnOk, OnErr};
ghost use Rattle.ovn_base.specs.addresses.AddressText.{ip4_text, mac_text};
ghost use Rattle.match_language.specs.Spelling.{joined_text};
ghost use Rattle.logical_flows.specs.FlowText as spec;

use crate::action::{Action, ZoneOf};
use crate::words::{put, reg_name, zone_name};
use inet_packet::regs::Reg;
use ovn_base::address::{Backend, Ip4, Mac};
use ovn_base::memory::NoMemory;
use ovn_base::number::push_number;
use ovn_base::print_address::{push_ip4, push_mac};

fn push_backend(backend: Backend, out: &mut Vec<u8>) -> Result<(), NoMemory>
    ensures { OnOk result (out.new.items ≡ out.old.items ++ spec.backend_text backend) }
{
    push_ip4(out, backend.ip)?;
    out.push(b':')?;
    push_number(out, u64::from(backend.port))
}

// The backends with commas between.
fn push_joined_backends(backends: &[Backend], out: &mut Vec<u8>) -> Result<(), NoMemory>
    ensures { OnOk result (out.new.items ≡ out.old.items ++ joined_text (codes ",") (map spec.backend_text backends.now)) }
{
    let [first, rest @ ..] = backends else {
        return Ok(());
    };
    push_backend(*first, out)?;
    for backend in rest {
        put(b",", out)?;
        push_backend(*backend, out)?;
    }
    Ok(())
}

fn push_backends(backends: &[Backend], out: &mut Vec<u8>) -> Result<(), NoMemory>
    ensures { OnOk result (out.new.items ≡ out.old.items ++ spec.backends_text backends.now) }
{
    out.push(b'[')?;
    push_joined_backends(backends, out)?;
    out.push(b']')?;
    Ok(())
}

fn push_set(reg: Reg, value: u32, out: &mut Vec<u8>) -> Result<(), NoMemory>
    ensures { OnOk result (out.new.items ≡ out.old.items ++ (codes "set " ++ (spec.reg_name reg ++ (61 ∷ decimal value)))) }
{
    put(b"set ", out)?;
    put(reg_name(reg), out)?;
    out.push(b'=')?;
    push_number(out, u64::from(value))
}

// The words, and the zone.
fn push_in_zone(words: &[u8], zone: ZoneOf, out: &mut Vec<u8>) -> Result<(), NoMemory>
    ensures { OnOk result (out.new.items ≡ out.old.items ++ (words.now ++ spec.zone_name zone)) }
{
    put(words, out)?;
    put(zone_name(zone), out)
}

// The words, the zone and the address.
fn push_nat(words: &[u8], zone: ZoneOf, ip: Ip4, out: &mut Vec<u8>) -> Result<(), NoMemory>
    ensures { OnOk result (out.new.items ≡ out.old.items ++ (words.now ++ (spec.zone_name zone ++ (32 ∷ ip4_text ip)))) }
{
    push_in_zone(words, zone, out)?;
    out.push(b' ')?;
    push_ip4(out, ip)
}

// The words and the Ethernet address.
fn push_with_mac(words: &[u8], mac: Mac, out: &mut Vec<u8>) -> Result<(), NoMemory>
    ensures { OnOk result (out.new.items ≡ out.old.items ++ (words.now ++ mac_text mac)) }
{
    put(words, out)?;
    push_mac(out, mac)
}

fn push_arp_reply(mac: Mac, ip: Ip4, out: &mut Vec<u8>) -> Result<(), NoMemory>
    ensures { OnOk result (out.new.items ≡ out.old.items ++ (codes "arp_reply " ++ (mac_text mac ++ (32 ∷ ip4_text ip)))) }
{
    push_with_mac(b"arp_reply ", mac, out)?;
    out.push(b' ')?;
    push_ip4(out, ip)
}

fn push_balance(
    zone: ZoneOf,
    vip: Backend,
    backends: &[Backend],
    out: &mut Vec<u8>,
) -> Result<(), NoMemory>
    ensures { OnOk result (out.new.items ≡ out.old.items ++ (codes "balance " ++ (spec.zone_name zone ++ (32 ∷ (spec.backend_text vip ++ (32 ∷ spec.backends_text backends.now)))))) }
{
    push_in_zone(b"balance ", zone, out)?;
    out.push(b' ')?;
    push_backend(vip, out)?;
    out.push(b' ')?;
    push_backends(backends, out)
}

fn push_action(action: &Action, out: &mut Vec<u8>) -> Result<(), NoMemory>
    ensures { OnOk result (out.new.items ≡ out.old.items ++ spec.action_text action.now) }
{
    match action {
        Action::Set { reg, value } => push_set(*reg, *value, out),
        Action::SetOut(port) => {
            put(b"set out=", out)?;
            put(port.text(), out)
        }
        Action::OutIsIn => put(b"set out=in", out),
        Action::Find(zone) => push_in_zone(b"find ", *zone, out),
        Action::Undo => put(b"undo", out),
        Action::Translate => put(b"translate", out),
        Action::Touch => put(b"touch", out),
        Action::Block => put(b"block", out),
        Action::Unblock => put(b"unblock", out),
        Action::Commit(zone) => push_in_zone(b"commit ", *zone, out),
        Action::Dnat { zone, ip } => push_nat(b"dnat ", *zone, *ip, out),
        Action::Snat { zone, ip } => push_nat(b"snat ", *zone, *ip, out),
        Action::Balance {
            zone,
            vip,
            backends,
        } => push_balance(*zone, *vip, backends.as_slice(), out),
        Action::ArpReply { mac, ip } => push_arp_reply(*mac, *ip, out),
        Action::EchoReply => put(b"echo_reply", out),
        Action::DecTtl => put(b"dec_ttl", out),
        Action::NextDst => put(b"next_dst", out),
        Action::EthSrc(mac) => push_with_mac(b"eth_src ", *mac, out),
        Action::EthDst(mac) => push_with_mac(b"eth_dst ", *mac, out),
        Action::Go(table) => {
            put(b"go ", out)?;
            push_number(out, u64::from(*table))
        }
        Action::Drop(cause) => {
            put(b"drop ", out)?;
            put(cause.name(), out)
        }
    }
}

// The actions with semicolons between. Where memory is wanting a part of them may stand there.
pub(crate) fn push_actions(actions: &[Action], out: &mut Vec<u8>) -> Result<(), NoMemory>
    ensures { OnOk result (out.new.items ≡ out.old.items ++ spec.actions_text actions.now) }
{
    let [first, rest @ ..] = actions else {
        return Ok(());
    };
    push_action(first, out)?;
    for action in rest {
        put(b";", out)?;
        push_action(action, out)?;
    }
    Ok(())
}

/// Writes the actions, joined by semicolons, behind what `out` has. Where memory is wanting nothing is written.
pub fn print_actions(actions: &[Action], out: &mut Vec<u8>) -> Result<(), NoMemory>
    ensures text { OnOk result (out.new.items ≡ out.old.items ++ spec.actions_text actions.now) }
    ensures unchanged { OnErr result (out.new.items ≡ out.old.items) }
{
    let mut text = Vec::new(*out.allocator());
    push_actions(actions, &mut text)?;
    out.extend_from_slice(text.as_slice())?;
    Ok(())
}
