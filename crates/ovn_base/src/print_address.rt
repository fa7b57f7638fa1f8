ghost use Rattle.std.specs.Prelude.{◌≡◌, ◌<◌, ◌^◌, ◌≤◌, ◌++◌, ℕ, List, OnOk, OnErr};
ghost use Rattle.std.specs.Char.{digit_char};
ghost use Rattle.ovn_base.specs.addresses.AddressText.{SpellsMac, SpellsIp4, SpellsCidr, mac_text, ip4_text, cidr_text};

use crate::address::{Cidr, Ip4, Mac};
use crate::memory::NoMemory;
use crate::number::push_number;

// A hexadecimal digit in lower case.
fn digit(value: u8) -> u8
    requires { value < 16 }
    ensures { result ≡ digit_char value }
{
    if value < 10 {
        b'0' + value
    } else {
        b'a' + (value - 10)
    }
}

fn text_of_mac(mac: Mac) -> [u8; 17]
    ensures { result ≡ mac_text mac }
{
    let [a, b, c, d, e, f] = mac.bytes();
    [
        digit(a / 16),
        digit(a % 16),
        b':',
        digit(b / 16),
        digit(b % 16),
        b':',
        digit(c / 16),
        digit(c % 16),
        b':',
        digit(d / 16),
        digit(d % 16),
        b':',
        digit(e / 16),
        digit(e % 16),
        b':',
        digit(f / 16),
        digit(f % 16),
    ]
}

/// Appends the Ethernet address as six pairs in lower case joined by `:`. Where memory is wanting nothing is appended.
pub fn push_mac(out: &mut Vec<u8>, mac: Mac) -> Result<(), NoMemory>
    ensures ok { OnOk result (out.new.items ≡ out.old.items ++ mac_text mac) }
    ensures err { OnErr result (out.new.items ≡ out.old.items) }
{
    out.extend_from_slice(&text_of_mac(mac))?;
    Ok(())
}

/// Appends the IPv4 address in dotted decimal. Where memory is wanting a part of it may stand there.
pub fn push_ip4(out: &mut Vec<u8>, ip: Ip4) -> Result<(), NoMemory>
    ensures ok { OnOk result (out.new.items ≡ out.old.items ++ ip4_text ip) }
    ensures err { OnErr result ((part : List ℕ) × (out.new.items ≡ out.old.items ++ part)) }
{
    let [a, b, c, d] = ip.0.to_be_bytes();
    push_number(out, u64::from(a))?;
    out.push(b'.')?;
    push_number(out, u64::from(b))?;
    out.push(b'.')?;
    push_number(out, u64::from(c))?;
    out.push(b'.')?;
    push_number(out, u64::from(d))?;
    Ok(())
}

/// Appends the address, `/` and the length. Where memory is wanting a part of it may stand there.
pub fn push_cidr(out: &mut Vec<u8>, cidr: Cidr) -> Result<(), NoMemory>
    ensures ok { OnOk result (out.new.items ≡ out.old.items ++ cidr_text cidr) }
    ensures err { OnErr result ((part : List ℕ) × (out.new.items ≡ out.old.items ++ part)) }
{
    push_ip4(out, cidr.addr)?;
    out.push(b'/')?;
    push_number(out, u64::from(cidr.len))?;
    Ok(())
}

/// The printed text of an address spells it.
pub fn printed_spells()
    ensures mac { (mac : Mac) → SpellsMac (mac_text mac) mac }
    ensures ip4 { (ip : Ip4) → ip.0 < 2 ^ 32 → SpellsIp4 (ip4_text ip) ip }
    ensures cidr { (cidr : Cidr) → cidr.addr.0 < 2 ^ 32 → cidr.len ≤ 32 → SpellsCidr (cidr_text cidr) cidr }
{}
