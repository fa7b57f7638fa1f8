ghost use Rattle.std.specs.Prelude.{◌≡◌, ◌≢◌, ◌==◌, ◌≤◌, ◌++◌, ℕ, List, ◌∷◌, position, option_map, IfSome, IfNone};
ghost use Rattle.std.specs.List.{All};
ghost use Rattle.ovn_base.specs.addresses.AddressText.{SpellsPair, SpellsOctet, SpellsFirst, SpellsMac, SpellsIp4, SpellsCidr};
ghost use Rattle.ovn_base.specs.addresses.AddressReading.{parted, spelled_pair, first_spelled_pair, spelled_mac, first_spelled_octet, spelled_ip4, spelled_cidr};
ghost use Rattle.ovn_base.specs.numbers.NumberReading.{spelled_number};

use crate::address::{Cidr, Ip4, Mac};
use crate::number::{hexadecimal_digit, read_number};

// Where the separator first stands.
fn place_of(text: &[u8], separator: u8) -> Option<usize>
    ensures { result ≡ position (λ b. b == separator) text.now }
{
    text.iter().position(|byte| *byte == separator)
}

// The parts before and after the first place of the separator.
fn cut(text: &[u8], separator: u8) -> Option<(&[u8], &[u8])>
    ensures exact { option_map (λ parts. (parts.0.now, parts.1.now)) result ≡ parted separator text.now }
    ensures found { IfSome result (λ parts. (text.now ≡ parts.0.now ++ separator ∷ parts.1.now) × All (λ b. b ≢ separator) parts.0.now) }
    ensures none { IfNone result (All (λ b. b ≢ separator) text.now) }
{
    let index = place_of(text, separator)?;
    Some((&text[..index], &text[index + 1..]))
}

#[tactic(auto, unfolding(crate::specs::addresses::AddressReading::spelled_pair))]
fn read_pair(text: &[u8]) -> Option<u8>
    ensures found { IfSome result (λ byte. SpellsPair text.now byte) }
    ensures none { IfNone result ((byte : ℕ) → ¬ SpellsPair text.now byte) }
    ensures exact { result ≡ spelled_pair text.now }
{
    match text {
        [high, low] => Some(16 * hexadecimal_digit(*high)? + hexadecimal_digit(*low)?),
        _ => None,
    }
}

// The byte of the pair in front, and what comes after the ':' behind it.
#[tactic(auto, unfolding(crate::specs::addresses::AddressReading::first_spelled_pair))]
fn first_pair(text: &[u8]) -> Option<(u8, &[u8])>
    ensures found { IfSome result (λ first. SpellsFirst SpellsPair 58 text.now first.0 first.1.now) }
    ensures none { IfNone result ((byte : ℕ) (rest : List ℕ) → ¬ SpellsFirst SpellsPair 58 text.now byte rest) }
    ensures exact { option_map (λ first. (first.0, first.1.now)) result ≡ first_spelled_pair text.now }
{
    let (pair, rest) = cut(text, b':')?;
    Some((read_pair(pair)?, rest))
}

/// The Ethernet address that the text spells, as in `0a:00:00:00:00:fe`, in either case.
#[tactic(auto, unfolding(crate::specs::addresses::AddressReading::spelled_mac))]
pub fn read_mac(text: &[u8]) -> Option<Mac>
    ensures found { IfSome result (λ mac. SpellsMac text.now mac) }
    ensures none { IfNone result ((mac : Mac) → ¬ SpellsMac text.now mac) }
    ensures exact { result ≡ spelled_mac text.now }
{
    let (a, rest) = first_pair(text)?;
    let (b, rest) = first_pair(rest)?;
    let (c, rest) = first_pair(rest)?;
    let (d, rest) = first_pair(rest)?;
    let (e, rest) = first_pair(rest)?;
    let f = read_pair(rest)?;
    Some(Mac([a, b, c, d, e, f]))
}

fn read_octet(text: &[u8]) -> Option<u8>
    ensures found { IfSome result (λ octet. SpellsOctet text.now octet) }
    ensures none { IfNone result ((octet : ℕ) → ¬ SpellsOctet text.now octet) }
    ensures exact { result ≡ spelled_number 255 text.now }
{
    let octet = read_number(text, 255)?;
    Some(octet as u8)
}

// The octet in front, and what comes after the '.' behind it.
#[tactic(auto, unfolding(crate::specs::addresses::AddressReading::first_spelled_octet))]
fn first_octet(text: &[u8]) -> Option<(u8, &[u8])>
    ensures found { IfSome result (λ first. SpellsFirst SpellsOctet 46 text.now first.0 first.1.now) }
    ensures none { IfNone result ((octet : ℕ) (rest : List ℕ) → ¬ SpellsFirst SpellsOctet 46 text.now octet rest) }
    ensures exact { option_map (λ first. (first.0, first.1.now)) result ≡ first_spelled_octet text.now }
{
    let (octet, rest) = cut(text, b'.')?;
    Some((read_octet(octet)?, rest))
}

/// The IPv4 address that the text spells, as in `10.0.0.1`, with no leading zeros.
#[tactic(auto, unfolding(crate::specs::addresses::AddressReading::spelled_ip4))]
pub fn read_ip4(text: &[u8]) -> Option<Ip4>
    ensures found { IfSome result (λ ip. SpellsIp4 text.now ip) }
    ensures none { IfNone result ((ip : Ip4) → ¬ SpellsIp4 text.now ip) }
    ensures exact { result ≡ spelled_ip4 text.now }
{
    let (a, rest) = first_octet(text)?;
    let (b, rest) = first_octet(rest)?;
    let (c, rest) = first_octet(rest)?;
    let d = read_octet(rest)?;
    Some(Ip4(u32::from_be_bytes([a, b, c, d])))
}

/// The IPv4 address with a length that the text spells, as in `10.0.0.0/8`; an address alone has the length 32.
#[tactic(auto, unfolding(crate::specs::addresses::AddressReading::spelled_cidr))]
pub fn read_cidr(text: &[u8]) -> Option<Cidr>
    ensures found { IfSome result (λ cidr. SpellsCidr text.now cidr) }
    ensures none { IfNone result ((cidr : Cidr) → ¬ SpellsCidr text.now cidr) }
    ensures exact { result ≡ spelled_cidr text.now }
{
    match cut(text, b'/') {
        None => Some(Cidr {
            addr: read_ip4(text)?,
            len: 32,
        }),
        Some((ip, len)) => Some(Cidr {
            addr: read_ip4(ip)?,
            len: read_number(len, 32)? as u8,
        }),
    }
}

/// A text spells at most one Ethernet address.
pub fn one_mac()
    ensures { (text : List ℕ) (a b : Mac) → SpellsMac text a → SpellsMac text b → a ≡ b }
{}

/// A text spells at most one IPv4 address.
pub fn one_ip4()
    ensures { (text : List ℕ) (a b : Ip4) → SpellsIp4 text a → SpellsIp4 text b → a ≡ b }
{}

/// A text spells at most one IPv4 address with a length.
pub fn one_cidr()
    ensures { (text : List ℕ) (a b : Cidr) → SpellsCidr text a → SpellsCidr text b → a ≡ b }
{}
