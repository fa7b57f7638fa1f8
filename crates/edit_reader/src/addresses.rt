// Addresses of all forms, and the bytes of frames.
ghost use Rattle.std.specs.Prelude.{◌≡◌, ◌==◌, ◌<◌, ◌≤◌, map, length, position, IfOk, IfSome};
ghost use Rattle.std.specs.Option.{option_map};
ghost use Rattle.std.specs.List.{AllByRecursion, slice_split};
ghost use Rattle.ovn_base.specs.addresses.AddressReading.{parted, spelled_mac, spelled_ip4, spelled_cidr};
ghost use Rattle.nb_records.specs.Grammar.{IsIp4, IsCidr, IsBackend, IsPortAddress, IsSecurityEntry, IsSetEntry};
ghost use Rattle.edit_reader.specs.Grammars as spec;

use crate::field::{Grammar, each_by};
use hex::FromHexError;
use nb_records::rule::SetEntry;
use nb_records::switch::{PortAddress, SecurityEntry};
use ovn_base::address::{Backend, Cidr, Ip4, Mac};
use ovn_base::list::{Bytes, List};
use ovn_base::memory::NoMemory;
use ovn_base::number::read_number;
use ovn_base::read_address::{read_cidr, read_ip4, read_mac};
use std::alloc::{AllocError, Global};

/// Ethernet addresses.
#[derive(Drop)]
pub struct MacText;

impl Grammar for MacText {
    type Of = Mac;

    ghost spelled = { λ _. spelled_mac };

    ghost suits = { λ _ _. Unit {0} };

    fn spelled(&self, _alloc: Global, text: &[u8]) -> Result<Option<Mac>, NoMemory> {
        Ok(read_mac(text))
    }
}

fn ip_of(text: &[u8]) -> Option<Ip4>
    ensures exact { result ≡ spelled_ip4 text.now }
    ensures fits { IfSome result IsIp4 }
{
    let ip = read_ip4(text)?;
    Some(ip)
}

fn cidr_of(text: &[u8]) -> Option<Cidr>
    ensures exact { result ≡ spelled_cidr text.now }
    ensures fits { IfSome result IsCidr }
{
    let cidr = read_cidr(text)?;
    Some(cidr)
}

/// IPv4 addresses.
#[derive(Drop)]
pub struct IpText;

impl Grammar for IpText {
    type Of = Ip4;

    ghost spelled = { λ _. spelled_ip4 };

    ghost suits = { λ _. IsIp4 };

    fn spelled(&self, _alloc: Global, text: &[u8]) -> Result<Option<Ip4>, NoMemory> {
        Ok(ip_of(text))
    }
}

/// IPv4 addresses, also with the length of a prefix.
#[derive(Drop)]
pub struct CidrText;

impl Grammar for CidrText {
    type Of = Cidr;

    ghost spelled = { λ _. spelled_cidr };

    ghost suits = { λ _. IsCidr };

    fn spelled(&self, _alloc: Global, text: &[u8]) -> Result<Option<Cidr>, NoMemory> {
        Ok(cidr_of(text))
    }
}

// Where the byte first stands.
fn place_of(text: &[u8], separator: u8) -> Option<usize>
    ensures value { result ≡ position (λ b. b == separator) text.now }
    ensures within { IfSome result (λ i. i < length text.now) }
{
    text.iter().position(|byte| *byte == separator)
}

// The parts before and after the first place of the separator.
fn cut(text: &[u8], separator: u8) -> Option<(&[u8], &[u8])>
    ensures { option_map (λ parts. (parts.0.now, parts.1.now)) result ≡ parted separator text.now }
{
    let index = place_of(text, separator)?;
    Some((&text[..index], &text[index + 1..]))
}

// The address with a length, where the text gives one.
#[tactic(auto, unfolding(crate::specs::Grammars::spelled_prefix))]
fn prefix_of(text: &[u8]) -> Option<Cidr>
    ensures exact { result ≡ spec.spelled_prefix text.now }
    ensures fits { IfSome result IsCidr }
{
    if place_of(text, b'/').is_some() {
        cidr_of(text)
    } else {
        None
    }
}

/// IPv4 addresses with the length of a prefix.
#[derive(Drop)]
pub struct PrefixText;

impl Grammar for PrefixText {
    type Of = Cidr;

    ghost spelled = { λ _. spec.spelled_prefix };

    ghost suits = { λ _. IsCidr };

    fn spelled(&self, _alloc: Global, text: &[u8]) -> Result<Option<Cidr>, NoMemory> {
        Ok(prefix_of(text))
    }
}

#[tactic(auto, unfolding(crate::specs::Grammars::spelled_set_entry))]
fn set_entry_of(text: &[u8]) -> Option<SetEntry>
    ensures exact { result ≡ spec.spelled_set_entry text.now }
    ensures fits { IfSome result IsSetEntry }
{
    if let Some(mac) = read_mac(text) {
        return Some(SetEntry::Ether(mac));
    }
    let prefix = cidr_of(text)?;
    Some(SetEntry::Ip(prefix))
}

/// Entries of address sets.
#[derive(Drop)]
pub struct SetEntryText;

impl Grammar for SetEntryText {
    type Of = SetEntry;

    ghost spelled = { λ _. spec.spelled_set_entry };

    ghost suits = { λ _. IsSetEntry };

    fn spelled(&self, _alloc: Global, text: &[u8]) -> Result<Option<SetEntry>, NoMemory> {
        Ok(set_entry_of(text))
    }
}

// The pieces between spaces.
fn pieces_of(alloc: Global, text: &[u8]) -> Result<Vec<&[u8]>, AllocError>
    ensures { IfOk result (λ pieces. map (λ t. t.now) pieces.items ≡ slice_split (λ b. b == 32) text.now) }
{
    text.split(|byte| *byte == b' ').collect(alloc)
}

// An Ethernet address in front of addresses of the grammar.
fn ether_by<G: Grammar>(
    alloc: Global,
    pieces: &[&[u8]],
    grammar: &G,
) -> Result<Option<(Mac, List<G::Of>)>, NoMemory>
where
    G::Of: Drop,
    ensures value { IfOk result (λ found. found ≡ spec.ether_by (G.spelled grammar.now) (map (λ t. t.now) pieces.now)) }
    ensures suits { IfOk result (λ found. IfSome found (λ e. AllByRecursion (G.suits grammar.now) e.1)) }
{
    let Some((piece, pieces)) = pieces.split_first() else {
        return Ok(None);
    };
    let Some(mac) = read_mac(piece) else {
        return Ok(None);
    };
    match each_by(alloc, pieces, grammar)? {
        Some(ips) => Ok(Some((mac, ips))),
        None => Ok(None),
    }
}

// An Ethernet address, and addresses of the grammar after one space each.
#[tactic(auto, unfolding(crate::specs::Grammars::spelled_ether))]
fn ether_of<G: Grammar>(
    alloc: Global,
    text: &[u8],
    grammar: &G,
) -> Result<Option<(Mac, List<G::Of>)>, NoMemory>
where
    G::Of: Drop,
    ensures value { IfOk result (λ found. found ≡ spec.spelled_ether (G.spelled grammar.now) text.now) }
    ensures suits { IfOk result (λ found. IfSome found (λ e. AllByRecursion (G.suits grammar.now) e.1)) }
{
    let pieces = pieces_of(alloc, text)?;
    ether_by(alloc, pieces.as_slice(), grammar)
}

/// Entries of a switch port's addresses.
#[derive(Drop)]
pub struct PortAddressText;

impl Grammar for PortAddressText {
    type Of = PortAddress;

    ghost spelled = { λ _. spec.spelled_port_address };

    ghost suits = { λ _. IsPortAddress };

    #[tactic(auto, unfolding(crate::specs::Grammars::spelled_port_address))]
    fn spelled(&self, alloc: Global, text: &[u8]) -> Result<Option<PortAddress>, NoMemory> {
        if b"unknown".as_slice() == text {
            return Ok(Some(PortAddress::Unknown));
        }
        if b"router".as_slice() == text {
            return Ok(Some(PortAddress::Router));
        }
        match ether_of(alloc, text, &IpText)? {
            Some((mac, ips)) => Ok(Some(PortAddress::Ether { mac, ips })),
            None => Ok(None),
        }
    }
}

/// Entries of a switch port's security.
#[derive(Drop)]
pub struct SecurityText;

impl Grammar for SecurityText {
    type Of = SecurityEntry;

    ghost spelled = { λ _. spec.spelled_security };

    ghost suits = { λ _. IsSecurityEntry };

    #[tactic(auto, unfolding(crate::specs::Grammars::spelled_security))]
    fn spelled(&self, alloc: Global, text: &[u8]) -> Result<Option<SecurityEntry>, NoMemory> {
        match ether_of(alloc, text, &CidrText)? {
            Some((mac, ips)) => Ok(Some(SecurityEntry { mac, ips })),
            None => Ok(None),
        }
    }
}

// A port of 1 to 65,535, without leading zeros.
#[tactic(auto, unfolding(crate::specs::Grammars::spelled_port))]
fn port_of(text: &[u8]) -> Option<u16>
    ensures exact { result ≡ spec.spelled_port text.now }
    ensures some { IfSome result (λ port. 1 ≤ port) }
{
    let port = read_number(text, 65535)?;
    if port >= 1 { Some(port as u16) } else { None }
}

/// The address and port that the text spells, with a colon between.
#[tactic(auto, unfolding(crate::specs::Grammars::spelled_backend))]
fn backend_of(text: &[u8]) -> Option<Backend>
    ensures exact { result ≡ spec.spelled_backend text.now }
    ensures fits { IfSome result IsBackend }
{
    let (ip, port) = cut(text, b':')?;
    let ip = ip_of(ip)?;
    let port = port_of(port)?;
    Some(Backend { ip, port })
}

/// Addresses with a port.
#[derive(Drop)]
pub struct BackendText;

impl Grammar for BackendText {
    type Of = Backend;

    ghost spelled = { λ _. spec.spelled_backend };

    ghost suits = { λ _. IsBackend };

    fn spelled(&self, _alloc: Global, text: &[u8]) -> Result<Option<Backend>, NoMemory> {
        Ok(backend_of(text))
    }
}

/// Frames in hexadecimal digits.
#[derive(Drop)]
pub struct FrameText;

impl Grammar for FrameText {
    type Of = Bytes;

    ghost spelled = { λ _. spec.spelled_frame };

    ghost suits = { λ _ _. Unit {0} };

    #[tactic(auto, unfolding(crate::specs::Grammars::spelled_frame))]
    fn spelled(&self, alloc: Global, text: &[u8]) -> Result<Option<Bytes>, NoMemory> {
        match hex::decode(alloc, text) {
            Ok(bytes) => Ok(Some(List::from_vec(bytes))),
            Err(FromHexError::OutOfMemory) => Err(NoMemory),
            Err(_) => Ok(None),
        }
    }
}
