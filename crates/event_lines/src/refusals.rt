//! What refusals say.
ghost use Rattle.std.specs.Prelude.{◌≡◌, ◌++◌, codes, OnOk, OnErr};
ghost use Rattle.event_lines.specs.Refusals.{argument_text, address_text, match_words, read_words, limit_word, schema_words, refusal_words};
ghost use Rattle.event_lines.specs.Text.{StartsWith};

use crate::put::{put, put_backend, put_count, put_ip4, put_mac};
use crate::refusal::Refusal;
use edit_reader::event::ReadRefusal;
use match_language::fault::MatchFault;
use nb_rules::fault::{Address, Limited, SchemaFault};
use ovn_base::memory::NoMemory;
use ovn_base::name::Name;

// What a refusal is about, where it is a name, else `?`.
fn put_argument(bytes: &[u8], out: &mut Vec<u8>) -> Result<(), NoMemory>
    ensures ok { OnOk result (out.new.items ≡ out.old.items ++ argument_text bytes.now) }
    ensures err { OnErr result (StartsWith out.new.items out.old.items) }
{
    match Name::read(bytes) {
        Some(name) => put(name.text(), out),
        None => put(b"?", out),
    }
}

// The words, and what they are about.
fn put_at(words: &[u8], argument: &[u8], out: &mut Vec<u8>) -> Result<(), NoMemory>
    ensures ok { OnOk result (out.new.items ≡ out.old.items ++ (words.now ++ argument_text argument.now)) }
    ensures err { OnErr result (StartsWith out.new.items out.old.items) }
{
    put(words, out)?;
    put_argument(argument, out)
}

fn put_address(address: Address, out: &mut Vec<u8>) -> Result<(), NoMemory>
    ensures ok { OnOk result (out.new.items ≡ out.old.items ++ address_text address) }
    ensures err { OnErr result (StartsWith out.new.items out.old.items) }
{
    match address {
        Address::Ether(mac) => put_mac(mac, out),
        Address::Ip(ip) => put_ip4(ip, out),
    }
}

// The words, the address that they are about, and who holds it.
fn put_held(
    words: &[u8],
    address: Address,
    holder: &Name,
    out: &mut Vec<u8>,
) -> Result<(), NoMemory>
    ensures ok { OnOk result (out.new.items ≡ out.old.items ++ (words.now ++ (address_text address ++ (codes " " ++ argument_text holder.now)))) }
    ensures err { OnErr result (StartsWith out.new.items out.old.items) }
{
    put(words, out)?;
    put_address(address, out)?;
    put_at(b" ", holder.text(), out)
}

fn put_match(fault: MatchFault, out: &mut Vec<u8>) -> Result<(), NoMemory>
    ensures ok { OnOk result (out.new.items ≡ out.old.items ++ match_words fault) }
    ensures err { OnErr result (StartsWith out.new.items out.old.items) }
{
    match fault {
        MatchFault::Token(place) => put_count(b"Token ", place as u128, out),
        MatchFault::Syntax(place) => put_count(b"Syntax ", place as u128, out),
        MatchFault::UnknownField(place) => put_count(b"UnknownField ", place as u128, out),
        MatchFault::BadConstant(place) => put_count(b"BadConstant ", place as u128, out),
        MatchFault::MixedAndOr(place) => put_count(b"MixedAndOr ", place as u128, out),
        MatchFault::TooDeep(place) => put_count(b"TooDeep ", place as u128, out),
    }
}

fn put_read(refusal: &ReadRefusal, out: &mut Vec<u8>) -> Result<(), NoMemory>
    ensures ok { OnOk result (out.new.items ≡ out.old.items ++ read_words refusal.now) }
    ensures err { OnErr result (StartsWith out.new.items out.old.items) }
{
    match refusal {
        ReadRefusal::TooLong => put(b"TooLong", out),
        ReadRefusal::BadJson => put(b"BadJson", out),
        ReadRefusal::NotObject => put(b"NotObject", out),
        ReadRefusal::UnknownEvent => put(b"UnknownEvent", out),
        ReadRefusal::UnknownField(field) => put_at(b"UnknownField ", field.as_slice(), out),
        ReadRefusal::MissingField(field) => put_at(b"MissingField ", field.as_slice(), out),
        ReadRefusal::WrongKind(field) => put_at(b"WrongKind ", field.as_slice(), out),
        ReadRefusal::OutOfRange(field) => put_at(b"OutOfRange ", field.as_slice(), out),
        ReadRefusal::BadMatch(fault) => {
            put(b"BadMatch ", out)?;
            put_match(*fault, out)
        }
    }
}

fn put_limit(limited: Limited, out: &mut Vec<u8>) -> Result<(), NoMemory>
    ensures ok { OnOk result (out.new.items ≡ out.old.items ++ limit_word limited) }
    ensures err { OnErr result (StartsWith out.new.items out.old.items) }
{
    match limited {
        Limited::Datapath => put(b"datapath", out),
        Limited::Port => put(b"port", out),
        Limited::Acl => put(b"acl", out),
        Limited::Cubes => put(b"cubes", out),
    }
}

fn put_schema(fault: &SchemaFault, out: &mut Vec<u8>) -> Result<(), NoMemory>
    ensures ok { OnOk result (out.new.items ≡ out.old.items ++ schema_words fault.now) }
    ensures err { OnErr result (StartsWith out.new.items out.old.items) }
{
    match fault {
        SchemaFault::DuplicateName(name) => put_at(b"DuplicateName ", name.text(), out),
        SchemaFault::NoSuch(name) => put_at(b"NoSuch ", name.text(), out),
        SchemaFault::BadDirection(name) => put_at(b"BadDirection ", name.text(), out),
        SchemaFault::StillUsed(name) => put_at(b"StillUsed ", name.text(), out),
        SchemaFault::BadAddress(name) => put_at(b"BadAddress ", name.text(), out),
        SchemaFault::BadPeer(name) => put_at(b"BadPeer ", name.text(), out),
        SchemaFault::DuplicateAddress { address, holder } => {
            put_held(b"DuplicateAddress ", *address, holder, out)
        }
        SchemaFault::DuplicatePrefix(name) => put_at(b"DuplicatePrefix ", name.text(), out),
        SchemaFault::NoNetworkForNexthop(name) => put_at(b"NoNetworkForNexthop ", name.text(), out),
        SchemaFault::NatNeedsChassis(name) => put_at(b"NatNeedsChassis ", name.text(), out),
        SchemaFault::TooWide(width) => put_count(b"TooWide ", *width, out),
        SchemaFault::Limit(limited) => {
            put(b"Limit ", out)?;
            put_limit(*limited, out)
        }
    }
}

// The name of the refusal, and what it is about.
pub fn put_refusal(refusal: &Refusal, out: &mut Vec<u8>) -> Result<(), NoMemory>
    ensures ok { OnOk result (out.new.items ≡ out.old.items ++ refusal_words refusal.now) }
    ensures err { OnErr result (StartsWith out.new.items out.old.items) }
{
    match refusal {
        Refusal::Read(fault) => put_read(fault, out),
        Refusal::Schema(fault) => put_schema(fault, out),
        Refusal::NoDatapathKey => put(b"NoDatapathKey", out),
        Refusal::NoPortKey(datapath) => put_at(b"NoPortKey ", datapath.text(), out),
        Refusal::NoSuch(name) => put_at(b"NoSuch ", name.text(), out),
        Refusal::NoSuchBackend(backend) => {
            put(b"NoSuch ", out)?;
            put_backend(*backend, out)
        }
        Refusal::NotBound(port) => put_at(b"NotBound ", port.text(), out),
        Refusal::DuplicateName(name) => put_at(b"DuplicateName ", name.text(), out),
        Refusal::LimitChassis => put(b"Limit chassis", out),
        Refusal::KeysFixed => put(b"KeysFixed", out),
        Refusal::TooShort => put(b"TooShort", out),
        Refusal::TooBig => put(b"TooBig", out),
        Refusal::BadIp4 => put(b"BadIp4", out),
        Refusal::NoFrame(frame) => put_count(b"NoFrame ", *frame, out),
        Refusal::TooManyFrames => put(b"TooManyFrames", out),
        Refusal::NotBuilt => put(b"NotBuilt", out),
    }
}
