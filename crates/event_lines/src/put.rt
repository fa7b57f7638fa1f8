//! Pieces of a text, put at its end.
ghost use Rattle.std.specs.Prelude.{◌≡◌, ◌++◌, decimal, OnOk, OnErr};
ghost use Rattle.hex.specs.Hex.{encode_lower};
ghost use Rattle.ovn_base.specs.addresses.AddressText.{mac_text, ip4_text};
ghost use Rattle.inet_packet.specs.Frame.{frame_of};
ghost use Rattle.event_lines.specs.Text.{StartsWith, backend_text};

use inet_packet::encode::encode;
use inet_packet::packet::Packet;
use itoa::Buffer;
use ovn_base::address::{Backend, Ip4, Mac};
use ovn_base::memory::NoMemory;
use ovn_base::print_address::{push_ip4, push_mac};

// The bytes.
pub fn put(bytes: &[u8], out: &mut Vec<u8>) -> Result<(), NoMemory>
    ensures ok { OnOk result (out.new.items ≡ out.old.items ++ bytes.now) }
    ensures err { OnErr result (StartsWith out.new.items out.old.items) }
{
    out.extend_from_slice(bytes)?;
    Ok(())
}

// The digits of the number, in base 10.
pub fn put_number(number: u64, out: &mut Vec<u8>) -> Result<(), NoMemory>
    ensures ok { OnOk result (out.new.items ≡ out.old.items ++ decimal number) }
    ensures err { OnErr result (StartsWith out.new.items out.old.items) }
{
    put(Buffer::new().format(number).as_bytes(), out)
}

// The digits of a number of up to 128 bits, in base 10.
pub fn put_wide(number: u128, out: &mut Vec<u8>) -> Result<(), NoMemory>
    ensures ok { OnOk result (out.new.items ≡ out.old.items ++ decimal number) }
    ensures err { OnErr result (StartsWith out.new.items out.old.items) }
{
    put(Buffer::new().format(number).as_bytes(), out)
}

// What is counted, and the count.
pub fn put_count(counted: &[u8], count: u128, out: &mut Vec<u8>) -> Result<(), NoMemory>
    ensures ok { OnOk result (out.new.items ≡ out.old.items ++ (counted.now ++ decimal count)) }
    ensures err { OnErr result (StartsWith out.new.items out.old.items) }
{
    put(counted, out)?;
    put_wide(count, out)
}

// The Ethernet address, in pairs of digits in lower case.
pub fn put_mac(mac: Mac, out: &mut Vec<u8>) -> Result<(), NoMemory>
    ensures ok { OnOk result (out.new.items ≡ out.old.items ++ mac_text mac) }
    ensures err { OnErr result (StartsWith out.new.items out.old.items) }
{
    push_mac(out, mac)
}

// The IPv4 address, in dotted decimal.
pub fn put_ip4(ip: Ip4, out: &mut Vec<u8>) -> Result<(), NoMemory>
    ensures ok { OnOk result (out.new.items ≡ out.old.items ++ ip4_text ip) }
    ensures err { OnErr result (StartsWith out.new.items out.old.items) }
{
    push_ip4(out, ip)
}

// The address, `:` and the port.
#[tactic(auto, unfolding(crate::specs::Text::backend_text))]
pub fn put_backend(backend: Backend, out: &mut Vec<u8>) -> Result<(), NoMemory>
    ensures ok { OnOk result (out.new.items ≡ out.old.items ++ backend_text backend) }
    ensures err { OnErr result (StartsWith out.new.items out.old.items) }
{
    put_ip4(backend.ip, out)?;
    put(b":", out)?;
    put_number(u64::from(backend.port), out)
}

// The hexadecimal digits of the bytes, in lower case.
pub fn put_hex(bytes: &[u8], out: &mut Vec<u8>) -> Result<(), NoMemory>
    ensures ok { OnOk result (out.new.items ≡ out.old.items ++ encode_lower bytes.now) }
    ensures err { OnErr result (StartsWith out.new.items out.old.items) }
{
    let text = hex::encode(*out.allocator(), bytes)?;
    put(text.as_bytes(), out)
}

// The frame of the packet, in such digits.
pub fn put_frame(packet: &Packet, out: &mut Vec<u8>) -> Result<(), NoMemory>
    ensures ok { OnOk result (out.new.items ≡ out.old.items ++ encode_lower (frame_of packet.now)) }
    ensures err { OnErr result (StartsWith out.new.items out.old.items) }
{
    let mut bytes = Vec::new(*out.allocator());
    encode(packet, &mut bytes)?;
    put_hex(&bytes, out)
}
