//! From parts to bytes.

ghost use Rattle.std.specs.Prelude.{◌≡◌, ◌<◌, ◌^◌, ◌++◌, OnOk, OnErr};
ghost use Rattle.geneve_frames.specs.Meaning.{canon};

use byteorder::{BigEndian, ByteOrder};
use ovn_base::memory::NoMemory;

/// Appends the Geneve frame that carries `inner` in the network `vni` from the port `in_key` to `out_key`: version 0,
/// the critical flag, Ethernet within, and OVN's option alone (RFC 8926, sections 3.4 and 3.5).
///
/// Want of memory leaves `out` as it was.
pub fn write(
    vni: u32,
    in_key: u16,
    out_key: u16,
    inner: &[u8],
    out: &mut Vec<u8>,
) -> Result<(), NoMemory>
    requires vni { vni < 2 ^ 24 }
    requires in_key { in_key < 2 ^ 15 }
    ensures ok { OnOk result (out.new.items ≡ out.old.items ++ canon vni in_key out_key inner.now) }
    ensures err { OnErr result (out.new.items ≡ out.old.items) }
{
    let mut header = [
        0x02, 0x40, 0x65, 0x58, 0, 0, 0, 0x00, 0x01, 0x02, 0x80, 0x01, 0, 0, 0, 0,
    ];
    BigEndian::write_u24(&mut header[4..], vni);
    BigEndian::write_u16(&mut header[12..], in_key);
    BigEndian::write_u16(&mut header[14..], out_key);
    out.try_reserve(header.len() + inner.len())?;
    out.extend_from_slice(&header)?;
    out.extend_from_slice(inner)?;
    Ok(())
}
