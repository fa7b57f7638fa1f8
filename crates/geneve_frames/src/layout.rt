//! The base header and one option, as they stand in the bytes.

ghost use Rattle.std.specs.Prelude.{◌≡◌, ◌<◌, List, ℕ, ◌++◌, length, IfSome, IfNone};
ghost use Rattle.geneve_frames.specs.Layout.{BaseHeader, TunnelOption, HasHeader, IsTunnelOption, option_bytes};
ghost use Rattle.geneve_frames.specs.Fields.{IsBase, IsOption};

use byteorder::{BigEndian, ByteOrder};

/// The length of a base header, in bytes.
pub const BASE_LENGTH: usize = 8;

/// The length of an option without its data, in bytes.
pub const OPTION_LENGTH: usize = 4;

/// The fields of a base header that say how to read the frame.
#[derive(Clone, Copy)]
pub struct BaseFields {
    /// Two bits.
    pub version: u8,
    /// The length of the options, in bytes.
    pub options_length: usize,
    /// The O bit.
    pub is_control: bool,
    /// An Ethernet type.
    pub protocol: u16,
    /// The virtual network, 24 bits.
    pub vni: u32,
}

/// Takes the base header off the front: None where it is cut.
pub fn base_of(frame: &[u8]) -> Option<(BaseFields, &[u8])>
    ensures cut { IfNone result (length frame.now < 8) }
    ensures found { IfSome result (λ found. (base : BaseHeader)
        × HasHeader frame.now base found.1.now × IsBase found.0 base) }
{
    if frame.len() < BASE_LENGTH {
        return None;
    }
    let (base, rest) = frame.split_at(BASE_LENGTH);
    let fields = BaseFields {
        // Two bits of version, and six of length in words.
        version: base[0] / 64,
        options_length: 4 * usize::from(base[0] % 64),
        is_control: 128 <= base[1],
        protocol: BigEndian::read_u16(&base[2..]),
        vni: BigEndian::read_u24(&base[4..]),
    };
    Some((fields, rest))
}

/// An option, with its data lent from the frame.
#[derive(Clone, Copy)]
pub struct OptionFields<'a> {
    pub class: u16,
    pub kind: u8,
    pub data: &'a [u8],
}

/// Takes the option off the front: None where it is cut.
pub fn option_of(options: &[u8]) -> Option<(OptionFields<'_>, &[u8])>
    ensures cut { IfNone result ((option : TunnelOption) (rest : List ℕ)
        → IsTunnelOption option → ¬ (options.now ≡ option_bytes option ++ rest)) }
    ensures found { IfSome result (λ found. (option : TunnelOption)
        × IsTunnelOption option × (options.now ≡ option_bytes option ++ found.1.now) × IsOption found.0 option) }
{
    if options.len() < OPTION_LENGTH {
        return None;
    }
    let (front, rest) = options.split_at(OPTION_LENGTH);
    // Three reserved bits, and five of length in words.
    let length = 4 * usize::from(front[3] % 32);
    if rest.len() < length {
        return None;
    }
    let (data, rest) = rest.split_at(length);
    let fields = OptionFields {
        class: BigEndian::read_u16(front),
        kind: front[2],
        data,
    };
    Some((fields, rest))
}
