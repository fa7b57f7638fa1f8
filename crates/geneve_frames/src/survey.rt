//! What the options of a frame say in all.

ghost use Rattle.std.specs.Prelude.{◌≡◌, List, ◌++◌, ◌∷◌, [], length, IfSome, IfNone};
ghost use Rattle.geneve_frames.specs.Layout.{TunnelOption, IsTunnelOption, AreOptions};
ghost use Rattle.geneve_frames.specs.Meaning.{CarriesKeys};
ghost use Rattle.geneve_frames.specs.Fields.{IsOption, Sums};

use crate::layout::{OptionFields, option_of};
use byteorder::{BigEndian, ByteOrder};

/// The class of OVN's option.
const OVN_CLASS: u16 = 0x0102;

/// The type of OVN's option.
const OVN_TYPE: u8 = 0x80;

/// The length of the data of OVN's option, in bytes.
const OVN_LENGTH: usize = 4;

/// How often OVN's option was seen.
#[derive(Clone, Copy)]
pub enum Ovn {
    Missing,
    Once { in_key: u16, out_key: u16 },
    Repeated,
}

/// What the options that were seen say.
#[derive(Clone, Copy)]
pub struct Survey {
    /// An option that must not be passed over isn't OVN's.
    pub unknown_critical: bool,
    pub ovn: Ovn,
}

/// The in key and the out key in the data of OVN's option.
fn keys_of(content: &[u8]) -> (u16, u16)
    requires { length content.now ≡ OVN_LENGTH }
    ensures { CarriesKeys content.now result.0 result.1 }
{
    let in_key = BigEndian::read_u16(content) % 0x8000;
    let out_key = BigEndian::read_u16(&content[2..]);
    (in_key, out_key)
}

impl Survey {
    /// Nothing was seen yet.
    fn new() -> Self
        ensures { Sums result [] }
    {
        Survey {
            unknown_critical: false,
            ovn: Ovn::Missing,
        }
    }

    /// Adds an option.
    fn add(self, option: OptionFields<'_>) -> Self
        ensures { (seen : List TunnelOption) (next : TunnelOption)
            → Sums self seen → IsTunnelOption next → IsOption option.entry next
            → Sums result (seen ++ next ∷ []) }
    {
        if option.class == OVN_CLASS && option.kind == OVN_TYPE && option.data.len() == OVN_LENGTH {
            let ovn = match self.ovn {
                Ovn::Missing => {
                    let (in_key, out_key) = keys_of(option.data);
                    Ovn::Once { in_key, out_key }
                }
                _ => Ovn::Repeated,
            };
            Survey { ovn, ..self }
        } else {
            Survey {
                unknown_critical: self.unknown_critical || OVN_TYPE <= option.kind,
                ..self
            }
        }
    }
}

/// Looks at all options: None where they aren't whole options.
pub fn survey_of(options: &[u8]) -> Option<Survey>
    ensures cut { IfNone result ((all : List TunnelOption) → ¬ (AreOptions options.now all)) }
    ensures found { IfSome result (λ found. (all : List TunnelOption) × AreOptions options.now all × Sums found all) }
{
    let mut found = Survey::new();
    let mut rest = options;
    'options: while !rest.is_empty() {
        let (option, after) = option_of(rest)?;
        found = found.add(option);
        rest = after;
    }
    Some(found)
}
