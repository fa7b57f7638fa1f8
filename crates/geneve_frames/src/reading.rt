//! From bytes to parts.

ghost use Rattle.std.specs.Prelude.{◌≡◌, ℕ, List, IfOk, IfErr};
ghost use Rattle.geneve_frames.specs.Meaning.{Spells, IsFirst};
ghost use Rattle.geneve_frames.specs.Answers.{IsReadAs, GivesParts};

use crate::fault::GeneveFault;
use crate::layout::base_of;
use crate::survey::{Ovn, survey_of};

/// The Ethernet type of an inner frame that is Ethernet (RFC 8926, section 3.4).
const TRANSPARENT_ETHERNET: u16 = 0x6558;

/// What a frame carries.
#[derive(Clone, Copy, Debug, PartialEq, Eq)]
pub struct View<'a> {
    /// The virtual network, 24 bits.
    pub vni: u32,
    /// The key of the logical port at which the inner frame came in, 15 bits.
    pub in_key: u16,
    /// The key of the logical port or of the group of ports to which it goes.
    pub out_key: u16,
    /// The inner frame, lent from the bytes.
    pub inner: &'a [u8],
}

/// The parts, or the first fault.
fn answer<'a>(frame: &'a [u8]) -> Result<View<'a>, GeneveFault>
    ensures { IsReadAs frame.now result }
{
    let Some((base, rest)) = base_of(frame) else {
        return Err(GeneveFault::Short);
    };
    if base.version != 0 {
        return Err(GeneveFault::Version);
    }
    if base.is_control {
        return Err(GeneveFault::Control);
    }
    if base.protocol != TRANSPARENT_ETHERNET {
        return Err(GeneveFault::Protocol);
    }
    if rest.len() < base.options_length {
        return Err(GeneveFault::OptionsCut);
    }
    let (options, inner) = rest.split_at(base.options_length);
    let Some(found) = survey_of(options) else {
        return Err(GeneveFault::OptionsCut);
    };
    if found.unknown_critical {
        return Err(GeneveFault::UnknownCritical);
    }
    match found.ovn {
        Ovn::Missing => Err(GeneveFault::NoOvnOption),
        Ovn::Once { in_key, out_key } => Ok(View {
            vni: base.vni,
            in_key,
            out_key,
            inner,
        }),
        Ovn::Repeated => Err(GeneveFault::TwoOvnOptions),
    }
}

/// Reads a Geneve frame (RFC 8926, sections 3.4 and 3.5) that has OVN's option: its parts, or the first fault that the
/// bytes show. The critical flag, reserved bits and the highest bit of the option's data are ignored.
///
/// It takes no memory, and the inner frame is lent from the bytes.
pub fn read<'a>(frame: &'a [u8]) -> Result<View<'a>, GeneveFault>
    // What is read is spelled so, and what is spelled so is read.
    ensures spelled { IfOk result (λ view. Spells frame.now view.vni view.in_key view.out_key view.inner.now) }
    ensures only { (vni in_key out_key : ℕ) (inner : List ℕ)
        → Spells frame.now vni in_key out_key inner → GivesParts result vni in_key out_key inner }

    // A fault is the first that the bytes show, and the first that they show is answered.
    ensures fault { IfErr result (λ fault. IsFirst fault frame.now) }
    ensures first { (fault : GeneveFault) → IsFirst fault frame.now → result ≡ Err fault }
{
    answer(frame)
}
