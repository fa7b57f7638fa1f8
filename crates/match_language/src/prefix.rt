//! The masks of prefixes.
ghost use Rattle.std.specs.Prelude.{◌≡◌, ◌≤◌, ◌-◌, ◌^◌};
ghost use Rattle.match_language.specs.Constants as spec;

// The 32 bits without so many low ones.
fn bits_without(low: u64) -> u64
    requires { low ≤ 32 }
    ensures { result ≡ 2 ^ 32 - 2 ^ low }
{
    (1 << 32) - (1 << low)
}

/// The mask of a prefix of so many bits of 32: the high ones, and all from a length of 32 on.
pub fn prefix_mask(len: u64) -> u64
    ensures { result ≡ spec.prefix_mask len }
{
    bits_without(32u64.saturating_sub(len))
}
