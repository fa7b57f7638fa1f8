//! The constants that words write.
ghost use Rattle.std.specs.Prelude.{◌≡◌, ◌<◌, ◌≤◌, true, IfSome, option_map, length};
ghost use Rattle.std.specs.List.{list_all};
ghost use Rattle.std.specs.Char.{is_ascii_hexdigit};
ghost use Rattle.std.specs.Str.Parse.{digits_value};
ghost use Rattle.match_language.specs.Constants as spec;

use ovn_base::number::{hexadecimal_digit, read_number};

/// The number that the word writes in decimal, if it is below 2^64 and has no leading zero.
#[tactic(auto, unfolding(crate::specs::Constants::decimal_value))]
pub(crate) fn decimal_value(word: &[u8]) -> Option<u64>
    ensures { result ≡ spec.decimal_value word.now }
{
    read_number(word, u64::MAX)
}

fn are_hexadecimal(digits: &[u8]) -> bool
    ensures { result ≡ list_all is_ascii_hexdigit digits.now }
{
    digits.iter().all(|digit| digit.is_ascii_hexdigit())
}

// The number of hexadecimal digits, if it is below 2^64.
fn digits_number(digits: &[u8]) -> Option<u64>
    requires { list_all is_ascii_hexdigit digits.now ≡ true }
    ensures { result ≡ spec.below_2_64 (digits_value 16 digits.now) }
{
    let mut number: u64 = 0;
    for digit in digits {
        let value = hexadecimal_digit(*digit)?;
        if number > u64::MAX / 16 {
            return None;
        }
        number = 16 * number + u64::from(value);
    }
    Some(number)
}

/// The number that the word writes as `0x` and hexadecimal digits, if it is below 2^64.
#[tactic(auto, unfolding(crate::specs::Constants::hex_value))]
pub(crate) fn hex_value(word: &[u8]) -> Option<u64>
    ensures { result ≡ spec.hex_value word.now }
{
    match word {
        [b'0', b'x', digits @ ..] => {
            if digits.is_empty() {
                return None;
            }
            if are_hexadecimal(digits) {
                digits_number(digits)
            } else {
                None
            }
        }
        _ => None,
    }
}

fn pair_value(a: u8, b: u8) -> Option<u64>
    ensures value { result ≡ spec.pair_value a b }
    ensures small { IfSome result (λ n. n < 256) }
{
    let high = hexadecimal_digit(a)?;
    let low = hexadecimal_digit(b)?;
    Some(16 * u64::from(high) + u64::from(low))
}

// A colon and two digits.
fn colon_pair(colon: u8, a: u8, b: u8) -> Option<u64>
    ensures value { result ≡ spec.colon_pair colon a b }
    ensures small { IfSome result (λ n. n < 256) }
{
    if colon == b':' {
        pair_value(a, b)
    } else {
        None
    }
}

/// The number of the Ethernet address that the word writes.
#[tactic(auto, unfolding(crate::specs::Constants::ether_value))]
pub(crate) fn ether_value(word: &[u8]) -> Option<u64>
    ensures { result ≡ spec.ether_value word.now }
{
    match word {
        [
            a,
            b,
            c1,
            a1,
            b1,
            c2,
            a2,
            b2,
            c3,
            a3,
            b3,
            c4,
            a4,
            b4,
            c5,
            a5,
            b5,
        ] => {
            let v = pair_value(*a, *b)?;
            let v1 = colon_pair(*c1, *a1, *b1)?;
            let v2 = colon_pair(*c2, *a2, *b2)?;
            let v3 = colon_pair(*c3, *a3, *b3)?;
            let v4 = colon_pair(*c4, *a4, *b4)?;
            let v5 = colon_pair(*c5, *a5, *b5)?;
            Some(
                v * 0x100_0000_0000
                    + v1 * 0x1_0000_0000
                    + v2 * 0x100_0000
                    + v3 * 0x1_0000
                    + v4 * 0x100
                    + v5,
            )
        }
        _ => None,
    }
}

fn digit_count(text: &[u8]) -> usize
    ensures value { result ≡ spec.digit_count text.now }
    ensures within { result ≤ length text.now }
{
    text.iter().take_while(|byte| byte.is_ascii_digit()).count()
}

// A number of at most 255, and the text behind it.
#[tactic(auto, unfolding(crate::specs::Constants::octet))]
fn octet(text: &[u8]) -> Option<(u64, &[u8])>
    ensures value { option_map (λ x. (x.0, x.1.now)) result ≡ spec.octet text.now }
    ensures small { IfSome result (λ x. x.0 < 256) }
{
    let (digits, rest) = text.split_at(digit_count(text));
    let number = decimal_value(digits)?;
    if number <= 255 {
        Some((number, rest))
    } else {
        None
    }
}

// A point and an octet.
#[tactic(auto, unfolding(crate::specs::Constants::dot_octet))]
fn dot_octet(text: &[u8]) -> Option<(u64, &[u8])>
    ensures value { option_map (λ x. (x.0, x.1.now)) result ≡ spec.dot_octet text.now }
    ensures small { IfSome result (λ x. x.0 < 256) }
{
    match text {
        [b'.', rest @ ..] => octet(rest),
        _ => None,
    }
}

/// The number of the IPv4 address that the word writes.
#[tactic(auto, unfolding(crate::specs::Constants::dotted_value))]
pub(crate) fn dotted_value(word: &[u8]) -> Option<u64>
    ensures { result ≡ spec.dotted_value word.now }
{
    let (a, rest) = octet(word)?;
    let (b, rest) = dot_octet(rest)?;
    let (c, rest) = dot_octet(rest)?;
    let (d, rest) = dot_octet(rest)?;
    if rest.is_empty() {
        Some(a * 0x100_0000 + b * 0x1_0000 + c * 0x100 + d)
    } else {
        None
    }
}
