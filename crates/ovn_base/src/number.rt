ghost use Rattle.std.specs.Prelude.{◌≡◌, ◌≢◌, ◌+◌, ◌++◌, ◌<◌, ◌≤◌, ℕ, IfSome, IfNone, List, OnOk, OnErr};
ghost use Rattle.std.specs.Char.{digit_value};
ghost use Rattle.std.specs.Fmt.{decimal};
ghost use Rattle.ovn_base.specs.numbers.NumberReading.{spelled_number, spelled_digit};

use crate::memory::NoMemory;

fn digit(byte: u8) -> Option<u8>
    ensures found { IfSome result (λ d. (d < 10) × (byte ≡ 48 + d)) }
    ensures none { IfNone result ((d : ℕ) → d < 10 → byte ≢ 48 + d) }
{
    match byte {
        b'0'..=b'9' => Some(byte - b'0'),
        _ => None,
    }
}

// The number that the digits write, the last of them read last.
fn number_of(text: &[u8], most: u64) -> Option<u64>
    ensures found { IfSome result (λ n. (n ≤ most) × (text.now ≡ decimal n)) }
    ensures none { IfNone result ((n : ℕ) → n ≤ most → text.now ≢ decimal n) }
{
    if text.len() > 20 {
        return None;
    }
    let (last, front) = text.split_last()?;
    let last = u64::from(digit(*last)?);
    if front.is_empty() {
        return if last <= most { Some(last) } else { None };
    }
    let tens = number_of(front, most / 10)?;
    if tens == 0 || last > most - 10 * tens {
        return None;
    }
    Some(10 * tens + last)
}

/// The number of at most `most` that the text writes in decimal, with no sign and no leading zero.
pub fn read_number(text: &[u8], most: u64) -> Option<u64>
    ensures found { IfSome result (λ n. (n ≤ most) × (text.now ≡ decimal n)) }
    ensures none { IfNone result ((n : ℕ) → n ≤ most → text.now ≢ decimal n) }
    ensures exact { result ≡ spelled_number most text.now }
{
    number_of(text, most)
}

/// The value of the hexadecimal digit, in either case.
pub fn hexadecimal_digit(byte: u8) -> Option<u8>
    ensures exact { result ≡ spelled_digit byte }
    ensures found { IfSome result (λ d. (d ≡ digit_value byte) × (d < 16)) }
    ensures none { IfNone result (16 ≤ digit_value byte) }
{
    match byte {
        b'0'..=b'9' => Some(byte - b'0'),
        b'a'..=b'f' => Some(byte - b'a' + 10),
        b'A'..=b'F' => Some(byte - b'A' + 10),
        _ => None,
    }
}

/// Appends the number in decimal. Where memory is wanting a part of it may stand there.
pub fn push_number(out: &mut Vec<u8>, number: u64) -> Result<(), NoMemory>
    ensures ok { OnOk result (out.new.items ≡ out.old.items ++ decimal number) }
    ensures err { OnErr result ((part : List ℕ) × (out.new.items ≡ out.old.items ++ part)) }
{
    if number < 10 {
        out.push(b'0' + number as u8)?;
        return Ok(());
    }
    push_number(out, number / 10)?;
    out.push(b'0' + (number % 10) as u8)?;
    Ok(())
}
