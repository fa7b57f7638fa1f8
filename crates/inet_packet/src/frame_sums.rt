//! Sums of 16-bit words (RFC 1071).
ghost use Rattle.std.specs.Prelude.{◌≡◌, ◌≤◌, length};
ghost use Rattle.inet_packet.specs.Sums.{words, plain, add_words, ones_sum};

// Two words added, the carry brought round.
pub(crate) fn add(a: u16, b: u16) -> u16
    ensures { result ≡ add_words a b }
{
    let sum = u32::from(a) + u32::from(b);
    (sum % 65536 + sum / 65536) as u16
}

// The words of the bytes as plain numbers; a last byte alone is the high one of its word.
fn plain_sum(bytes: &[u8]) -> u32
    requires { length bytes.now ≤ 65536 }
    ensures { result ≡ plain bytes.now }
{
    let mut sum = 0;
    let mut left = bytes;
    'pairs: while let [high, low, rest @ ..] = left {
        sum += u32::from(u16::from_be_bytes([*high, *low]));
        left = rest;
    }
    if let [high] = left {
        sum += u32::from(*high) * 256;
    }
    sum
}

/// The one's complement sum over the words of the bytes; a last byte alone is the high one of its word.
pub(crate) fn ones_sum(bytes: &[u8]) -> u16
    requires { length bytes.now ≤ 65536 }
    ensures { result ≡ ones_sum (words bytes.now) }
{
    let sum = plain_sum(bytes);
    if sum == 0 {
        return 0;
    }
    ((sum - 1) % 65535 + 1) as u16
}
