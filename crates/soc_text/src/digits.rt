//! Decimal and hexadecimal digits.

ghost use Rattle.std.specs.Prelude.{◌≡◌, ◌+◌, ◌<◌, ◌≤◌, ℕ, length, MatchOption};
ghost use Rattle.std.specs.Str.Parse.{digits_value};
ghost use Rattle.soc_text.specs.Digits.{is_lower_hex, two_digits, IsNumber};

/// Whether the byte is a digit or one of `a` to `f`.
pub fn is_lower_hex(byte: u8) -> bool
    ensures { result ≡ is_lower_hex byte }
{
    matches!(byte, b'0'..=b'9' | b'a'..=b'f')
}

/// The two digits that write a number below 100.
pub fn two_digits(number: u8) -> [u8; 2]
    requires { number < 100 }
    ensures { result ≡ two_digits number }
{
    [b'0' + number / 10, b'0' + number % 10]
}

/// The number that 1 to `most` digits write, leading zeros allowed, and no sign. Nineteen digits fit 64 bits.
pub fn number(bytes: &[u8], most: usize) -> Option<u64>
    requires { most ≤ 19 }
    ensures { MatchOption result (¬ (IsNumber most bytes.now))
        (λ n. IsNumber most bytes.now × (n ≡ digits_value 10 bytes.now)) }
{
    if bytes.is_empty() || bytes.len() > most {
        return None;
    }
    let mut value: u64 = 0;
    for byte in bytes {
        if !byte.is_ascii_digit() {
            return None;
        }
        value = value * 10 + u64::from(*byte - b'0');
    }
    Some(value)
}
