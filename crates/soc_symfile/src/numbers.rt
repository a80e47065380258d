//! The numbers of a line.
ghost use Rattle.std.specs.Prelude.{◌≡◌, ◌<◌, ◌≤◌, ◌^◌, MatchOption, nat_lt};
ghost use Rattle.std.specs.Char.{digit_value};
ghost use Rattle.std.specs.List.{list_all};
ghost use Rattle.soc_symfile.specs.Words.{is_numeral, hexadecimal, decimal_number};

/// The most digits that a hexadecimal number has.
const MOST_DIGITS: usize = 16;

/// The value of each byte as a hexadecimal digit, in either case; 255 of those that are none. A look
/// into a table costs less than the branches on a digit's kind, which nobody can foresee.
const DIGITS: [u8; 256] = [
    255, 255, 255, 255, 255, 255, 255, 255, 255, 255, 255, 255, 255, 255, 255, 255, 255, 255, 255,
    255, 255, 255, 255, 255, 255, 255, 255, 255, 255, 255, 255, 255, 255, 255, 255, 255, 255, 255,
    255, 255, 255, 255, 255, 255, 255, 255, 255, 255, 0, 1, 2, 3, 4, 5, 6, 7, 8, 9, 255, 255, 255,
    255, 255, 255, 255, 10, 11, 12, 13, 14, 15, 255, 255, 255, 255, 255, 255, 255, 255, 255, 255,
    255, 255, 255, 255, 255, 255, 255, 255, 255, 255, 255, 255, 255, 255, 255, 255, 10, 11, 12, 13,
    14, 15, 255, 255, 255, 255, 255, 255, 255, 255, 255, 255, 255, 255, 255, 255, 255, 255, 255,
    255, 255, 255, 255, 255, 255, 255, 255, 255, 255, 255, 255, 255, 255, 255, 255, 255, 255, 255,
    255, 255, 255, 255, 255, 255, 255, 255, 255, 255, 255, 255, 255, 255, 255, 255, 255, 255, 255,
    255, 255, 255, 255, 255, 255, 255, 255, 255, 255, 255, 255, 255, 255, 255, 255, 255, 255, 255,
    255, 255, 255, 255, 255, 255, 255, 255, 255, 255, 255, 255, 255, 255, 255, 255, 255, 255, 255,
    255, 255, 255, 255, 255, 255, 255, 255, 255, 255, 255, 255, 255, 255, 255, 255, 255, 255, 255,
    255, 255, 255, 255, 255, 255, 255, 255, 255, 255, 255, 255, 255, 255, 255, 255, 255, 255, 255,
    255, 255, 255, 255, 255, 255, 255, 255, 255, 255, 255, 255, 255, 255, 255, 255, 255, 255, 255,
    255, 255, 255,
];

/// The value of a hexadecimal digit, in either case.
fn hexadecimal_digit(byte: u8) -> Option<u8>
    ensures { MatchOption result (16 ≤ digit_value byte)
        (λ digit. (digit ≡ digit_value byte) × (digit < 16)) }
{
    let digit = DIGITS[byte as usize];
    if digit < 16 { Some(digit) } else { None }
}

fn decimal_digit(byte: u8) -> Option<u8>
    ensures { MatchOption result (10 ≤ digit_value byte)
        (λ digit. (digit ≡ digit_value byte) × (digit < 10)) }
{
    match byte {
        b'0'..=b'9' => Some(byte - b'0'),
        _ => None,
    }
}

fn is_hexadecimal_digit(byte: u8) -> bool
    ensures { result ≡ nat_lt (digit_value byte) 16 }
{
    hexadecimal_digit(byte).is_some()
}

fn are_hexadecimal_digits(bytes: &[u8]) -> bool
    ensures { result ≡ list_all (λ byte. nat_lt (digit_value byte) 16) bytes.now }
{
    bytes.iter().all(|byte| is_hexadecimal_digit(*byte))
}

/// Whether the bytes are hexadecimal digits alone, at least one.
pub fn is_hexadecimal(bytes: &[u8]) -> bool
    ensures { result ≡ is_numeral 16 bytes.now }
{
    0 < bytes.len() && are_hexadecimal_digits(bytes)
}

/// The number that 1 to 16 hexadecimal digits write.
pub fn hexadecimal(bytes: &[u8]) -> Option<u64>
    ensures { result ≡ hexadecimal bytes.now }
{
    if bytes.is_empty() {
        return None;
    }
    if bytes.len() > MOST_DIGITS {
        return None;
    }
    let mut value: u64 = 0;
    for byte in bytes {
        let Some(digit) = hexadecimal_digit(*byte) else {
            return None;
        };
        value = value * 16 + u64::from(digit);
    }
    Some(value)
}

/// The number below 2^32 that decimal digits write, with any number of leading zeros.
pub fn decimal_number(bytes: &[u8]) -> Option<u32>
    ensures { result ≡ decimal_number bytes.now }
{
    if bytes.is_empty() {
        return None;
    }
    let mut value: u64 = 0;
    for byte in bytes {
        let Some(digit) = decimal_digit(*byte) else {
            return None;
        };
        value = value * 10 + u64::from(digit);
        if value > u64::from(u32::MAX) {
            return None;
        }
    }
    Some(value as u32)
}
