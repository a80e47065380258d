//! The tokens that push a value.
ghost use Rattle.std.specs.Prelude.{◌≡◌, ◌<◌, ◌^◌, length, IfSome, IsTrue};
ghost use Rattle.std.specs.Char.{is_ascii_digit};
ghost use Rattle.std.specs.List.{list_all};
ghost use Rattle.std.specs.Option.{SomeIff};
ghost use Rattle.std.specs.Str.Parse.{digits_value};
ghost use Rattle.soc_cfi.specs.Known.{HoldsWords, IsWidth};
ghost use Rattle.soc_cfi.specs.Operands as spec;
ghost use Rattle.soc_cfi.specs.Operators.{values_of};

use crate::bank::Bank;
use crate::operator::{less, wrapped};

/// What stands behind the minus of a token, or all of it where it has none.
fn digits_of(token: &str) -> &str
    ensures { result.now ≡ spec.digits_of token.now }
{
    token.strip_prefix('-').unwrap_or(token)
}

/// Whether each byte of a text is a digit.
fn has_digits_alone(text: &str) -> bool
    ensures { result ≡ list_all is_ascii_digit text.now }
{
    text.bytes().all(|byte| byte.is_ascii_digit())
}

/// Whether a token is an integer.
fn is_integer(token: &str) -> bool
    ensures { result ≡ spec.is_integer token.now }
{
    let digits = digits_of(token);
    !digits.is_empty() && has_digits_alone(digits)
}

/// The number that digits write; `None` from 2^64 on.
fn number_of(digits: &str) -> Option<u64>
    requires some { 0 < length digits.now }
    requires digits { IsTrue (list_all is_ascii_digit digits.now) }
    ensures { SomeIff result (digits_value 10 digits.now < 2 ^ 64) (digits_value 10 digits.now) }
{
    digits.parse::<u64>().ok()
}

/// An integer as a word; `None` where its digits write 2^64 or more.
fn integer_of(width: u8, token: &str) -> Option<u64>
    requires width { IsWidth width }
    requires integer { IsTrue (spec.is_integer token.now) }
    ensures value { result ≡ spec.integer_of width token.now }
    ensures word { IfSome result (λ value. value < values_of width) }
{
    let number = number_of(digits_of(token))?;
    if token.starts_with('-') {
        Some(less(width, 0, number))
    } else {
        Some(wrapped(width, number))
    }
}

/// The value that a token pushes; `None` where it isn't known.
pub fn operand_of<B: Bank>(token: &str, bank: &B, cfa: Option<u64>) -> Option<u64>
    ensures value { result ≡ spec.operand_of (B.width bank.now) (B.value bank.now) cfa token.now }
    ensures word { HoldsWords (B.width bank.now) (B.value bank.now) cfa
        → IfSome result (λ value. value < values_of (B.width bank.now)) }
{
    if token == ".cfa" {
        cfa
    } else if is_integer(token) {
        integer_of(bank.width(), token)
    } else {
        bank.value(token)
    }
}
