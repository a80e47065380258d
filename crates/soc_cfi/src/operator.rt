//! The operators of postfix expressions.
ghost use Rattle.std.specs.Prelude.{◌≡◌, ◌%◌, ◌<◌, IfSome};
ghost use Rattle.soc_cfi.specs.Known.{IsWidth};
ghost use Rattle.soc_cfi.specs.Operators as spec;

/// An operator on two words.
#[derive(Clone, Copy, Debug, PartialEq, Eq)]
pub enum Operator {
    Add,
    Subtract,
    Multiply,
    Divide,
    Remainder,
    /// Down to a multiple of a power of two.
    RoundDown,
}

/// The operator that a token is.
pub fn operator_of(token: &str) -> Option<Operator>
    ensures { result ≡ spec.operator_of token.now }
{
    match token {
        "+" => Some(Operator::Add),
        "-" => Some(Operator::Subtract),
        "*" => Some(Operator::Multiply),
        "/" => Some(Operator::Divide),
        "%" => Some(Operator::Remainder),
        "@" => Some(Operator::RoundDown),
        _ => None,
    }
}

/// A number as a word of so many bytes.
pub fn wrapped(width: u8, number: u64) -> u64
    requires { IsWidth width }
    ensures value { result ≡ number % spec.values_of width }
    ensures word { result < spec.values_of width }
{
    if width == 4 {
        number & u64::from(u32::MAX)
    } else {
        number
    }
}

/// One number less another, as a word of so many bytes.
pub fn less(width: u8, number: u64, other: u64) -> u64
    requires { IsWidth width }
    ensures value { result ≡ spec.less width number other }
    ensures word { result < spec.values_of width }
{
    wrapped(width, number.wrapping_sub(other))
}

/// What an operator gives; `None` for a divisor of 0 and for a multiple of what is no power of two.
pub fn apply(width: u8, operator: Operator, lower: u64, upper: u64) -> Option<u64>
    requires { IsWidth width }
    ensures value { result ≡ spec.applied width operator lower upper }
    ensures word { lower < spec.values_of width
        → IfSome result (λ value. value < spec.values_of width) }
{
    match operator {
        Operator::Add => Some(wrapped(width, lower.wrapping_add(upper))),
        Operator::Subtract => Some(less(width, lower, upper)),
        Operator::Multiply => Some(wrapped(width, lower.wrapping_mul(upper))),
        Operator::Divide => lower.checked_div(upper),
        Operator::Remainder => lower.checked_rem(upper),
        Operator::RoundDown if upper.is_power_of_two() => Some(lower - lower % upper),
        Operator::RoundDown => None,
    }
}
