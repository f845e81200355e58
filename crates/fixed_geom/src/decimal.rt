ghost use Rattle.std.specs.Prelude.{◌≡◌, ◌<◌, ◌≤◌, ◌^◌, pos, ◌≤ℤ◌, ◌*ℤ◌, unsigned_abs};
ghost use Rattle.fixed_geom.specs.Division.{round_div as round_of};
ghost use Rattle.fixed_geom.specs.Decimal.{value_of, number_within, nearest_of};
ghost use Rattle.fixed_geom.specs.Spelling.{IsAnswer};

use crate::division::round_div;
use crate::spelling::parse;
use std::error::Error;
use std::fmt;

/// Why a text gives no number.
#[derive(Clone, Copy, Debug, PartialEq, Eq)]
pub enum BadNumber {
    /// The text is no decimal.
    Grammar,
    /// The text is a decimal, and the whole number nearest to it, times the scale, passes `10^18` in size.
    Range,
}

impl fmt::Display for BadNumber {
    fn fmt<W: fmt::Write>(&self, f: &mut fmt::Formatter<W>) -> fmt::Result {
        match self {
            BadNumber::Grammar => write!(f, "the text is no decimal"),
            BadNumber::Range => write!(f, "the decimal is too large"),
        }
    }
}

impl Error for BadNumber {}

/// The whole number nearest to the value of a decimal times the scale, the greater one where two
/// are equally near. The scale is from 1 to `2^30`.
///
/// A decimal is an optional `+` or `-`; 1 to 24 digits, with at most one point before, between or
/// after them; and optionally `e` or `E`, an optional `+` or `-` and one to three digits, the
/// exponent, which is at most 3.
pub fn read_decimal(text: &[u8], scale: i64) -> Result<i64, BadNumber>
    requires least { pos 1 ≤ℤ scale }
    requires most { scale ≤ℤ pos (2 ^ 30) }
    ensures value { result ≡ value_of scale text.now }
    ensures answer { IsAnswer text.now scale result }
{
    match parse(text) {
        None => Err(BadNumber::Grammar),
        Some(decimal) => within_range(nearest(scaled(decimal.mantissa, scale), decimal.power)),
    }
}

/// The number, unless it passes `10^18` in size.
fn within_range(number: i128) -> Result<i64, BadNumber>
    ensures { result ≡ number_within number }
{
    if number.unsigned_abs() > 1_000_000_000_000_000_000 {
        return Err(BadNumber::Range);
    }
    Ok(number as i64)
}

/// The mantissa times the scale.
fn scaled(mantissa: i128, scale: i64) -> i128
    requires mantissa { unsigned_abs mantissa < 10 ^ 24 }
    requires least { pos 1 ≤ℤ scale }
    requires most { scale ≤ℤ pos (2 ^ 30) }
    ensures value { result ≡ mantissa *ℤ scale }
    ensures size { unsigned_abs result < 2 ^ 110 }
{
    mantissa * scale as i128
}

/// The whole number nearest to `a * 10^power`, the greater one where two are equally near.
fn nearest(a: i128, power: i32) -> i128
    requires small { unsigned_abs a < 2 ^ 110 }
    requires power { power ≤ℤ pos 3 }
    ensures { result ≡ nearest_of a power }
{
    let tens = power.unsigned_abs();
    if power >= 0 {
        multiplied(a, tens)
    } else {
        divided(a, tens)
    }
}

/// `a * 10^tens`.
fn multiplied(a: i128, tens: u32) -> i128
    requires small { unsigned_abs a < 2 ^ 110 }
    requires tens { tens ≤ 3 }
    ensures { result ≡ a *ℤ pos (10 ^ tens) }
{
    a * power_of_ten(tens)
}

/// The whole number nearest to `a / 10^tens`, the greater one where two are equally near.
fn divided(a: i128, tens: u32) -> i128
    requires small { unsigned_abs a < 2 ^ 110 }
    ensures { result ≡ round_of a (pos (10 ^ tens)) }
{
    if tens > 37 {
        // The quotient is within a half of 0.
        return 0;
    }
    round_div(a, power_of_ten(tens))
}

/// `10^n`.
fn power_of_ten(n: u32) -> i128
    requires { n ≤ 37 }
    ensures value { result ≡ pos (10 ^ n) }
    ensures least { pos 1 ≤ℤ result }
    ensures most { result ≤ℤ pos (2 ^ 125) }
    ensures small { n ≤ 3 → result ≤ℤ pos 1000 }
{
    10i128.pow(n)
}
