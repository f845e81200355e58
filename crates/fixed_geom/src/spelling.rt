ghost use Rattle.std.specs.Prelude.{◌≡◌, ◌+◌, ◌<◌, ◌≤◌, ◌^◌, pos, negsuc, ◌≤ℤ◌, unsigned_abs, length, IfSome};
ghost use Rattle.std.specs.Option.{option_copied};
ghost use Rattle.fixed_geom.specs.Decimal.{decimal_of, exponent_of, mantissa_of, sign_of, parts_of, signed, exponent_with, is_mark as mark_test, digits_onto as onto};

/// A decimal is its mantissa times a power of ten.
#[derive(Clone, Copy, Debug, PartialEq, Eq)]
pub struct Decimal {
    pub mantissa: i128,
    pub power: i32,
}

/// The digits of a mantissa as one number, and how many of them follow the point.
#[derive(Clone, Copy, Debug, PartialEq, Eq)]
pub struct Mantissa {
    pub number: u128,
    pub places: u32,
}

const MOST_DIGITS: usize = 24;

const MOST_EXPONENT_DIGITS: usize = 3;

const GREATEST_EXPONENT: i32 = 3;

/// The mantissa and the power of a decimal. `None` where the text is no decimal.
#[tactic(auto, unfolding(crate::specs::Decimal::decimal_of))]
pub(crate) fn parse(text: &[u8]) -> Option<Decimal>
    ensures value { result ≡ decimal_of text.now }
    ensures mantissa { IfSome result (λ d. unsigned_abs d.mantissa < 10 ^ 24) }
    ensures power { IfSome result (λ d. d.power ≤ℤ pos 3) }
{
    let (negative, unsigned) = split_sign(text);
    let (front, behind) = split_at_first(unsigned, b'e', b'E');
    let exponent = read_exponent(behind)?;
    let mantissa = read_mantissa(front)?;
    Some(Decimal {
        mantissa: with_sign(negative, mantissa.number),
        power: exponent - mantissa.places as i32,
    })
}

/// The number, or minus the number.
fn with_sign(negative: bool, number: u128) -> i128
    requires { number < 10 ^ 24 }
    ensures value { result ≡ signed negative number }
    ensures size { unsigned_abs result ≡ number }
{
    let positive = number as i128;
    if negative { -positive } else { positive }
}

/// Whether a minus stands first, and the bytes after the sign where there is one.
fn split_sign(text: &[u8]) -> (bool, &[u8])
    ensures { (result.0, result.1.now) ≡ sign_of text.now }
{
    match text {
        [b'-', rest @ ..] => (true, rest),
        [b'+', rest @ ..] => (false, rest),
        _ => (false, text),
    }
}

/// The bytes before the first of two marks, and those after it where there is one.
fn split_at_first(text: &[u8], mark: u8, other: u8) -> (&[u8], Option<&[u8]>)
    ensures { (result.0.now, option_copied result.1) ≡ parts_of mark other text.now }
{
    for i in 0..text.len() {
        if is_mark(text[i], mark, other) {
            return (&text[..i], Some(&text[i + 1..]));
        }
    }
    (text, None)
}

/// Whether the byte is one of two marks.
fn is_mark(byte: u8, mark: u8, other: u8) -> bool
    ensures { result ≡ mark_test mark other byte }
{
    byte == mark || byte == other
}

/// The exponent by the text after its mark, 0 where there is no mark.
#[tactic(auto, unfolding(crate::specs::Decimal::exponent_of))]
fn read_exponent(text: Option<&[u8]>) -> Option<i32>
    ensures value { result ≡ exponent_of (option_copied text.entry) }
    ensures least { IfSome result (λ e. negsuc 999 ≤ℤ e) }
    ensures most { IfSome result (λ e. e ≤ℤ pos 3) }
{
    match text {
        None => Some(0),
        Some(text) => {
            let (negative, digits) = split_sign(text);
            exponent_from(negative, digits)
        }
    }
}

/// The exponent by its sign and digits.
fn exponent_from(negative: bool, digits: &[u8]) -> Option<i32>
    ensures value { result ≡ exponent_with negative digits.now }
    ensures least { IfSome result (λ e. negsuc 999 ≤ℤ e) }
    ensures most { IfSome result (λ e. e ≤ℤ pos 3) }
{
    if digits.is_empty() || digits.len() > MOST_EXPONENT_DIGITS {
        return None;
    }
    let size = digits_onto(0, 0, digits)?;
    let exponent = with_sign(negative, size) as i32;
    if exponent > GREATEST_EXPONENT {
        return None;
    }
    Some(exponent)
}

/// The digits before and after at most one point.
#[tactic(auto, unfolding(crate::specs::Decimal::mantissa_of))]
fn read_mantissa(text: &[u8]) -> Option<Mantissa>
    ensures value { result ≡ mantissa_of text.now }
    ensures number { IfSome result (λ m. m.number < 10 ^ 24) }
    ensures places { IfSome result (λ m. m.places ≤ 24) }
{
    let (whole, behind) = split_at_first(text, b'.', b'.');
    let fraction = behind.unwrap_or(&[]);
    let count = whole.len() + fraction.len();
    if count == 0 || count > MOST_DIGITS {
        return None;
    }
    let number = digits_onto(0, 0, whole)?;
    let number = digits_onto(number, whole.len(), fraction)?;
    Some(Mantissa {
        number,
        places: fraction.len() as u32,
    })
}

/// The number of the `count` digits of `start` and then those of the text. `None` where a byte is no digit.
fn digits_onto(start: u128, count: usize, text: &[u8]) -> Option<u128>
    requires start { start < 10 ^ count }
    requires count { count + length text.now ≤ 24 }
    ensures value { result ≡ onto start text.now }
    ensures size { IfSome result (λ n. n < 10 ^ (count + length text.now)) }
{
    let mut number = start;
    for byte in text {
        if !byte.is_ascii_digit() {
            return None;
        }
        number = 10 * number + (*byte - b'0') as u128;
    }
    Some(number)
}
