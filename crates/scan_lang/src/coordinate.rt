ghost use Rattle.std.specs.Prelude.{◌≡◌};
ghost use Rattle.std.specs.Char.{is_ascii_digit as digit_test};
ghost use Rattle.std.specs.List.{list_all};
ghost use Rattle.scan_lang.specs.Coordinates.{coordinate_of, is_short_number as short_number_test, minus_of};

use fixed_geom::read_decimal;

const MOST_DIGITS: usize = 5;

/// The coordinate of a block that a word writes: an optional `-` and one to five digits, with a value of -32768 to
/// 32767. `None` where the word is no such number.
#[tactic(auto, unfolding(crate::specs::Coordinates::coordinate_of), using(crate::proofs::NumberLemmas::short_value))]
pub fn read_coordinate(word: &[u8]) -> Option<i16>
    ensures { result ≡ coordinate_of word.now }
{
    if !is_short_number(after_minus(word)) {
        return None;
    }
    match read_decimal(word, 1) {
        Ok(number) => i16::try_from(number).ok(),
        Err(_) => None,
    }
}

// The bytes after a minus where one stands first.
fn after_minus(word: &[u8]) -> &[u8]
    ensures { result.now ≡ (minus_of word.now).1 }
{
    match word {
        [b'-', rest @ ..] => rest,
        _ => word,
    }
}

// Whether a text is one to five digits.
fn is_short_number(digits: &[u8]) -> bool
    ensures { result ≡ short_number_test digits.now }
{
    !digits.is_empty() && digits.len() <= MOST_DIGITS && are_digits(digits)
}

fn are_digits(text: &[u8]) -> bool
    ensures { result ≡ list_all digit_test text.now }
{
    text.iter().all(|byte| byte.is_ascii_digit())
}
