ghost use Rattle.std.specs.Prelude.{◌≡◌, ◌+◌, ◌*◌, ◌<◌, min};
ghost use Rattle.std.specs.List.{list_all};
ghost use Rattle.dec_text.specs.Digits.{are_digits, is_digit, number};
ghost use Rattle.dec_text.specs.Wholes.{after_plus, whole_number};

use crate::faults::NotWhole;

/// Where the reading of a whole number stops counting.
pub(crate) const CAP: u128 = 1 << 100;

/// Reads a whole number below 2^64: one digit or more, after an optional `+`.
///
/// # Errors
///
/// `NotWhole` if and only if the word is none.
pub fn read_whole(word: &[u8]) -> Result<u64, NotWhole>
    ensures { result ≡ whole_number word.now }
{
    let digits = after_plus(word);
    if !are_digits(digits) {
        return Err(NotWhole);
    }
    let number = capped_number(digits);
    if number <= u64::MAX as u128 {
        Ok(number as u64)
    } else {
        Err(NotWhole)
    }
}

/// A word without the plus that it may begin with.
fn after_plus(word: &[u8]) -> &[u8]
    ensures { result.now ≡ after_plus word.now }
{
    match word.split_first() {
        Some((b'+', digits)) => digits,
        _ => word,
    }
}

/// Whether the bytes are one digit or more, and nothing else.
#[tactic(auto, using(crate::proofs::Filled::is_filled_full, crate::proofs::Filled::is_filled_empty))]
pub(crate) fn are_digits(bytes: &[u8]) -> bool
    ensures { result ≡ are_digits bytes.now }
{
    !bytes.is_empty() && all_digits(bytes)
}

fn all_digits(bytes: &[u8]) -> bool
    ensures { result ≡ list_all is_digit bytes.now }
{
    bytes.iter().all(|b| is_digit(*b))
}

/// Whether a byte is a digit.
pub(crate) fn is_digit(byte: u8) -> bool
    ensures { result ≡ is_digit byte }
{
    b'0' <= byte && byte <= b'9'
}

/// The number that digits stand for, or `CAP` where it is larger.
pub(crate) fn capped_number(digits: &[u8]) -> u128
    ensures { result ≡ min CAP (number digits.now) }
{
    let mut value = 0u128;
    for digit in digits {
        value = CAP.min(10 * value + u128::from(digit.saturating_sub(b'0')));
    }
    value
}
