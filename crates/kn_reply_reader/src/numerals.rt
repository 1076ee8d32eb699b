//! Decimal numbers at the front of bytes.
ghost use Rattle.std.specs.Prelude.{◌≡◌, ◌<◌, ◌++◌, true, false, MatchOption, option_map};
ghost use Rattle.std.specs.List.{list_all};
ghost use Rattle.kn_base.specs.Decimal.{digits_within, is_digit};
ghost use Rattle.kn_proof.specs.Lines.{is_numeral};
ghost use Rattle.kn_reply_reader.specs.Numerals.{HasNoNumber, IsBehindNumber, IsNumberAt, begins_with_digit, has_form};

use kn_base::text::cut;

/// How many last digits of a number are written.
const WRITTEN_DIGITS: usize = 64;

fn is_digit(byte: u8) -> bool
    ensures { result ≡ is_digit byte }
{
    b'0' <= byte && byte <= b'9'
}

/// The digits at the front, and what is behind them.
fn split_digits(text: &[u8]) -> (&[u8], &[u8])
    ensures cut { text.now ≡ result.0.now ++ result.1.now }
    ensures digits { list_all is_digit result.0.now ≡ true }
    ensures other { begins_with_digit result.1.now ≡ false }
{
    for (place, byte) in text.iter().enumerate() {
        if !is_digit(*byte) {
            return text.split_at(place);
        }
    }
    (text, b"")
}

/// Whether digits are how some number is written.
fn has_form(digits: &[u8]) -> bool
    ensures { result ≡ has_form digits.now }
{
    1 <= digits.len()
        && digits.len() <= WRITTEN_DIGITS
        && (digits.len() == 1 || digits.len() == WRITTEN_DIGITS || digits[0] != b'0')
}

/// What is left behind a number that no digit follows; None where the bytes don't begin with one.
pub(crate) fn behind_number(left: &[u8]) -> Option<&[u8]>
    ensures { IsBehindNumber left.now (option_map (λ rest. rest.now) result) }
{
    let (digits, rest) = split_digits(left);
    if has_form(digits) { Some(rest) } else { None }
}

fn are_digits(text: &[u8]) -> bool
    ensures { result ≡ list_all is_digit text.now }
{
    text.iter().all(|byte| is_digit(*byte))
}

/// Whether a text is a number without a leading zero.
fn is_numeral(text: &[u8]) -> bool
    ensures { result ≡ is_numeral text.now }
{
    1 <= text.len() && are_digits(text) && (text.len() == 1 || text[0] != b'0')
}

/// The number that digits spell; None where it is above the most.
fn digits_within(most: u64, digits: &[u8]) -> Option<u64>
    ensures { result ≡ digits_within most digits.now }
{
    let mut value: u128 = 0;
    for byte in digits {
        value = value * 10 + u128::from(byte.saturating_sub(b'0'));
        if value > u128::from(most) {
            return None;
        }
    }
    Some(value as u64)
}

/// A number of at most `most` at the front, through the byte that ends it, and what is left.
pub(crate) fn read_number(left: &[u8], most: u64, end: u8) -> Option<(u64, &[u8])>
    requires { end < 48 }
    ensures { MatchOption result (HasNoNumber most end left.now)
        (λ read. IsNumberAt most end left.now read.0 read.1.now) }
{
    let (digits, rest) = cut(left, end)?;
    if !is_numeral(digits) {
        return None;
    }
    let number = digits_within(most, digits)?;
    Some((number, rest))
}
