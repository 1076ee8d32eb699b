//! The words of a line.
ghost use Rattle.std.specs.Prelude.{◌≡◌, ◌==◌, ◌&&◌, nat_le, true, IfSome, decimal, ◌<◌, ◌≤◌, IfNone};
ghost use Rattle.std.specs.List.{list_any, list_all};
ghost use Rattle.kn_base.specs.Decimal.{is_digit};
ghost use Rattle.kn_proof.specs.Lines.{is_numeral, is_name, IsShort, IsSmall};

use kn_base::decimal;
use kn_base::limits::COMPLIANCE_VALUE_BYTES;

fn is_digit(byte: u8) -> bool
    ensures { result ≡ is_digit byte }
{
    b'0' <= byte && byte <= b'9'
}

fn are_digits(text: &[u8]) -> bool
    ensures { result ≡ list_all is_digit text.now }
{
    text.iter().all(|byte| is_digit(*byte))
}

pub(crate) fn is_numeral(text: &[u8]) -> bool
    ensures { result ≡ is_numeral text.now }
{
    1 <= text.len() && are_digits(text) && (text.len() == 1 || text[0] != b'0')
}

/// The number that a numeral spells; None where it has more than nine digits.
pub(crate) fn number(numeral: &[u8]) -> Option<u32>
    requires { is_numeral numeral.now ≡ true }
    ensures short { IfSome result (λ n. IsShort numeral.now) }
    ensures spelled { IfSome result (λ n. decimal n ≡ numeral.now) }
    ensures range { IfSome result (λ n. n < 1000000000) }
    ensures long { IfNone result (¬ IsShort numeral.now) }
{
    decimal(numeral)
}

/// The number that a numeral spells; None where it is above 255.
pub(crate) fn small_number(numeral: &[u8]) -> Option<u8>
    requires { is_numeral numeral.now ≡ true }
    ensures small { IfSome result (λ n. IsSmall numeral.now) }
    ensures range { IfSome result (λ n. n ≤ 255) }
    ensures spelled { IfSome result (λ n. decimal n ≡ numeral.now) }
    ensures large { IfNone result (¬ IsSmall numeral.now) }
{
    let n = number(numeral)?;
    if n > 255 {
        return None;
    }
    Some(n as u8)
}

fn are_printing(text: &[u8]) -> bool
    ensures { result ≡ list_all (λ byte. nat_le 33 byte && nat_le byte 126) text.now }
{
    text.iter().all(|byte| 33 <= *byte && *byte <= 126)
}

fn has_comma(text: &[u8]) -> bool
    ensures { result ≡ list_any (λ byte. byte == 44) text.now }
{
    text.iter().any(|byte| *byte == b',')
}

/// Whether a reply may name a compliance value so.
pub(crate) fn is_name(text: &[u8]) -> bool
    ensures { result ≡ is_name text.now }
{
    1 <= text.len()
        && text.len() <= COMPLIANCE_VALUE_BYTES
        && are_printing(text)
        && !has_comma(text)
}
