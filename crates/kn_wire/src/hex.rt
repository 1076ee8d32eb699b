//! Hexadecimal digits of either case, two for a byte, the higher first (keynoted's own line protocol).
ghost use Rattle.std.specs.Prelude.{◌≡◌, ◌<◌, [], ◌∷◌, length, true, IfOk, IfSome, MatchOption};
ghost use Rattle.std.specs.List.{list_all};
ghost use Rattle.std.specs.Str.{bytes_eq};
ghost use Rattle.kn_wire.specs.Hex.{bytes_of_hex, digit_value};
ghost use Rattle.kn_wire.specs.Requests.{is_hex, is_hex_digit};

use kn_base::{NoMemory, Octets};
use std::alloc::Global;

/// Whether a text is an even number of hexadecimal digits.
pub(crate) fn is_hex(text: &[u8]) -> bool
    ensures { result ≡ is_hex text.now }
{
    are_hex_digits(text) && text.len() % 2 == 0
}

fn are_hex_digits(text: &[u8]) -> bool
    ensures { result ≡ list_all is_hex_digit text.now }
{
    text.iter().all(|byte| is_hex_digit(*byte))
}

fn is_hex_digit(byte: u8) -> bool
    ensures { result ≡ is_hex_digit byte }
{
    (b'0' <= byte && byte <= b'9')
        || (b'A' <= byte && byte <= b'F')
        || (b'a' <= byte && byte <= b'f')
}

/// Whether digits are those of these bytes; an odd one at their end is none. It takes no memory, and looks at all
/// bytes also where one differs.
pub fn is_hex_of(digits: &[u8], bytes: &[u8]) -> bool
    ensures { result ≡ bytes_eq (bytes_of_hex digits.now) bytes.now }
{
    let mut rest = digits;
    let mut same = true;
    for byte in bytes {
        let Some((value, behind)) = split_byte(rest) else {
            return false;
        };
        if value != u32::from(*byte) {
            same = false;
        }
        rest = behind;
    }
    same && split_byte(rest).is_none()
}

/// The bytes of digits.
pub fn decode_hex(alloc: Global, digits: &[u8]) -> Result<Octets, NoMemory>
    requires { is_hex digits.now ≡ true }
    ensures { IfOk result (λ bytes. bytes ≡ bytes_of_hex digits.now) }
{
    let mut bytes = Octets::new(alloc);
    let mut rest = digits;
    'bytes: loop {
        let Some((value, behind)) = split_byte(rest) else {
            return Ok(bytes);
        };
        bytes.push(value as u8)?;
        rest = behind;
    }
}

/// The byte of the first two digits, and what follows; None where there are fewer.
fn split_byte(text: &[u8]) -> Option<(u32, &[u8])>
    ensures byte { MatchOption result (bytes_of_hex text.now ≡ [])
        (λ parts. bytes_of_hex text.now ≡ parts.0 ∷ bytes_of_hex parts.1.now) }
    ensures shorter { IfSome result (λ parts. length parts.1.now < length text.now) }
    ensures small { IfSome result (λ parts. list_all is_hex_digit text.now ≡ true → parts.0 < 256) }
    ensures digits { IfSome result (λ parts. list_all is_hex_digit text.now ≡ true
        → list_all is_hex_digit parts.1.now ≡ true) }
{
    if text.len() < 2 {
        return None;
    }
    let value = digit_value(text[0]) * 16 + digit_value(text[1]);
    Some((value, text.split_at(2).1))
}

// The value of a digit: 97 is `a`, 65 is `A`, and 48 is `0`; `a` and `A` are worth 10.
fn digit_value(digit: u8) -> u32
    ensures value { result ≡ digit_value digit }
    ensures small { result < 256 }
    ensures digit { is_hex_digit digit ≡ true → result < 16 }
{
    let digit = u32::from(digit);
    if digit >= 97 {
        digit - 87
    } else if digit >= 65 {
        digit - 55
    } else {
        digit.saturating_sub(48)
    }
}
