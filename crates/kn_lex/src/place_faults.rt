//! The fault that a place in a text shows.

ghost use Rattle.std.specs.Prelude.{◌≡◌, ◌+◌, ◌<◌, ◌≤◌, ◌^◌, ◌==◌, nat_lt, true, false};
ghost use Rattle.std.specs.Prelude.{None, Some, length, take, drop, IfSome, IfOk, IfErr, OnOk};
ghost use Rattle.kn_base.specs.declared.limits.TheConstants.{WHOLE_NUMBER};
ghost use Rattle.kn_base.specs.Decimal.{digits_value};
ghost use Rattle.kn_lex.specs.Faults.{begins_fraction, begins_match, goes_on};
ghost use Rattle.kn_lex.specs.Scanning.{lexeme_at, IsFoundAt, zero_place, is_bad_blank};
ghost use Rattle.kn_lex.specs.Scanning.{stuck_fault, number_fault, lexeme_fault, fault_by, fault_at};

use crate::bytes::{is_digit, is_white};
use crate::fault::LexFault;
use crate::lexeme::{Context, Lexeme, Place, is_number};
use crate::scan::{is_blank, lexeme_at, starting_lexeme};
use crate::token::Sort;
use kn_base::digits_within;
use kn_base::limits::WHOLE_NUMBER;
use memchr::memchr;

/// Whether a byte stands in a text, from outside comments on, that is neither white space nor in a comment.
#[inline(never)]
#[tactic(auto, using(crate::proofs::Scans::goes_on_at, crate::proofs::Scans::goes_on_end))]
pub fn goes_on(rest: &[u8]) -> bool
    ensures { result ≡ goes_on false rest.now }
{
    let mut commented = false;
    for byte in rest {
        if commented {
            commented = *byte != b'\n';
        } else if *byte == b'#' {
            commented = true;
        } else if !is_white(*byte) {
            return true;
        }
    }
    false
}

fn begins_match(rest: &[u8]) -> bool
    ensures { result ≡ begins_match rest.now }
{
    rest.len() > 1 && rest[0] == b'~' && rest[1] == b'='
}

/// The fault of a place where no lexeme begins.
#[tactic(auto, using(crate::proofs::Scans::stuck_fault_at))]
fn stuck_fault(at: u32, rest: &[u8]) -> LexFault
    requires { 0 < length rest.now }
    ensures { stuck_fault at rest.now ≡ Some result }
{
    let byte = rest[0];
    if byte == 0 || byte >= 128 {
        LexFault::NotText { at }
    } else if byte == b'"' {
        LexFault::BadString { at }
    } else if byte == b'&' {
        LexFault::Float { at }
    } else if begins_match(rest) {
        LexFault::Regex { at }
    } else {
        LexFault::BadToken { at }
    }
}

fn begins_fraction(rest: &[u8]) -> bool
    ensures { result ≡ begins_fraction rest.now }
{
    rest.len() > 1 && rest[0] == b'.' && is_digit(rest[1])
}

/// Whether digits spell a number that is too large.
fn is_too_large(digits: &[u8]) -> bool
    ensures { result ≡ nat_lt WHOLE_NUMBER (digits_value digits.now) }
{
    digits_within(WHOLE_NUMBER, digits).is_none()
}

fn number_fault(at: u32, digits: &[u8], rest: &[u8]) -> Option<LexFault>
    ensures { result ≡ number_fault at digits.now rest.now }
{
    if begins_fraction(rest) {
        Some(LexFault::Float { at })
    } else if is_too_large(digits) {
        Some(LexFault::Number { at })
    } else {
        None
    }
}

/// The place of the first byte 0.
fn zero_place(bytes: &[u8]) -> Option<usize>
    ensures place { result ≡ zero_place bytes.now }
    ensures within { IfSome result (λ k. k < length bytes.now) }
{
    memchr(0, bytes)
}

/// Whether the bytes have a byte 0.
pub(crate) fn has_zero(bytes: &[u8]) -> bool
    ensures { result ≡ false → zero_place bytes.now ≡ None }
{
    zero_place(bytes).is_some()
}

fn lexeme_fault(
    at: u32,
    lexeme: Lexeme,
    bytes: &[u8],
    rest: &[u8],
    has_zero: bool,
) -> Option<LexFault>
    requires short { at + length bytes.now < 2 ^ 32 }
    requires no_zero { has_zero ≡ false → zero_place bytes.now ≡ None }
    ensures { result ≡ lexeme_fault at lexeme bytes.now rest.now }
{
    if is_number(lexeme) {
        return number_fault(at, bytes, rest);
    }
    if !has_zero {
        return None;
    }
    match zero_place(bytes) {
        Some(k) => Some(LexFault::NotText { at: at + k as u32 }),
        None => None,
    }
}

/// Refuses a blank line between tokens, and tells whether only white space and comments are left, so
/// far as that is known: `settled` tells it at the lexeme before, and no text is looked through twice.
#[inline(always)]
fn check_blank(place: Place, at: u32, rest: &[u8], settled: bool) -> Result<bool, LexFault>
    requires { settled ≡ true → goes_on false rest.now ≡ false }
    ensures ok { OnOk result (is_bad_blank place rest.now ≡ false) }
    ensures known { IfOk result (λ over. over ≡ true → goes_on false rest.now ≡ false) }
    ensures err { IfErr result (λ fault. (fault ≡ LexFault.Blank at) × (is_bad_blank place rest.now ≡ true)) }
{
    let Context::LineStart = place.context else {
        return Ok(settled);
    };
    if settled || !place.has_token || !is_blank(rest) {
        return Ok(settled);
    }
    if goes_on(rest) {
        return Err(LexFault::Blank { at });
    }
    Ok(true)
}

/// What stands at the beginning of a line alone.
#[derive(Clone, Copy)]
struct Beginning {
    /// The label or body that begins here, with its length.
    found: Option<(Lexeme, usize)>,
    /// Whether only white space and comments are left, so far as that is known.
    settled: bool,
}

/// Looks for what may stand at the beginning of a line alone: a label, a body, or a blank line between tokens.
#[inline(always)]
fn begin_line(place: Place, at: u32, rest: &[u8], settled: bool) -> Result<Beginning, LexFault>
    requires { settled ≡ true → goes_on false rest.now ≡ false }
    ensures lexeme { IfOk result (λ begun. IsFoundAt place.context rest.now begun.found) }
    ensures within { IfOk result (λ begun. IfSome begun.found (λ p. p.1 ≤ length rest.now)) }
    ensures ok { OnOk result (is_bad_blank place rest.now ≡ false) }
    ensures known { IfOk result (λ begun. begun.settled ≡ true → goes_on false rest.now ≡ false) }
    ensures err { IfErr result (λ fault. (fault ≡ LexFault.Blank at) × (is_bad_blank place rest.now ≡ true)) }
{
    if let Context::WithinLine = place.context {
        return Ok(Beginning {
            found: None,
            settled,
        });
    }
    match check_blank(place, at, rest, settled) {
        Ok(settled) => Ok(Beginning {
            found: starting_lexeme(place.context, rest),
            settled,
        }),
        Err(fault) => Err(fault),
    }
}

/// The lexeme that begins here, or the fault that what is left shows, blank lines aside.
#[inline(always)]
fn clean_lexeme(
    found: Option<(Lexeme, usize)>,
    at: u32,
    rest: &[u8],
    has_zero: bool,
) -> Result<(Lexeme, usize), LexFault>
    requires some { 0 < length rest.now }
    requires short { at + length rest.now < 2 ^ 32 }
    requires no_zero { has_zero ≡ false → zero_place rest.now ≡ None }
    requires within { IfSome found (λ p. p.1 ≤ length rest.now) }
    ensures lexeme { (context : Context) → IsFoundAt context rest.now found
        → IfOk result (λ p. lexeme_at context rest.now ≡ Some p) }
    ensures clean { (context : Context) → IsFoundAt context rest.now found
        → IfOk result (λ p. fault_by at rest.now (lexeme_at context rest.now) ≡ None) }
    ensures within { IfOk result (λ p. p.1 ≤ length rest.now) }
    ensures err { (context : Context) → IsFoundAt context rest.now found
        → IfErr result (λ fault. fault_by at rest.now (lexeme_at context rest.now) ≡ Some fault) }
{
    let Some((lexeme, len)) = lexeme_at(found, rest) else {
        return Err(stuck_fault(at, rest));
    };
    let (bytes, more) = rest.split_at(len);
    match lexeme_fault(at, lexeme, bytes, more, has_zero) {
        Some(fault) => Err(fault),
        None => Ok((lexeme, len)),
    }
}

/// What was read at a place.
#[derive(Clone, Copy)]
pub(crate) struct Read {
    pub(crate) lexeme: Lexeme,
    pub(crate) len: usize,
    /// Whether only white space and comments are left, so far as that is known.
    pub(crate) settled: bool,
}

/// The lexeme that begins here, or the first fault that this place shows. Most texts have no byte 0, and are then
/// looked through for one only once, before the first lexeme.
#[inline(always)]
pub(crate) fn read_lexeme(
    place: Place,
    at: u32,
    rest: &[u8],
    settled: bool,
    has_zero: bool,
) -> Result<Read, LexFault>
    requires some { 0 < length rest.now }
    requires short { at + length rest.now < 2 ^ 32 }
    requires known { settled ≡ true → goes_on false rest.now ≡ false }
    requires no_zero { has_zero ≡ false → zero_place rest.now ≡ None }
    ensures lexeme { IfOk result (λ read. lexeme_at place.context rest.now ≡ Some (read.lexeme, read.len)) }
    ensures clean { IfOk result (λ read. fault_at place at rest.now ≡ None) }
    ensures within { IfOk result (λ read. read.len ≤ length rest.now) }
    ensures settled { IfOk result (λ read. read.settled ≡ true → goes_on false rest.now ≡ false) }
    ensures err { IfErr result (λ fault. fault_at place at rest.now ≡ Some fault) }
{
    let begun = match begin_line(place, at, rest, settled) {
        Ok(begun) => begun,
        Err(fault) => return Err(fault),
    };
    match clean_lexeme(begun.found, at, rest, has_zero) {
        Ok((lexeme, len)) => Ok(Read {
            lexeme,
            len,
            settled: begun.settled,
        }),
        Err(fault) => Err(fault),
    }
}
