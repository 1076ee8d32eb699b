//! The quoted bytes of a principal.
ghost use Rattle.std.specs.Prelude.{◌≡◌, ◌≢◌, ◌↔◌, ◌<◌, ◌≤◌, ◌&&◌, ◌++◌, ◌∷◌, ℕ, List, flat_map, nat_le};
ghost use Rattle.std.specs.Prelude.{IsTrue, IfOk, IfSome, IfNone};
ghost use Rattle.std.specs.Bool.{OnTrue, OnFalse};
ghost use Rattle.kn_proof.specs.Texts.{quoted_byte};
ghost use Rattle.kn_proof.specs.Lines.{AreBytes};
ghost use Rattle.kn_proof.specs.Quoting.{HasNoByte, IsQuotedTo, IsPlain, IsUnprinted, AreOctal, octal_digits};

use kn_base::{NoMemory, Octets};
use std::alloc::Global;

/// A principal, and what stands behind its quoted bytes.
#[derive(Drop)]
pub(crate) struct Quoted<'a> {
    pub principal: Octets,
    pub rest: &'a [u8],
}

/// The bytes that are quoted at the front of a text, as many as there are.
pub(crate) fn read_quoted(alloc: Global, text: &[u8]) -> Result<Quoted<'_>, NoMemory>
    ensures spelled { IfOk result (λ quoted. text.now ≡ flat_map quoted_byte quoted.principal ++ quoted.rest.now) }
    ensures bytes { IfOk result (λ quoted. AreBytes quoted.principal) }
    ensures all { IfOk result (λ quoted. HasNoByte quoted.rest.now) }
{
    let mut principal = Octets::new(alloc);
    let mut rest = text;
    'bytes: loop {
        let Some((byte, behind)) = first_byte(rest) else {
            return Ok(Quoted { principal, rest });
        };
        principal.push(byte)?;
        rest = behind;
    }
}

/// What is behind the bytes that are quoted at the front of a text. Takes no memory.
pub(crate) fn behind_quoted(text: &[u8]) -> &[u8]
    ensures quoted { IsQuotedTo text.now result.now }
    ensures all { HasNoByte result.now }
{
    let mut rest = text;
    'bytes: loop {
        let Some((_byte, behind)) = first_byte(rest) else {
            return rest;
        };
        rest = behind;
    }
}

/// The byte that is quoted at the front of a text, and what is behind.
fn first_byte(text: &[u8]) -> Option<(u8, &[u8])>
    ensures some { IfSome result (λ first. text.now ≡ quoted_byte first.0 ++ first.1.now) }
    ensures small { IfSome result (λ first. first.0 < 256) }
    ensures none { IfNone result (HasNoByte text.now) }
{
    let Some((byte, behind)) = text.split_first() else {
        return None;
    };
    if *byte == b'\\' {
        return read_escape(behind);
    }
    if is_plain(*byte) {
        Some((*byte, behind))
    } else {
        None
    }
}

/// Whether a byte stands for itself.
fn is_plain(byte: u8) -> bool
    ensures { IsTrue result ↔ IsPlain byte }
{
    is_printing(byte) && byte != b'"' && byte != b'\\'
}

/// The byte that is quoted by a backslash and the front of a text, and what is behind.
fn read_escape(text: &[u8]) -> Option<(u8, &[u8])>
    ensures some { IfSome result (λ first. 92 ∷ text.now ≡ quoted_byte first.0 ++ first.1.now) }
    ensures none { IfNone result (HasNoByte (92 ∷ text.now)) }
{
    let Some((byte, behind)) = text.split_first() else {
        return None;
    };
    if *byte == b'"' || *byte == b'\\' {
        return Some((*byte, behind));
    }
    octal(text)
}

/// The byte that three octal digits at the front of a text spell, where it is quoted so, and what is behind.
fn octal(text: &[u8]) -> Option<(u8, &[u8])>
    ensures some { IfSome result (λ first. text.now ≡ octal_digits first.0 ++ first.1.now) }
    ensures unprinted { IfSome result (λ first. IsUnprinted first.0) }
    ensures none { IfNone result ((byte : ℕ) (rest : List ℕ)
        → byte < 256 → IsUnprinted byte → text.now ≢ octal_digits byte ++ rest) }
{
    let Some((digits, behind)) = text.split_at_checked(3) else {
        return None;
    };
    match octal_value(digits[0], digits[1], digits[2]) {
        Some(byte) if !is_printing(byte) => Some((byte, behind)),
        _ => None,
    }
}

fn is_printing(byte: u8) -> bool
    ensures yes { OnTrue result ((32 ≤ byte) × (byte ≤ 126)) }
    ensures no { OnFalse result (IsUnprinted byte) }
{
    b' ' <= byte && byte <= b'~'
}

/// The byte of three octal digits, the highest first.
fn octal_value(high: u8, middle: u8, low: u8) -> Option<u8>
    ensures some { IfSome result (λ byte. AreOctal byte high middle low) }
    ensures none { IfNone result ((byte : ℕ) → byte < 256 → ¬ AreOctal byte high middle low) }
{
    if b'0' <= high && high <= b'3' && is_octal(middle) && is_octal(low) {
        Some((high - b'0') * 64 + (middle - b'0') * 8 + (low - b'0'))
    } else {
        None
    }
}

fn is_octal(byte: u8) -> bool
    ensures { result ≡ (nat_le 48 byte && nat_le byte 55) }
{
    b'0' <= byte && byte <= b'7'
}
