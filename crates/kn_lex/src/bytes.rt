//! The classes of bytes, and runs of the bytes of one.

ghost use Rattle.std.specs.Prelude.{◌≡◌, ◌≤◌, ◌<◌, ◌==◌, true, length, drop};
ghost use Rattle.std.specs.List.{prefix_len};
ghost use Rattle.kn_lex.specs.Bytes.{is_gap, is_white, is_letter, begins_name, continues_name, continues_label};
ghost use Rattle.kn_lex.specs.Bytes.{is_octal_digit, is_short_sign, is_long_sign, has_class, begins_with, kind_of};
ghost use Rattle.kn_base.specs.Decimal.{is_digit};

pub(crate) fn is_gap(byte: u8) -> bool
    ensures { result ≡ is_gap byte }
{
    byte == b' ' || byte == b'\t' || byte == b'\r'
}

pub(crate) fn is_white(byte: u8) -> bool
    ensures { result ≡ is_white byte }
{
    is_gap(byte) || byte == b'\n'
}

pub(crate) fn is_letter(byte: u8) -> bool
    ensures { result ≡ is_letter byte }
{
    (b'A' <= byte && byte <= b'Z') || (b'a' <= byte && byte <= b'z')
}

pub(crate) fn is_digit(byte: u8) -> bool
    ensures { result ≡ is_digit byte }
{
    b'0' <= byte && byte <= b'9'
}

pub(crate) fn begins_name(byte: u8) -> bool
    ensures { result ≡ begins_name byte }
{
    is_letter(byte) || byte == b'_'
}

pub(crate) fn continues_name(byte: u8) -> bool
    ensures { result ≡ continues_name byte }
{
    begins_name(byte) || is_digit(byte)
}

pub(crate) fn continues_label(byte: u8) -> bool
    ensures { result ≡ continues_label byte }
{
    continues_name(byte) || byte == b'-'
}

pub(crate) fn is_octal_digit(byte: u8) -> bool
    ensures { result ≡ is_octal_digit byte }
{
    b'0' <= byte && byte <= b'7'
}

#[inline(always)]
pub(crate) fn is_short_sign(byte: u8) -> bool
    ensures { result ≡ is_short_sign byte }
{
    matches!(byte, b'!' | b'$'..=b'%' | b'('..=b'/' | b';'..=b'>' | b'@' | b'^' | b'{' | b'}')
}

#[inline(always)]
pub(crate) fn is_long_sign(byte: u8, next: u8) -> bool
    ensures { result ≡ is_long_sign byte next }
{
    match (byte, next) {
        (b'&', b'&') | (b'|', b'|') => true,
        (b'=' | b'!' | b'<' | b'>', b'=') => true,
        (b'-', b'>') => true,
        _ => false,
    }
}

/// The classes whose runs are counted.
#[derive(Clone, Copy)]
pub(crate) enum Class {
    /// White space that ends no line.
    Gap,
    White,
    Digit,
    /// What a name goes on with.
    Name,
    /// What a label goes on with, before its colon.
    Label,
    /// What stands for itself in a literal.
    Quoted,
}

#[inline(always)]
fn has_class(class: Class, byte: u8) -> bool
    ensures { result ≡ has_class class byte }
{
    match class {
        Class::Gap => is_gap(byte),
        Class::White => is_white(byte),
        Class::Digit => is_digit(byte),
        Class::Name => continues_name(byte),
        Class::Label => continues_label(byte),
        Class::Quoted => !matches!(byte, b'"' | b'\\' | b'\n' | b'\r'),
    }
}

/// How many bytes of a class stand here in a row.
#[inline(always)]
pub(crate) fn run_len(class: Class, bytes: &[u8]) -> usize
    ensures len { result ≡ prefix_len (has_class class) bytes.now }
    ensures within { result ≤ length bytes.now }
{
    for (i, byte) in bytes.iter().enumerate() {
        if !has_class(class, *byte) {
            return i;
        }
    }
    bytes.len()
}

/// Whether this byte stands at a place.
#[inline(always)]
#[tactic(auto, using(crate::proofs::Scans::begins_at, crate::proofs::Scans::begins_end))]
pub(crate) fn has_at(bytes: &[u8], at: usize, byte: u8) -> bool
    ensures here { result ≡ begins_with (λ other. other == byte) (drop at bytes.now) }
    ensures within { result ≡ true → at < length bytes.now }
{
    at < bytes.len() && bytes[at] == byte
}

/// What begins with a byte.
#[derive(Clone, Copy)]
pub(crate) enum Kind {
    Space,
    Hash,
    Word,
    Numeral,
    Quote,
    /// A sign of one byte with which none of two begins.
    Lone,
    /// Another sign, or nothing.
    Other,
}

use Kind::{Hash as H, Lone as L, Numeral as N, Other as O, Quote as Q, Space as S, Word as W};

/// What begins with each byte, by the first letter of its kind, 16 bytes in a row.
static KINDS: [Kind; 256] = [
    O, O, O, O, O, O, O, O, O, S, S, O, O, S, O, O, // 0x00
    O, O, O, O, O, O, O, O, O, O, O, O, O, O, O, O, // 0x10
    S, O, Q, H, L, L, O, O, L, L, L, L, L, O, L, L, // 0x20
    N, N, N, N, N, N, N, N, N, N, O, L, O, O, O, O, // 0x30
    L, W, W, W, W, W, W, W, W, W, W, W, W, W, W, W, // 0x40
    W, W, W, W, W, W, W, W, W, W, W, O, O, O, L, W, // 0x50
    O, W, W, W, W, W, W, W, W, W, W, W, W, W, W, W, // 0x60
    W, W, W, W, W, W, W, W, W, W, W, L, O, L, O, O, // 0x70
    O, O, O, O, O, O, O, O, O, O, O, O, O, O, O, O, // 0x80
    O, O, O, O, O, O, O, O, O, O, O, O, O, O, O, O, // 0x90
    O, O, O, O, O, O, O, O, O, O, O, O, O, O, O, O, // 0xA0
    O, O, O, O, O, O, O, O, O, O, O, O, O, O, O, O, // 0xB0
    O, O, O, O, O, O, O, O, O, O, O, O, O, O, O, O, // 0xC0
    O, O, O, O, O, O, O, O, O, O, O, O, O, O, O, O, // 0xD0
    O, O, O, O, O, O, O, O, O, O, O, O, O, O, O, O, // 0xE0
    O, O, O, O, O, O, O, O, O, O, O, O, O, O, O, O, // 0xF0
];

#[inline(always)]
#[tactic(auto, using(crate::proofs::KindTable::kind_at))]
pub(crate) fn kind_of(byte: u8) -> Kind
    ensures { result ≡ kind_of byte }
{
    KINDS[byte as usize]
}
