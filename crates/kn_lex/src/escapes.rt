//! The value of a literal.

ghost use Rattle.std.specs.Prelude.{◌≡◌, ◌≤◌, ◌<◌, length, drop, slice_index, IfOk};
ghost use Rattle.kn_lex.specs.Literal.{octal_value, begins_octal, begins_low, escape};
ghost use Rattle.kn_lex.specs.Literal.{with_front, value_behind, inside, literal_value};

use crate::bytes::{Class, is_octal_digit, run_len};
use crate::token::{Sort, Token};
use kn_base::{NoMemory, Octets};
use memchr::memchr;
use std::alloc::Global;

fn byte_at(rest: &[u8], i: usize) -> u8
    ensures { result ≡ slice_index rest.now i }
{
    if i < rest.len() { rest[i] } else { 0 }
}

fn octal_value(rest: &[u8]) -> u32
    ensures { result ≡ octal_value rest.now }
{
    u32::from(byte_at(rest, 0).saturating_sub(b'0')) * 64
        + u32::from(byte_at(rest, 1).saturating_sub(b'0')) * 8
        + u32::from(byte_at(rest, 2).saturating_sub(b'0'))
}

fn begins_octal(rest: &[u8]) -> bool
    ensures { result ≡ begins_octal rest.now }
{
    is_octal_digit(byte_at(rest, 0))
        && is_octal_digit(byte_at(rest, 1))
        && is_octal_digit(byte_at(rest, 2))
        && 1 <= octal_value(rest)
        && octal_value(rest) <= 255
}

fn begins_low(rest: &[u8]) -> bool
    ensures { result ≡ begins_low rest.now }
{
    byte_at(rest, 0) == b'0'
        && is_octal_digit(byte_at(rest, 1))
        && byte_at(rest, 1) != b'0'
        && !is_octal_digit(byte_at(rest, 2))
}

/// What stands behind a backslash: the byte that it gives, and how many bytes it takes.
fn escape(rest: &[u8]) -> (Option<u8>, usize)
    ensures value { result ≡ escape rest.now }
    ensures within { result.1 ≤ length rest.now }
{
    let Some(byte) = rest.first().copied() else {
        return (None, 0);
    };
    match byte {
        b'n' => (Some(b'\n'), 1),
        b'r' => (Some(b'\r'), 1),
        b't' => (Some(b'\t'), 1),
        // 12 is the form feed.
        b'f' => (Some(12), 1),
        b'\n' | b'\r' => (None, 1 + run_len(Class::White, rest.split_at(1).1)),
        _ if begins_octal(rest) => (Some(octal_value(rest) as u8), 3),
        _ if begins_low(rest) => (Some(byte_at(rest, 1).saturating_sub(b'0')), 2),
        _ => (Some(byte), 1),
    }
}

fn inside(text: &[u8]) -> &[u8]
    ensures { result.now ≡ inside text.now }
{
    if text.len() < 2 {
        return text.split_at(0).0;
    }
    text.split_at(1).1.split_at(text.len() - 2).0
}

/// What stands at one place in a literal: the byte that it gives, and how many bytes it takes.
fn item(rest: &[u8]) -> (Option<u8>, usize)
    requires { 0 < length rest.now }
    ensures value { value_behind 0 rest.now ≡ with_front result.0 (value_behind 0 (drop result.1 rest.now)) }
    ensures some { 0 < result.1 }
    ensures within { result.1 ≤ length rest.now }
{
    if rest[0] != b'\\' {
        return (Some(rest[0]), 1);
    }
    let (byte, size) = escape(rest.split_at(1).1);
    (byte, size + 1)
}

/// The value of a literal, of which the quotes are no part: the table of escapes is keynoted's own.
pub fn literal(alloc: Global, token: &Token<'_>) -> Result<Octets, NoMemory>
    requires { token.now.sort ≡ Sort.Text }
    ensures { IfOk result (λ value. value ≡ literal_value token.now.text.now) }
{
    let inside = inside(token.text);
    let Some(_) = memchr(b'\\', inside) else {
        return Octets::from_slice(alloc, inside);
    };
    let mut value = Octets::new(alloc);
    let mut at: usize = 0;
    while at < inside.len() {
        let (byte, size) = item(inside.split_at(at).1);
        if let Some(byte) = byte {
            value.push(byte)?;
        }
        at += size;
    }
    Ok(value)
}
