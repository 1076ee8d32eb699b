//! Which lexeme begins at a place, and how long it is.

ghost use Rattle.std.specs.Prelude.{◌≡◌, ◌≤◌, ◌<◌, false, Some, length, IfSome};
ghost use Rattle.kn_lex.specs.Spelling.{is_blank, is_continuation};
ghost use Rattle.kn_lex.specs.Scanning.{white_len, line_len, label_len, colon_len, body_len, sign_len};
ghost use Rattle.kn_lex.specs.Scanning.{with_sort, plain_lexeme, lexeme_at, IsFoundAt};

use crate::bytes::{Class, Kind, has_at, is_letter, is_long_sign, is_short_sign, kind_of, run_len};
use crate::lexeme::{Context, Lexeme};
use crate::quote::quote_len;
use crate::token::Sort;
use memchr::memchr;

#[tactic(auto, using(crate::proofs::Scans::white_by_run))]
fn white_len(rest: &[u8]) -> usize
    ensures len { result ≡ white_len rest.now }
    ensures within { result ≤ length rest.now }
{
    let len = run_len(Class::Gap, rest);
    if has_at(rest, len, b'\n') {
        len + 1
    } else {
        len
    }
}

/// The bytes of the line that begins here, without its newline.
pub fn line_len(rest: &[u8]) -> usize
    ensures len { result ≡ line_len rest.now }
    ensures within { result ≤ length rest.now }
{
    match memchr(b'\n', rest) {
        Some(len) => len,
        None => rest.len(),
    }
}

#[tactic(auto, using(crate::proofs::Scans::colon_by_run))]
fn colon_len(rest: &[u8]) -> Option<usize>
    ensures len { result ≡ colon_len rest.now }
    ensures within { IfSome result (λ len. len ≤ length rest.now) }
{
    let len = run_len(Class::Label, rest);
    if has_at(rest, len, b':') {
        Some(len + 1)
    } else {
        None
    }
}

#[inline(never)]
fn label_len(rest: &[u8]) -> Option<usize>
    ensures len { result ≡ label_len rest.now }
    ensures within { IfSome result (λ len. len ≤ length rest.now) }
{
    if is_letter(*rest.first()?) {
        colon_len(rest)
    } else {
        None
    }
}

/// Whether a blank line begins here.
#[tactic(auto, using(crate::proofs::Scans::blank_steps))]
pub fn is_blank(rest: &[u8]) -> bool
    ensures { result ≡ is_blank rest.now }
{
    let len = run_len(Class::Gap, rest);
    len == rest.len() || rest[len] == b'\n'
}

/// Whether a line begins here that goes on with the body of a comment.
pub fn is_continuation(rest: &[u8]) -> bool
    ensures { result ≡ is_continuation rest.now }
{
    match rest.first() {
        Some(b' ' | b'\t' | b'#') => !is_blank(rest),
        _ => false,
    }
}

#[inline(never)]
#[tactic(auto, using(crate::proofs::Scans::body_steps))]
fn body_len(rest: &[u8]) -> usize
    ensures len { result ≡ body_len rest.now }
    ensures within { result ≤ length rest.now }
{
    let mut at: usize = 0;
    while at < rest.len() {
        at += line_len(rest.split_at(at).1);
        if at >= rest.len() {
            return at;
        }
        if !is_continuation(rest.split_at(at + 1).1) {
            return at;
        }
        at += 1;
    }
    at
}

#[inline(always)]
fn sign_len(rest: &[u8]) -> Option<usize>
    ensures len { result ≡ sign_len rest.now }
    ensures within { IfSome result (λ len. len ≤ length rest.now) }
{
    let byte = *rest.first()?;
    if rest.len() > 1 && is_long_sign(byte, rest[1]) {
        Some(2)
    } else if is_short_sign(byte) {
        Some(1)
    } else {
        None
    }
}

fn with_sort(sort: Sort, len: Option<usize>) -> Option<(Lexeme, usize)>
    ensures { result ≡ with_sort sort len }
{
    match len {
        Some(len) => Some((Lexeme::Token(sort), len)),
        None => None,
    }
}

/// The lexeme that begins here within a line.
#[inline(always)]
#[tactic(auto, using(crate::proofs::Lexemes::plain_lexeme_by_kind))]
fn plain_lexeme(rest: &[u8]) -> Option<(Lexeme, usize)>
    requires { 0 < length rest.now }
    ensures lexeme { result ≡ plain_lexeme false rest.now }
    ensures within { IfSome result (λ p. p.1 ≤ length rest.now) }
{
    match kind_of(rest[0]) {
        Kind::Space => Some((Lexeme::White, white_len(rest))),
        Kind::Hash => Some((Lexeme::Comment, line_len(rest))),
        Kind::Word => Some((Lexeme::Token(Sort::Name), run_len(Class::Name, rest))),
        Kind::Numeral => Some((Lexeme::Token(Sort::Number), run_len(Class::Digit, rest))),
        Kind::Quote => with_sort(Sort::Text, quote_len(rest)),
        Kind::Lone => Some((Lexeme::Token(Sort::Sign), 1)),
        Kind::Other => with_sort(Sort::Sign, sign_len(rest)),
    }
}

/// The label or body that begins here. None begins within a line.
#[inline(always)]
#[tactic(auto, using(crate::proofs::Lexemes::label_here, crate::proofs::Lexemes::no_label))]
pub(crate) fn starting_lexeme(context: Context, rest: &[u8]) -> Option<(Lexeme, usize)>
    ensures lexeme { IsFoundAt context rest.now result }
    ensures within { IfSome result (λ p. p.1 ≤ length rest.now) }
{
    match context {
        Context::LineStart => with_sort(Sort::Label, label_len(rest)),
        Context::WithinLine => None,
        Context::CommentBody => Some((Lexeme::Token(Sort::Body), body_len(rest))),
    }
}

/// The lexeme that begins here, with its length: the label or body that was found, or else one as within a line.
#[inline(always)]
pub(crate) fn lexeme_at(found: Option<(Lexeme, usize)>, rest: &[u8]) -> Option<(Lexeme, usize)>
    requires some { 0 < length rest.now }
    requires within { IfSome found (λ p. p.1 ≤ length rest.now) }
    ensures lexeme { (context : Context) → IsFoundAt context rest.now found → result ≡ lexeme_at context rest.now }
    ensures within { IfSome result (λ p. p.1 ≤ length rest.now) }
{
    match found {
        Some(found) => Some(found),
        None => plain_lexeme(rest),
    }
}
