//! Lexemes of a text, and the places before and behind them.

ghost use Rattle.std.specs.Prelude.{◌≡◌, length};
ghost use Rattle.kn_lex.specs.Cutting.{is_token, is_comment_label, ends_line};
ghost use Rattle.kn_lex.specs.Cutting.{context_after, is_line_start, place_after, start};
ghost use Rattle.kn_lex.specs.Scanning.{is_number};

use crate::token::Sort;

/// A part of a text: a token, or what stands between tokens.
#[derive(Clone, Copy)]
pub enum Lexeme {
    /// White space up to the end of its line.
    White,
    /// `#` and the rest of its line.
    Comment,
    /// A token of this sort.
    Token(Sort),
}

/// Where in its line a lexeme stands.
#[derive(Clone, Copy)]
pub enum Context {
    /// At the beginning of a line.
    LineStart,
    /// Behind a lexeme of the line that isn't the label `Comment:`.
    WithinLine,
    /// Directly behind the label `Comment:`.
    CommentBody,
}

/// A place in a text, by what stands before it: its context, and whether a token does.
#[derive(Clone, Copy)]
pub struct Place {
    pub context: Context,
    pub has_token: bool,
}

pub(crate) fn is_line_start(context: Context) -> bool
    ensures { result ≡ is_line_start context }
{
    matches!(context, Context::LineStart)
}

pub(crate) fn is_token(lexeme: Lexeme) -> bool
    ensures { result ≡ is_token lexeme }
{
    matches!(lexeme, Lexeme::Token(_))
}

pub(crate) fn is_number(lexeme: Lexeme) -> bool
    ensures { result ≡ is_number lexeme }
{
    matches!(lexeme, Lexeme::Token(Sort::Number))
}

#[tactic(auto, using(crate::proofs::Scans::ends_line_by_last))]
pub(crate) fn ends_line(bytes: &[u8]) -> bool
    ensures { result ≡ ends_line bytes.now }
{
    !bytes.is_empty() && bytes[bytes.len() - 1] == b'\n'
}

/// Whether this is the label `Comment:`, in any case of letters.
pub fn is_comment_label(bytes: &[u8]) -> bool
    ensures { result ≡ is_comment_label bytes.now }
{
    bytes.eq_ignore_ascii_case(b"Comment:".as_slice())
}

pub(crate) fn context_after(lexeme: Lexeme, bytes: &[u8]) -> Context
    ensures { result ≡ context_after lexeme bytes.now }
{
    match lexeme {
        Lexeme::White => {
            if ends_line(bytes) {
                Context::LineStart
            } else {
                Context::WithinLine
            }
        }
        Lexeme::Token(Sort::Label) => {
            if is_comment_label(bytes) {
                Context::CommentBody
            } else {
                Context::WithinLine
            }
        }
        _ => Context::WithinLine,
    }
}

/// The beginning of a text.
pub(crate) fn start() -> Place
    ensures { result ≡ start }
{
    Place {
        context: Context::LineStart,
        has_token: false,
    }
}

/// The place behind a lexeme.
pub(crate) fn place_after(place: Place, lexeme: Lexeme, bytes: &[u8]) -> Place
    ensures { result ≡ place_after place lexeme bytes.now }
{
    Place {
        context: context_after(lexeme, bytes),
        has_token: place.has_token || is_token(lexeme),
    }
}
