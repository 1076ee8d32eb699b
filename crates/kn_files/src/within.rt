//! Where in a text the bytes of a line stand: in a comment, a body, a literal or none of them.
ghost use Rattle.std.specs.Prelude.{◌≡◌, take, fold};
ghost use Rattle.kn_lex.specs.Cutting.{is_comment_label};
ghost use Rattle.kn_files.specs.Lines.{after_plain, after_byte, at_line_start, is_of_comment, after_line, is_literal};
ghost use Rattle.kn_files.specs.Splitting.{ends_bare, settle_comment};

use kn_lex::{Quote, Step, is_comment_label, is_continuation, quote_step};

/// What a byte of a file stands in.
#[derive(Clone, Copy)]
pub enum Within {
    /// In no comment and no literal.
    Plain,
    /// In a comment, which ends with its line.
    Comment,
    /// In a line with the label of a comment, or one that goes on with its body.
    Body,
    /// In a literal.
    Literal(Quote),
}

fn after_plain(byte: u8) -> Within
    ensures { result ≡ after_plain byte }
{
    match byte {
        b'"' => Within::Literal(Quote::Plain),
        b'#' => Within::Comment,
        _ => Within::Plain,
    }
}

fn after_byte(within: Within, byte: u8) -> Within
    ensures { result ≡ after_byte within byte }
{
    match within {
        Within::Plain => after_plain(byte),
        Within::Comment => Within::Comment,
        Within::Body => Within::Body,
        Within::Literal(quote) => match quote_step(quote, byte) {
            Step::Fail => after_plain(byte),
            Step::Close => Within::Plain,
            Step::Go(next) => Within::Literal(next),
        },
    }
}

fn at_line_start(within: Within) -> Within
    ensures { result ≡ at_line_start within }
{
    match within {
        Within::Literal(quote) => Within::Literal(quote),
        _ => Within::Plain,
    }
}

fn has_comment_label(line: &[u8]) -> bool
    ensures { result ≡ is_comment_label (take 8 line.now) }
{
    let len = if line.len() < 8 { line.len() } else { 8 };
    is_comment_label(line.split_at(len).0)
}

fn is_of_comment(within: Within, line: &[u8]) -> bool
    ensures { result ≡ is_of_comment within line.now }
{
    match within {
        Within::Literal(_) => false,
        Within::Body => has_comment_label(line) || is_continuation(line),
        _ => has_comment_label(line),
    }
}

fn after_bytes(within: Within, bytes: &[u8]) -> Within
    ensures { result ≡ fold after_byte within bytes.now }
{
    let mut within = within;
    for byte in bytes {
        within = after_byte(within, *byte);
    }
    within
}

/// Whether a line ends with a newline, before which a byte stands that is neither white space nor a backslash: no
/// literal goes on behind it.
#[tactic(auto, using(crate::proofs::Literals::ends_bare_by_last, crate::proofs::Literals::ends_bare_short))]
fn ends_bare(line: &[u8]) -> bool
    ensures { result ≡ ends_bare line.now }
{
    let len = line.len();
    len > 1
        && line[len - 1] == b'\n'
        && !matches!(line[len - 2], b' ' | b'\t' | b'\r' | b'\n' | b'\\')
}

/// What the next line begins in. Whether a comment stands at the end of the line isn't said.
#[tactic(auto, using(crate::proofs::Literals::bare_next), unfolding(crate::specs::Lines::after_line))]
pub(crate) fn after_line(within: Within, line: &[u8]) -> Within
    ensures { settle_comment result ≡ settle_comment (after_line within line.now) }
{
    if is_of_comment(within, line) {
        Within::Body
    } else if ends_bare(line) {
        Within::Plain
    } else {
        after_bytes(at_line_start(within), line)
    }
}

pub(crate) fn is_literal(within: Within) -> bool
    ensures { result ≡ is_literal within }
{
    matches!(within, Within::Literal(_))
}
