//! Where a literal ends.

ghost use Rattle.std.specs.Prelude.{◌≡◌, ◌≤◌, length, drop, IfSome};
ghost use Rattle.kn_lex.specs.Scanning.{quote_step, quote_len, more_len};

use crate::bytes::{Class, run_len};

/// Where in a literal a byte stands.
#[derive(Clone, Copy)]
pub enum Quote {
    /// Before the opening quote.
    Opening,
    /// Behind a byte that begins no escape.
    Plain,
    /// Behind a backslash.
    Escaped,
    /// Behind a backslash and a carriage return, which wants its newline.
    Returned,
    /// In the white space behind an escaped newline.
    Joined,
}

/// What a byte does to a literal.
#[derive(Clone, Copy)]
pub enum Step {
    /// No literal goes on with the byte.
    Fail,
    /// The byte is the closing quote.
    Close,
    /// The literal goes on, and the next byte stands there.
    Go(Quote),
}

/// One byte of a literal. It is closed by its second quote, and fails at a bare end of a line.
pub fn quote_step(quote: Quote, byte: u8) -> Step
    ensures { result ≡ quote_step quote byte }
{
    match (quote, byte) {
        (Quote::Opening, b'"') => Step::Go(Quote::Plain),
        (Quote::Opening, _) => Step::Fail,
        (Quote::Escaped, b'\r') => Step::Go(Quote::Returned),
        (Quote::Escaped, b'\n') => Step::Go(Quote::Joined),
        (Quote::Escaped, _) => Step::Go(Quote::Plain),
        (Quote::Returned, b'\n') => Step::Go(Quote::Joined),
        (Quote::Returned, _) => Step::Fail,
        (_, b'"') => Step::Close,
        (_, b'\\') => Step::Go(Quote::Escaped),
        (Quote::Joined, b' ' | b'\t' | b'\r' | b'\n') => Step::Go(Quote::Joined),
        (Quote::Plain, b'\r' | b'\n') => Step::Fail,
        _ => Step::Go(Quote::Plain),
    }
}

/// How many bytes in a row leave a literal where it stands.
#[inline(always)]
#[tactic(auto, using(crate::proofs::Scans::quoted_run, crate::proofs::Scans::more_len_zero))]
fn stay_len(quote: Quote, rest: &[u8]) -> usize
    ensures len { quote_len quote rest.now ≡ more_len result (quote_len quote (drop result rest.now)) }
    ensures within { result ≤ length rest.now }
{
    match quote {
        Quote::Plain => run_len(Class::Quoted, rest),
        _ => 0,
    }
}

/// The bytes of the literal that begins here, or None where it isn't closed.
#[tactic(auto, using(crate::proofs::Scans::quote_steps))]
pub(crate) fn quote_len(rest: &[u8]) -> Option<usize>
    ensures len { result ≡ quote_len Quote.Opening rest.now }
    ensures within { IfSome result (λ len. len ≤ length rest.now) }
{
    let mut quote = Quote::Opening;
    let mut at: usize = 0;
    while at < rest.len() {
        match quote_step(quote, rest[at]) {
            Step::Fail => return None,
            Step::Close => return Some(at + 1),
            Step::Go(next) => quote = next,
        }
        at += 1;
        at += stay_len(quote, rest.split_at(at).1);
    }
    None
}
