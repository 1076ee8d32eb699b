//! The ROW lines of a reply.
ghost use Rattle.std.specs.Prelude.{◌≡◌, ◌≤◌, ◌<◌, ◌⊎◌, ◌++◌, ℕ, List, true, length};
ghost use Rattle.std.specs.Prelude.{IfOk, IfErr, IfSome, IfNone, MatchOption};
ghost use Rattle.kn_proof.specs.Texts.{id_text, row_text};
ghost use Rattle.kn_proof.specs.Lines.{is_id};
ghost use Rattle.kn_proof.specs.Reading.{HasNoRow, IsReadRow, id_number};
ghost use Rattle.kn_proof.specs.Words.{AreRowWords, IsRowAt, IsRowLineFault};
ghost use Rattle.kn_proof.specs.declared.fault.ProofFault.TheVariants as F;

use crate::fault::ProofFault;
use crate::named::{Id, NamedRow};
use crate::quoted::{behind_quoted, read_quoted};
use crate::text::{is_numeral, number, small_number};
use kn_base::NoMemory;
use kn_base::text::{behind, cut};
use std::alloc::Global;

/// A row, and the lines behind its own.
#[derive(Drop)]
pub(crate) struct RowLine<'a> {
    pub row: NamedRow,
    pub rest: &'a [u8],
}

/// What a ROW line tells, its principal as it stands there, and the lines behind its own.
#[derive(Clone, Copy)]
pub(crate) struct ScannedRow<'a> {
    value: u8,
    id: Id,
    /// The quoted bytes of the principal, and all that is behind them.
    quoted: &'a [u8],
    pub rest: &'a [u8],
}

/// The words of a ROW line before its principal, and what is behind the quote.
#[derive(Clone, Copy)]
struct RowWords<'a> {
    value: &'a [u8],
    id: &'a [u8],
    rest: &'a [u8],
}

/// Reads the ROW line of number `n` at the front of a text.
pub(crate) fn read_row(alloc: Global, n: usize, text: &[u8]) -> Result<RowLine<'_>, ProofFault>
    ensures spelled { IfOk result (λ line. text.now ≡ row_text line.row ++ line.rest.now) }
    ensures range { IfOk result (λ line. IsReadRow line.row) }
    ensures err { IfErr result (λ fault. (fault ≡ F.NoMemory) ⊎ IsRowLineFault n text.now fault) }
{
    let line = match scan_row(n, text) {
        Ok(line) => line,
        Err(fault) => return Err(fault),
    };
    match read_quoted(alloc, line.quoted) {
        Ok(quoted) => Ok(RowLine {
            row: NamedRow {
                value: line.value,
                id: line.id,
                principal: quoted.principal,
            },
            rest: line.rest,
        }),
        Err(NoMemory) => Err(ProofFault::NoMemory),
    }
}

/// Tries the ROW line of number `n` at the front of a text, without memory.
pub(crate) fn scan_row(n: usize, text: &[u8]) -> Result<ScannedRow<'_>, ProofFault>
    ensures ok { IfOk result (λ line. IsRowAt text.now line.value line.id line.quoted.now line.rest.now) }
    ensures err { IfErr result (λ fault. IsRowLineFault n text.now fault) }
{
    let Some(words) = row_words(text) else {
        return Err(ProofFault::Line { n });
    };
    if !is_numeral(words.value) || !is_id(words.id) {
        return Err(ProofFault::Line { n });
    }
    let Some(rest) = behind(behind_quoted(words.rest), b"\"\n") else {
        return Err(ProofFault::Line { n });
    };
    let Some(value) = small_number(words.value) else {
        return Err(ProofFault::Number { n });
    };
    let Some(id) = read_id(words.id) else {
        return Err(ProofFault::Number { n });
    };
    Ok(ScannedRow {
        value,
        id,
        quoted: words.rest,
        rest,
    })
}

/// The words of a ROW line before its principal, each up to the space that ends it.
fn row_words(text: &[u8]) -> Option<RowWords<'_>>
    ensures { MatchOption result (HasNoRow text.now)
        (λ words. AreRowWords text.now words.value.now words.id.now words.rest.now) }
{
    let words = behind(text, b"ROW ")?;
    let (value, words) = cut(words, b' ')?;
    let (id, words) = cut(words, b' ')?;
    let rest = behind(words, b"\"")?;
    Some(RowWords { value, id, rest })
}

fn is_id(text: &[u8]) -> bool
    ensures { result ≡ is_id text.now }
{
    match text.split_first() {
        Some((letter, number)) => (*letter == b'a' || *letter == b'p') && is_numeral(number),
        None => false,
    }
}

/// The id that a text spells; None where its number has more than nine digits.
fn read_id(text: &[u8]) -> Option<Id>
    requires { is_id text.now ≡ true }
    ensures short { IfSome result (λ id. length text.now ≤ 10) }
    ensures spelled { IfSome result (λ id. id_text id ≡ text.now) }
    ensures range { IfSome result (λ id. id_number id < 1000000000) }
    ensures long { IfNone result (10 < length text.now) }
{
    let (letter, digits) = text.split_first()?;
    let number = number(digits)?;
    if *letter == b'a' {
        Some(Id::Shared(number))
    } else {
        Some(Id::Private(number))
    }
}
