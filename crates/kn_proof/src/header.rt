//! Line 1 of a reply.
ghost use Rattle.std.specs.Prelude.{◌≡◌, ◌≢◌, ◌⊎◌, ◌++◌, ◌↔◌, ℕ, List, IsTrue, IfOk, IfErr, MatchOption};
ghost use Rattle.kn_proof.specs.Lines.{IsHeaderForm, header_parts};
ghost use Rattle.kn_proof.specs.Reading.{HasNoHeader, IsHeader, IsHeaderFault, header_of, header_text};
ghost use Rattle.kn_proof.specs.Words.{AreHeaderWords};
ghost use Rattle.kn_proof.specs.declared.fault.ProofFault.TheVariants as F;

use crate::fault::ProofFault;
use crate::text::{is_name, is_numeral, number, small_number};
use kn_base::text::{behind, cut};
use kn_base::{NoMemory, Octets};
use std::alloc::Global;

/// What line 1 of a reply tells.
#[derive(Drop)]
pub(crate) struct Header {
    /// The place of the compliance value among those of the query, counted from the lowest, 0.
    pub value: u8,
    pub name: Octets,
    pub version: u32,
    /// How many ROW lines follow.
    pub count: u32,
}

/// Line 1, and the lines behind it.
#[derive(Drop)]
pub(crate) struct HeaderLine<'a> {
    pub header: Header,
    pub rest: &'a [u8],
}

/// What line 1 tells, its name as it stands there, and the lines behind it.
#[derive(Clone, Copy)]
pub(crate) struct ScannedHeader<'a> {
    pub value: u8,
    pub name: &'a [u8],
    pub version: u32,
    pub count: u32,
    pub rest: &'a [u8],
}

/// Line 1 by its words, and the lines behind it.
#[derive(Clone, Copy)]
struct HeaderWords<'a> {
    value: &'a [u8],
    name: &'a [u8],
    version: &'a [u8],
    count: &'a [u8],
    rest: &'a [u8],
}

/// Reads line 1 of a text.
pub(crate) fn read_header(alloc: Global, text: &[u8]) -> Result<HeaderLine<'_>, ProofFault>
    ensures spelled { IfOk result (λ line. text.now ≡ header_text line.header ++ line.rest.now) }
    ensures range { IfOk result (λ line. IsHeader line.header) }
    ensures err { IfErr result (λ fault. (fault ≡ F.NoMemory) ⊎ IsHeaderFault text.now fault) }
{
    let line = match scan_header(text) {
        Ok(line) => line,
        Err(fault) => return Err(fault),
    };
    let name = match Octets::from_slice(alloc, line.name) {
        Ok(name) => name,
        Err(NoMemory) => return Err(ProofFault::NoMemory),
    };
    Ok(HeaderLine {
        header: Header {
            value: line.value,
            name,
            version: line.version,
            count: line.count,
        },
        rest: line.rest,
    })
}

/// Tries line 1 of a text, without memory.
pub(crate) fn scan_header(text: &[u8]) -> Result<ScannedHeader<'_>, ProofFault>
    ensures spelled { IfOk result (λ line. text.now
        ≡ header_text (header_of line.value line.name.now line.version line.count) ++ line.rest.now) }
    ensures range { IfOk result (λ line. IsHeader (header_of line.value line.name.now line.version line.count)) }
    ensures err { IfErr result (λ fault. IsHeaderFault text.now fault) }
{
    let Some(words) = header_words(text) else {
        return Err(ProofFault::Line { n: 1 });
    };
    if !is_form(&words) {
        return Err(ProofFault::Line { n: 1 });
    }
    let Some(value) = small_number(words.value) else {
        return Err(ProofFault::Number { n: 1 });
    };
    let Some(version) = number(words.version) else {
        return Err(ProofFault::Number { n: 1 });
    };
    let Some(count) = number(words.count) else {
        return Err(ProofFault::Number { n: 1 });
    };
    Ok(ScannedHeader {
        value,
        name: words.name,
        version,
        count,
        rest: words.rest,
    })
}

/// The words of line 1, each up to the byte that ends it there.
fn header_words(text: &[u8]) -> Option<HeaderWords<'_>>
    ensures { MatchOption result (HasNoHeader text.now)
        (λ words. AreHeaderWords text.now
        (header_parts words.value.now words.name.now words.version.now words.count.now) words.rest.now) }
{
    let words = behind(text, b"VALUE ")?;
    let (value, words) = cut(words, b' ')?;
    let (name, words) = cut(words, b' ')?;
    let (version, words) = cut(words, b' ')?;
    let (count, rest) = cut(words, b'\n')?;
    Some(HeaderWords {
        value,
        name,
        version,
        count,
        rest,
    })
}

fn is_form(words: &HeaderWords<'_>) -> bool
    ensures { IsTrue result ↔ IsHeaderForm
        (header_parts words.now.value.now words.now.name.now words.now.version.now words.now.count.now) }
{
    is_numeral(words.value)
        && is_name(words.name)
        && is_numeral(words.version)
        && is_numeral(words.count)
}
