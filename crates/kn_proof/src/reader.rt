//! Reading a reply with a value.
ghost use Rattle.std.specs.Prelude.{◌≡◌, ◌⊎◌, ◌<◌, ◌^◌, [], length, IfOk, IfErr, OnOk, MatchResult};
ghost use Rattle.kn_proof.specs.declared.reply.ReadReply.{ReadReply};
ghost use Rattle.kn_proof.specs.declared.header.Header.{Header};
ghost use Rattle.kn_proof.specs.Reading.{HasHead, IsReplyText, IsFirstFault, IsUnread};
ghost use Rattle.kn_proof.specs.Words.{AreCountedLines, AreRowLines, IsEndFault, IsFaultBehind, IsOfHeader};
ghost use Rattle.kn_proof.specs.declared.fault.ProofFault.{ProofFault};
ghost use Rattle.kn_proof.specs.declared.fault.ProofFault.TheVariants as F;

use crate::fault::ProofFault;
use crate::header::{Header, read_header, scan_header};
use crate::named::NamedRow;
use crate::reply::{ReadReply, ReplyHead};
use crate::row_line::{read_row, scan_row};
use kn_base::text::behind;
use kn_base::{List, NoMemory};
use std::alloc::Global;

/// The parts of a `VALUE` reply, or the first fault of a text that is none.
///
/// The form is keynoted's own: a line `VALUE index name version rows`, so many lines `ROW index id "principal"` and the
/// line `END`, each with its newline, and nothing behind. Numbers are decimal, without leading zeros and of at most
/// nine digits, and an index of a compliance value is at most 255. A name has 1 to 128 bytes from 33 to 126, none a
/// comma. An id is the letter `a` for a shared or `p` for a private assertion, and its number. In a principal `"` and
/// `\` have a backslash before them, and bytes below 32 or above 126 are a backslash and three octal digits; nothing
/// else is escaped.
///
/// Lines are tried in order, and in a line its form comes before its numbers. The number of rows is tried at the line
/// `END`, before what stands behind it. All this takes no memory: only reading a reply may run out of it.
pub fn read_reply(alloc: Global, text: &[u8]) -> Result<ReadReply, ProofFault>
    ensures ok { IfOk result (λ reply. IsReplyText text.now reply) }
    ensures err { IfErr result (λ fault. IsUnread text.now fault) }
    // The text of a reply is read, and it is that of no other.
    ensures only { (reply : ReadReply) → IsReplyText text.now reply
        → MatchResult result (λ read. read ≡ reply) (λ fault. fault ≡ F.NoMemory) }
    // And a first fault is given.
    ensures exact { (fault : ProofFault) → IsFirstFault text.now fault
        → MatchResult result (λ read. ⊥) (λ told. told ≡ fault) }
{
    match scan_reply(text) {
        Ok(_head) => read(alloc, text),
        Err(fault) => Err(fault),
    }
}

/// The head of a `VALUE` reply, or the first fault of a text that is none. Takes no memory.
pub fn scan_reply(text: &[u8]) -> Result<ReplyHead<'_>, ProofFault>
    ensures ok { IfOk result (λ head. HasHead text.now head.value head.name.now head.version) }
    ensures err { IfErr result (λ fault. IsFirstFault text.now fault) }
{
    let line = match scan_header(text) {
        Ok(line) => line,
        Err(fault) => return Err(fault),
    };
    match scan_rows(line.count, line.rest) {
        Ok(()) => Ok(ReplyHead {
            value: line.value,
            name: line.name,
            version: line.version,
        }),
        Err(fault) => Err(fault),
    }
}

/// Tries the lines behind line 1, which tells so many rows.
fn scan_rows(count: u32, lines: &[u8]) -> Result<(), ProofFault>
    ensures ok { OnOk result (AreCountedLines count lines.now) }
    ensures err { (header : Header) → header.count ≡ count
        → IfErr result (λ fault. IsFaultBehind header lines.now fault) }
{
    let mut rows: usize = 0;
    let mut rest = lines;
    'rows: loop {
        if let Some(after) = behind(rest, b"END\n") {
            return end(count, rows, after);
        }
        match scan_row(rows + 2, rest) {
            Ok(line) => rest = line.rest,
            Err(fault) => return Err(fault),
        }
        rows += 1;
    }
}

/// Tries the end of a reply of so many rows, whose line 1 tells `count`, where this stands behind the line `END`.
fn end(count: u32, rows: usize, after: &[u8]) -> Result<(), ProofFault>
    requires { rows < 2 ^ 63 }
    ensures count { OnOk result (rows ≡ count) }
    ensures nothing { OnOk result (after.now ≡ []) }
    ensures err { (header : Header) → header.count ≡ count
        → IfErr result (λ fault. IsEndFault header rows after.now fault) }
{
    if rows != count as usize {
        return Err(ProofFault::Count { n: rows });
    }
    if !after.is_empty() {
        return Err(ProofFault::Line { n: rows + 3 });
    }
    Ok(())
}

fn read(alloc: Global, text: &[u8]) -> Result<ReadReply, ProofFault>
    ensures ok { IfOk result (λ reply. IsReplyText text.now reply) }
    ensures err { IfErr result (λ fault. (fault ≡ F.NoMemory) ⊎ IsFirstFault text.now fault) }
{
    match read_header(alloc, text) {
        Ok(line) => read_rows(alloc, line.header, line.rest),
        Err(fault) => Err(fault),
    }
}

/// Reads the lines behind line 1.
fn read_rows(alloc: Global, header: Header, lines: &[u8]) -> Result<ReadReply, ProofFault>
    ensures ok { IfOk result (λ reply. AreRowLines header lines.now reply) }
    ensures err { IfErr result (λ fault. (fault ≡ F.NoMemory) ⊎ IsFaultBehind header lines.now fault) }
{
    let mut rows = List::new(alloc);
    let mut rest = lines;
    'rows: loop {
        if let Some(after) = behind(rest, b"END\n") {
            return end_reply(header, rows, after);
        }
        match read_row(alloc, rows.len() as usize + 2, rest) {
            Ok(line) => {
                match rows.add(line.row) {
                    Ok(()) => {}
                    Err(NoMemory) => return Err(ProofFault::NoMemory),
                }
                rest = line.rest;
            }
            Err(fault) => return Err(fault),
        }
    }
}

/// The reply of these rows, behind whose line `END` this stands.
fn end_reply(header: Header, rows: List<NamedRow>, after: &[u8]) -> Result<ReadReply, ProofFault>
    ensures same_rows { IfOk result (λ reply. reply.rows ≡ rows) }
    ensures of_header { IfOk result (λ reply. IsOfHeader header reply) }
    ensures nothing { IfOk result (λ reply. after.now ≡ []) }
    ensures err { IfErr result (λ fault. IsEndFault header (length rows) after.now fault) }
{
    match end(header.count, rows.len() as usize, after) {
        Ok(()) => Ok(ReadReply {
            value: header.value,
            name: header.name,
            version: header.version,
            rows,
        }),
        Err(fault) => Err(fault),
    }
}
