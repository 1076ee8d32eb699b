//! Cutting a policy file into its texts, at blank lines that stand in no literal.
ghost use Rattle.std.specs.Prelude.{◌≡◌, ◌≤◌, ◌<◌, ◌-◌, ◌++◌, ◌∷◌, not, ◌&&◌, IfOk, OnOk, length, All, take, drop};
ghost use Rattle.kn_lex.specs.Spelling.{is_blank};
ghost use Rattle.kn_files.specs.Lines.{lines_of, is_literal};
ghost use Rattle.kn_files.specs.Pieces.{is_assertion, spans_of, IsWithin};
ghost use Rattle.kn_files.specs.Splitting.{span_if};

use crate::within::{Within, after_line, is_literal};
use kn_base::limits::FILE_BYTES;
use kn_base::{List, NoMemory, Span};
use kn_lex::{goes_on, is_blank, line_len};
use std::alloc::Global;

/// The bytes of the line that begins here, with its newline.
#[tactic(auto, using(crate::proofs::Splitting::line_sizes))]
fn line_size(rest: &[u8]) -> usize
    requires { 0 < length rest.now }
    ensures line { lines_of rest.now ≡ take result rest.now ∷ lines_of (drop result rest.now) }
    ensures some { 0 < result }
    ensures within { result ≤ length rest.now }
{
    let len = line_len(rest);
    if len < rest.len() { len + 1 } else { len }
}

fn is_assertion(text: &[u8]) -> bool
    ensures { result ≡ is_assertion text.now }
{
    goes_on(text) || text.contains(&0)
}

/// Adds the piece from `start` to `end`, where it is an assertion.
fn push_piece(spans: &mut List<Span>, file: &[u8], start: usize, end: usize) -> Result<(), NoMemory>
    requires order { start ≤ end }
    requires within { end ≤ length file.now }
    requires short { length file.now ≤ FILE_BYTES }
    ensures { OnOk result (spans.new ≡ spans.old ++ span_if start (take (end - start) (drop start file.now))) }
{
    let text = file.split_at(start).1.split_at(end - start).0;
    if !is_assertion(text) {
        return Ok(());
    }
    let span = Span {
        start: start as u32,
        end: end as u32,
    };
    spans.add(span)
}

/// Whether the file is cut at this line.
fn is_cut(within: Within, line: &[u8]) -> bool
    ensures { result ≡ (not (is_literal within) && is_blank line.now) }
{
    !is_literal(within) && is_blank(line)
}

/// Where the assertions of a policy file stand, in bytes of the file and in their order.
///
/// The file is cut at its blank lines, of spaces, tabs and carriage returns alone, but for those within a
/// literal that goes on over an escaped newline. A literal ends before a bare end of its line. What has
/// neither a token nor a lexical fault is no assertion. That an assertion lexes isn't asked. The rule is
/// keynoted's own.
pub fn split_file(alloc: Global, file: &[u8]) -> Result<List<Span>, NoMemory>
    requires { length file.now ≤ FILE_BYTES }
    ensures spans { IfOk result (λ spans. spans ≡ spans_of file.now) }
    ensures within { IfOk result (λ spans. All (IsWithin file.now) spans) }
{
    let mut spans = List::new(alloc);
    let mut within = Within::Plain;
    let mut start: usize = 0;
    let mut at: usize = 0;
    while at < file.len() {
        let rest = file.split_at(at).1;
        let line = rest.split_at(line_size(rest)).0;
        let next = at + line.len();
        if is_cut(within, line) {
            push_piece(&mut spans, file, start, at)?;
            start = next;
        }
        within = after_line(within, line);
        at = next;
    }
    push_piece(&mut spans, file, start, at)?;
    Ok(spans)
}
