//! The replies to queries as text (keynoted's own line protocol).
ghost use Rattle.std.specs.Prelude.{◌≡◌, ◌+◌, ◌/◌, ◌%◌, ◌∷◌, [], flat_map};
ghost use Rattle.std.specs.List.{list_all};
ghost use Rattle.kn_proof.specs.Texts.{id_text, quoted_byte, row_text, value_text};
ghost use Rattle.kn_reply.specs.Gathering.{Puts};
ghost use Rattle.kn_reply.specs.Plain.{is_plain};
ghost use Rattle.kn_reply.specs.Replies.{critical_text, need_text, news_text};

use crate::number_printing::{put_behind, put_number, put_one, put_two};
use crate::printer::Printer;
use kn_base::List;
use kn_outside::Sink;
use kn_proof::{Id, NamedRow};

/// The reply that gives a compliance value, with its rows.
pub(crate) fn put_value<const N: usize, O: Sink>(
    printer: &mut Printer<N>,
    out: &mut O,
    index: u8,
    name: &[u8],
    version: u32,
    rows: &List<NamedRow>,
)
    ensures { Puts (value_text index name.now version rows.now)
        printer.old (O.seen out.old) printer.new (O.seen out.new) }
{
    printer.put(out, b"VALUE ");
    put_number(printer, out, u32::from(index));
    printer.put(out, b" ");
    printer.put(out, name);
    printer.put(out, b" ");
    put_two(printer, out, b"", version, rows.len());
    put_rows(printer, out, rows);
    printer.put(out, b"END\n");
}

fn put_rows<const N: usize, O: Sink>(printer: &mut Printer<N>, out: &mut O, rows: &List<NamedRow>)
    ensures { Puts (flat_map row_text rows.now) printer.old (O.seen out.old) printer.new (O.seen out.new) }
{
    for row in rows.as_slice() {
        put_row(printer, out, row);
    }
}

fn put_row<const N: usize, O: Sink>(printer: &mut Printer<N>, out: &mut O, row: &NamedRow)
    ensures { Puts (row_text row.now) printer.old (O.seen out.old) printer.new (O.seen out.new) }
{
    printer.put(out, b"ROW ");
    put_number(printer, out, u32::from(row.value));
    printer.put(out, b" ");
    put_id(printer, out, row.id);
    printer.put(out, b" \"");
    put_quoted(printer, out, row.principal.as_slice());
    printer.put(out, b"\"\n");
}

/// A principal as it stands between quotes. One that needs no escapes is put at once.
fn put_quoted<const N: usize, O: Sink>(printer: &mut Printer<N>, out: &mut O, principal: &[u8])
    ensures { Puts (flat_map quoted_byte principal.now) printer.old (O.seen out.old) printer.new (O.seen out.new) }
{
    if are_plain(principal) {
        printer.put(out, principal);
        return;
    }
    for byte in principal {
        put_quoted_byte(printer, out, *byte);
    }
}

/// Whether all bytes stand for themselves between quotes.
fn are_plain(text: &[u8]) -> bool
    ensures { result ≡ list_all is_plain text.now }
{
    text.iter().all(|byte| is_plain(*byte))
}

fn is_plain(byte: u8) -> bool
    ensures { result ≡ is_plain byte }
{
    byte != b'"' && byte != b'\\' && 32 <= byte && byte <= 126
}

/// One byte of a principal: quotes and backslashes behind a backslash, and what isn't printed in octal.
fn put_quoted_byte<const N: usize, O: Sink>(printer: &mut Printer<N>, out: &mut O, byte: u8)
    ensures { Puts (quoted_byte byte) printer.old (O.seen out.old) printer.new (O.seen out.new) }
{
    if byte == b'"' || byte == b'\\' {
        printer.put(out, &[b'\\', byte]);
    } else if byte < 32 || byte > 126 {
        printer.put(out, &octal(byte));
    } else {
        printer.put(out, &[byte]);
    }
}

/// A backslash and the three octal digits of a byte.
fn octal(byte: u8) -> [u8; 4]
    ensures { result ≡ 92 ∷ (48 + byte / 64) ∷ (48 + byte / 8 % 8) ∷ (48 + byte % 8) ∷ [] }
{
    [
        b'\\',
        b'0' + byte / 64,
        b'0' + byte / 8 % 8,
        b'0' + byte % 8,
    ]
}

/// The reply that gives a standing query's compliance value.
pub(crate) fn put_news<const N: usize, O: Sink>(
    printer: &mut Printer<N>,
    out: &mut O,
    index: u8,
    name: &[u8],
    version: u32,
)
    ensures { Puts (news_text index name.now version) printer.old (O.seen out.old) printer.new (O.seen out.new) }
{
    printer.put(out, b"NEWS ");
    put_number(printer, out, u32::from(index));
    printer.put(out, b" ");
    printer.put(out, name);
    put_one(printer, out, b" ", version);
}

/// The reply that names the critical assertions of a query.
pub(crate) fn put_critical<const N: usize, O: Sink>(
    printer: &mut Printer<N>,
    out: &mut O,
    index: u8,
    ids: &List<Id>,
)
    ensures { Puts (critical_text index ids.now) printer.old (O.seen out.old) printer.new (O.seen out.new) }
{
    put_two(printer, out, b"CRITICAL ", u32::from(index), ids.len());
    put_needs(printer, out, ids);
    printer.put(out, b"END\n");
}

fn put_needs<const N: usize, O: Sink>(printer: &mut Printer<N>, out: &mut O, ids: &List<Id>)
    ensures { Puts (flat_map need_text ids.now) printer.old (O.seen out.old) printer.new (O.seen out.new) }
{
    for id in ids.as_slice() {
        put_need(printer, out, *id);
    }
}

fn put_need<const N: usize, O: Sink>(printer: &mut Printer<N>, out: &mut O, id: Id)
    ensures { Puts (need_text id) printer.old (O.seen out.old) printer.new (O.seen out.new) }
{
    printer.put(out, b"NEED ");
    put_id(printer, out, id);
    printer.put(out, b"\n");
}

fn put_id<const N: usize, O: Sink>(printer: &mut Printer<N>, out: &mut O, id: Id)
    ensures { Puts (id_text id) printer.old (O.seen out.old) printer.new (O.seen out.new) }
{
    match id {
        Id::Shared(number) => put_behind(printer, out, b"a", number),
        Id::Private(number) => put_behind(printer, out, b"p", number),
    }
}
