//! Replies as text (keynoted's own line protocol).
ghost use Rattle.std.specs.Prelude.{◌++◌, ◌∷◌, [], codes};
ghost use Rattle.kn_outside.specs.Printing.{Prints, is_whole};
ghost use Rattle.kn_reply.specs.Gathering.{Puts};
ghost use Rattle.kn_reply.specs.Replies.{Batched, item_refusal_text, refusal_text, reply_of, reply_text};
ghost use Rattle.kn_reply.specs.declared.refusal.ItemRefusal.TheVariants as I;
ghost use Rattle.kn_reply.specs.declared.refusal.Refusal.TheVariants as R;

use crate::log_printing::put_log;
use crate::number_printing::{put_behind, put_number, put_one, put_two};
use crate::printer::Printer;
use crate::refusal::{ItemRefusal, LimitWord, Refusal};
use crate::reply::Reply;
use crate::value_printing::{put_critical, put_news, put_value};
use kn_outside::{Failed, Sink};

/// How many bytes are gathered of a reply that has names or more than one line, before they are written.
const LONG_BYTES: usize = 1_024;

/// How many are of each other reply, of which all fits: the longest has 56. They are cleared for each reply, so they
/// are few.
const SHORT_BYTES: usize = 64;

/// Writes a reply's text. Small parts of it are gathered into few writes.
///
/// `Failed` says that a write failed. A front of the text was then written, and not all.
pub fn print<O: Sink>(reply: &Reply<'_>, out: &mut O) -> Result<(), Failed>
    ensures { Prints (is_whole result) (reply_text (reply_of reply.now)) (O.seen out.old) (O.seen out.new) }
{
    match reply {
        Reply::Value { .. } | Reply::Log { .. } | Reply::News { .. } | Reply::Critical { .. } =>
            print_long(reply, out),
        Reply::Ok
        | Reply::Started { .. }
        | Reply::Number { .. }
        | Reply::Private { .. }
        | Reply::Added { .. }
        | Reply::Batched { .. }
        | Reply::PinnedAt { .. }
        | Reply::No(_)
        | Reply::NoMemory => print_short(reply, out),
    }
}

fn print_long<O: Sink>(reply: &Reply<'_>, out: &mut O) -> Result<(), Failed>
    ensures { Prints (is_whole result) (reply_text (reply_of reply.now)) (O.seen out.old) (O.seen out.new) }
{
    let mut printer: Printer<LONG_BYTES> = Printer::new();
    put_reply(&mut printer, out, reply);
    printer.finish(out)
}

fn print_short<O: Sink>(reply: &Reply<'_>, out: &mut O) -> Result<(), Failed>
    ensures { Prints (is_whole result) (reply_text (reply_of reply.now)) (O.seen out.old) (O.seen out.new) }
{
    let mut printer: Printer<SHORT_BYTES> = Printer::new();
    put_reply(&mut printer, out, reply);
    printer.finish(out)
}

fn put_reply<const N: usize, O: Sink>(printer: &mut Printer<N>, out: &mut O, reply: &Reply<'_>)
    ensures { Puts (reply_text (reply_of reply.now)) printer.old (O.seen out.old) printer.new (O.seen out.new) }
{
    match reply {
        Reply::Ok => printer.put(out, b"OK\n"),
        Reply::Started { s, version } => put_two(printer, out, b"OK ", *s, *version),
        Reply::Number { version } => put_one(printer, out, b"OK ", *version),
        Reply::Private { k } => put_one(printer, out, b"OK p", *k),
        Reply::Added { k, version } => put_two(printer, out, b"OK a", *k, *version),
        Reply::Value {
            index,
            name,
            version,
            rows,
        } => put_value(printer, out, *index, name, *version, rows),
        Reply::Batched {
            first,
            added,
            version,
        } => put_batched(printer, out, *first, *added, *version),
        Reply::PinnedAt { version, newest } => put_two(printer, out, b"OK ", *version, *newest),
        Reply::Log { n, snapshot } => put_log(printer, out, *n, snapshot),
        Reply::News {
            index,
            name,
            version,
        } => put_news(printer, out, *index, name, *version),
        Reply::Critical { index, ids } => put_critical(printer, out, *index, ids),
        Reply::No(refusal) => put_no(printer, out, *refusal),
        Reply::NoMemory => printer.put(out, b"NOMEM\n"),
    }
}

/// The reply to an update of several changes.
fn put_batched<const N: usize, O: Sink>(
    printer: &mut Printer<N>,
    out: &mut O,
    first: u32,
    added: u32,
    version: u32,
)
    ensures { Puts (reply_text (Batched first added version))
        printer.old (O.seen out.old) printer.new (O.seen out.new) }
{
    put_behind(printer, out, b"OK a", first);
    put_two(printer, out, b" ", added, version);
}

fn put_no<const N: usize, O: Sink>(printer: &mut Printer<N>, out: &mut O, refusal: Refusal)
    ensures { Puts (codes "NO " ++ refusal_text refusal ++ 10 ∷ [])
        printer.old (O.seen out.old) printer.new (O.seen out.new) }
{
    printer.put(out, b"NO ");
    put_refusal(printer, out, refusal);
    printer.put(out, b"\n");
}

fn put_refusal<const N: usize, O: Sink>(printer: &mut Printer<N>, out: &mut O, refusal: Refusal)
    ensures { Puts (refusal_text refusal) printer.old (O.seen out.old) printer.new (O.seen out.new) }
{
    match refusal {
        Refusal::Syntax => printer.put(out, b"1 syntax"),
        Refusal::Command => printer.put(out, b"2 command"),
        Refusal::Session => printer.put(out, b"3 session"),
        Refusal::Admin => printer.put(out, b"4 admin"),
        Refusal::Read { fault, place } => put_read(printer, out, fault, place),
        Refusal::Policy => printer.put(out, b"6 policy"),
        Refusal::Auth { fault } => put_auth(printer, out, fault),
        Refusal::Name => printer.put(out, b"8 name"),
        Refusal::Value => printer.put(out, b"9 value"),
        Refusal::Values => printer.put(out, b"10 values"),
        Refusal::Principal => printer.put(out, b"11 principal"),
        Refusal::Unknown => printer.put(out, b"12 unknown"),
        Refusal::Limit { word, count } => put_limit(printer, out, word, count),
        Refusal::Long => printer.put(out, b"14 long"),
        Refusal::Block => printer.put(out, b"15 block"),
        Refusal::Batch { item } => put_behind(printer, out, b"16 batch ", item),
        Refusal::Item { item, inner } => put_item(printer, out, item, inner),
        Refusal::Retained { newest } => put_behind(printer, out, b"18 retained ", newest),
        Refusal::Ahead { newest } => put_behind(printer, out, b"19 ahead ", newest),
    }
}

/// The item of a batch that is refused, and why.
fn put_item<const N: usize, O: Sink>(
    printer: &mut Printer<N>,
    out: &mut O,
    item: u32,
    inner: ItemRefusal,
)
    ensures { Puts (refusal_text (R.Item item inner)) printer.old (O.seen out.old) printer.new (O.seen out.new) }
{
    put_behind(printer, out, b"17 item ", item);
    printer.put(out, b" ");
    put_item_refusal(printer, out, inner);
}

fn put_item_refusal<const N: usize, O: Sink>(
    printer: &mut Printer<N>,
    out: &mut O,
    inner: ItemRefusal,
)
    ensures { Puts (item_refusal_text inner) printer.old (O.seen out.old) printer.new (O.seen out.new) }
{
    match inner {
        ItemRefusal::Read { fault, place } => put_read(printer, out, fault, place),
        ItemRefusal::Auth { fault } => put_auth(printer, out, fault),
        ItemRefusal::Unknown => printer.put(out, b"12 unknown"),
        ItemRefusal::Limit { word, count } => put_limit(printer, out, word, count),
    }
}

fn put_read<const N: usize, O: Sink>(printer: &mut Printer<N>, out: &mut O, fault: u8, place: u32)
    ensures { Puts (item_refusal_text (I.Read fault place)) printer.old (O.seen out.old) printer.new (O.seen out.new) }
{
    printer.put(out, b"5 read ");
    put_number(printer, out, u32::from(fault));
    printer.put(out, b" ");
    put_number(printer, out, place);
}

fn put_auth<const N: usize, O: Sink>(printer: &mut Printer<N>, out: &mut O, fault: u8)
    ensures { Puts (item_refusal_text (I.Auth fault)) printer.old (O.seen out.old) printer.new (O.seen out.new) }
{
    printer.put(out, b"7 auth ");
    put_number(printer, out, u32::from(fault));
}

fn put_limit<const N: usize, O: Sink>(
    printer: &mut Printer<N>,
    out: &mut O,
    word: LimitWord,
    count: u32,
)
    ensures { Puts (item_refusal_text (I.Limit word count)) printer.old (O.seen out.old) printer.new (O.seen out.new) }
{
    printer.put(out, b"13 limit ");
    printer.put(out, word.text());
    printer.put(out, b" ");
    put_number(printer, out, count);
}
