//! The reply to LOG as text (keynoted's own line protocol).
ghost use Rattle.std.specs.Prelude.{◌≤◌, ◌-◌, length, take, drop, flat_map};
ghost use Rattle.kn_wire.specs.Items.{AddText, item_text};
ghost use Rattle.kn_reply.specs.Gathering.{Puts};
ghost use Rattle.kn_reply.specs.Logs.{change_text, log_text, update_text};

use crate::number_printing::{put_behind, put_one, put_size, put_two};
use crate::printer::Printer;
use kn_base::List;
use kn_base::limits::LOG_UPDATES;
use kn_history::{Change, Numbered, Update};
use kn_outside::Sink;
use kn_store::Version;

/// The updates of a version behind the first `n`, as many as a reply tells, and how many there are in all.
pub(crate) fn put_log<const N: usize, O: Sink>(
    printer: &mut Printer<N>,
    out: &mut O,
    n: u32,
    version: &Version,
)
    ensures { Puts (log_text n version.now) printer.old (O.seen out.old) printer.new (O.seen out.new) }
{
    let place = version.number();
    let from = n.min(place);
    let to = place.min(from + LOG_UPDATES);
    put_behind(printer, out, b"LOG ", n);
    put_two(printer, out, b" ", to - from, place);
    put_updates(printer, out, version, from, to);
    printer.put(out, b"END\n");
}

/// The updates from one place up to another, counted from 0.
fn put_updates<const N: usize, O: Sink>(
    printer: &mut Printer<N>,
    out: &mut O,
    version: &Version,
    from: u32,
    to: u32,
)
    requires order { from ≤ to }
    requires within { to ≤ length version.now }
    ensures { Puts (flat_map update_text (take (to - from) (drop from version.now)))
        printer.old (O.seen out.old) printer.new (O.seen out.new) }
{
    for i in from..to {
        put_update(printer, out, version.update(i));
    }
}

fn put_update<const N: usize, O: Sink>(printer: &mut Printer<N>, out: &mut O, update: &Update)
    ensures { Puts (update_text update.now) printer.old (O.seen out.old) printer.new (O.seen out.new) }
{
    put_two(
        printer,
        out,
        b"UPDATE ",
        update.caller,
        update.changes.len(),
    );
    put_changes(printer, out, &update.changes);
}

/// Changes as items of a batch.
fn put_changes<const N: usize, O: Sink>(
    printer: &mut Printer<N>,
    out: &mut O,
    changes: &List<Numbered>,
)
    ensures { Puts (flat_map change_text changes.now) printer.old (O.seen out.old) printer.new (O.seen out.new) }
{
    for numbered in changes.as_slice() {
        put_change(printer, out, numbered);
    }
}

fn put_change<const N: usize, O: Sink>(printer: &mut Printer<N>, out: &mut O, numbered: &Numbered)
    ensures { Puts (change_text numbered.now) printer.old (O.seen out.old) printer.new (O.seen out.new) }
{
    match &numbered.change {
        Change::Add(text) => put_addition(printer, out, text.as_slice()),
        Change::Remove => put_one(printer, out, b"DROP a", numbered.id),
    }
}

/// The addition of a text as an item of a batch.
fn put_addition<const N: usize, O: Sink>(printer: &mut Printer<N>, out: &mut O, text: &[u8])
    ensures { Puts (item_text (AddText text.now)) printer.old (O.seen out.old) printer.new (O.seen out.new) }
{
    printer.put(out, b"ADD ");
    put_size(printer, out, text.len());
    printer.put(out, b"\n");
    printer.put(out, text);
    printer.put(out, b"\n");
}
