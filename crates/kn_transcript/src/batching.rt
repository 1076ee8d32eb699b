//! Replies to BATCH. An accepted one is made in the book.
ghost use Rattle.std.specs.Prelude.{◌≡◌, ◌≤◌, ℕ, List, IfOk, None, Ok, length, option_map, true};
ghost use Rattle.kn_base.specs.declared.limits.TheConstants.{ASSERTION_BYTES, CHANGES};
ghost use Rattle.kn_wire.specs.Items as D;
ghost use Rattle.kn_daemon.specs.Shapes.{Updates, ApplyBlock};
ghost use Rattle.kn_daemon.specs.Daemon.{State};
ghost use Rattle.kn_transcript.specs.Judging.{state_of, Judges};
ghost use Rattle.kn_transcript.specs.Verdicts.{AreRead, IsBehindVerdicts};

use crate::connection::Connection;
use crate::items::read_items;
use crate::matching::{behind_refusal, behind_reply};
use crate::verdicts::behind_verdicts;
use kn_base::{List, NoMemory};
use kn_history::{Item, count_additions};
use kn_refusals::{refusal_of_batch, refusal_of_block};
use kn_reply::{Refusal, Reply};
use kn_store::Book;
use kn_wire::batch_items;
use std::alloc::Global;

/// Judges the reply to BATCH. It alone tells what an authenticator said of the texts.
pub(crate) fn judge_batch<'a>(
    alloc: Global,
    book: &mut Book,
    connection: &Connection,
    block: &[u8],
    left: &'a [u8],
) -> Result<Option<&'a [u8]>, NoMemory>
    requires short { length block.now ≤ ASSERTION_BYTES }
    ensures judged { IfOk result (λ found. Judges book.old (state_of connection.now) (Updates (ApplyBlock block.now))
        left.now book.new (state_of connection.now) (option_map (λ rest. rest.now) found)) }
{
    if !connection.is_admin {
        return behind_reply(alloc, left, &Reply::No(Refusal::Admin));
    }
    let items = match batch_items(alloc, block) {
        Ok(items) => items,
        Err(fault) => return behind_refusal(alloc, left, refusal_of_block(fault)),
    };
    let parts = items.as_slice();
    let read = read_items(alloc, parts)?;
    let count = read.items.len();
    match behind_verdicts(alloc, parts, count, left)? {
        Some(rest) => return Ok(Some(rest)),
        None => {}
    }
    match read.refusal {
        Some(inner) => {
            let item = count + 1;
            behind_reply(alloc, left, &Reply::No(Refusal::Item { item, inner }))
        }
        None => behind_batch(alloc, book, read.items, left),
    }
}

/// Makes items one update of the book, and gives what is left behind the reply that is due then.
fn behind_batch<'a>(
    alloc: Global,
    book: &mut Book,
    items: List<Item>,
    left: &'a [u8],
) -> Result<Option<&'a [u8]>, NoMemory>
    requires some { 1 ≤ length items }
    requires few { length items ≤ CHANGES }
    ensures judged { (now : State) (block : List ℕ) (parts : List D.BatchItem) → D.items_of block ≡ Ok parts
        → AreRead parts (record { items = items; refusal = None }) → now.is_admin ≡ true
        → IsBehindVerdicts parts (length items) left.now None
        → IfOk result (λ found. Judges book.old now (Updates (ApplyBlock block)) left.now book.new now
        (option_map (λ rest. rest.now) found)) }
{
    let added = count_additions(&items);
    match book.prepare_batch(0, items) {
        Ok(prepared) => {
            let done = book.commit(prepared);
            let (first, version) = (done.id, done.version);
            let reply = Reply::Batched {
                first,
                added,
                version,
            };
            behind_reply(alloc, left, &reply)
        }
        Err(fault) => behind_refusal(alloc, left, refusal_of_batch(fault)),
    }
}
