//! Replies to ADD and DROP. An accepted one is made in the book.
ghost use Rattle.std.specs.Prelude.{◌≡◌, ◌≤◌, IfOk, length, option_map};
ghost use Rattle.kn_base.specs.declared.limits.TheConstants.{ASSERTION_BYTES};
ghost use Rattle.kn_daemon.specs.Shapes.{Updates, AddText, DropId};
ghost use Rattle.kn_transcript.specs.Judging.{state_of, Judges};

use crate::connection::Connection;
use crate::matching::{behind_refusal, behind_reply};
use crate::verdicts::behind_verdict;
use kn_assert::read;
use kn_base::NoMemory;
use kn_history::Ready;
use kn_refusals::{refusal_of_store, refusal_of_text};
use kn_reply::{Refusal, Reply};
use kn_store::Book;
use std::alloc::Global;

/// Judges the reply to ADD. It alone tells what an authenticator said of the text.
pub(crate) fn judge_add<'a>(
    alloc: Global,
    book: &mut Book,
    connection: &Connection,
    text: &[u8],
    left: &'a [u8],
) -> Result<Option<&'a [u8]>, NoMemory>
    requires short { length text.now ≤ ASSERTION_BYTES }
    ensures judged { IfOk result (λ found. Judges book.old (state_of connection.now) (Updates (AddText text.now))
        left.now book.new (state_of connection.now) (option_map (λ rest. rest.now) found)) }
{
    if !connection.is_admin {
        return behind_reply(alloc, left, &Reply::No(Refusal::Admin));
    }
    let assertion = match read(alloc, text) {
        Ok(assertion) => assertion,
        Err(fault) => return behind_refusal(alloc, left, refusal_of_text(&fault)),
    };
    match behind_verdict(alloc, left, None)? {
        Some(rest) => return Ok(Some(rest)),
        None => {}
    }
    let ready = Ready::of(alloc, text, assertion)?;
    match book.prepare_add(0, ready) {
        Ok(prepared) => {
            let done = book.commit(prepared);
            let (k, version) = (done.id, done.version);
            behind_reply(alloc, left, &Reply::Added { k, version })
        }
        Err(fault) => behind_refusal(alloc, left, refusal_of_store(fault)),
    }
}

/// Judges the reply to DROP.
pub(crate) fn judge_drop<'a>(
    alloc: Global,
    book: &mut Book,
    connection: &Connection,
    k: u32,
    left: &'a [u8],
) -> Result<Option<&'a [u8]>, NoMemory>
    ensures judged { IfOk result (λ found. Judges book.old (state_of connection.now) (Updates (DropId k)) left.now
        book.new (state_of connection.now) (option_map (λ rest. rest.now) found)) }
{
    if !connection.is_admin {
        return behind_reply(alloc, left, &Reply::No(Refusal::Admin));
    }
    match book.prepare_drop(0, k) {
        Ok(prepared) => {
            let version = book.commit(prepared).version;
            behind_reply(alloc, left, &Reply::Number { version })
        }
        Err(fault) => behind_refusal(alloc, left, refusal_of_store(fault)),
    }
}
