//! Replies to requests that start a session, or pin one.
ghost use Rattle.std.specs.Prelude.{IfOk, option_map};
ghost use Rattle.kn_daemon.specs.Shapes.{Looks, ForOpen, ForPin, ForPinAt};
ghost use Rattle.kn_transcript.specs.Judging.{state_of, HasRoom, Judges};

use crate::connection::Connection;
use crate::matching::behind_reply;
use kn_base::NoMemory;
use kn_base::limits::SESSIONS;
use kn_reply::{LimitWord, Refusal, Reply};
use kn_store::Book;
use std::alloc::Global;

/// Judges the reply to OPEN.
pub(crate) fn judge_open<'a>(
    alloc: Global,
    book: &Book,
    connection: &mut Connection,
    left: &'a [u8],
) -> Result<Option<&'a [u8]>, NoMemory>
    requires room { HasRoom (state_of connection.old) }
    ensures judged { IfOk result (λ found. Judges book.now (state_of connection.old) (Looks ForOpen) left.now
        book.now (state_of connection.new) (option_map (λ rest. rest.now) found)) }
{
    let count = connection.sessions.len();
    if count >= SESSIONS {
        let word = LimitWord::Sessions;
        return behind_reply(alloc, left, &Reply::No(Refusal::Limit { word, count }));
    }
    let version = book.length();
    let Ok(newest) = book.snapshot().clone() else {
        return Err(NoMemory);
    };
    match connection.sessions.start(newest) {
        Ok(s) => behind_reply(alloc, left, &Reply::Started { s, version }),
        Err(_) => Err(NoMemory),
    }
}

/// Judges the reply to PIN.
pub(crate) fn judge_pin<'a>(
    alloc: Global,
    book: &Book,
    connection: &mut Connection,
    s: u32,
    left: &'a [u8],
) -> Result<Option<&'a [u8]>, NoMemory>
    ensures judged { IfOk result (λ found. Judges book.now (state_of connection.old) (Looks (ForPin s)) left.now
        book.now (state_of connection.new) (option_map (λ rest. rest.now) found)) }
{
    let version = book.length();
    let Ok(newest) = book.snapshot().clone() else {
        return Err(NoMemory);
    };
    match connection.sessions.repin(s, newest) {
        Ok(()) => behind_reply(alloc, left, &Reply::Number { version }),
        Err(_) => behind_reply(alloc, left, &Reply::No(Refusal::Session)),
    }
}

/// Judges the reply to PIN of a version.
pub(crate) fn judge_pin_at<'a>(
    alloc: Global,
    book: &Book,
    connection: &mut Connection,
    s: u32,
    version: u32,
    left: &'a [u8],
) -> Result<Option<&'a [u8]>, NoMemory>
    ensures judged { IfOk result (λ found. Judges book.now (state_of connection.old) (Looks (ForPinAt s version))
        left.now book.now (state_of connection.new) (option_map (λ rest. rest.now) found)) }
{
    match connection.sessions.view(s) {
        Ok(_) => {}
        Err(_) => return behind_reply(alloc, left, &Reply::No(Refusal::Session)),
    }
    let newest = book.length();
    let Some(retained) = book.retained(version) else {
        return behind_reply(alloc, left, &Reply::No(Refusal::Retained { newest }));
    };
    let Ok(pinned) = retained.clone() else {
        return Err(NoMemory);
    };
    match connection.sessions.repin(s, pinned) {
        Ok(()) => behind_reply(alloc, left, &Reply::PinnedAt { version, newest }),
        Err(_) => unreachable!(),
    }
}
