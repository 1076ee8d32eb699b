//! The bytes of a script as a stream of requests.
ghost use Rattle.std.specs.Prelude.{◌≡◌, ◌<◌, ◌≤◌, List, None, length, IfOk};
ghost use Rattle.kn_wire.specs.Requests.{Request};
ghost use Rattle.kn_wire.specs.Feeding.{next_of};
ghost use Rattle.kn_wire.specs.Feeds.{held};
ghost use Rattle.kn_play.specs.Playing.{NumbersGoOn, IsFed, Next};

use crate::answering::{Step, answer_next};
use kn_base::NoMemory;
use kn_session::Sessions;
use kn_store::Book;
use kn_wire::{CHUNK_BYTES, Feed};
use std::alloc::Global;

/// Plays the next request of a script, of which so many bytes were fed; None where no whole one is left.
pub(crate) fn play_next(
    alloc: Global,
    book: &Book,
    sessions: &mut Sessions,
    script: &[u8],
    feed: &mut Feed,
    from: &mut usize,
) -> Result<Option<Step>, NoMemory>
    requires room { NumbersGoOn sessions.old }
    requires within { from.old ≤ length script.now }
    ensures { (requests : List Request) → IsFed script.now from.old (held feed.old) requests
        → IfOk result (Next book.now script.now requests sessions.old from.new (held feed.new) sessions.new) }
{
    'pieces: loop {
        match answer_next(alloc, book, sessions, feed)? {
            Some(step) => return Ok(Some(step)),
            None => {
                if *from == script.len() {
                    return Ok(None);
                }
                *from = push_chunk(script, feed, *from);
            }
        }
    }
}

/// Feeds the next piece of a script, of which `from` bytes were fed, and gives how many bytes were fed then.
pub fn push_chunk(script: &[u8], feed: &mut Feed, from: usize) -> usize
    requires within { from < length script.now }
    requires none { next_of (held feed.old) ≡ None }
    ensures more { from < result }
    ensures within { result ≤ length script.now }
    ensures fed { (requests : List Request) → IsFed script.now from (held feed.old) requests
        → IsFed script.now result (held feed.new) requests }
{
    let end = if script.len() - from > CHUNK_BYTES {
        from + CHUNK_BYTES
    } else {
        script.len()
    };
    feed.push(&script[from..end]);
    end
}
