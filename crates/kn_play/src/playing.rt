//! A script played, request by request.
ghost use Rattle.std.specs.Prelude.{◌≡◌, ◌≤◌, IfOk};
ghost use Rattle.kn_base.specs.declared.limits.TheConstants.{FILE_BYTES};
ghost use Rattle.kn_play.specs.Playing.{IsPlayed, later_of};

use crate::asking::Asked;
use crate::script::play_next;
use kn_base::NoMemory;
use kn_session::Sessions;
use kn_store::Book;
use kn_wire::Feed;
use std::alloc::Global;

/// The last QUERY that was answered with a value, behind so many other requests.
#[derive(Drop)]
pub(crate) struct AnsweredQuery {
    pub before: usize,
    pub asked: Asked,
}

/// What a script has come to.
#[derive(Drop)]
pub(crate) struct Played {
    pub sessions: Sessions,
    pub last: Option<AnsweredQuery>,
}

/// Plays the requests of a script up to their end, but at most so many.
pub(crate) fn play(
    alloc: Global,
    book: &Book,
    script: &[u8],
    most: usize,
) -> Result<Played, NoMemory>
    requires { most ≤ FILE_BYTES }
    ensures { IfOk result (IsPlayed book.now script.now most) }
{
    let mut feed = Feed::new(alloc)?;
    let mut sessions = Sessions::new(alloc);
    let mut from = 0;
    let mut last = None;
    for before in 0..most {
        match play_next(alloc, book, &mut sessions, script, &mut feed, &mut from)? {
            None => return Ok(Played { sessions, last }),
            Some(step) => {
                last = later(last, before, step.asked);
                if step.is_last {
                    return Ok(Played { sessions, last });
                }
            }
        }
    }
    Ok(Played { sessions, last })
}

/// The last query, where this is what the request behind so many others asks.
fn later(last: Option<AnsweredQuery>, before: usize, asked: Option<Asked>) -> Option<AnsweredQuery>
    ensures { result ≡ later_of last before asked }
{
    match asked {
        Some(asked) => Some(AnsweredQuery { before, asked }),
        None => last,
    }
}
