//! The next request of a feed, played.
ghost use Rattle.std.specs.Prelude.{◌≡◌, IfOk};
ghost use Rattle.kn_wire.specs.Hex.{IsWellFormed};
ghost use Rattle.kn_wire.specs.Requests.{Faulty};
ghost use Rattle.kn_wire.specs.Feeds.{held};
ghost use Rattle.kn_wire.specs.Wired.{request_of};
ghost use Rattle.kn_daemon.specs.Played.{is_last};
ghost use Rattle.kn_play.specs.Playing.{NumbersGoOn, IsRequestPlayed, PlaysNext};

use crate::applying::apply;
use crate::asking::{Asked, read_asked};
use kn_base::NoMemory;
use kn_daemon::shape::shape_of;
use kn_session::Sessions;
use kn_store::Book;
use kn_wire::{Feed, Request, WireFault};
use std::alloc::Global;

/// What became of a request.
#[derive(Drop)]
pub(crate) struct Step {
    /// What was asked, where it was a QUERY that is answered with a value.
    pub asked: Option<Asked>,
    /// It was BYE, or a refused block.
    pub is_last: bool,
}

/// Plays the next request, if a whole one is held.
pub(crate) fn answer_next(
    alloc: Global,
    book: &Book,
    sessions: &mut Sessions,
    feed: &mut Feed,
) -> Result<Option<Step>, NoMemory>
    requires room { NumbersGoOn sessions.old }
    ensures { IfOk result (PlaysNext book.now sessions.old (held feed.old) sessions.new (held feed.new)) }
{
    match feed.next() {
        Ok(None) => Ok(None),
        Ok(Some(request)) => {
            let step = answer(alloc, book, sessions, request)?;
            Ok(Some(step))
        }
        Err(fault) => Ok(Some(Step {
            asked: None,
            is_last: is_block(fault),
        })),
    }
}

/// Plays a request.
fn answer(
    alloc: Global,
    book: &Book,
    sessions: &mut Sessions,
    request: Request<'_>,
) -> Result<Step, NoMemory>
    requires room { NumbersGoOn sessions.old }
    requires form { IsWellFormed (request_of request) }
    ensures { IfOk result (IsRequestPlayed book.now sessions.old (request_of request.entry) sessions.new) }
{
    let is_last = is_bye(&request);
    let shape = shape_of(request);
    let asked = read_asked(alloc, sessions, shape)?;
    apply(alloc, book, sessions, shape)?;
    Ok(Step { asked, is_last })
}

/// Whether a request ends a script: BYE does.
pub fn is_bye(request: &Request<'_>) -> bool
    ensures { result ≡ is_last (request_of request.now) }
{
    matches!(request, Request::Bye)
}

/// Whether a request that is refused for this ends a script: a block does.
pub fn is_block(fault: WireFault) -> bool
    ensures { result ≡ is_last (Faulty fault) }
{
    matches!(fault, WireFault::Block { .. })
}
