//! Reading the input of a link into the feed.
ghost use Rattle.std.specs.Prelude.{◌≡◌, None};
ghost use Rattle.kn_wire.specs.Feeding.{held_bytes, next_of};
ghost use Rattle.kn_wire.specs.Feeds.{held};
ghost use Rattle.kn_serve.specs.Serving.{Fills, IsInputEnd};

use kn_daemon::ended::Ended;
use kn_outside::{Failed, Link};
use kn_wire::Feed;

/// What became of a read.
#[derive(Drop)]
pub(crate) enum Fill {
    More,
    Failed,
    End,
}

/// Reads a piece of the input into the feed.
pub(crate) fn read_more<L: Link>(feed: &mut Feed, link: &mut L) -> Fill
    requires { next_of (held feed.old) ≡ None }
    ensures { Fills (held feed.old) (held feed.new) (L.seen link.old) (L.seen link.new) result }
{
    match feed.fill(link) {
        Ok(0) => Fill::End,
        Ok(_) => Fill::More,
        Err(Failed) => Fill::Failed,
    }
}

/// How a connection ends at the end of its input.
pub(crate) fn end_of(feed: &Feed) -> Ended
    ensures { IsInputEnd result (held_bytes (held feed.now)) }
{
    let held = feed.held();
    if held == 0 {
        Ended::Done
    } else {
        Ended::Cut { held }
    }
}
