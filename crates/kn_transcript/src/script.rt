//! The requests of a transcript's script, one by one.
ghost use Rattle.std.specs.Prelude.{◌≡◌, ◌<◌, ◌≤◌, List, length};
ghost use Rattle.kn_wire.specs.Requests.{Request};
ghost use Rattle.kn_wire.specs.Feeds.{held};
ghost use Rattle.kn_play.specs.Playing.{IsFed};
ghost use Rattle.kn_transcript.specs.Judging.{state_of, HasRoom};
ghost use Rattle.kn_transcript.specs.Progress.{IsNextJudged, IsNextOfScript};

use crate::answering::{judge_refused, judge_request};
use crate::fault::TranscriptFault;
use crate::progress::Progress;
use kn_play::{is_block, is_bye, push_chunk};
use kn_wire::Feed;
use std::alloc::Global;

/// Judges the reply to the next request of a script, the one of this number, where so many bytes of the script were
/// fed. It tells whether the request ends the script; None where no whole one is left.
pub(crate) fn judge_next(
    alloc: Global,
    progress: &mut Progress<'_>,
    script: &[u8],
    feed: &mut Feed,
    from: &mut usize,
    number: u32,
) -> Result<Option<bool>, TranscriptFault>
    requires room { HasRoom (state_of progress.old.connection) }
    requires few { progress.old.answers < number }
    requires within { from.old ≤ length script.now }
    ensures { (requests : List Request) → IsFed script.now from.old (held feed.old) requests
        → IsNextOfScript script.now requests number progress.old from.new (held feed.new) progress.new result }
{
    'pieces: loop {
        match judge_held(alloc, progress, feed, number)? {
            Some(is_last) => return Ok(Some(is_last)),
            None => {
                if *from == script.len() {
                    return Ok(None);
                }
                *from = push_chunk(script, feed, *from);
            }
        }
    }
}

/// Judges the reply to the next request that a feed holds, and tells whether it ends the script; None where no whole
/// one is held.
fn judge_held(
    alloc: Global,
    progress: &mut Progress<'_>,
    feed: &mut Feed,
    number: u32,
) -> Result<Option<bool>, TranscriptFault>
    requires room { HasRoom (state_of progress.old.connection) }
    requires few { progress.old.answers < number }
    ensures { IsNextJudged number progress.old (held feed.old) progress.new (held feed.new) result }
{
    match feed.next() {
        Ok(None) => Ok(None),
        Ok(Some(request)) => {
            let is_last = is_bye(&request);
            judge_request(alloc, progress, request, number)?;
            Ok(Some(is_last))
        }
        Err(fault) => {
            judge_refused(alloc, progress, fault, number)?;
            Ok(Some(is_block(fault)))
        }
    }
}
