//! A whole transcript verified.
ghost use Rattle.std.specs.Prelude.{◌≡◌, ◌≤◌, ◌⊎◌, IfErr, IfOk, length};
ghost use Rattle.kn_base.specs.declared.limits.TheConstants.{FILE_BYTES};
ghost use Rattle.kn_transcript.specs.declared.fault.TranscriptFault.TheVariants as F;
ghost use Rattle.kn_transcript.specs.Accepted.{IsAcceptedTranscript};
ghost use Rattle.kn_transcript.specs.Faulty.{IsFaultyTranscript};
ghost use Rattle.kn_transcript.specs.Progress.{IsConcluded};

use crate::connection::Connection;
use crate::fault::TranscriptFault;
use crate::progress::Progress;
use crate::script::judge_next;
use kn_base::limits::REQUESTS;
use kn_store::Book;
use kn_wire::Feed;
use std::alloc::Global;

/// What an accepted transcript comes to.
#[derive(Debug, Clone, Copy, PartialEq, Eq)]
pub struct Verified {
    /// How many replies give a value.
    pub answers: u32,
    /// How many updates the history has in the end: those of the book, and those that replies accept.
    pub version: u32,
}

/// Verifies the transcript of a whole connection over a book of the shared credentials: what a client sent and what it
/// got (keynoted's own). No query is settled: each value is checked by its rows.
///
/// The requests end at the first BYE or refused block, or at the 1,000,000th; an unfinished one and what is behind it
/// don't count. The transcript is accepted where the replies are one to each of them, and each is one that a daemon of
/// one thread may give to a connection that is alone. Whether a secret was right, and what the authenticator said of a
/// text, is read off each reply. Else the fault is that of the first request that has one, or tells where the bytes
/// begin that are left in the end. `NoMemory` comes only when memory runs out.
pub fn verify(
    alloc: Global,
    book: Book,
    script: &[u8],
    replies: &[u8],
) -> Result<Verified, TranscriptFault>
    requires script { length script.now ≤ FILE_BYTES }
    requires replies { length replies.now ≤ FILE_BYTES }
    ensures accepted { IfOk result (λ verified.
        IsAcceptedTranscript book script.now replies.now verified.answers verified.version) }
    ensures faulty { IfErr result (λ fault.
        (fault ≡ F.NoMemory) ⊎ IsFaultyTranscript book script.now replies.now fault) }
{
    let mut feed = Feed::new(alloc)?;
    let mut progress = Progress {
        book,
        connection: Connection::new(alloc),
        left: replies,
        answers: 0,
    };
    let mut from = 0;
    for before in 0..REQUESTS {
        match judge_next(
            alloc,
            &mut progress,
            script,
            &mut feed,
            &mut from,
            before + 1,
        )? {
            None => return conclude(progress, replies),
            Some(is_last) => {
                if is_last {
                    return conclude(progress, replies);
                }
            }
        }
    }
    conclude(progress, replies)
}

/// What a transcript comes to where all its requests are answered.
fn conclude(progress: Progress<'_>, replies: &[u8]) -> Result<Verified, TranscriptFault>
    requires within { length progress.left.now ≤ length replies.now }
    requires short { length replies.now ≤ FILE_BYTES }
    ensures { IsConcluded replies.now progress.entry result }
{
    if progress.left.is_empty() {
        Ok(Verified {
            answers: progress.answers,
            version: progress.book.length(),
        })
    } else {
        let at = (replies.len() - progress.left.len()) as u32;
        Err(TranscriptFault::Rest { at })
    }
}
