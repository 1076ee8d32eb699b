//! The text of a reply at the front of bytes.
ghost use Rattle.std.specs.Prelude.{◌≡◌, IfOk, Some, option_map};
ghost use Rattle.kn_reply.specs.declared.refusal.Refusal.{Refusal};
ghost use Rattle.kn_reply.specs.Replies.{No, reply_of, reply_text};
ghost use Rattle.kn_transcript.specs.Judging.{IsBehind};

use kn_base::text::behind;
use kn_base::{List, NoMemory};
use kn_outside::{Failed, MemSink};
use kn_reply::{Refusal, Reply, print};
use std::alloc::Global;

/// What is left of bytes behind the text of a reply; None where they don't begin with it.
pub(crate) fn behind_reply<'a>(
    alloc: Global,
    left: &'a [u8],
    reply: &Reply<'_>,
) -> Result<Option<&'a [u8]>, NoMemory>
    ensures behind { IfOk result (λ found.
        IsBehind left.now (reply_text (reply_of reply.now)) (option_map (λ rest. rest.now) found)) }
{
    let mut sink = MemSink::of(alloc, List::new(alloc));
    match print(reply, &mut sink) {
        Ok(()) => Ok(behind(left, sink.written())),
        Err(Failed) => Err(NoMemory),
    }
}

/// What is left of bytes behind the text of a refusal. A refusal that is None means out of memory.
pub(crate) fn behind_refusal<'a>(
    alloc: Global,
    left: &'a [u8],
    refusal: Option<Refusal>,
) -> Result<Option<&'a [u8]>, NoMemory>
    ensures behind { IfOk result (λ found. (due : Refusal) × (refusal ≡ Some due)
        × IsBehind left.now (reply_text (No due)) (option_map (λ rest. rest.now) found)) }
{
    match refusal {
        Some(refusal) => behind_reply(alloc, left, &Reply::No(refusal)),
        None => Err(NoMemory),
    }
}
