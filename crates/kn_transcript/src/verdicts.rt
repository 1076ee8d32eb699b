//! Refusals of texts by an authenticator, which the reply alone tells.
ghost use Rattle.std.specs.Prelude.{◌≡◌, ◌≤◌, ◌<◌, IfOk, length, map, option_map};
ghost use Rattle.std.specs.List.{list_any};
ghost use Rattle.kn_wire.specs.ItemsInCode as C;
ghost use Rattle.kn_transcript.specs.Verdicts.{verdict_refusal, adds_text, adds_anew};
ghost use Rattle.kn_transcript.specs.Verdicts.{IsBehindVerdict, IsBehindVerdicts};

use crate::fault::AUTH_FAULTS;
use crate::matching::behind_reply;
use kn_base::NoMemory;
use kn_reply::{ItemRefusal, Refusal, Reply};
use kn_wire::BatchItem;
use std::alloc::Global;

/// What is left behind the refusal of a text by an authenticator: a request's, or that of the item of this number in a
/// batch.
pub(crate) fn behind_verdict<'a>(
    alloc: Global,
    left: &'a [u8],
    item: Option<u32>,
) -> Result<Option<&'a [u8]>, NoMemory>
    ensures behind { IfOk result (λ found.
        IsBehindVerdict item left.now (option_map (λ rest. rest.now) found)) }
{
    for fault in 1..AUTH_FAULTS + 1 {
        let refusal = tell_verdict(item, fault);
        match behind_reply(alloc, left, &Reply::No(refusal))? {
            Some(rest) => return Ok(Some(rest)),
            None => {}
        }
    }
    Ok(None)
}

fn tell_verdict(item: Option<u32>, fault: u8) -> Refusal
    ensures { result ≡ verdict_refusal item fault }
{
    match item {
        Some(item) => {
            let inner = ItemRefusal::Auth { fault };
            Refusal::Item { item, inner }
        }
        None => Refusal::Auth { fault },
    }
}

/// What is left behind the refusal of one of the first `count` items by an authenticator.
pub(crate) fn behind_verdicts<'a>(
    alloc: Global,
    items: &[BatchItem<'_>],
    count: u32,
    left: &'a [u8],
) -> Result<Option<&'a [u8]>, NoMemory>
    requires within { count ≤ length items.now }
    ensures behind { IfOk result (λ found.
        IsBehindVerdicts (map C.item_of items.now) count left.now (option_map (λ rest. rest.now) found)) }
{
    for place in 0..count {
        match behind_verdict(alloc, left, Some(place + 1))? {
            Some(rest) => {
                if adds_anew(items, place as usize) {
                    return Ok(Some(rest));
                }
            }
            None => {}
        }
    }
    Ok(None)
}

/// Whether the item of this place adds a text that none in front of it adds.
fn adds_anew(items: &[BatchItem<'_>], place: usize) -> bool
    requires { place < length items.now }
    ensures { result ≡ adds_anew (map C.item_of items.now) place }
{
    match &items[place] {
        BatchItem::Add { text } => !is_among(text, &items[..place]),
        BatchItem::Remove { .. } => false,
    }
}

/// Whether one of the items adds this text.
fn is_among(text: &[u8], items: &[BatchItem<'_>]) -> bool
    ensures { result ≡ list_any (λ item. adds_text text.now (C.item_of item)) items.now }
{
    items.iter().any(|item| adds(item, text))
}

fn adds(item: &BatchItem<'_>, text: &[u8]) -> bool
    ensures { result ≡ adds_text text.now (C.item_of item.now) }
{
    match item {
        BatchItem::Add { text: other } => *other == text,
        BatchItem::Remove { .. } => false,
    }
}
