//! The items of a batch, whose texts are read.
ghost use Rattle.std.specs.Prelude.{◌≡◌, ◌≤◌, All, IfErr, IfOk, OnOk, Some, length, map};
ghost use Rattle.kn_base.specs.declared.limits.TheConstants.{ASSERTION_BYTES, CHANGES};
ghost use Rattle.kn_wire.specs.Items.{AddText};
ghost use Rattle.kn_wire.specs.ItemsInCode as C;
ghost use Rattle.kn_reply.specs.declared.refusal.ItemRefusal.{ItemRefusal};
ghost use Rattle.kn_reply.specs.Logs.{item_of};
ghost use Rattle.kn_transcript.specs.Verdicts.{AreRead, HasReading, IsUnread};

use kn_assert::read;
use kn_base::{List, NoMemory};
use kn_history::{Item, Ready};
use kn_refusals::item_refusal_of_text;
use kn_reply::ItemRefusal;
use kn_wire::BatchItem;
use std::alloc::Global;

/// What the store is asked for by items, up to the first whose text has a fault.
#[derive(Drop)]
pub(crate) struct ReadItems {
    pub items: List<Item>,
    /// Why the item behind them is refused, if there is one.
    pub refusal: Option<ItemRefusal>,
}

/// Reads the texts of items, up to the first that has a fault.
pub(crate) fn read_items(alloc: Global, items: &[BatchItem<'_>]) -> Result<ReadItems, NoMemory>
    requires few { length items.now ≤ CHANGES }
    requires short { All (C.IsWithin ASSERTION_BYTES) items.now }
    ensures read { IfOk result (AreRead (map C.item_of items.now)) }
{
    let mut read = List::new(alloc);
    for item in items {
        match read_item(alloc, item) {
            Ok(asked) => match read.push(asked) {
                Ok(()) => {}
                Err(_) => return Err(NoMemory),
            },
            Err(refusal) => return end_reading(read, refusal),
        }
    }
    Ok(ReadItems {
        items: read,
        refusal: None,
    })
}

/// The items in front of one that is refused so. A refusal that is None means out of memory.
fn end_reading(items: List<Item>, refusal: Option<ItemRefusal>) -> Result<ReadItems, NoMemory>
    ensures { IfOk result (λ read. (inner : ItemRefusal) × (refusal ≡ Some inner)
        × (read ≡ record { items = items; refusal = Some inner })) }
{
    match refusal {
        Some(inner) => Ok(ReadItems {
            items,
            refusal: Some(inner),
        }),
        None => Err(NoMemory),
    }
}

/// What the store is asked for by an item whose text is read. The refusal is None when out of memory.
fn read_item(alloc: Global, item: &BatchItem<'_>) -> Result<Item, Option<ItemRefusal>>
    requires short { C.IsWithin ASSERTION_BYTES item.now }
    ensures item { IfOk result (λ asked. asked ≡ item_of (C.item_of item.now)) }
    ensures reading { OnOk result (HasReading (C.item_of item.now)) }
    ensures unread { IfErr result (IsUnread (C.item_of item.now)) }
{
    match item {
        BatchItem::Add { text } => match read_text(alloc, text) {
            Ok(ready) => Ok(Item::Add(ready)),
            Err(refusal) => Err(refusal),
        },
        BatchItem::Remove { k } => Ok(Item::Remove(*k)),
    }
}

/// A text that is read, ready to be added. The refusal is None when out of memory.
fn read_text(alloc: Global, text: &[u8]) -> Result<Ready, Option<ItemRefusal>>
    requires short { length text.now ≤ ASSERTION_BYTES }
    ensures text { IfOk result (λ ready. ready ≡ text.now) }
    ensures reading { OnOk result (HasReading (AddText text.now)) }
    ensures unread { IfErr result (IsUnread (AddText text.now)) }
{
    let assertion = match read(alloc, text) {
        Ok(assertion) => assertion,
        Err(fault) => return Err(item_refusal_of_text(&fault)),
    };
    match Ready::of(alloc, text, assertion) {
        Ok(ready) => Ok(ready),
        Err(NoMemory) => Err(None),
    }
}
