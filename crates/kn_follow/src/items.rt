//! The items of an update, made ready to be added.
ghost use Rattle.std.specs.Prelude.{◌≡◌, IfOk, IfErr};
ghost use Rattle.kn_history.specs.Batches.{item_reads};
ghost use Rattle.kn_history.specs.declared.item.Item.TheVariants as I;
ghost use Rattle.kn_follow.specs.InCode.{asked_item, asked_items, IsUnreadable, AreUnreadable};

use kn_assert::{ReadFault, read};
use kn_base::{List, NoMemory};
use kn_history::{Item, Ready};
use kn_wire::BatchItem;
use std::alloc::Global;

/// Why items aren't made ready.
#[derive(Clone, Copy, Drop)]
pub(crate) enum ItemFault {
    /// A text that is to be added has no reading.
    Unreadable,
    NoMemory,
}

/// What the store is asked for by these items.
pub(crate) fn make_items(
    alloc: Global,
    items: &List<BatchItem<'_>>,
) -> Result<List<Item>, ItemFault>
    ensures items { IfOk result (λ made. made ≡ asked_items items.now) }
    ensures unreadable { IfErr result (λ fault. AreUnreadable (asked_items items.now) fault) }
{
    let mut made = List::new(alloc);
    for item in items.as_slice() {
        let asked = make_item(alloc, item)?;
        match made.push(asked) {
            Ok(()) => {}
            Err(_) => return Err(ItemFault::NoMemory),
        }
    }
    Ok(made)
}

fn make_item(alloc: Global, item: &BatchItem<'_>) -> Result<Item, ItemFault>
    ensures item { IfOk result (λ made. made ≡ asked_item item.now) }
    ensures unreadable { IfErr result (λ fault. IsUnreadable (asked_item item.now) fault) }
{
    match item {
        BatchItem::Add { text } => make_addition(alloc, text),
        BatchItem::Remove { k } => Ok(Item::Remove(*k)),
    }
}

fn make_addition(alloc: Global, text: &[u8]) -> Result<Item, ItemFault>
    ensures item { IfOk result (λ made. made ≡ I.Add text.now) }
    ensures unreadable { IfErr result (λ fault. IsUnreadable (I.Add text.now) fault) }
{
    let assertion = match read(alloc, text) {
        Ok(assertion) => assertion,
        Err(ReadFault::NoMemory) => return Err(ItemFault::NoMemory),
        Err(_) => return Err(ItemFault::Unreadable),
    };
    match Ready::of(alloc, text, assertion) {
        Ok(ready) => Ok(Item::Add(ready)),
        Err(NoMemory) => Err(ItemFault::NoMemory),
    }
}
