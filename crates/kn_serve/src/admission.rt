//! Judging the texts that are to be added.
ghost use Rattle.std.specs.Prelude.{◌≡◌, ◌≤◌, All, length, map, IfOk, IfErr, OnOk};
ghost use Rattle.kn_base.specs.declared.limits.TheConstants.{ASSERTION_BYTES, CHANGES};
ghost use Rattle.kn_wire.specs.Items.{AddText};
ghost use Rattle.kn_wire.specs.ItemsInCode as C;
ghost use Rattle.kn_reply.specs.Logs.{item_of};
ghost use Rattle.kn_serve.specs.Admission.{Admits, AdmitsAll, RefusesItem, RefusesOneItem};

use kn_assert::read;
use kn_auth::Authenticator;
use kn_base::{List, NoMemory};
use kn_history::{Item, Ready};
use kn_refusals::{item_refusal_of_text, refusal_of_item};
use kn_reply::{ItemRefusal, Refusal};
use kn_wire::BatchItem;
use std::alloc::Global;

/// Reads a text that the authenticator admits, and makes it ready to be added. The refusal is None when out of memory.
pub(crate) fn admit_text<A: Authenticator>(
    alloc: Global,
    authenticator: &A,
    text: &[u8],
) -> Result<Ready, Option<ItemRefusal>>
    requires short { length text.now ≤ ASSERTION_BYTES }
    ensures text { IfOk result (λ ready. ready ≡ text.now) }
    ensures admitted { OnOk result (Admits (A.verdict authenticator.now) (AddText text.now)) }
    ensures refused { IfErr result (RefusesItem (A.verdict authenticator.now) (AddText text.now)) }
{
    let assertion = match read(alloc, text) {
        Ok(assertion) => assertion,
        Err(fault) => return Err(item_refusal_of_text(&fault)),
    };
    match authenticator.admit(text, &assertion) {
        Ok(()) => {}
        Err(fault) => {
            let fault = fault.number();
            return Err(Some(ItemRefusal::Auth { fault }));
        }
    }
    match Ready::of(alloc, text, assertion) {
        Ok(ready) => Ok(ready),
        Err(NoMemory) => Err(None),
    }
}

/// What the store is asked for by items whose texts are read and admitted. The refusal is that of the first item that
/// isn't admitted, and None when out of memory.
pub(crate) fn admit_items<A: Authenticator>(
    alloc: Global,
    authenticator: &A,
    items: &List<BatchItem<'_>>,
) -> Result<List<Item>, Option<Refusal>>
    requires few { length items.now ≤ CHANGES }
    requires short { All (C.IsWithin ASSERTION_BYTES) items.now }
    ensures items { IfOk result (λ admitted. admitted ≡ map item_of (map C.item_of items.now)) }
    ensures admitted { OnOk result (AdmitsAll (A.verdict authenticator.now) (map C.item_of items.now)) }
    ensures refused { IfErr result (RefusesOneItem (A.verdict authenticator.now) (map C.item_of items.now)) }
{
    let mut admitted = List::new(alloc);
    for part in items.as_slice() {
        let number = admitted.len() + 1;
        let asked = match admit_item(alloc, authenticator, part) {
            Ok(asked) => asked,
            Err(refusal) => return Err(refusal_of_item(number, refusal)),
        };
        match admitted.push(asked) {
            Ok(()) => {}
            Err(_) => return Err(None),
        }
    }
    Ok(admitted)
}

/// What the store is asked for by an item whose text is read and admitted. The refusal is None when out of memory.
fn admit_item<A: Authenticator>(
    alloc: Global,
    authenticator: &A,
    item: &BatchItem<'_>,
) -> Result<Item, Option<ItemRefusal>>
    requires short { C.IsWithin ASSERTION_BYTES item.now }
    ensures item { IfOk result (λ admitted. admitted ≡ item_of (C.item_of item.now)) }
    ensures admitted { OnOk result (Admits (A.verdict authenticator.now) (C.item_of item.now)) }
    ensures refused { IfErr result (RefusesItem (A.verdict authenticator.now) (C.item_of item.now)) }
{
    match item {
        BatchItem::Add { text } => match admit_text(alloc, authenticator, text) {
            Ok(ready) => Ok(Item::Add(ready)),
            Err(refusal) => Err(refusal),
        },
        BatchItem::Remove { k } => Ok(Item::Remove(*k)),
    }
}
