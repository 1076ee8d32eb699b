//! Refusals of updates of the shared credentials, and of the items of a batch.
ghost use Rattle.std.specs.Prelude.{◌≡◌, ◌<◌, ◌^◌, option_map};
ghost use Rattle.kn_fields.specs.Numbers.{fault_place};
ghost use Rattle.kn_reply.specs.declared.refusal.ItemRefusal.TheVariants as I;
ghost use Rattle.kn_daemon.specs.Daemon.{refusal_at_text, refusal_at_store, refusal_of_store};
ghost use Rattle.kn_refusals.specs.Refusals.{request_refusal, refusal_of_batch_text, refusal_of_batch_fault};

use kn_assert::ReadFault;
use kn_history::{BatchFault, StoreFault};
use kn_reply::{ItemRefusal, LimitWord, Refusal};
use kn_wire::BatchText;

/// The refusal of an item of a batch whose text has this fault; None when out of memory.
pub fn item_refusal_of_text(fault: &ReadFault) -> Option<ItemRefusal>
    requires { fault_place fault.now < 2 ^ 32 }
    ensures { result ≡ refusal_at_text I.Read fault.now }
{
    let place = fault.place() as u32;
    match fault.number() {
        Some(fault) => Some(ItemRefusal::Read { fault, place }),
        None => None,
    }
}

/// The refusal of an item of a batch by the shared credentials; None when out of memory.
fn item_refusal_of_store(fault: StoreFault) -> Option<ItemRefusal>
    ensures { result ≡ refusal_at_store I.Unknown I.Limit fault }
{
    match fault {
        StoreFault::Unknown { .. } => Some(ItemRefusal::Unknown),
        StoreFault::LiveFull { count } => Some(item_limit(LimitWord::Live, count)),
        StoreFault::BytesFull { bytes } => Some(item_limit(LimitWord::LiveBytes, bytes)),
        StoreFault::HistoryFull { updates } => Some(item_limit(LimitWord::Updates, updates)),
        StoreFault::LogFull { bytes } => Some(item_limit(LimitWord::LogBytes, bytes)),
        StoreFault::NoMemory => None,
    }
}

fn item_limit(word: LimitWord, count: u32) -> ItemRefusal
    ensures { result ≡ I.Limit word count }
{
    ItemRefusal::Limit { word, count }
}

/// The refusal of a request for that for which an item of a batch is refused so; None when out of memory.
pub fn refusal_as_request(refusal: Option<ItemRefusal>) -> Option<Refusal>
    ensures { result ≡ option_map request_refusal refusal }
{
    match refusal {
        Some(ItemRefusal::Read { fault, place }) => Some(Refusal::Read { fault, place }),
        Some(ItemRefusal::Auth { fault }) => Some(Refusal::Auth { fault }),
        Some(ItemRefusal::Unknown) => Some(Refusal::Unknown),
        Some(ItemRefusal::Limit { word, count }) => Some(Refusal::Limit { word, count }),
        None => None,
    }
}

/// The refusal of a change of the shared credentials; None when out of memory.
pub fn refusal_of_store(fault: StoreFault) -> Option<Refusal>
    ensures { result ≡ refusal_of_store fault }
{
    refusal_as_request(item_refusal_of_store(fault))
}

/// The refusal of a batch by the item of this number; None when out of memory.
pub fn refusal_of_item(item: u32, refusal: Option<ItemRefusal>) -> Option<Refusal>
    ensures { result ≡ option_map (λ inner. Refusal.Item item inner) refusal }
{
    match refusal {
        Some(inner) => Some(Refusal::Item { item, inner }),
        None => None,
    }
}

/// The refusal of a block that isn't made of items; None when out of memory.
pub fn refusal_of_block(fault: BatchText) -> Option<Refusal>
    ensures { result ≡ refusal_of_batch_text fault }
{
    match fault {
        BatchText::Form { item } => Some(Refusal::Batch { item }),
        BatchText::NoMemory => None,
    }
}

/// The refusal of a batch by the shared credentials; None when out of memory.
pub fn refusal_of_batch(fault: BatchFault) -> Option<Refusal>
    ensures { result ≡ refusal_of_batch_fault fault }
{
    match fault {
        BatchFault::Item { item, fault } => refusal_of_item(item, item_refusal_of_store(fault)),
        BatchFault::NoMemory => None,
    }
}
