//! Lists of shared items, and their shares in another list.

ghost use Rattle.std.specs.Prelude.{◌≡◌, ◌≤◌, ◌+◌, ◌++◌, ℕ, map, length, take, IfOk, OnOk, OnErr};
ghost use Rattle.std.specs.Arc.{arc_value};

use kn_base::{List, NoMemory, Reserved};
use std::alloc::Global;
use std::sync::Arc;

/// A list that has a share of each of these, and room for one more.
pub fn share_items<T: Drop>(alloc: Global, items: &List<Arc<T>>) -> Result<List<Arc<T>>, NoMemory>
    ensures { IfOk result (λ page. map arc_value page ≡ map arc_value items.now) }
{
    let mut room = Reserved::new(alloc);
    room.reserve(items.len().saturating_add(1))?;
    share_into(&mut room, items.as_slice())?;
    Ok(room.finish())
}

/// Adds a share of each of these at the end, for which there is room. When out of memory, some first ones stand.
pub fn share_into<T: Drop>(room: &mut Reserved<Arc<T>>, items: &[Arc<T>]) -> Result<(), NoMemory>
    requires room { length items.now ≤ room.old.spare }
    ensures items { OnOk result (map arc_value room.new.items
        ≡ map arc_value room.old.items ++ map arc_value items.now) }
    ensures spare { OnOk result (room.old.spare ≤ room.new.spare + length items.now) }
    ensures begun { OnErr result ((n : ℕ) × (map arc_value room.new.items
        ≡ map arc_value room.old.items ++ map arc_value (take n items.now))) }
{
    for item in items {
        room.put(Arc::try_clone(item).or(Err(NoMemory))?);
    }
    Ok(())
}
