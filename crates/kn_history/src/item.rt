//! What an update is asked to change.

ghost use Rattle.std.specs.Prelude.{◌≡◌, ℕ};
ghost use Rattle.kn_history.specs.Batches.{numbered_from, item_adds};
ghost use Rattle.kn_history.specs.History.{additions};

use crate::credential::Ready;
use kn_base::List;

/// A change that is asked for: the addition of a text that is ready, or the removal of an id.
#[derive(Drop)]
pub enum Item {
    /// Adds the credential of this text.
    Add(Ready),
    /// Removes the credential of this id.
    Remove(u32),
}

impl Item {
    /// Whether it is an addition.
    fn adds(&self) -> bool
        ensures { result ≡ item_adds self.now }
    {
        match self {
            Item::Add(_) => true,
            Item::Remove(_) => false,
        }
    }
}

/// How many of these items are additions, whatever the id of the first one.
pub fn count_additions(items: &List<Item>) -> u32
    ensures { (next : ℕ) → result ≡ additions (numbered_from next items.now) }
{
    let all = items.as_slice();
    let mut count = 0;
    for i in 0..items.len() {
        if all[i as usize].adds() {
            count += 1;
        }
    }
    count
}
