//! What later updates make of a base of the credentials of a version.
ghost use Rattle.std.specs.Prelude.{◌≡◌, ◌≤◌, [], ◌∷◌, ◌++◌, List as ListOf, drop, length};
ghost use Rattle.kn_history.specs.declared.update.Change.TheVariants.{Remove};
ghost use Rattle.kn_history.specs.History.{NumberedText, all_changes, credentials_of};
ghost use Rattle.kn_query.specs.ChangedRows.{NotesRows};
ghost use Rattle.kn_query.specs.Following.{AreAbove, AreUpTo, FollowsRemovals};

use crate::changed_rows::ChangedRows;
use crate::shared_rows::SharedRows;
use kn_answer::Base;
use kn_history::{Change, Numbered, Update};
use kn_store::Version;

/// Takes what the updates of a version from this place on removed out of all answers, and notes its rows. Takes no
/// memory.
pub(crate) fn follow_removals(
    base: &mut Base,
    rows: &SharedRows,
    version: &Version,
    first: u32,
    changed: &mut ChangedRows,
)
    requires first { first ≤ length version.now }
    requires flags { length base.old.live ≡ length rows.now }
    ensures follows { FollowsRemovals (all_changes (drop first version.now)) rows.now base.old base.new }
    ensures notes { NotesRows changed.old changed.new base.old.live base.new.live }
{
    for place in first..version.number() {
        follow_update(base, rows, version.update(place), changed);
    }
}

fn follow_update(base: &mut Base, rows: &SharedRows, update: &Update, changed: &mut ChangedRows)
    requires flags { length base.old.live ≡ length rows.now }
    ensures follows { FollowsRemovals update.now.changes rows.now base.old base.new }
    ensures notes { NotesRows changed.old changed.new base.old.live base.new.live }
{
    for numbered in update.changes.as_slice() {
        follow_change(base, rows, numbered, changed);
    }
}

fn follow_change(base: &mut Base, rows: &SharedRows, numbered: &Numbered, changed: &mut ChangedRows)
    requires flags { length base.old.live ≡ length rows.now }
    ensures follows { FollowsRemovals (numbered.now ∷ []) rows.now base.old base.new }
    ensures notes { NotesRows changed.old changed.new base.old.live base.new.live }
{
    match numbered.change {
        Change::Add(_) => {}
        Change::Remove => remove_row(base, rows, numbered.id, changed),
    }
}

// Takes the row of an id out of all answers, where there is one.
fn remove_row(base: &mut Base, rows: &SharedRows, id: u32, changed: &mut ChangedRows)
    requires flags { length base.old.live ≡ length rows.now }
    ensures follows { FollowsRemovals (record { change = Remove; id = id } ∷ []) rows.now base.old base.new }
    ensures notes { NotesRows changed.old changed.new base.old.live base.new.live }
{
    // The contract of `len` says that the ids of the rows ascend, so one row at most is of this id.
    let _ids = rows.len();
    match rows.find(id) {
        Some(row) => {
            base.remove(row);
            changed.add(row);
        }
        None => {}
    }
}

/// How many credentials of a version have ids up to this, where the others stand behind them.
pub(crate) fn count_up_to(version: &Version, last: u32) -> u32
    ensures { (earlier later : ListOf NumberedText) → credentials_of version.now ≡ earlier ++ later
        → AreUpTo last earlier → AreAbove last later → result ≡ length earlier }
{
    let mut count = version.len();
    while count > 0 {
        if version.id(count - 1) <= last {
            return count;
        }
        count -= 1;
    }
    0
}
