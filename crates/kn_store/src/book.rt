//! The book of updates.

ghost use Rattle.std.specs.Prelude.{◌≡◌, ◌≤◌, true, [], ◌∷◌, ◌++◌, length, IfOk, IfErr, OnOk, OnErr, option_map};
ghost use Rattle.std.specs.Arc.{arc_value};
ghost use Rattle.kn_base.specs.declared.limits.TheConstants.{CHANGES};
ghost use Rattle.kn_history.specs.declared.update.Update.{Update};
ghost use Rattle.kn_history.specs.Batches.{batch_by, refusal_of_items, RefusesBatch};
ghost use Rattle.kn_history.specs.History.{all_changes, next_id, is_valid_history, UpdateFollows, UpdatesFollow};
ghost use Rattle.kn_history.specs.History.{addition_by, additions_behind, removal_by};
ghost use Rattle.kn_history.specs.History.{refusal_of_text, refusal_of_id, RefusesChange, RefusesTexts};
ghost use Rattle.kn_history.specs.Retained.{retained_version};
ghost use Rattle.kn_store.specs.EarlierVersions.{AreLeft};

use crate::earlier::Earlier;
use crate::live_set::CREDENTIALS_PAGE;
use crate::version::{Snapshot, Version};
use kn_base::limits::RETAINED_VERSIONS;
use kn_base::{List, NoMemory};
use kn_history::{BatchFault, Item, Ready, StoreFault};
use std::alloc::Global;
use std::marker::Model;
use std::mem;

/// All updates so far. It is seen as their list.
#[derive(Drop)]
pub struct Book {
    alloc: Global,
    newest: Snapshot,
    /// The versions before it that are retained.
    earlier: Earlier,
}

impl Model for Book {
    ghost use Rattle.std.specs.Prelude.{List};
    ghost use Rattle.kn_history.specs.declared.update.Update.{Update};

    ghost Value = { List Update };

    ghost use Rattle.kn_store.specs.Books.{log_of, IsBook};

    ghost view = { log_of };

    ghost invariant = { IsBook };
}

/// An update for which there is memory, and which isn't in the book yet. It is seen as the log that the book would then
/// have, and the id that is answered. To drop it changes nothing.
#[derive(Drop)]
pub struct Prepared {
    version: Snapshot,
    id: u32,
}

impl Model for Prepared {
    ghost use Rattle.kn_store.specs.Prepared.{PreparedUpdate};

    ghost Value = { PreparedUpdate };

    ghost use Rattle.kn_store.specs.Prepared.{update_of};

    ghost view = { update_of };
}

/// What an update answers.
#[derive(Clone, Copy, PartialEq, Eq, Drop)]
pub struct Done {
    /// The id that an addition has or that a removal removes, and of a batch the id that its first addition has, or
    /// would have.
    pub id: u32,
    /// The number of updates with it.
    pub version: u32,
}

impl Book {
    /// No updates: version 0.
    pub fn empty(alloc: Global) -> Result<Book, NoMemory>
        ensures { IfOk result (λ book. book ≡ []) }
    {
        let earlier = Earlier::empty(alloc)?;
        Ok(Book {
            alloc,
            newest: Version::empty(alloc).into_snapshot(alloc)?,
            earlier,
        })
    }

    /// Makes an addition ready, and takes all memory that it needs. The book stays as it is.
    pub fn prepare_add(&mut self, caller: u32, ready: Ready) -> Result<Prepared, StoreFault>
        ensures log { IfOk result (λ p. p.log ≡ self.old ++ addition_by caller ready (next_id self.old) ∷ []) }
        ensures id { IfOk result (λ p. p.id ≡ next_id self.old) }
        ensures follows { OnOk result (UpdateFollows self.old (addition_by caller ready (next_id self.old))) }
        ensures refused { IfErr result (λ fault. RefusesChange (refusal_of_text (all_changes self.old) ready) fault) }
        ensures kept { self.new ≡ self.old }
    {
        // sharing a version copies its pointers, so a refusal is looked for first
        if let Some(fault) = self.newest.refusal_of_size(ready.text().len()) {
            return Err(fault);
        }
        let newest = self.newest.share(self.alloc)?;
        let (version, id) = newest.with_addition(self.alloc, caller, ready, CREDENTIALS_PAGE)?;
        let version = version.into_snapshot(self.alloc)?;
        Ok(Prepared { version, id })
    }

    /// Adds texts, each by an update of its own, or none of them where one is refused: then its place is given, counted
    /// from 0. It takes all memory that it needs before it changes anything.
    ///
    /// A refusal is that behind the texts in front of the refused one, so a limit's number counts them too. When
    /// out of memory, the place tells nothing.
    pub fn add_all(&mut self, caller: u32, ready_texts: Vec<Ready>) -> Result<(), (u32, StoreFault)>
        ensures log { OnOk result (self.new ≡ self.old ++ additions_behind self.old caller ready_texts.items) }
        ensures follow { OnOk result (UpdatesFollow self.old (additions_behind self.old caller ready_texts.items)) }
        ensures refused { IfErr result (λ refused. RefusesTexts self.old caller ready_texts.items refused) }
        ensures kept { OnErr result (self.new ≡ self.old) }
    {
        let Ok((newest, earlier)) = self.begin_additions(ready_texts.len()) else {
            return Err((0, StoreFault::NoMemory));
        };
        let (version, earlier) = newest.with_additions(self.alloc, caller, ready_texts, earlier)?;
        let Ok(newest) = version.into_snapshot(self.alloc) else {
            return Err((0, StoreFault::NoMemory));
        };
        self.newest = newest;
        self.earlier = earlier;
        Ok(())
    }

    /// The newest version, and those before it that are retained, or none of these where so many additions follow that
    /// none of them stays retained.
    fn begin_additions(&self, count: usize) -> Result<(Version, Earlier), NoMemory>
        ensures newest { IfOk result (λ made. made.0 ≡ self.now) }
        ensures earlier { IfOk result (λ made. AreLeft count self.now made.1) }
    {
        let newest = self.newest.share(self.alloc)?;
        if count < RETAINED_VERSIONS as usize {
            return Ok((newest, self.earlier.share(self.alloc)?));
        }
        Ok((newest, Earlier::empty(self.alloc)?))
    }

    /// Makes a removal ready, and takes all memory that it needs. The book stays as it is.
    pub fn prepare_drop(&mut self, caller: u32, id: u32) -> Result<Prepared, StoreFault>
        ensures log { IfOk result (λ p. p.log ≡ self.old ++ removal_by caller id ∷ []) }
        ensures id { IfOk result (λ p. p.id ≡ id) }
        ensures follows { OnOk result (UpdateFollows self.old (removal_by caller id)) }
        ensures refused { IfErr result (λ fault. RefusesChange (refusal_of_id (all_changes self.old) id) fault) }
        ensures kept { self.new ≡ self.old }
    {
        let version = self.newest.with_removal(self.alloc, caller, id)?;
        let version = version.into_snapshot(self.alloc)?;
        Ok(Prepared { version, id })
    }

    /// Makes one update of the changes of these items ready, all of them or none, and takes all memory that it needs.
    /// The book stays as it is. A removal may name an addition in front of it.
    pub fn prepare_batch(&mut self, caller: u32, items: List<Item>) -> Result<Prepared, BatchFault>
        requires some { 1 ≤ length items }
        requires few { length items ≤ CHANGES }
        ensures log { IfOk result (λ p. p.log ≡ self.old ++ batch_by caller (next_id self.old) items ∷ []) }
        ensures id { IfOk result (λ p. p.id ≡ next_id self.old) }
        ensures follows { OnOk result (UpdateFollows self.old (batch_by caller (next_id self.old) items)) }
        ensures refused { IfErr result (λ fault. RefusesBatch (refusal_of_items (all_changes self.old) items) fault) }
        ensures kept { self.new ≡ self.old }
    {
        let id = self.newest.next_id();
        let version = self.newest.with_items(self.alloc, caller, items)?;
        let version = version.into_snapshot(self.alloc)?;
        Ok(Prepared { version, id })
    }

    /// Enters the update that was made ready. Takes no memory.
    pub fn commit(&mut self, p: Prepared) -> Done
        requires next { (update : Update) × (p.log ≡ self.old ++ update ∷ []) }
        ensures log { self.new ≡ p.log }
        ensures id { result.id ≡ p.id }
        ensures version { result.version ≡ length self.new }
    {
        let Prepared { version, id } = p;
        self.earlier.enter(mem::replace(&mut self.newest, version));
        Done {
            id,
            version: self.newest.number(),
        }
    }

    /// The newest version.
    pub fn snapshot(&self) -> &Snapshot
        ensures version { arc_value result.now ≡ self.now }
        ensures valid { is_valid_history self.now ≡ true }
    {
        // The contract of `number` says that the history is valid.
        let _ = self.newest.number();
        &self.newest
    }

    /// The version of this number, which is that of its updates, or None unless it is the newest one or one of the 15
    /// before it. Takes no memory.
    pub fn retained(&self, number: u32) -> Option<&Snapshot>
        ensures { option_map (λ snapshot. arc_value snapshot.now) result ≡ retained_version self.now number }
    {
        let newest = self.newest.number();
        if number == newest {
            return Some(&self.newest);
        }
        let first = newest - self.earlier.len();
        if number < first {
            return None;
        }
        self.earlier.get(number - first)
    }

    /// How many updates there are.
    pub fn length(&self) -> u32
        ensures length { result ≡ length self.now }
        ensures valid { is_valid_history self.now ≡ true }
    {
        self.newest.number()
    }
}
