//! The live credentials with what is counted beside them.

ghost use Rattle.std.specs.Prelude.{◌≡◌, ◌<◌, ◌≤◌, ◌+◌, true, false, [], length, None, Some, slice_get};
ghost use Rattle.std.specs.Prelude.{IfOk, IfErr, OnOk, OnErr, MatchOption};
ghost use Rattle.kn_base.specs.declared.limits.TheConstants.{LIVE_CREDENTIALS as MOST_CREDENTIALS};
ghost use Rattle.kn_base.specs.declared.limits.TheConstants.{LIVE_BYTES as MOST_BYTES, UPDATES as MOST_UPDATES};
ghost use Rattle.kn_history.specs.Batches.{item_reads};
ghost use Rattle.kn_history.specs.History.{text_bytes, RefusesChange};
ghost use Rattle.kn_history.specs.Ids.{IdsAscend};
ghost use Rattle.kn_store.specs.ItemViews.{after_item, change_of, refusal_of};
ghost use Rattle.kn_store.specs.LiveView.{live_view, refusal_of_size, refusal_of_removal, with_addition, with_removal};
ghost use Rattle.kn_pages.specs.Pages.{joined};
ghost use Rattle.kn_store.specs.Places.{has_id, IsIdAt, IsPlaceOf, ends_before};

use crate::live_credential::LiveCredential;
use kn_base::NoMemory;
use kn_base::limits::{LIVE_BYTES, LIVE_CREDENTIALS, LOGGED_BYTES, UPDATES};
use kn_history::{Change, Item, Numbered, StoreFault};
use kn_pages::Pages;
use std::alloc::Global;
use std::marker::Model;
use std::mem;

/// The most credentials of a page.
pub(crate) const CREDENTIALS_PAGE: u32 = 64;

/// The live credentials in order of id, with the numbers that limits ask for.
pub(crate) struct LiveSet {
    pages: Pages<LiveCredential>,
    /// How many are live.
    count: u32,
    /// The bytes of their texts.
    bytes: u32,
    /// How many changes there were.
    changes: u32,
    /// The bytes of all texts that were ever added.
    logged: u32,
    /// How many additions there were.
    added: u32,
}

impl Drop for LiveSet {
    fn drop(self) {
        let LiveSet {
            pages,
            count: _,
            bytes: _,
            changes: _,
            logged: _,
            added: _,
        } = self;
    }
}

impl Model for LiveSet {
    ghost use Rattle.kn_store.specs.LiveView.{LiveView};

    ghost Value = { LiveView };

    ghost use Rattle.kn_store.specs.LiveSets.{view_of_set, IsLiveSet};

    ghost view = { view_of_set };

    ghost invariant = { IsLiveSet };
}

impl LiveSet {
    /// None are live, and there was no change.
    pub(crate) fn empty(alloc: Global) -> LiveSet
        ensures { result ≡ live_view [] }
    {
        LiveSet {
            pages: Pages::empty(alloc),
            count: 0,
            bytes: 0,
            changes: 0,
            logged: 0,
            added: 0,
        }
    }

    pub(crate) fn count(&self) -> u32
        ensures count { result ≡ length self.now.credentials }
        ensures limit { length self.now.credentials ≤ MOST_CREDENTIALS }
        ensures bytes { text_bytes self.now.credentials ≤ MOST_BYTES }
        ensures ids { IdsAscend 0 self.now.credentials }
    {
        self.count
    }

    pub(crate) fn changes(&self) -> u32
        ensures count { result ≡ self.now.changes }
        ensures limit { result ≤ MOST_UPDATES }
    {
        self.changes
    }

    pub(crate) fn next_id(&self) -> u32
        ensures { result ≡ self.now.added + 1 }
    {
        self.added + 1
    }

    pub(crate) fn get(&self, i: u32) -> &LiveCredential
        requires { i < length self.now.credentials }
        ensures { slice_get self.now.credentials i ≡ Some result.now }
    {
        self.pages.get(i)
    }

    /// The first fault of an addition of so many bytes.
    pub(crate) fn refusal_of_size(&self, size: usize) -> Option<StoreFault>
        ensures { result ≡ refusal_of_size self.now size }
    {
        let (bytes, logged) = (self.bytes as usize, self.logged as usize);
        if self.count >= LIVE_CREDENTIALS {
            Some(StoreFault::LiveFull { count: self.count })
        } else if size > LIVE_BYTES - bytes {
            Some(StoreFault::BytesFull { bytes: self.bytes })
        } else if self.changes >= UPDATES {
            Some(StoreFault::HistoryFull {
                updates: self.changes,
            })
        } else if size > LOGGED_BYTES - logged {
            Some(StoreFault::LogFull { bytes: self.logged })
        } else {
            None
        }
    }

    /// The same set, which shares all credentials.
    pub(crate) fn share(&self, alloc: Global) -> Result<LiveSet, NoMemory>
        ensures { IfOk result (λ set. set ≡ self.now) }
    {
        Ok(LiveSet {
            pages: self.pages.share(alloc)?,
            count: self.count,
            bytes: self.bytes,
            changes: self.changes,
            logged: self.logged,
            added: self.added,
        })
    }

    /// Makes the change of an item, and gives it. Where it is refused, what is left isn't said.
    #[inline(always)]
    pub(crate) fn enter(&mut self, alloc: Global, item: Item) -> Result<Numbered, StoreFault>
        ensures set { OnOk result (self.new ≡ after_item self.old item) }
        ensures change { IfOk result (λ change. change ≡ change_of self.old item) }
        ensures accepted { OnOk result (refusal_of self.old item ≡ None) }
        ensures reads { OnOk result (item_reads item ≡ true) }
        ensures refused { IfErr result (λ fault. RefusesChange (refusal_of self.old item) fault) }
    {
        match item {
            Item::Add(ready) => {
                let size = ready.text().len();
                if let Some(fault) = self.refusal_of_size(size) {
                    return Err(fault);
                }
                let id = self.next_id();
                let (credential, text) = LiveCredential::of(ready, id);
                self.add(alloc, CREDENTIALS_PAGE, credential, size as u32)?;
                let change = Change::Add(text);
                Ok(Numbered { change, id })
            }
            Item::Remove(id) => {
                self.remove(alloc, id)?;
                let change = Change::Remove;
                Ok(Numbered { change, id })
            }
        }
    }

    /// Adds one, which has the next id and a text of this size. It begins a page where the last has `most`.
    #[inline(always)]
    pub(crate) fn add(
        &mut self,
        alloc: Global,
        most: u32,
        credential: LiveCredential,
        size: u32,
    ) -> Result<(), NoMemory>
        requires some { 1 ≤ most }
        requires few { most ≤ CREDENTIALS_PAGE }
        requires size { size ≡ length credential.text }
        requires accepted { refusal_of_size self.old (length credential.text) ≡ None }
        requires next { credential.id ≡ self.old.added + 1 }
        ensures ok { OnOk result (self.new ≡ with_addition self.old credential.text) }
        ensures kept { OnErr result (self.new ≡ self.old) }
    {
        self.pages.add(alloc, most, credential)?;
        self.count += 1;
        self.bytes += size;
        self.changes += 1;
        self.logged += size;
        self.added += 1;
        Ok(())
    }

    /// Takes the one of this id out. Where it is refused, what is left isn't said.
    fn remove(&mut self, alloc: Global, id: u32) -> Result<(), StoreFault>
        ensures ok { OnOk result (self.new ≡ with_removal self.old id) }
        ensures accepted { OnOk result (refusal_of_removal self.old id ≡ None) }
        ensures refused { IfErr result (λ fault. RefusesChange (refusal_of_removal self.old id) fault) }
    {
        let former = mem::replace(self, LiveSet::empty(alloc));
        *self = former.with_removal(alloc, id)?;
        Ok(())
    }

    /// These without the one of this id.
    pub(crate) fn with_removal(self, alloc: Global, id: u32) -> Result<LiveSet, StoreFault>
        ensures ok { IfOk result (λ set. set ≡ with_removal self id) }
        ensures accepted { OnOk result (refusal_of_removal self id ≡ None) }
        ensures refused { IfErr result (λ fault. RefusesChange (refusal_of_removal self id) fault) }
    {
        let Some((page, place)) = place_of(&self.pages, id) else {
            return Err(StoreFault::Unknown { id });
        };
        if self.changes >= UPDATES {
            return Err(StoreFault::HistoryFull {
                updates: self.changes,
            });
        }
        let size = self.pages.item(page, place).credential().text.len() as u32;
        let LiveSet {
            pages,
            count,
            bytes,
            changes,
            logged,
            added,
        } = self;
        let Ok(pages) = pages.without_item(alloc, page, place) else {
            return Err(StoreFault::NoMemory);
        };
        Ok(LiveSet {
            pages,
            count: count - 1,
            bytes: bytes - size,
            changes: changes + 1,
            logged,
            added,
        })
    }
}

/// The page of this id and its place there, both counted from 0, or None where it isn't live.
fn place_of(pages: &Pages<LiveCredential>, id: u32) -> Option<(usize, usize)>
    requires ids { IdsAscend 0 (joined pages.now) }
    ensures { MatchOption result (has_id id (joined pages.now) ≡ false) (λ at. IsPlaceOf id pages.now at.0 at.1) }
{
    for page in 0..pages.count() {
        let items = pages.page(page);
        if !ends_before(items, id) {
            let place = place_in(items, id)?;
            return Some((page, place));
        }
    }
    None
}

/// Whether the last id of a page is below this.
fn ends_before(page: &[LiveCredential], id: u32) -> bool
    ensures { result ≡ ends_before id page.now }
{
    match page.last() {
        Some(last) => last.id() < id,
        None => true,
    }
}

/// The place of this id in a page, counted from 0, or None where it isn't there.
fn place_in(page: &[LiveCredential], id: u32) -> Option<usize>
    ensures { MatchOption result (has_id id page.now ≡ false) (IsIdAt id page.now) }
{
    for place in 0..page.len() {
        if page[place].id() == id {
            return Some(place);
        }
    }
    None
}
