//! Versions of the shared credentials.

ghost use Rattle.std.specs.Prelude.{◌≡◌, ◌⊎◌, ◌<◌, ◌≤◌, true, [], ◌∷◌, ◌++◌, map, length, slice_get, ℕ, List as Of};
ghost use Rattle.std.specs.Prelude.{Option, None, Some, IfOk, IfErr, OnOk};
ghost use Rattle.std.specs.Arc.{arc_value};
ghost use Rattle.kn_base.specs.declared.limits.TheConstants.{LIVE_CREDENTIALS, LIVE_BYTES, UPDATES, CHANGES};
ghost use Rattle.kn_assert.specs.Reading.{assertion_of};
ghost use Rattle.kn_history.specs.declared.fault.StoreFault.{StoreFault};
ghost use Rattle.kn_history.specs.declared.fault.StoreFault.TheVariants.{NoMemory as Lacking};
ghost use Rattle.kn_history.specs.Batches.{batch_by, refusal_of_items, RefusesBatch};
ghost use Rattle.kn_history.specs.History.{all_changes, next_id, credentials_of, text_bytes, is_valid_history};
ghost use Rattle.kn_history.specs.History.{UpdateFollows, UpdatesFollow, addition_by, additions_behind, removal_by};
ghost use Rattle.kn_history.specs.History.{refusal_of_text, refusal_of_id, RefusesChange, RefusesTexts};
ghost use Rattle.kn_history.specs.Ids.{IdsAscend};
ghost use Rattle.kn_store.specs.EarlierVersions.{AreEarlier, AreLeft};

use crate::earlier::Earlier;
use crate::live_credential::LiveCredential;
use crate::live_set::{CREDENTIALS_PAGE, LiveSet};
use crate::log::Log;
use kn_base::limits::RETAINED_VERSIONS;
use kn_base::{List, NoMemory, Octets};
use kn_history::{BatchFault, Change, Credential, Item, Numbered, Ready, StoreFault, Update};
use std::alloc::Global;
use std::marker::Model;
use std::sync::Arc;

/// What the first updates of a book made: the credentials that are live after them. It is seen as these updates.
///
/// Versions share what they have in common, in pages.
pub struct Version {
    live: LiveSet,
    updates: Log,
    number: u32,
}

// Written out, so that a crate that drops a version rests on this proof, and proves none for all that it holds.
impl Drop for Version {
    fn drop(self) {
        let Version {
            live,
            updates,
            number: _,
        } = self;
    }
}

impl Model for Version {
    ghost use Rattle.std.specs.Prelude.{List};
    ghost use Rattle.kn_history.specs.declared.update.Update.{Update};

    ghost Value = { List Update };

    ghost use Rattle.kn_store.specs.Versions.{updates_of, IsVersion};

    ghost view = { updates_of };

    ghost invariant = { IsVersion };
}

/// A version that several may keep.
pub type Snapshot = Arc<Version>;

impl Version {
    pub(crate) fn empty(alloc: Global) -> Version
        ensures { result ≡ [] }
    {
        Version {
            live: LiveSet::empty(alloc),
            updates: Log::empty(alloc),
            number: 0,
        }
    }

    /// How many updates made it.
    pub fn number(&self) -> u32
        ensures number { result ≡ length self.now }
        ensures limit { result ≤ UPDATES }
        ensures valid { is_valid_history self.now ≡ true }
    {
        // The contract of `changes` says that there are 65,536 at most. Each update has one, so it bounds them too.
        let _ = self.live.changes();
        self.number
    }

    /// How many credentials are live.
    pub fn len(&self) -> u32
        ensures count { result ≡ length (credentials_of self.now) }
        ensures count_limit { length (credentials_of self.now) ≤ LIVE_CREDENTIALS }
        ensures bytes_limit { text_bytes (credentials_of self.now) ≤ LIVE_BYTES }
        ensures ids { IdsAscend 0 (credentials_of self.now) }
    {
        self.live.count()
    }

    /// The id of the i-th live credential, counted from 0 in order of id.
    pub fn id(&self, i: u32) -> u32
        requires in_range { i < length (credentials_of self.now) }
        ensures id { slice_get (map (λ c. c.id) (credentials_of self.now)) i ≡ Some result }
    {
        self.live.get(i).id()
    }

    /// The i-th live credential, counted from 0 in order of id.
    pub fn credential(&self, i: u32) -> &Credential
        requires in_range { i < length (credentials_of self.now) }
        ensures text { slice_get (map (λ c. c.text) (credentials_of self.now)) i ≡ Some result.now.text }
        ensures reading { assertion_of result.now.text ≡ Some result.now.assertion }
    {
        self.live.get(i).credential()
    }

    /// The i-th live credential, counted from 0 in order of id, to be kept beyond this version. Its text isn't copied.
    ///
    /// `NoMemory` comes only when memory runs out.
    pub fn share_credential(&self, i: u32) -> Result<Arc<Credential>, NoMemory>
        requires in_range { i < length (credentials_of self.now) }
        ensures text { IfOk result (λ c.
            slice_get (map (λ c. c.text) (credentials_of self.now)) i ≡ Some (arc_value c).text) }
        ensures reading { IfOk result (λ c. assertion_of (arc_value c).text ≡ Some (arc_value c).assertion) }
    {
        self.live.get(i).share_credential()
    }

    /// The i-th update that made it, counted from 0. Takes no memory.
    pub fn update(&self, i: u32) -> &Update
        requires in_range { i < length self.now }
        ensures update { slice_get self.now i ≡ Some result.now }
    {
        self.updates.get(i)
    }

    /// The id that the next addition has.
    pub(crate) fn next_id(&self) -> u32
        ensures { result ≡ next_id self.now }
    {
        self.live.next_id()
    }

    /// The same version, which shares all pages but the last ones.
    pub(crate) fn share(&self, alloc: Global) -> Result<Version, NoMemory>
        ensures { IfOk result (λ version. version ≡ self.now) }
    {
        Ok(Version {
            live: self.live.share(alloc)?,
            updates: self.updates.share(alloc)?,
            number: self.number,
        })
    }

    /// The same version, to be kept by several.
    pub(crate) fn into_snapshot(self, alloc: Global) -> Result<Snapshot, NoMemory>
        ensures { IfOk result (λ snapshot. arc_value snapshot ≡ self) }
    {
        Arc::new(alloc, self).or(Err(NoMemory))
    }

    /// The first fault of an addition of a text of so many bytes.
    pub(crate) fn refusal_of_size(&self, size: usize) -> Option<StoreFault>
        ensures { (text : Of ℕ) → size ≡ length text → result ≡ refusal_of_text (all_changes self.now) text }
    {
        self.live.refusal_of_size(size)
    }

    /// The version after one more update, which adds this text, and the id of the text. Its credential begins a page
    /// where the last one has `most`.
    #[inline(always)]
    pub(crate) fn with_addition(
        self,
        alloc: Global,
        caller: u32,
        ready: Ready,
        most: u32,
    ) -> Result<(Version, u32), NoMemory>
        requires some { 1 ≤ most }
        requires few { most ≤ CREDENTIALS_PAGE }
        requires accepted { refusal_of_text (all_changes self) ready ≡ None }
        ensures id { IfOk result (λ next. next.1 ≡ next_id self) }
        ensures version { IfOk result (λ next. next.0 ≡ self ++ addition_by caller ready next.1 ∷ []) }
        ensures follows { IfOk result (λ next. UpdateFollows self (addition_by caller ready next.1)) }
    {
        let size = ready.text().len();
        let id = self.live.next_id();
        let number = self.number() + 1;
        let (credential, text) = LiveCredential::of(ready, id);
        let update = addition(alloc, caller, text, id)?;
        let Version {
            mut live,
            updates,
            number: _,
        } = self;
        live.add(alloc, most, credential, size as u32)?;
        let updates = updates.with_update(alloc, update)?;
        Ok((
            Version {
                live,
                updates,
                number,
            },
            id,
        ))
    }

    /// The version after updates that add these texts one after the other, with those before it that are retained, or
    /// the place of the first text that is refused, counted from 0.
    ///
    /// One version is handed on in place, and is shared where it is one of the last before the newest. That copies the
    /// pointers of its last page, so behind the first of them a page begins, unless the last one is still short.
    pub(crate) fn with_additions(
        self,
        alloc: Global,
        caller: u32,
        ready_texts: Vec<Ready>,
        earlier: Earlier,
    ) -> Result<(Version, Earlier), (u32, StoreFault)>
        requires earlier { AreLeft (length ready_texts.items) self earlier }
        ensures version { IfOk result (λ next. next.0 ≡ self ++ additions_behind self caller ready_texts.items) }
        ensures earlier { IfOk result (λ next. AreEarlier next.0 next.1) }
        ensures follow { OnOk result (UpdatesFollow self (additions_behind self caller ready_texts.items)) }
        ensures refused { IfErr result (λ refused. RefusesTexts self caller ready_texts.items refused) }
    {
        let before = self.number();
        let mut left = ready_texts.len();
        let mut next = self;
        let mut earlier = earlier;
        for ready in ready_texts {
            let place = next.number() - before;
            if let Some(fault) = next.refusal_of_size(ready.text().len()) {
                return Err((place, fault));
            }
            if left < RETAINED_VERSIONS as usize && earlier.keep(alloc, &next).is_err() {
                return Err((place, StoreFault::NoMemory));
            }
            let most = if left == RETAINED_VERSIONS as usize - 1 {
                RETAINED_VERSIONS
            } else {
                CREDENTIALS_PAGE
            };
            left -= 1;
            match next.with_addition(alloc, caller, ready, most) {
                Ok((longer, _)) => next = longer,
                Err(_) => return Err((place, StoreFault::NoMemory)),
            }
        }
        Ok((next, earlier))
    }

    /// The version after one more update, which removes this id.
    pub(crate) fn with_removal(
        &self,
        alloc: Global,
        caller: u32,
        id: u32,
    ) -> Result<Version, StoreFault>
        ensures version { IfOk result (λ next. next ≡ self.now ++ removal_by caller id ∷ []) }
        ensures follows { OnOk result (UpdateFollows self.now (removal_by caller id)) }
        ensures refused { IfErr result (λ fault. RefusesChange (refusal_of_id (all_changes self.now) id) fault) }
    {
        let shared = self.live.share(alloc)?;
        let live = shared.with_removal(alloc, id)?;
        let update = removal(alloc, caller, id)?;
        let updates = self.updates.share(alloc)?.with_update(alloc, update)?;
        Ok(Version {
            live,
            updates,
            number: self.number() + 1,
        })
    }

    /// The version after one more update, which makes the changes of these items, one behind the other.
    pub(crate) fn with_items(
        &self,
        alloc: Global,
        caller: u32,
        items: List<Item>,
    ) -> Result<Version, BatchFault>
        requires some { 1 ≤ length items }
        requires few { length items ≤ CHANGES }
        ensures version { IfOk result (λ next. next ≡ self.now ++ batch_by caller (next_id self.now) items ∷ []) }
        ensures follows { OnOk result (UpdateFollows self.now (batch_by caller (next_id self.now) items)) }
        ensures refused { IfErr result (λ fault. RefusesBatch (refusal_of_items (all_changes self.now) items) fault) }
    {
        let mut items = items;
        let mut live = self.live.share(alloc)?;
        let mut changes = begin_changes(alloc, items.len())?;
        for place in 0..items.len() {
            let item = items.replace(place, Item::Remove(0));
            match live.enter(alloc, item) {
                Ok(change) => changes.add(change)?,
                Err(fault) => return Err(refusal_of_item(place + 1, fault)),
            }
        }
        let update = Update { caller, changes };
        let updates = self.updates.share(alloc)?.with_update(alloc, update)?;
        Ok(Version {
            live,
            updates,
            number: self.number() + 1,
        })
    }
}

/// No changes yet, where so many follow.
fn begin_changes(alloc: Global, count: u32) -> Result<List<Numbered>, NoMemory>
    ensures { IfOk result (λ changes. changes ≡ []) }
{
    let changes = List::new(alloc);
    if count <= 1 {
        // it gets room for itself alone when it comes; `reserve` would make room for four
        return Ok(changes);
    }
    match changes.reserve(count) {
        Ok(room) => Ok(room.finish()),
        Err((_, none)) => Err(none),
    }
}

/// Why a batch is refused whose first refused item is this, for this fault.
fn refusal_of_item(item: u32, fault: StoreFault) -> BatchFault
    ensures { (found : Option (ℕ × StoreFault)) → (fault ≡ Lacking) ⊎ (found ≡ Some (item, fault))
        → RefusesBatch found result }
{
    match fault {
        StoreFault::NoMemory => BatchFault::NoMemory,
        _ => BatchFault::Item { item, fault },
    }
}

/// The update that adds a text.
#[inline(always)]
fn addition(alloc: Global, caller: u32, text: Octets, id: u32) -> Result<Update, NoMemory>
    ensures { IfOk result (λ update. update ≡ addition_by caller text id) }
{
    one_change(alloc, caller, Change::Add(text), id)
}

/// The update that removes an id.
fn removal(alloc: Global, caller: u32, id: u32) -> Result<Update, NoMemory>
    ensures { IfOk result (λ update. update ≡ removal_by caller id) }
{
    one_change(alloc, caller, Change::Remove, id)
}

#[inline(always)]
fn one_change(alloc: Global, caller: u32, change: Change, id: u32) -> Result<Update, NoMemory>
    ensures caller { IfOk result (λ update. update.caller ≡ caller) }
    ensures changes { IfOk result (λ update. update.changes ≡ record { change = change; id = id } ∷ []) }
{
    let mut changes = List::new(alloc);
    changes.add(Numbered { change, id })?;
    Ok(Update { caller, changes })
}
