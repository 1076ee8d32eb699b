//! The log of updates, in pages that are kept in blocks.

ghost use Rattle.std.specs.Prelude.{◌≡◌, ◌<◌, [], ◌∷◌, ◌++◌, length, Some, IfOk, slice_get};
ghost use Rattle.kn_pages.specs.Pages.{joined, with_item, AreFilled};

use kn_base::{List, NoMemory};
use kn_history::Update;
use kn_pages::{Pages, Shareable, share_items};
use std::alloc::Global;
use std::marker::Model;
use std::sync::Arc;

/// The updates of a page of the log, of which the last page may have fewer.
pub(crate) const UPDATES_PAGE: u32 = 256;

/// The updates of a block of a page, of which the last block may have fewer.
const UPDATES_BLOCK: u32 = 16;

/// An update of the log, which versions share. It is seen as the update.
#[derive(Drop)]
struct LoggedUpdate {
    update: Arc<Update>,
}

impl Model for LoggedUpdate {
    ghost use Rattle.std.specs.Arc.{arc_value};
    ghost use Rattle.kn_history.specs.declared.update.Update.{Update};

    ghost Value = { Update };

    ghost view = { λ l. arc_value l.update };
}

impl LoggedUpdate {
    #[inline(always)]
    fn of(alloc: Global, update: Update) -> Result<LoggedUpdate, NoMemory>
        ensures { IfOk result (λ logged. logged ≡ update) }
    {
        let update = Arc::new(alloc, update).or(Err(NoMemory))?;
        Ok(LoggedUpdate { update })
    }

    fn update(&self) -> &Update
        ensures { result.now ≡ self.now }
    {
        &self.update
    }
}

impl Shareable for LoggedUpdate {
    #[inline(always)]
    fn share(&self) -> Result<LoggedUpdate, NoMemory> {
        let update = Arc::try_clone(&self.update).or(Err(NoMemory))?;
        Ok(LoggedUpdate { update })
    }
}

/// A page of the log, in blocks that the pages which are made of it share. It is seen as the list of its updates.
#[derive(Drop)]
struct LogPage {
    blocks: Pages<LoggedUpdate>,
    count: u32,
}

impl Model for LogPage {
    ghost use Rattle.std.specs.Prelude.{List, ◌≡◌, length};
    ghost use Rattle.kn_pages.specs.Pages.{joined};
    ghost use Rattle.kn_history.specs.declared.update.Update.{Update};

    ghost Value = { List Update };

    ghost view = { λ p. joined p.blocks };

    ghost invariant = { λ p. p.count ≡ length (joined p.blocks) };
}

impl LogPage {
    fn empty(alloc: Global) -> LogPage
        ensures { result ≡ [] }
    {
        LogPage {
            blocks: Pages::empty(alloc),
            count: 0,
        }
    }

    /// How many updates it has.
    fn len(&self) -> u32
        ensures { result ≡ length self.now }
    {
        self.count
    }

    /// The update at place `i`, counted from 0.
    fn get(&self, i: u32) -> &Update
        requires { i < length self.now }
        ensures { slice_get self.now i ≡ Some result.now }
    {
        self.blocks.get(i).update()
    }

    /// The same page, which shares the blocks that are full and all updates.
    fn share(&self, alloc: Global) -> Result<LogPage, NoMemory>
        ensures { IfOk result (λ page. page ≡ self.now) }
    {
        Ok(LogPage {
            blocks: self.blocks.share(alloc)?,
            count: self.count,
        })
    }

    /// The page with one more update.
    #[inline(always)]
    fn with_update(self, alloc: Global, update: Update) -> Result<LogPage, NoMemory>
        requires { length self < UPDATES_PAGE }
        ensures { IfOk result (λ page. page ≡ self ++ update ∷ []) }
    {
        let update = LoggedUpdate::of(alloc, update)?;
        let LogPage { mut blocks, count } = self;
        blocks.add(alloc, UPDATES_BLOCK, update)?;
        Ok(LogPage {
            blocks,
            count: count + 1,
        })
    }
}

/// All updates in their order. It is seen as the list of its pages, each of them the list of its updates.
#[derive(Drop)]
pub(crate) struct Log {
    full: List<Arc<LogPage>>,
    /// The page behind the full ones. It is empty only where there are none.
    last: LogPage,
}

impl Model for Log {
    ghost use Rattle.std.specs.Prelude.{List, map, ◌++◌, ◌≡◌, ◌≤◌, ◌⊎◌, [], length};
    ghost use Rattle.std.specs.Arc.{arc_value};
    ghost use Rattle.kn_history.specs.declared.update.Update.{Update};
    ghost use Rattle.kn_pages.specs.Pages.{unless_empty};

    ghost Value = { List (List Update) };

    ghost view = { λ l. map arc_value l.full ++ unless_empty l.last };

    ghost invariant = { λ l. (l.full ≡ []) ⊎ (1 ≤ length l.last) };
}

impl Log {
    pub(crate) fn empty(alloc: Global) -> Log
        ensures { result ≡ [] }
    {
        Log {
            full: List::new(alloc),
            last: LogPage::empty(alloc),
        }
    }

    /// The update at place `i` of all, counted from 0.
    #[tactic(auto, using(crate::proofs::LogLemmas::updates_there))]
    pub(crate) fn get(&self, i: u32) -> &Update
        requires filled { AreFilled UPDATES_PAGE self.now }
        requires in_range { i < length (joined self.now) }
        ensures { slice_get (joined self.now) i ≡ Some result.now }
    {
        let page = (i / UPDATES_PAGE) as usize;
        self.page(page).get(i % UPDATES_PAGE)
    }

    /// The page at this place, counted from 0.
    fn page(&self, page: usize) -> &LogPage
        requires { page < length self.now }
        ensures { slice_get self.now page ≡ Some result.now }
    {
        if let Some(full) = self.full.as_slice().get(page) {
            return full;
        }
        &self.last
    }

    /// The same log, which shares the pages that are full.
    pub(crate) fn share(&self, alloc: Global) -> Result<Log, NoMemory>
        ensures { IfOk result (λ log. log ≡ self.now) }
    {
        Ok(Log {
            full: share_items(alloc, &self.full)?,
            last: self.last.share(alloc)?,
        })
    }

    /// The log with one more update: on the last page, or where that is full on a new one.
    #[inline(always)]
    pub(crate) fn with_update(self, alloc: Global, update: Update) -> Result<Log, NoMemory>
        ensures { IfOk result (λ log. log ≡ with_item UPDATES_PAGE self update) }
    {
        let Log { mut full, last } = self;
        if last.len() < UPDATES_PAGE {
            let last = last.with_update(alloc, update)?;
            return Ok(Log { full, last });
        }
        let Ok(page) = Arc::new(alloc, last) else {
            return Err(NoMemory);
        };
        full.add(page)?;
        Ok(Log {
            full,
            last: LogPage::empty(alloc).with_update(alloc, update)?,
        })
    }
}
