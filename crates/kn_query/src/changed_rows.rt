//! The rows of a base whose assertions come or go while it follows updates.
ghost use Rattle.std.specs.Prelude.{◌≡◌, ℕ, ◌<◌, ◌≤◌, false, true, [], length, IfOk};
ghost use Rattle.kn_answer.specs.Unaffected.{KeepsPolicyLevel};
ghost use Rattle.kn_query.specs.ChangedRows.{AreBelow, HasRow};

use arrayvec::ArrayVec;
use kn_answer::Base;
use kn_base::NoMemory;
use std::alloc::Global;

/// The most rows that are noted. Each of them costs a look at whom it may affect.
const MOST_CHANGED: usize = 16;

/// The rows whose assertions came or went, as long as they are few. It takes no memory.
#[derive(Drop)]
pub(crate) struct ChangedRows {
    rows: ArrayVec<u32, MOST_CHANGED>,
    // Whether there were more.
    many: bool,
}

impl ChangedRows {
    pub(crate) fn new() -> ChangedRows
        ensures rows { result.rows.items ≡ [] }
        ensures few { result.many ≡ false }
    {
        ChangedRows {
            rows: ArrayVec::new(),
            many: false,
        }
    }

    /// Notes a row.
    pub(crate) fn add(&mut self, row: u32)
        ensures has { HasRow self.new row }
        ensures keeps { (other : ℕ) → HasRow self.old other → HasRow self.new other }
        ensures below { (count : ℕ) → row < count → AreBelow count self.old → AreBelow count self.new }
        ensures few { length self.old.rows.items < MOST_CHANGED → self.new.many ≡ self.old.many }
    {
        match self.rows.try_push(row) {
            Ok(()) => {}
            Err(_) => self.many = true,
        }
    }

    /// Notes the rows from the first to before the end.
    pub(crate) fn add_range(&mut self, first: u32, end: u32)
        ensures has { (row : ℕ) → first ≤ row → row < end → HasRow self.new row }
        ensures keeps { (other : ℕ) → HasRow self.old other → HasRow self.new other }
        ensures below { (count : ℕ) → end ≤ count → AreBelow count self.old → AreBelow count self.new }
    {
        for row in first..end {
            if self.many {
                return;
            }
            self.add(row);
        }
    }

    /// Whether the policy keeps its level, whatever is asked, where the assertions of these rows come or go and no
    /// others do. False where there were more than are noted.
    ///
    /// `NoMemory` comes only when memory runs out.
    pub(crate) fn keep_policy_level(&self, alloc: Global, base: &Base) -> Result<bool, NoMemory>
        requires { AreBelow (length base.now.live) self.now }
        ensures few { IfOk result (λ keep. keep ≡ true → self.now.many ≡ false) }
        ensures kept { IfOk result (λ keep. keep ≡ true → KeepsPolicyLevel self.now.rows.items base.now) }
    {
        if self.many {
            return Ok(false);
        }
        base.keeps_policy_level(alloc, self.rows.as_slice())
    }
}
