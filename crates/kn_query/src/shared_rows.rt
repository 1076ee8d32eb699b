//! The credentials of the rows of a base, lent to an answer.
ghost use Rattle.std.specs.Prelude.{◌≡◌, ◌≤◌, ℕ, false, [], ◌∷◌, ◌++◌, drop, length, MatchOption, OnOk};
ghost use Rattle.kn_history.specs.History.{credentials_of};
ghost use Rattle.kn_history.specs.Ids.{IdsAscend};
ghost use Rattle.kn_store.specs.Places.{has_id, IsIdAt};
ghost use Rattle.kn_query.specs.Following.{AreUpTo};
ghost use Rattle.kn_query.specs.SharedParts.{AreRead};

use crate::shared_row::SharedRow;
use kn_answer::Assertions;
use kn_assert::Assertion;
use kn_base::{List, NoMemory};
use kn_proof::Id;
use kn_store::Version;
use std::alloc::Global;
use std::marker::Model;

/// The credentials of the rows of a base in order of id, also of those that were removed since. They are seen as their
/// ids and texts, of which each has a reading. No text is copied.
#[derive(Drop)]
pub(crate) struct SharedRows {
    rows: List<SharedRow>,
}

impl Model for SharedRows {
    ghost use Rattle.std.specs.Prelude.{List};
    ghost use Rattle.kn_history.specs.History.{NumberedText};
    ghost use Rattle.kn_history.specs.Ids.{IdsAscend};
    ghost use Rattle.kn_query.specs.SharedParts.{AreRead};

    ghost Value = { List NumberedText };

    ghost view = { λ r. r.rows };

    ghost invariant = { λ r. AreRead r.rows × IdsAscend 0 r.rows };
}

impl SharedRows {
    pub(crate) fn new(alloc: Global) -> SharedRows
        ensures { result ≡ [] }
    {
        SharedRows {
            rows: List::new(alloc),
        }
    }

    pub(crate) fn len(&self) -> u32
        ensures count { result ≡ length self.now }
        ensures read { AreRead self.now }
        ensures ids { IdsAscend 0 self.now }
    {
        self.rows.len()
    }

    /// The last id, or 0 where there are none.
    pub(crate) fn last_id(&self) -> u32
        ensures last { AreUpTo result self.now }
        ensures least { (most : ℕ) → AreUpTo most self.now → result ≤ most }
    {
        match self.rows.as_slice().last() {
            Some(last) => last.id(),
            None => 0,
        }
    }

    /// The row of the credential of this id, or None where no row is of it.
    pub(crate) fn find(&self, id: u32) -> Option<u32>
        ensures { MatchOption result (has_id id self.now ≡ false) (IsIdAt id self.now) }
    {
        find_row(&self.rows, id)
    }

    /// Adds the credentials of a version from this place on.
    pub(crate) fn push_from(&mut self, version: &Version, first: u32) -> Result<(), NoMemory>
        requires first { first ≤ length (credentials_of version.now) }
        requires ids { IdsAscend 0 (self.old ++ drop first (credentials_of version.now)) }
        ensures { OnOk result (self.new ≡ self.old ++ drop first (credentials_of version.now)) }
    {
        for place in first..version.len() {
            let credential = version.share_credential(place)?;
            self.push(SharedRow::of(version.id(place), credential))?;
        }
        Ok(())
    }

    fn push(&mut self, row: SharedRow) -> Result<(), NoMemory>
        requires { IdsAscend 0 (self.old ++ row ∷ []) }
        ensures { OnOk result (self.new ≡ self.old ++ row ∷ []) }
    {
        // The contract of `assertion` says that the text of the row has a reading.
        let _read = row.assertion();
        match self.rows.push(row) {
            Ok(()) => Ok(()),
            Err(_) => Err(NoMemory),
        }
    }
}

impl Assertions for SharedRows {
    ghost use Rattle.kn_proof.specs.declared.named.Id.TheVariants.{Shared};
    ghost use Rattle.kn_daemon.specs.Daemon.{parts_of};

    ghost parts = { λ rows. parts_of Shared rows };

    fn id(&self, row: u32) -> Id {
        let credential = &self.rows.as_slice()[row as usize];
        Id::Shared(credential.id())
    }

    fn assertion(&self, row: u32) -> &Assertion {
        let credential = &self.rows.as_slice()[row as usize];
        credential.assertion()
    }
}

// The row of this id, or None where there is none.
fn find_row(rows: &List<SharedRow>, id: u32) -> Option<u32>
    requires { IdsAscend 0 rows.now }
    ensures { MatchOption result (has_id id rows.now ≡ false) (IsIdAt id rows.now) }
{
    let mut low = 0;
    let mut high = rows.len();
    while low < high {
        let middle = low + (high - low) / 2;
        let here = rows.as_slice()[middle as usize].id();
        if here == id {
            return Some(middle);
        }
        if here < id {
            low = middle + 1;
        } else {
            high = middle;
        }
    }
    None
}
