//! The shared credentials of a version as a base, which is kept from one query to the next.
ghost use Rattle.std.specs.Prelude.{◌≡◌, ◌+◌, ◌<◌, ◌≤◌, ◌++◌, true, List as ListOf, length, map, take, IfOk, IfSome};
ghost use Rattle.kn_base.specs.declared.limits.TheConstants.{LIVE_BYTES};
ghost use Rattle.kn_history.specs.declared.update.Update.{Update};
ghost use Rattle.kn_meaning.specs.Equations.{IsPolicyLevel, equations_over};
ghost use Rattle.kn_meaning.specs.Proofs.{IsProof};
ghost use Rattle.kn_session.specs.Views.{numbered_text, AreReadPrivates, ArePrivates};
ghost use Rattle.kn_system.specs.Equations.{node_total};
ghost use Rattle.kn_query.specs.Following.{live_credentials};
ghost use Rattle.kn_query.specs.SharedBases.{GoesOnFrom, HasCredentials, HasRows, IsOfVersion, LacksAdditions};
ghost use Rattle.kn_query.specs.SharedParts.{private_parts, shared_parts};
ghost use Rattle.kn_query.specs.Steady.{Covers, KeepsLevel};

use crate::changed_rows::ChangedRows;
use crate::following::{count_up_to, follow_removals};
use crate::parts::{push_private, push_shared};
use crate::shared_rows::SharedRows;
use crate::steady::Steady;
use kn_answer::{Answer, Base};
use kn_base::{List, NoMemory};
use kn_env::Query;
use kn_rows::count_nodes;
use kn_session::Private;
use kn_session::laws::assertions_of_a_session;
use kn_store::Version;
use std::alloc::Global;

/// The most nodes of a base that is kept.
const MOST_NODES: u32 = 262_144;

/// The most principals of a base that is kept.
const MOST_PRINCIPALS: u32 = 65_536;

/// The most principals that a base gets from queries before it is built anew.
const MOST_ENTERED: u32 = 2_048;

/// How many more credentials a base has that were removed than such as are still there, before it is built anew.
const MOST_REMOVED: u32 = 16;

/// The shared credentials of a version as a base: it answers each query over them, and what it was built from need not
/// be read again.
pub struct SharedBase {
    base: Base,
    // The credentials of its rows.
    rows: SharedRows,
    number: u32,
    // The earlier versions over which the policy has the level that it has over this one.
    steady: Steady,
    // The most principals with which it is kept.
    most: u32,
}

// Written out, so that a crate that drops a base rests on this proof, and proves none for all that it holds.
impl Drop for SharedBase {
    fn drop(self) {
        let SharedBase {
            base,
            rows,
            number: _,
            steady: _,
            most: _,
        } = self;
    }
}

impl SharedBase {
    /// The base of the credentials of a version, or None where their formulas have more nodes than a base that is kept.
    ///
    /// `NoMemory` comes only when memory runs out.
    pub(crate) fn of(alloc: Global, version: &Version) -> Result<Option<SharedBase>, NoMemory>
        ensures { IfOk result (λ built. IfSome built (IsOfVersion version.now)) }
    {
        assertions_of_a_session();
        kn_assert::laws::readings_are_computed();
        kn_assert::laws::readings_are_sound();
        // The contract of `len` says that the credentials are within their limits, and that their ids ascend.
        let _live = version.len();
        let mut parts = List::new(alloc);
        push_shared(&mut parts, version, 0)?;
        let Some(base) = Base::of(alloc, &parts, MOST_NODES)? else {
            return Ok(None);
        };
        let mut rows = SharedRows::new(alloc);
        rows.push_from(version, 0)?;
        let most = base.principals() + MOST_ENTERED;
        let number = version.number();
        Ok(Some(SharedBase {
            base,
            rows,
            number,
            steady: Steady::at(number),
            most,
        }))
    }

    /// The number of the version.
    pub(crate) fn number(&self) -> u32
        ensures { result ≡ self.now.number }
    {
        self.number
    }

    /// Whether it is known that the policy has the same level over the version of this number, whatever is asked, as
    /// over that of the base.
    pub(crate) fn is_steady_since(&self, earlier: u32) -> bool
        ensures steady { (version : ListOf Update) → HasCredentials version self.now → result ≡ true
            → KeepsLevel (take earlier version) version }
        ensures all { Covers self.now.steady earlier → result ≡ true }
    {
        self.steady.covers(earlier)
    }

    /// The base where it has followed the updates of a version that goes on from its own: what they removed is no more
    /// there, and the credentials that they added stand behind the others. It is gone where most of its rows were
    /// removed, or where it became too large to be kept.
    ///
    /// `NoMemory` comes only when memory runs out, and the base is gone then.
    pub(crate) fn follow(
        self,
        alloc: Global,
        version: &Version,
    ) -> Result<Option<SharedBase>, NoMemory>
        requires later { self.number ≤ length version.now }
        requires of_earlier { IsOfVersion (take self.number version.now) self }
        ensures of_version { IfOk result (λ followed. IfSome followed (IsOfVersion version.now)) }
    {
        if self.number == version.number() {
            return Ok(Some(self));
        }
        if !self.is_small() {
            return Ok(None);
        }
        let mut shared = self;
        let (number, steady) = (shared.number, shared.steady);
        let mut changed = ChangedRows::new();
        follow_removals(
            &mut shared.base,
            &shared.rows,
            version,
            number,
            &mut changed,
        );
        let rows = shared.rows.len();
        let kept = count_up_to(version, shared.rows.last_id());
        if rows.saturating_sub(kept) > version.len() + MOST_REMOVED {
            return Ok(None);
        }
        let Some(mut followed) = shared.extend(alloc, version, kept)? else {
            return Ok(None);
        };
        changed.add_range(rows, followed.rows.len());
        if changed.keep_policy_level(alloc, &followed.base)? {
            followed.steady = steady.since(number);
        }
        Ok(followed.into_kept())
    }

    // The base with the credentials of a version that stand behind so many of its own, or None where it would have more
    // nodes than one that is kept.
    fn extend(
        self,
        alloc: Global,
        version: &Version,
        kept: u32,
    ) -> Result<Option<SharedBase>, NoMemory>
        requires lacks { LacksAdditions version.now self }
        requires names { length self.base.names ≤ MOST_PRINCIPALS }
        requires nodes { node_total self.base.system.rows ≤ MOST_NODES }
        requires kept { kept ≡ length (live_credentials self.rows self.base.live) }
        ensures credentials { IfOk result (λ extended. IfSome extended (HasCredentials version.now)) }
        ensures goes_on { IfOk result (λ extended. IfSome extended (GoesOnFrom self)) }
    {
        assertions_of_a_session();
        kn_assert::laws::readings_are_computed();
        kn_assert::laws::readings_are_sound();
        let number = version.number();
        // The contract of `len` says that the credentials are within their limits, and that their ids ascend.
        let _live = version.len();
        let mut parts = List::new(alloc);
        push_shared(&mut parts, version, kept)?;
        if count_nodes(&parts) > MOST_NODES - self.base.nodes() {
            return Ok(None);
        }
        let SharedBase {
            base,
            mut rows,
            number: _,
            steady: _,
            most,
        } = self;
        // The contract of `len` says that the texts of the rows have readings, and that their ids ascend.
        let _ids = rows.len();
        let before = base.principals();
        let base = base.extend_all(alloc, &parts)?;
        rows.push_from(version, kept)?;
        let most = most.saturating_add(base.principals() - before);
        Ok(Some(SharedBase {
            base,
            rows,
            number,
            steady: Steady::at(number),
            most,
        }))
    }

    /// The answer to a query over the credentials of the version of which the base is. `NoMemory` comes only when
    /// memory runs out, and the base stays of them.
    pub(crate) fn answer(&mut self, alloc: Global, query: &Query<'_>) -> Result<Answer, NoMemory>
        requires rows { HasRows self.old }
        requires few_names { length self.old.base.names ≤ 1 + LIVE_BYTES }
        ensures proof { (version : ListOf Update) → HasCredentials version self.old → IfOk result (λ a.
            IsProof (equations_over query.now (shared_parts version)) a.rows a.value) }
        ensures least { (version : ListOf Update) → HasCredentials version self.old → IfOk result (λ a.
            IsPolicyLevel (equations_over query.now (shared_parts version)) a.value) }
        ensures below { IfOk result (λ a. a.value < length query.now.values) }
        ensures credentials { (version : ListOf Update) → HasCredentials version self.old
            → HasCredentials version self.new }
    {
        // The contract of `requesters` says that there are 64 at most, each of 1 to 4,096 bytes, and none `POLICY`.
        let _requesters = query.requesters();
        // The contract of `len` says that the texts of the rows have readings.
        let _read = self.rows.len();
        self.base.answer(alloc, query, &self.rows)
    }

    /// The answer to a query over the credentials of the version of which the base is, and behind them these private
    /// assertions, of which nothing stays in the base.
    ///
    /// `NoMemory` comes only when memory runs out, and the base is gone then.
    pub(crate) fn answer_with(
        self,
        alloc: Global,
        privates: &List<Private>,
        query: &Query<'_>,
    ) -> Result<(Answer, SharedBase), NoMemory>
        requires rows { HasRows self }
        requires few_names { length self.base.names ≤ 1 + LIVE_BYTES }
        requires few_nodes { node_total self.base.system.rows ≤ LIVE_BYTES }
        requires privates { ArePrivates (map numbered_text privates.now) }
        requires readings { AreReadPrivates privates.now }
        ensures proof { (version : ListOf Update) → HasCredentials version self → IfOk result (λ r. IsProof
            (equations_over query.now (shared_parts version ++ private_parts privates.now)) r.0.rows r.0.value) }
        ensures least { (version : ListOf Update) → HasCredentials version self → IfOk result (λ r. IsPolicyLevel
            (equations_over query.now (shared_parts version ++ private_parts privates.now)) r.0.value) }
        ensures below { IfOk result (λ r. r.0.value < length query.now.values) }
        ensures credentials { (version : ListOf Update) → HasCredentials version self
            → IfOk result (λ r. HasCredentials version r.1) }
    {
        kn_assert::laws::readings_are_computed();
        kn_assert::laws::readings_are_sound();
        // The contract of `requesters` says that there are 64 at most, each of 1 to 4,096 bytes, and none `POLICY`.
        let _requesters = query.requesters();
        let mut parts = List::new(alloc);
        push_private(&mut parts, privates)?;
        let SharedBase {
            base,
            rows,
            number,
            steady,
            most,
        } = self;
        // The contract of `len` says that the texts of the rows have readings.
        let _read = rows.len();
        let (answer, base) = base.answer_with(alloc, query, &rows, &parts)?;
        Ok((
            answer,
            SharedBase {
                base,
                rows,
                number,
                steady,
                most,
            },
        ))
    }

    /// The base, where it is small enough to be kept.
    pub(crate) fn into_kept(self) -> Option<SharedBase>
        ensures { (version : ListOf Update) → HasCredentials version self → IfSome result (IsOfVersion version) }
    {
        if self.is_small() { Some(self) } else { None }
    }

    /// Whether it is so small that it is kept.
    pub(crate) fn is_small(&self) -> bool
        ensures names { result ≡ true → length self.now.base.names ≤ MOST_PRINCIPALS }
        ensures nodes { result ≡ true → node_total self.now.base.system.rows ≤ MOST_NODES }
    {
        let principals = self.base.principals();
        principals <= self.most && principals <= MOST_PRINCIPALS && self.base.nodes() <= MOST_NODES
    }
}
