//! The value of a standing query, which mostly stays what it was.
ghost use Rattle.std.specs.Prelude.{◌≡◌, ℕ, ◌<◌, true, List as ListOf, length, take, IfOk, IfSome};
ghost use Rattle.kn_env.specs.Environment.{AreRequesters};
ghost use Rattle.kn_meaning.specs.Equations.{IsPolicyLevel};
ghost use Rattle.kn_session.specs.Sessions.{pin_at};
ghost use Rattle.kn_session.specs.Views.{session_of_view, AreReadPrivates, ArePrivates};
ghost use Rattle.kn_daemon.specs.Daemon.{equations_of};
ghost use Rattle.kn_query.specs.KeptBases.{EachKept, IsKeptOrOf};
ghost use Rattle.kn_query.specs.KnownLevels.{IsEarlierLevel};
ghost use Rattle.kn_query.specs.SharedBases.{IsOfHistory};

use crate::kept_bases::KeptBases;
use crate::query::answer_query;
use kn_base::NoMemory;
use kn_env::Values;
use kn_laws::laws::every_query_has_a_level;
use kn_session::View;
use std::alloc::Global;

/// The value of a query over the version of this number, by its index.
#[derive(Clone, Copy, PartialEq, Eq, Drop)]
pub struct KnownLevel {
    /// The number of the version.
    pub version: u32,
    /// The index of the value among the compliance values, the lowest having 0.
    pub level: u8,
}

/// The value of what a session asks where these are the compliance values (RFC 2704, section 5), by its index. Its
/// value over an earlier version of the same history may be known.
///
/// The value is the known one where the updates since can't have affected the policy, which is found at the price of
/// what they changed. Else it is that of `answer_query`. What is kept from one query to the next is as there.
/// `NoMemory` comes only when memory runs out.
pub fn find_level(
    alloc: Global,
    view: &View<'_>,
    values: &Values,
    known: Option<KnownLevel>,
    kept: &mut KeptBases,
) -> Result<u8, NoMemory>
    requires privates { ArePrivates (session_of_view view.now).privates }
    requires readings { AreReadPrivates view.now.private.now }
    requires requesters { AreRequesters view.now.requesters.now }
    requires of_history { EachKept (IsOfHistory (session_of_view view.now).pinned) kept.old }
    requires known { IfSome known (IsEarlierLevel (session_of_view view.now) values.now) }
    ensures least { IfOk result (λ level. IsPolicyLevel (equations_of (session_of_view view.now) values.now) level) }
    ensures below { IfOk result (λ level. level < length values.now) }
    ensures of_version { EachKept (IsKeptOrOf (session_of_view view.now).pinned kept.old) kept.new }
{
    if let Some(known) = known {
        if keeps_value(alloc, view, known.version, kept)? {
            every_query_has_a_level();
            // The contract of `len` says that there are two values at least.
            let _values = values.len();
            return Ok(known.level);
        }
    }
    let answer = answer_query(alloc, view, values, kept)?;
    Ok(answer.value)
}

// Whether it is known that what a session asks has the value that it had over the version of this earlier number. With
// private assertions it isn't known.
fn keeps_value(
    alloc: Global,
    view: &View<'_>,
    earlier: u32,
    kept: &mut KeptBases,
) -> Result<bool, NoMemory>
    requires of_history { EachKept (IsOfHistory (session_of_view view.now).pinned) kept.old }
    ensures value { let session = session_of_view view.now in IfOk result (λ keeps. keeps ≡ true
        → (values : ListOf (ListOf ℕ)) (level : ℕ)
        → IsPolicyLevel (equations_of (pin_at (take earlier session.pinned) session) values) level
        → IsPolicyLevel (equations_of session values) level) }
    ensures of_version { EachKept (IsKeptOrOf (session_of_view view.now).pinned kept.old) kept.new }
{
    if !view.private.is_empty() {
        return Ok(false);
    }
    kept.is_steady_since(alloc, view.snapshot, earlier)
}
