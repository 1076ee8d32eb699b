//! The system of what a session asks, and the answer to it.
ghost use Rattle.std.specs.Prelude.{◌<◌, ◌++◌, length, map, IfOk, IfSome};
ghost use Rattle.kn_env.specs.Environment.{AreRequesters};
ghost use Rattle.kn_meaning.specs.Equations.{IsPolicyLevel, equations_over};
ghost use Rattle.kn_meaning.specs.Proofs.{IsProof};
ghost use Rattle.kn_session.specs.Views.{session_of_view, numbered_text, AreReadPrivates, ArePrivates};
ghost use Rattle.kn_daemon.specs.Daemon.{equations_of, session_parts};
ghost use Rattle.kn_rows.specs.Numbering.{AreDistinct};
ghost use Rattle.kn_answer.specs.Built.{IsBuilt};
ghost use Rattle.kn_query.specs.KeptBases.{EachKept, IsKeptOrOf};
ghost use Rattle.kn_query.specs.SharedBases.{IsOfHistory};
ghost use Rattle.kn_query.specs.SharedParts.{private_parts, shared_parts};

use crate::kept_bases::KeptBases;
use crate::parts::parts_of_view;
use kn_answer::{Answer, Built, answer, build};
use kn_base::{List, NoMemory};
use kn_env::{Query, Values};
use kn_session::{Private, View};
use kn_store::Version;
use std::alloc::Global;

/// The system of what a session asks where these are the compliance values: a row for each credential of the version
/// that it is pinned to, in order of id, and then one for each of its private assertions.
///
/// `NoMemory` comes only when memory runs out.
pub fn build_query(alloc: Global, view: &View<'_>, values: &Values) -> Result<Built, NoMemory>
    requires privates { ArePrivates (session_of_view view.now).privates }
    requires readings { AreReadPrivates view.now.private.now }
    requires requesters { AreRequesters view.now.requesters.now }
    ensures built { IfOk result (λ built. IsBuilt (equations_of (session_of_view view.now) values.now) built) }
    ensures ids { IfOk result (λ built. AreDistinct built.ids) }
{
    let parts = parts_of_view(alloc, view)?;
    let query = Query::of(alloc, view.attributes, values, view.requesters)?;
    build(alloc, &parts, &query)
}

/// The answer to what a session asks where these are the compliance values: its value (RFC 2704, section 5), and the
/// rows that prove it.
///
/// What is kept from one query to the next are bases of shared credentials. One of the session's version is asked, one
/// of an earlier version of the same history follows it, and else one is built. Private assertions are in it for their
/// query alone. Where a base would be too large to be kept, the query is answered by a system of its own. `NoMemory`
/// comes only when memory runs out.
pub fn answer_query(
    alloc: Global,
    view: &View<'_>,
    values: &Values,
    kept: &mut KeptBases,
) -> Result<Answer, NoMemory>
    requires privates { ArePrivates (session_of_view view.now).privates }
    requires readings { AreReadPrivates view.now.private.now }
    requires requesters { AreRequesters view.now.requesters.now }
    requires of_history { EachKept (IsOfHistory (session_of_view view.now).pinned) kept.old }
    ensures proof { IfOk result (λ a. IsProof (equations_of (session_of_view view.now) values.now) a.rows a.value) }
    ensures least { IfOk result (λ a. IsPolicyLevel (equations_of (session_of_view view.now) values.now) a.value) }
    ensures below { IfOk result (λ a. a.value < length values.now) }
    ensures of_version { EachKept (IsKeptOrOf (session_of_view view.now).pinned kept.old) kept.new }
{
    let query = Query::of(alloc, view.attributes, values, view.requesters)?;
    match answer_by_base(alloc, view, &query, kept)? {
        Some(found) => Ok(found),
        None => answer(alloc, &parts_of_view(alloc, view)?, &query),
    }
}

// The answer to what a session asks from the base of its shared credentials, or None where that would be too large to
// be kept.
fn answer_by_base(
    alloc: Global,
    view: &View<'_>,
    query: &Query<'_>,
    kept: &mut KeptBases,
) -> Result<Option<Answer>, NoMemory>
    requires privates { ArePrivates (session_of_view view.now).privates }
    requires readings { AreReadPrivates view.now.private.now }
    requires of_history { EachKept (IsOfHistory (session_of_view view.now).pinned) kept.old }
    ensures proof { let parts = session_parts (session_of_view view.now) in IfOk result (λ answered.
        IfSome answered (λ a. IsProof (equations_over query.now parts) a.rows a.value)) }
    ensures least { let parts = session_parts (session_of_view view.now) in IfOk result (λ answered.
        IfSome answered (λ a. IsPolicyLevel (equations_over query.now parts) a.value)) }
    ensures below { IfOk result (λ answered. IfSome answered (λ a. a.value < length query.now.values)) }
    ensures of_version { EachKept (IsKeptOrOf (session_of_view view.now).pinned kept.old) kept.new }
{
    if view.private.is_empty() {
        answer_shared(alloc, view.snapshot, query, kept)
    } else {
        answer_own(alloc, view.snapshot, view.private, query, kept)
    }
}

// The answer over the credentials of a version and private assertions.
fn answer_own(
    alloc: Global,
    version: &Version,
    privates: &List<Private>,
    query: &Query<'_>,
    kept: &mut KeptBases,
) -> Result<Option<Answer>, NoMemory>
    requires privates { ArePrivates (map numbered_text privates.now) }
    requires readings { AreReadPrivates privates.now }
    requires of_history { EachKept (IsOfHistory version.now) kept.old }
    ensures proof { IfOk result (λ answered. IfSome answered (λ a. IsProof
        (equations_over query.now (shared_parts version.now ++ private_parts privates.now)) a.rows a.value)) }
    ensures least { IfOk result (λ answered. IfSome answered (λ a. IsPolicyLevel
        (equations_over query.now (shared_parts version.now ++ private_parts privates.now)) a.value)) }
    ensures below { IfOk result (λ answered. IfSome answered (λ a. a.value < length query.now.values)) }
    ensures of_version { EachKept (IsKeptOrOf version.now kept.old) kept.new }
{
    let Some(shared) = kept.take_or_build(alloc, version)? else {
        return Ok(None);
    };
    let (answer, shared) = shared.answer_with(alloc, privates, query)?;
    kept.keep(shared);
    Ok(Some(answer))
}

// The answer over the credentials of a version alone.
fn answer_shared(
    alloc: Global,
    version: &Version,
    query: &Query<'_>,
    kept: &mut KeptBases,
) -> Result<Option<Answer>, NoMemory>
    requires of_history { EachKept (IsOfHistory version.now) kept.old }
    ensures proof { IfOk result (λ answered. IfSome answered (λ a.
        IsProof (equations_over query.now (shared_parts version.now)) a.rows a.value)) }
    ensures least { IfOk result (λ answered. IfSome answered (λ a.
        IsPolicyLevel (equations_over query.now (shared_parts version.now)) a.value)) }
    ensures below { IfOk result (λ answered. IfSome answered (λ a. a.value < length query.now.values)) }
    ensures of_version { EachKept (IsKeptOrOf version.now kept.old) kept.new }
{
    if let Some(answer) = kept.answer_recent(alloc, version, query) {
        return Ok(Some(answer?));
    }
    let Some(mut shared) = kept.take_or_build(alloc, version)? else {
        return Ok(None);
    };
    let answer = shared.answer(alloc, query);
    kept.keep(shared);
    Ok(Some(answer?))
}
