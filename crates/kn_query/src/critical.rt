//! The critical assertions of what a session asks.
ghost use Rattle.std.specs.Prelude.{◌≡◌, ◌⊎◌, ◌<◌, None, Some, length, IfErr, IfOk, OnOk};
ghost use Rattle.kn_env.specs.Environment.{AreRequesters};
ghost use Rattle.kn_meaning.specs.Critical.{AreCritical, equation_nodes};
ghost use Rattle.kn_meaning.specs.Equations.{IsPolicyLevel};
ghost use Rattle.kn_session.specs.Views.{session_of_view, AreReadPrivates, ArePrivates};
ghost use Rattle.kn_daemon.specs.Daemon.{asked_of, equations_of, session_parts};
ghost use Rattle.kn_critical.specs.Faults.{critical_fault};

use crate::parts::parts_of_view;
use kn_critical::{Critical, CriticalFault};
use kn_env::{Query, Values};
use kn_session::View;
use std::alloc::Global;

/// The value of what a session asks where these are the compliance values (RFC 2704, section 5), and which of its
/// assertions are critical (keynoted's own): the credentials of the version that it is pinned to, in order of id, and
/// then its private assertions.
///
/// More nodes than 16,384 are refused. `NoMemory` comes only when memory runs out.
pub fn find_critical(
    alloc: Global,
    view: &View<'_>,
    values: &Values,
) -> Result<Critical, CriticalFault>
    requires privates { ArePrivates (session_of_view view.now).privates }
    requires readings { AreReadPrivates view.now.private.now }
    requires requesters { AreRequesters view.now.requesters.now }
    ensures least { IfOk result (λ c. IsPolicyLevel (equations_of (session_of_view view.now) values.now) c.value) }
    ensures critical { let session = session_of_view view.now in IfOk result (λ c.
        AreCritical (asked_of session values.now) (session_parts session) (session_parts session) c.ids) }
    ensures below { IfOk result (λ c. c.value < length values.now) }
    ensures accepted { OnOk result
        (critical_fault (equation_nodes (equations_of (session_of_view view.now) values.now)) ≡ None) }
    ensures fault { IfErr result (λ f. (f ≡ CriticalFault.NoMemory)
        ⊎ (critical_fault (equation_nodes (equations_of (session_of_view view.now) values.now)) ≡ Some f)) }
{
    let parts = parts_of_view(alloc, view)?;
    let query = Query::of(alloc, view.attributes, values, view.requesters)?;
    kn_critical::find_critical(alloc, &parts, &query)
}
