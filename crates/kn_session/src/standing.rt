//! The standing query of a session.
ghost use Rattle.std.specs.Prelude.{◌≡◌, length, IfOk};
ghost use Rattle.std.specs.Arc.{arc_value};
ghost use Rattle.kn_env.specs.Environment.{AreRequesters};
ghost use Rattle.kn_session.specs.Sessions.{query_with, query_at, asker};
ghost use Rattle.kn_session.specs.Asking.{IsLevelIfKnown, IsQueryLevelIfKnown};
ghost use Rattle.kn_session.specs.Views.{AreReadPrivates};

use crate::view::{Private, View};
use kn_base::{List, NoMemory, Octets};
use kn_env::{Attributes, Values};
use kn_store::Snapshot;
use std::alloc::Global;
use std::marker::Model;

/// A query that a session keeps, over a version of its own (keynoted's own). It holds copies of what the session asked
/// with when it was kept.
#[derive(Drop)]
pub struct StandingQuery {
    snapshot: Snapshot,
    private: List<Private>,
    attributes: Attributes,
    requesters: List<Octets>,
    values: Values,
    /// The index of the query's value over its version, where it is known.
    level: Option<u8>,
}

impl Model for StandingQuery {
    ghost use Rattle.kn_session.specs.Sessions.{StandingQuery};

    ghost Value = { StandingQuery };

    ghost use Rattle.kn_session.specs.Fields.{query_of_fields};
    ghost use Rattle.kn_session.specs.Views.{IsStanding};

    ghost view = { query_of_fields };

    ghost invariant = { λ q. IsStanding q.private q.level (query_of_fields q) };
}

impl StandingQuery {
    ghost use Rattle.kn_session.specs.Views.{session_of_view, ArePrivates, IsSession};

    /// What a session asks with, and these compliance values. The index of its value may be known. `NoMemory` comes
    /// only when memory runs out.
    pub(crate) fn of(
        alloc: Global,
        view: &View<'_>,
        values: Values,
        level: Option<u8>,
    ) -> Result<StandingQuery, NoMemory>
        requires readings { AreReadPrivates view.now.private.now }
        requires session { IsSession (session_of_view view.now) }
        requires level { IsLevelIfKnown (session_of_view view.now) values level }
        ensures { IfOk result (λ query. query ≡ query_with values (session_of_view view.now)) }
    {
        let Ok(snapshot) = view.snapshot.clone() else {
            return Err(NoMemory);
        };
        Ok(StandingQuery {
            snapshot,
            private: copy_privates(alloc, view.private)?,
            attributes: view.attributes.copy()?,
            requesters: copy_requesters(alloc, view.requesters)?,
            values,
            level,
        })
    }

    /// The compliance values that the query was kept with.
    pub fn values(&self) -> &Values
        ensures { result.now ≡ self.now.values }
    {
        &self.values
    }

    /// The index of the query's value over its version, where it is known.
    pub fn level(&self) -> Option<u8>
        ensures { IsQueryLevelIfKnown self.now result }
    {
        self.level
    }

    /// The number of the query's version.
    pub fn number(&self) -> u32
        ensures { result ≡ length self.now.pinned }
    {
        self.snapshot.number()
    }

    /// What the query asks over a version.
    pub fn view_over<'a>(&'a self, snapshot: &'a Snapshot) -> View<'a>
        ensures session { session_of_view result ≡ asker (query_at (arc_value snapshot.now) self.now) }
        ensures privates { ArePrivates (session_of_view result).privates }
        ensures readings { AreReadPrivates result.private.now }
        ensures requesters { AreRequesters result.requesters.now }
    {
        View {
            number: 0,
            made: 0,
            snapshot,
            private: &self.private,
            attributes: &self.attributes,
            requesters: &self.requesters,
            standing: None,
        }
    }

    /// Asks over this version from here on. The index of its value there may be known.
    pub(crate) fn move_to(&mut self, snapshot: Snapshot, level: Option<u8>)
        requires level { IsQueryLevelIfKnown (query_at (arc_value snapshot) self.old) level }
        ensures { self.new ≡ query_at (arc_value snapshot) self.old }
    {
        self.snapshot = snapshot;
        self.level = level;
    }
}

// The same private assertions, read anew from their texts.
fn copy_privates(alloc: Global, privates: &List<Private>) -> Result<List<Private>, NoMemory>
    requires { AreReadPrivates privates.now }
    ensures { IfOk result (λ copies. copies ≡ privates.now) }
{
    let mut copies = List::new(alloc);
    for private in privates.as_slice() {
        copies.add(private.copy(alloc)?)?;
    }
    Ok(copies)
}

fn copy_requesters(alloc: Global, requesters: &List<Octets>) -> Result<List<Octets>, NoMemory>
    ensures { IfOk result (λ copies. copies ≡ requesters.now) }
{
    let mut copies = List::new(alloc);
    for requester in requesters.as_slice() {
        copies.add(Octets::from_slice(alloc, requester.as_slice())?)?;
    }
    Ok(copies)
}
