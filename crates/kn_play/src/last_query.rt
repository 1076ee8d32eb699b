//! A query that a script means.
ghost use Rattle.std.specs.Prelude.{◌≡◌, true, is_some};
ghost use Rattle.kn_session.specs.Sessions.{session_in};

use kn_env::Values;
use kn_session::{Sessions, View};

/// The query that a script means: the session that it asks about, as it stood then, and the compliance values.
#[derive(Drop)]
pub struct LastQuery {
    /// The sessions as they stood before the query.
    pub sessions: Sessions,
    /// The number of the session, which is open among them.
    pub session: u32,
    pub values: Values,
    ghost is_there: { is_some (session_in sessions.sessions session) ≡ true },
}

impl LastQuery {
    ghost use Rattle.std.specs.Prelude.{◌≡◌, Some};
    ghost use Rattle.kn_env.specs.Environment.{AreRequesters};
    ghost use Rattle.kn_session.specs.Sessions.{session_in};
    ghost use Rattle.kn_session.specs.Views.{session_of_view, AreReadPrivates, ArePrivates};

    /// What the session asks with.
    pub fn view(&self) -> View<'_>
        ensures session { session_in self.now.sessions.sessions self.now.session ≡ Some (session_of_view result) }
        ensures privates { ArePrivates (session_of_view result).privates }
        ensures readings { AreReadPrivates result.private.now }
        ensures requesters { AreRequesters result.requesters.now }
    {
        match self.sessions.view(self.session) {
            Ok(view) => view,
            Err(_) => unreachable!(),
        }
    }
}
