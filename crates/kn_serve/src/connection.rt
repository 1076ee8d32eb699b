//! What a connection has come to.
ghost use Rattle.std.specs.Prelude.{◌≡◌, None};
ghost use Rattle.kn_daemon.specs.Daemon.{first_state};
ghost use Rattle.kn_serve.specs.Handling.{state_of};

use crate::last_question::LastQuestion;
use kn_session::Sessions;
use std::alloc::Global;

/// The sessions of a connection, whether it has shown the administrators' secret, and what it asked last.
#[derive(Drop)]
pub(crate) struct Connection {
    pub sessions: Sessions,
    pub is_admin: bool,
    pub last: LastQuestion,
}

impl Connection {
    /// A connection at its beginning: no session is open, no secret was shown, and nothing was asked.
    pub fn new(alloc: Global) -> Connection
        ensures state { state_of result ≡ first_state }
        ensures last { result.last.answer ≡ None }
    {
        Connection {
            sessions: Sessions::new(alloc),
            is_admin: false,
            last: LastQuestion::new(alloc),
        }
    }
}
