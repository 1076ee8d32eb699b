//! What a connection has come to.
ghost use Rattle.std.specs.Prelude.{◌≡◌};
ghost use Rattle.kn_daemon.specs.Daemon.{first_state};
ghost use Rattle.kn_transcript.specs.Judging.{state_of};

use kn_session::Sessions;
use std::alloc::Global;

/// The sessions of a connection, and whether a reply said that the administrators' secret was right.
#[derive(Drop)]
pub(crate) struct Connection {
    pub sessions: Sessions,
    pub is_admin: bool,
}

impl Connection {
    /// A connection at its beginning: no session is open, and no secret was right.
    pub fn new(alloc: Global) -> Connection
        ensures { state_of result ≡ first_state }
    {
        Connection {
            sessions: Sessions::new(alloc),
            is_admin: false,
        }
    }
}
