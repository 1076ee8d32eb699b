//! Where a worker gets its connections from.
ghost use Rattle.std.specs.Prelude.{◌≡◌, ◌≤◌, ◌<◌};
ghost use Rattle.kn_workers.specs.Doors.{Accepts, after_finish};

use crate::accepted::Accepted;
use crate::served::Served;
use kn_outside::Link;
use std::sync::Wait;

/// A door: it gives the connections of one worker, and takes each one back when it was served.
pub trait Door: Send + Drop {
    ghost use Rattle.kn_workers.specs.Connections.{ServedSeen};
    ghost use Rattle.kn_workers.specs.Doors.{DoorSeen};

    type Conn: Link;

    /// What is seen of a door. The count of faults stays at the greatest `u64`.
    ghost seen: { Self → DoorSeen (ServedSeen Self.Conn) };

    /// The next connection. Nothing was taken from it and nothing written to it. A call that answers anything but
    /// `Failed` has failed at nothing. No more connections are finished than were given.
    fn accept<R: Wait>(&mut self, rt: &R) -> Accepted<Self::Conn>
        ensures answer { Accepts Self.Conn.seen result (seen self.old) (seen self.new) }
        ensures finished { (seen self.old).finished ≤ (seen self.old).given }
        ensures later { (seen self.old).faults ≤ (seen self.new).faults };

    /// Takes back a connection that was served. It takes no memory.
    fn finish(&mut self, served: Served<Self::Conn>)
        requires { (seen self.old).finished < (seen self.old).given }
        ensures { seen self.new ≡ after_finish served (seen self.old) };
}
