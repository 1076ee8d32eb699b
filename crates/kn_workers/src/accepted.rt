//! What a door answers when it is asked for a connection.

/// The next connection of a door, or why there is none.
pub enum Accepted<C> {
    /// A connection, which counts against the quota.
    Conn(C),
    /// The door has given as many connections as its quota.
    Closed,
    /// The call failed, and the door may have more to give.
    Failed,
}
