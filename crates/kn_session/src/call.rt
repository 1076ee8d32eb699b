//! The calls of one session, as values.

/// A call of one session. Its texts are borrowed.
#[derive(Clone, Copy)]
pub enum Call<'a> {
    /// The session is closed.
    Close,
    /// All attributes and requesters go.
    Clear,
    /// An assertion that this session alone asks with, which has yet to be read.
    Assert { text: &'a [u8] },
    /// The private assertion of this id goes.
    Retract { k: u32 },
    /// An attribute gets this value.
    Set { name: &'a [u8], value: &'a [u8] },
    /// An attribute goes.
    Unset { name: &'a [u8] },
    /// A requester is entered.
    Auth { principal: &'a [u8] },
    /// A requester goes.
    Unauth { principal: &'a [u8] },
    /// The standing query ends.
    Unwatch,
}

/// What an accepted call gives.
#[derive(Clone, Copy, PartialEq, Eq, Drop)]
pub enum Applied {
    /// The call was made, and gives nothing.
    Done,
    /// The private assertion was added under this id.
    Added { k: u32 },
}
