//! What a request asks.

/// A request of the line protocol (keynoted's own). Its texts lie in the feed's buffer.
///
/// `s` is the number of a session, `k` the number of an assertion behind its letter.
#[derive(Clone, Copy)]
pub enum Request<'a> {
    /// Opens a session.
    Open,
    /// Ends a session.
    Close {
        s: u32,
    },
    /// Pins a session to the newest version.
    Pin {
        s: u32,
    },
    /// Pins a retained version: PIN with its number.
    PinAt {
        s: u32,
        version: u32,
    },
    /// Adds a private assertion, whose text is the block.
    Assert {
        s: u32,
        block: &'a [u8],
    },
    /// Takes a private assertion away.
    Retract {
        s: u32,
        k: u32,
    },
    /// Gives an attribute a value, which may be empty.
    Set {
        s: u32,
        name: &'a [u8],
        value: &'a [u8],
    },
    /// The value as an even number of hexadecimal digits.
    SetHex {
        s: u32,
        name: &'a [u8],
        digits: &'a [u8],
    },
    /// Takes an attribute away.
    Unset {
        s: u32,
        name: &'a [u8],
    },
    /// Names a requester.
    Auth {
        s: u32,
        principal: &'a [u8],
    },
    /// Takes a requester away.
    Unauth {
        s: u32,
        principal: &'a [u8],
    },
    /// Takes all attributes and requesters away. The session's version and private assertions stay.
    Clear {
        s: u32,
    },
    /// The compliance values as the line gives them, the lowest first, with commas between them.
    Query {
        s: u32,
        values: &'a [u8],
    },
    /// Keeps a query as the session's standing one. The values are as QUERY's.
    Watch {
        s: u32,
        values: &'a [u8],
    },
    /// The answer to the standing query over the newest version.
    News {
        s: u32,
    },
    /// Ends the standing query.
    Unwatch {
        s: u32,
    },
    /// The critical credentials of a query. The values are as QUERY's.
    Critical {
        s: u32,
        values: &'a [u8],
    },
    /// The secret as an even number of hexadecimal digits, at least two.
    Admin {
        digits: &'a [u8],
    },
    /// Adds a shared credential, whose text is the block.
    Add {
        block: &'a [u8],
    },
    /// Removes a shared credential.
    Drop {
        k: u32,
    },
    /// Several changes, all or none of them. The block is a list of items.
    Batch {
        block: &'a [u8],
    },
    /// The updates behind the first `n`, as many as a reply tells.
    Log {
        n: u32,
    },
    /// Ends the connection.
    Bye,
}
