//! Refusals of requests.

/// What is counted against a limit.
#[derive(Clone, Copy, PartialEq, Eq, Drop)]
pub enum LimitWord {
    /// The open sessions of a connection: 16 at most.
    Sessions,
    /// The private assertions of a session: 64 at most.
    Private,
    /// The bytes of a session's private assertions together: 262,144 at most.
    PrivateBytes,
    /// The requesters of a session: 64 at most.
    Requesters,
    /// The attributes of a session: 256 at most.
    Attributes,
    /// The live shared credentials: 4,096 at most.
    Live,
    /// The bytes of the live shared credentials together: 8,388,608 at most.
    LiveBytes,
    /// The changes of all updates together: 65,536 at most.
    Updates,
    /// The bytes of all credentials that were ever added: 67,108,864 at most.
    LogBytes,
    /// The nodes of the licensees of a query's assertions together: 16,384 at most, for CRITICAL.
    Nodes,
}

impl LimitWord {
    ghost use Rattle.std.specs.Prelude.{◌≡◌};
    ghost use Rattle.kn_reply.specs.Replies.{word_text};

    /// The word as a reply has it.
    pub fn text(&self) -> &[u8]
        ensures { result.now ≡ word_text self.now }
    {
        match self {
            LimitWord::Sessions => b"sessions",
            LimitWord::Private => b"private",
            LimitWord::PrivateBytes => b"private-bytes",
            LimitWord::Requesters => b"requesters",
            LimitWord::Attributes => b"attributes",
            LimitWord::Live => b"live",
            LimitWord::LiveBytes => b"live-bytes",
            LimitWord::Updates => b"updates",
            LimitWord::LogBytes => b"log-bytes",
            LimitWord::Nodes => b"nodes",
        }
    }
}

/// Why an item of a batch is refused: it is reported by the code that it would have as a request.
#[derive(Clone, Copy, PartialEq, Eq, Drop)]
pub enum ItemRefusal {
    /// The text has this fault at this place.
    Read { fault: u8, place: u32 },
    /// The authenticator's fault.
    Auth { fault: u8 },
    /// No live credential has the id that the item removes.
    Unknown,
    /// The counted quantity is at its limit, or the new text passes it.
    Limit { word: LimitWord, count: u32 },
}

/// Why a request is refused, in the order of the protocol's codes 1 to 19 (keynoted's own protocol).
#[derive(Clone, Copy, PartialEq, Eq, Drop)]
pub enum Refusal {
    /// The line's first word is a command, and the line isn't of its form.
    Syntax,
    /// The line's first word is no command.
    Command,
    /// No session of this number is open on the connection.
    Session,
    /// The secret of ADMIN is wrong, or ADD, DROP, BATCH or LOG came before a right one.
    Admin,
    /// The text has this fault at this place.
    Read { fault: u8, place: u32 },
    /// The authorizer of a private assertion is `POLICY`.
    Policy,
    /// The authenticator's fault.
    Auth { fault: u8 },
    /// No attribute may have this name.
    Name,
    /// The value of an attribute has more than 4,096 bytes.
    Value,
    /// The compliance values aren't 2 to 64 different names of 1 to 128 bytes.
    Values,
    /// The principal is empty, has more than 4,096 bytes, or is `POLICY`.
    Principal,
    /// The private assertion, shared credential, attribute, requester or standing query isn't there.
    Unknown,
    /// The counted quantity is at its limit, or the new text passes it.
    Limit { word: LimitWord, count: u32 },
    /// The line has more than 8,192 bytes before its newline.
    Long,
    /// The block has more than 16,384 bytes, or no newline stands behind it. The connection ends.
    Block,
    /// The block of a batch departs from the form of items at this one, counted from 1.
    Batch { item: u32 },
    /// This item of a batch is refused, counted from 1.
    Item { item: u32, inner: ItemRefusal },
    /// The version isn't kept; `newest` is the newest one.
    Retained { newest: u32 },
    /// There are fewer updates than that; `newest` is their number.
    Ahead { newest: u32 },
}
