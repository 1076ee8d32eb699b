//! Why a call of the sessions is refused.
ghost use Rattle.std.specs.Prelude.{◌≡◌};
ghost use Rattle.kn_session.specs.Calls.{lacks_memory};

use kn_assert::ReadFault;

/// Why a call of the sessions is refused (keynoted's own). The limits are those of `kn_base::limits`.
#[derive(Clone, Copy, PartialEq, Eq, Drop)]
pub enum SessionFault {
    /// Fault 1: no session of this number is open.
    Unknown { session: u32 },
    /// Fault 2: `count` sessions are open, as many as there may be.
    Sessions { count: u32 },
    /// Fault 3: the session has `count` private assertions, as many as there may be.
    Privates { count: u32 },
    /// Fault 4: the session's private assertions have `bytes` bytes, and with the text they would pass the limit.
    PrivateBytes { bytes: u32 },
    /// Fault 5: the session has no private assertion of this id.
    NoSuch { id: u32 },
    /// Fault 6: the session has `count` requesters, as many as there may be.
    Requesters { count: u32 },
    /// Fault 7: a principal that is empty, has more than 4,096 bytes, or is `POLICY`.
    Principal,
    /// Fault 8: the private assertion's authorizer is `POLICY`.
    ByPolicy,
    /// Fault 9: a name that no attribute may have.
    Name,
    /// Fault 10: a value of more than 4,096 bytes.
    Value,
    /// Fault 11: the session has `count` attributes, as many as there may be, and the name is new.
    Attributes { count: u32 },
    /// Fault 12: the session hasn't this attribute, this requester, or a standing query.
    Absent,
    /// Out of memory.
    NoMemory,
}

/// Why a call of one session is refused.
#[derive(Clone, Copy, PartialEq, Eq, Drop)]
pub enum CallFault {
    /// The text of a private assertion has this fault.
    Text { fault: ReadFault },
    /// The session isn't open, or has this fault.
    Session { fault: SessionFault },
}

impl CallFault {
    /// Whether it means out of memory.
    pub fn lacks_memory(&self) -> bool
        ensures { result ≡ lacks_memory self.now }
    {
        match self {
            CallFault::Text { fault } => fault.number().is_none(),
            CallFault::Session { fault } => matches!(fault, SessionFault::NoMemory),
        }
    }
}
