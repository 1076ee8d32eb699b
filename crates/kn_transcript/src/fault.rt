//! Why a transcript isn't accepted.

use kn_base::NoMemory;

/// The greatest number of a fault that an authenticator finds.
pub const AUTH_FAULTS: u8 = 5;

/// Why a transcript isn't accepted (keynoted's own). Requests are counted from 1.
#[derive(Clone, Copy, PartialEq, Eq, Drop)]
pub enum TranscriptFault {
    /// Fault 1: the replies end where that to this request should begin.
    Missing { request: u32 },
    /// Fault 2: no text of a reply stands there.
    Text { request: u32 },
    /// Fault 3: one stands there, and none that is permitted.
    Wrong { request: u32 },
    /// Fault 4: all requests are answered, and bytes follow the first `at` ones.
    Rest { at: u32 },
    /// Fault 5: the request is WATCH, NEWS, UNWATCH, LOG or CRITICAL, which a transcript doesn't judge.
    Foreign { request: u32 },
    /// Out of memory.
    NoMemory,
}

impl From<NoMemory> for TranscriptFault {
    ghost use Rattle.std.specs.Prelude.{◌≡◌};
    ghost use Rattle.kn_transcript.specs.declared.fault.TranscriptFault.TheVariants as F;

    ghost from_gives = { λ _ fault. fault ≡ F.NoMemory };

    fn from(_none: NoMemory) -> TranscriptFault {
        TranscriptFault::NoMemory
    }
}
