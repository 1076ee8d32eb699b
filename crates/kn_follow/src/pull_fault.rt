//! Why a pull ends before its end.

use crate::fault::FollowFault;
use kn_base::NoMemory;

/// Why a pull ends before BYE was answered (keynoted's own). Replies that were applied stand.
#[derive(Debug, Clone, Copy, PartialEq, Eq, Drop)]
pub enum PullFault {
    /// A read of the link failed.
    Read,
    /// A write to the link failed.
    Write,
    /// The answer is a `NO` line with this code.
    Denied { code: u32 },
    /// The input ended when so many bytes of an awaited answer were there.
    Ended { held: u32 },
    /// So many bytes came, one more than an answer may have, and those before the last hold no whole answer.
    Long { bytes: u32 },
    /// The reply to LOG isn't applied, or the answer to ADMIN or BYE isn't `OK`: then this is `Line` at 0. Never
    /// `NoMemory`.
    Follow(FollowFault),
    /// The daemon answers LOG by `NOMEM`.
    Unserved,
    /// Out of memory for a line, an answer or an update.
    NoMemory,
}

impl From<NoMemory> for PullFault {
    ghost use Rattle.std.specs.Prelude.{◌≡◌};
    ghost use Rattle.kn_follow.specs.declared.pull_fault.PullFault.TheVariants as P;

    ghost from_gives = { λ _ fault. fault ≡ P.NoMemory };

    fn from(_none: NoMemory) -> PullFault {
        PullFault::NoMemory
    }
}
