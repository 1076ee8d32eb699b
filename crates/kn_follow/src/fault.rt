//! Why a reply isn't applied.

use kn_base::NoMemory;

/// Why a reply to LOG isn't applied to a replica, in the order in which it is looked for (keynoted's own).
#[derive(Debug, Clone, Copy, PartialEq, Eq, Drop)]
pub enum FollowFault {
    /// Fault 1: the text departs from the form at this byte, counted from 0, or breaks off there, at its length.
    Line { at: u32 },
    /// Fault 2: the reply is to a client that holds the first `from` updates, and the replica has `have` others.
    Gap { from: u32, have: u32 },
    /// Fault 3: the update of this place in the history, counted from 1, is the first that is refused.
    Refused { place: u32 },
    /// Out of memory for the reply or for one of its updates.
    NoMemory,
}

impl From<NoMemory> for FollowFault {
    ghost use Rattle.std.specs.Prelude.{◌≡◌};
    ghost use Rattle.kn_follow.specs.declared.fault.FollowFault.TheVariants as F;

    ghost from_gives = { λ _ fault. fault ≡ F.NoMemory };

    fn from(_none: NoMemory) -> FollowFault {
        FollowFault::NoMemory
    }
}
