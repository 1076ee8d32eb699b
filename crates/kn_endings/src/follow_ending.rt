//! How following a log ends.
ghost use Rattle.std.specs.Prelude.{◌≡◌};

/// Why `follow` ends.
#[derive(Clone, Copy, PartialEq, Eq)]
pub enum FollowEnding {
    /// The file could not be read.
    FileFailed,
    /// The file is larger than any that is read.
    FileTooLarge,
    /// Out of memory.
    Memory,
    /// A reply departs from its form at this byte, counted from its first, or breaks off there.
    Line { at: u32 },
    /// A reply is to a client that holds the first `from` updates, and the replies before it have `have` others.
    Gap { from: u32, have: u32 },
    /// The update of this place in the history, counted from 1, is refused.
    Refused { place: u32 },
    /// All replies were applied: there are `version` updates, and `live` credentials in the last version.
    Followed { version: u32, live: u32 },
}

impl FollowEnding {
    ghost use Rattle.kn_endings.specs.FollowEndings.{status_of_follow};

    /// The exit status.
    pub fn status(self) -> u8
        ensures { result ≡ status_of_follow self }
    {
        match self {
            FollowEnding::FileFailed | FollowEnding::FileTooLarge => 2,
            FollowEnding::Memory => 5,
            FollowEnding::Line { .. } => 11,
            FollowEnding::Gap { .. } => 11,
            FollowEnding::Refused { .. } => 11,
            FollowEnding::Followed { .. } => 0,
        }
    }
}
