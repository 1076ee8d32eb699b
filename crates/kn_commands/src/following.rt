//! Following the log in a file: what its replies make of a replica.
ghost use Rattle.kn_commands.specs.Following.{FollowCause};

use kn_endings::FollowEnding;
use kn_follow::FollowFault;
use kn_outside::{FileFault, Files};
use std::alloc::Global;
use std::mem;

/// Applies the replies in a file, one after the other, to a replica that holds no update, and tells how that ends.
///
/// The file holds replies to LOG and nothing else; an empty one holds none.
pub fn follow<F: Files>(alloc: Global, name: &[u8], files: &mut F) -> FollowEnding
    ensures { FollowCause (F.seen files.old) (F.seen files.new) name.now result }
{
    let log = match files.read(name) {
        Ok(log) => log,
        Err(FileFault::Failed) => return FollowEnding::FileFailed,
        Err(FileFault::TooLarge) => return FollowEnding::FileTooLarge,
        Err(FileFault::NoMemory) => return FollowEnding::Memory,
    };
    let replica = match kn_follow::follow(alloc, log) {
        Ok(replica) => replica,
        Err(FollowFault::Line { at }) => return FollowEnding::Line { at },
        Err(FollowFault::Gap { from, have }) => return FollowEnding::Gap { from, have },
        Err(FollowFault::Refused { place }) => return FollowEnding::Refused { place },
        Err(FollowFault::NoMemory) => return FollowEnding::Memory,
    };
    let version = replica.length();
    let live = replica.snapshot().len();
    // the program ends behind this, and the system takes all memory back at once
    mem::forget(replica);
    FollowEnding::Followed { version, live }
}
