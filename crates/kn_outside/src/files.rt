//! Files that are read whole.
ghost use Rattle.std.specs.Prelude.{◌≡◌, ◌≤◌, length, IfOk};
ghost use Rattle.kn_outside.specs.Asked.{Leaves, TellsContent, TellsTooLarge};

use kn_base::limits::FILE_BYTES;
use kn_base::{NoMemory, Octets};

/// Why a file wasn't read.
#[derive(Clone, Copy, PartialEq, Eq)]
pub enum FileFault {
    /// There is no such file, or it could not be read.
    Failed,
    /// It holds more than `FILE_BYTES`.
    TooLarge,
    /// Out of memory for its bytes.
    NoMemory,
}

impl From<NoMemory> for FileFault {
    ghost use Rattle.std.specs.Prelude.{◌≡◌};
    ghost use Rattle.kn_outside.specs.declared.files.FileFault.{FileFault};

    ghost from_gives = { λ _ fault. fault ≡ FileFault.NoMemory };

    fn from(_fault: NoMemory) -> FileFault {
        FileFault::NoMemory
    }
}

/// What files are read from by their names.
pub trait Files {
    ghost use Rattle.kn_outside.specs.Seen.{FilesSeen};

    /// What is seen of them. The count of faults says how many reads failed, and stays at the greatest `u64`.
    ghost seen: { Self → FilesSeen };

    /// The whole content of a file. A read that answers anything but `Failed` has failed at nothing.
    fn read(&mut self, name: &[u8]) -> Result<Octets, FileFault>
        ensures whole { IfOk result (λ octets. TellsContent name.now (seen self.old) octets) }
        ensures within { IfOk result (λ octets. length octets ≤ FILE_BYTES) }
        ensures large { result ≡ Err FileFault.TooLarge → TellsTooLarge name.now (seen self.old) }
        ensures leaves { Leaves result name.now (seen self.old) (seen self.new) }
        ensures later { (seen self.old).faults ≤ (seen self.new).faults };
}
