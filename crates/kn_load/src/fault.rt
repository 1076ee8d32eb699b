//! Why texts aren't loaded.

use kn_assert::ReadFault;
use kn_base::NoMemory;
use kn_history::StoreFault;

/// What stops loading: the first text that isn't added, or running out of memory. Texts are counted from 1.
#[derive(Debug, Clone, Copy, PartialEq, Eq)]
pub enum LoadFault {
    /// The assertion of this number has this fault, which is not `NoMemory`.
    Faulty { assertion: u32, fault: ReadFault },
    /// The store refuses the assertion of this number for this, which is one of its limits.
    Full { assertion: u32, refusal: StoreFault },
    /// Out of memory.
    NoMemory,
}

impl From<NoMemory> for LoadFault {
    ghost use Rattle.std.specs.Prelude.{◌≡◌};
    ghost use Rattle.kn_load.specs.declared.fault.LoadFault.TheVariants as L;

    ghost from_gives = { λ _ fault. fault ≡ L.NoMemory };

    fn from(_none: NoMemory) -> LoadFault {
        LoadFault::NoMemory
    }
}
