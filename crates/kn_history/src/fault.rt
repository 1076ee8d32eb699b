//! Why the shared credentials aren't changed.

use kn_base::NoMemory;

/// Why a change is refused, in the order in which it is tried. The limits are keynoted's own, and each number is the
/// quantity before the change.
#[derive(Debug, Clone, Copy, PartialEq, Eq, Drop)]
pub enum StoreFault {
    /// Fault 1: the id to be removed isn't that of a live credential.
    Unknown { id: u32 },
    /// Fault 2: there are `count` live credentials, as many as there may be.
    LiveFull { count: u32 },
    /// Fault 3: the live credentials have `bytes` bytes, and with the text they would pass the limit.
    BytesFull { bytes: u32 },
    /// Fault 4: there were `updates` changes, as many as there may be.
    HistoryFull { updates: u32 },
    /// Fault 5: all texts that were ever added have `bytes` bytes, and with the text they would pass the limit.
    LogFull { bytes: u32 },
    /// Out of memory for the change.
    NoMemory,
}

impl From<NoMemory> for StoreFault {
    ghost use Rattle.std.specs.Prelude.{◌≡◌};
    ghost use Rattle.kn_history.specs.declared.fault.StoreFault.TheVariants as F;

    ghost from_gives = { λ _ fault. fault ≡ F.NoMemory };

    fn from(_none: NoMemory) -> StoreFault {
        StoreFault::NoMemory
    }
}

/// Why a batch is refused.
#[derive(Debug, Clone, Copy, PartialEq, Eq, Drop)]
pub enum BatchFault {
    /// The first item that is refused behind those in front of it, counted from 1, and why. The fault is never
    /// `NoMemory`.
    Item { item: u32, fault: StoreFault },
    /// Out of memory for the batch.
    NoMemory,
}

impl From<NoMemory> for BatchFault {
    ghost use Rattle.std.specs.Prelude.{◌≡◌};
    ghost use Rattle.kn_history.specs.declared.fault.BatchFault.TheVariants as F;

    ghost from_gives = { λ _ fault. fault ≡ F.NoMemory };

    fn from(_none: NoMemory) -> BatchFault {
        BatchFault::NoMemory
    }
}
