//! Why the critical assertions of a query aren't given.

use kn_base::NoMemory;

/// Why the critical assertions of a query aren't given (keynoted's own).
#[derive(Clone, Copy, PartialEq, Eq, Drop)]
pub enum CriticalFault {
    /// Fault 1: the assertions' formulas have `nodes` nodes together, more than 16,384.
    Large { nodes: u32 },
    /// Out of memory.
    NoMemory,
}

impl From<NoMemory> for CriticalFault {
    ghost use Rattle.std.specs.Prelude.{◌≡◌};
    ghost use Rattle.kn_critical.specs.declared.fault.CriticalFault.TheVariants as F;

    ghost from_gives = { λ _ fault. fault ≡ F.NoMemory };

    fn from(_none: NoMemory) -> CriticalFault {
        CriticalFault::NoMemory
    }
}
