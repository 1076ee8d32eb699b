//! The ceilings of rows, each given when it is asked for.
ghost use Rattle.std.specs.Prelude.{◌≡◌, ◌+◌, ◌-◌, ◌^◌, ◌<◌, length, min, slice_index, IfOk};

use kn_base::{NoMemory, Steps};
use kn_system::System;

/// What gives the ceilings of a base's rows in one query.
pub trait Ceilings<L> {
    ghost use Rattle.std.specs.Prelude.{ℕ, List};

    /// The ceiling of each row.
    ghost each: { Self → List ℕ };

    /// The ceiling of a row. `NoMemory` comes only when memory runs out. One tick.
    fn ceiling(&self, row: u32, steps: &mut Steps<L>) -> Result<u8, NoMemory>
        requires { row < length (each self.now) }
        ensures exact { IfOk result (λ ceiling. ceiling ≡ slice_index (each self.now) row) }
        ensures ticks { steps.new ≡ min (steps.old + 1) (2 ^ 64 - 1) };
}

/// A system's own ceilings.
impl<L> Ceilings<L> for System<L> {
    ghost use Rattle.std.specs.Prelude.{map};

    ghost each = { λ system. map (λ row. row.ceiling) system.rows };

    fn ceiling(&self, row: u32, steps: &mut Steps<L>) -> Result<u8, NoMemory> {
        steps.tick();
        Ok(System::ceiling(self, row))
    }
}
