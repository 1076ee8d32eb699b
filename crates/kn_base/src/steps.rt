//! Counts of steps.
ghost use Rattle.std.specs.Prelude.{◌≡◌, ◌+◌, ◌-◌, ◌^◌, min};

use std::marker::Model;

/// A count of steps that only goes up, seen as that number.
///
/// Whoever makes one hands in a mark, which never comes out again: code that is generic in `L` has no
/// mark of that type, and so can neither make a counter of its own nor begin again.
#[derive(Drop)]
pub struct Steps<L> {
    mark: L,
    taken: u64,
}

impl<L> Model for Steps<L> {
    ghost use Rattle.std.specs.Prelude.{ℕ};

    ghost Value = { ℕ };

    ghost view = { λ s. s.taken };
}

impl<L> Steps<L> {
    /// A counter at 0.
    pub fn start(mark: L) -> Steps<L>
        ensures { result ≡ 0 }
    {
        Steps { mark, taken: 0 }
    }

    /// Counts one step; at the greatest `u64` the count stays.
    pub fn tick(&mut self)
        ensures { self.new ≡ min (self.old + 1) (2 ^ 64 - 1) }
    {
        self.taken = self.taken.saturating_add(1);
    }

    /// How many steps were counted. At the greatest `u64` there may have been more.
    pub fn count(&self) -> u64
        ensures { result ≡ self.now }
    {
        self.taken
    }
}
