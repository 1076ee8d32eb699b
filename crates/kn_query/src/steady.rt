//! For which earlier versions the policy's level is known to be what it is over a later one.
ghost use Rattle.std.specs.Prelude.{◌≡◌, ℕ, ◌+◌, ◌≤◌, true, List as ListOf, length, take};
ghost use Rattle.kn_history.specs.declared.update.Update.{Update};
ghost use Rattle.kn_query.specs.Steady.{Covers, IsSteady, KeepsLevel};

/// The first and the last of the versions, by their numbers, for which it is known that the policy has the same level
/// over a later version, whatever is asked.
#[derive(Clone, Copy, Drop)]
pub(crate) struct Steady {
    from: u32,
    to: u32,
}

impl Steady {
    /// Of the version of this number no other is known.
    pub(crate) fn at(number: u32) -> Steady
        ensures steady { (version : ListOf Update) → number ≡ length version → IsSteady version result }
        ensures first { result.from ≡ number }
        ensures last { result.to ≡ number }
    {
        Steady {
            from: number,
            to: number,
        }
    }

    /// What is known for a version over which the policy has the level that it has over the one of this number: the
    /// same as for that one, and that one itself. Where there are versions between them, those before are forgotten.
    pub(crate) fn since(self, number: u32) -> Steady
        ensures steady { (version : ListOf Update) → number ≤ length version → IsSteady (take number version) self
            → KeepsLevel (take number version) version → IsSteady version result }
        ensures covers { Covers result number }
        ensures earlier { (n : ℕ) → number ≤ self.to + 1 → Covers self n → n ≤ number → Covers result n }
    {
        if self.from <= number && number <= self.to.saturating_add(1) {
            Steady {
                from: self.from,
                to: number,
            }
        } else {
            Steady::at(number)
        }
    }

    /// Whether the version of this number is among them.
    pub(crate) fn covers(self, number: u32) -> bool
        ensures covered { result ≡ true → Covers self number }
        ensures all { Covers self number → result ≡ true }
    {
        self.from <= number && number <= self.to
    }
}
