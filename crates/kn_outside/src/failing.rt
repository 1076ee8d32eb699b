//! Calls that are chosen to fail, by their numbers.
ghost use Rattle.std.specs.Prelude.{◌≡◌};
ghost use Rattle.kn_outside.specs.InMemory.{is_failing};

use kn_base::List;

/// Whether the call of this number is among those that fail.
pub(crate) fn fails(failing: &List<u32>, number: u64) -> bool
    ensures { result ≡ is_failing failing.now number }
{
    failing
        .as_slice()
        .iter()
        .any(|other| u64::from(*other) == number)
}
