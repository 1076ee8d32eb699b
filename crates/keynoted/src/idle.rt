//! How long a connection may be idle, by the environment.
ghost use Rattle.std.specs.Prelude.{◌≡◌, ◌≤◌, ◌*◌, ℕ, Some, IfSome, IfNone};
ghost use Rattle.std.specs.Duration.{as_nanos};
ghost use Rattle.kn_base.specs.Decimal.{decimal_of};

use kn_base::decimal;
use std::env::{self, VarError};
use std::time::Duration;

/// The most seconds that `KEYNOTED_IDLE_SECONDS` may say: a day.
const MOST_SECONDS: u32 = 86_400;

/// Why there is no time.
#[derive(Drop)]
pub(crate) enum IdleFault {
    NoMemory,
    /// The variable isn't a number from 1 to `MOST_SECONDS`.
    NoNumber,
}

/// The time after which an idle connection ends: as many seconds as the variable `KEYNOTED_IDLE_SECONDS` says
/// (keynoted's own). None where there is no such variable.
pub(crate) fn idle_timeout(rt: &HostRuntime) -> Result<Option<Duration>, IdleFault> {
    match env::var(rt, "KEYNOTED_IDLE_SECONDS") {
        Ok(text) => match duration_of(text.as_bytes()) {
            Some(time) => Ok(Some(time)),
            None => Err(IdleFault::NoNumber),
        },
        Err(VarError::NotPresent) => Ok(None),
        Err(VarError::NotUnicode) => Err(IdleFault::NoNumber),
        Err(VarError::OutOfMemory) => Err(IdleFault::NoMemory),
    }
}

/// The duration of as many seconds as a text spells, where they are from 1 to `MOST_SECONDS`.
fn duration_of(text: &[u8]) -> Option<Duration>
    ensures some { IfSome result (λ time. (n : ℕ) × (decimal_of text.now ≡ Some n) × (1 ≤ n) × (n ≤ 86400)
        × (as_nanos time ≡ n * 1_000_000_000)) }
    ensures none { IfNone result ((n : ℕ) → decimal_of text.now ≡ Some n → 1 ≤ n → ¬ (n ≤ 86400)) }
{
    let seconds = seconds_of(text)?;
    Some(Duration::from_secs(u64::from(seconds)))
}

/// The number that a text spells, where it is from 1 to `MOST_SECONDS`.
fn seconds_of(text: &[u8]) -> Option<u32>
    ensures some { IfSome result (λ n. (decimal_of text.now ≡ Some n) × (1 ≤ n) × (n ≤ 86400)) }
    ensures none { IfNone result ((n : ℕ) → decimal_of text.now ≡ Some n → 1 ≤ n → ¬ (n ≤ 86400)) }
{
    let seconds = decimal(text)?;
    if seconds < 1 || seconds > MOST_SECONDS {
        return None;
    }
    Some(seconds)
}
