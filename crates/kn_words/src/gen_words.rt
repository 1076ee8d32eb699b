//! The words of `gen`.
ghost use Rattle.std.specs.Prelude.{IfSome, IfNone};
ghost use Rattle.kn_words.specs.Commands.{AreGenNumbers, AreNoGenNumbers, GenFor, IsNo};

use kn_base::limits::GENERATED_CREDENTIALS;
use kn_base::{Octets, decimal};

/// What credentials are made by.
#[derive(Clone, Copy, PartialEq, Eq)]
pub struct GenNumbers {
    /// Where the draws start.
    pub start: u32,
    /// How many credentials there are.
    pub count: u32,
}

/// The numbers, where the words are `gen` and two numbers within their limits.
pub fn gen_numbers(words: &[Octets]) -> Option<GenNumbers>
    ensures some { IfSome result (λ numbers. GenFor words.now numbers) }
    ensures none { IfNone result (IsNo GenFor words.now) }
{
    if words.len() != 3 || words[0].as_slice() != b"gen".as_slice() {
        return None;
    }
    numbers_of(words[1].as_slice(), words[2].as_slice())
}

/// The numbers that two words spell, where they are within their limits.
fn numbers_of(first: &[u8], second: &[u8]) -> Option<GenNumbers>
    ensures some { IfSome result (λ numbers. AreGenNumbers first.now second.now numbers) }
    ensures none { IfNone result (AreNoGenNumbers first.now second.now) }
{
    let start = decimal(first)?;
    let count = decimal(second)?;
    if count < 1 || count > GENERATED_CREDENTIALS {
        return None;
    }
    Some(GenNumbers { start, count })
}
