//! Texts of an evaluation.
ghost use Rattle.std.specs.Prelude.{◌≡◌, ◌++◌, true, IfOk, length};
ghost use Rattle.kn_cond.specs.Meaning.{is_before};

use kn_base::{NoMemory, Octets};
use std::alloc::Global;
use std::marker::Model;

/// A text, lent by a tree or an environment where that can be; seen as the list of its bytes.
#[derive(Drop)]
pub(crate) struct Text<'e> {
    kept: Kept<'e>,
}

#[derive(Drop)]
enum Kept<'e> {
    Lent(&'e [u8]),
    Owned(Octets),
}

impl<'e> Model for Text<'e> {
    ghost use Rattle.std.specs.Prelude.{List, ℕ};

    ghost Value = { List ℕ };

    ghost use Rattle.kn_cond.specs.Kept.{kept_bytes};

    ghost view = { λ t. kept_bytes t.kept };
}

impl<'e> Text<'e> {
    pub(crate) fn lent(bytes: &'e [u8]) -> Text<'e>
        ensures { result ≡ bytes.now }
    {
        Text {
            kept: Kept::Lent(bytes),
        }
    }

    fn of_octets(bytes: Octets) -> Text<'e>
        ensures { result ≡ bytes }
    {
        Text {
            kept: Kept::Owned(bytes),
        }
    }

    pub(crate) fn as_slice(&self) -> &[u8]
        ensures { result.now ≡ self.now }
    {
        match &self.kept {
            Kept::Lent(bytes) => bytes,
            Kept::Owned(bytes) => bytes.as_slice(),
        }
    }

    fn into_octets(self, alloc: Global) -> Result<Octets, NoMemory>
        ensures { IfOk result (λ octets. octets ≡ self.entry) }
    {
        match self.kept {
            Kept::Lent(bytes) => Octets::from_slice(alloc, bytes),
            Kept::Owned(bytes) => Ok(bytes),
        }
    }

    /// This text with more bytes behind it.
    pub(crate) fn join(self, alloc: Global, more: &[u8]) -> Result<Text<'e>, NoMemory>
        ensures { IfOk result (λ text. text ≡ self.entry ++ more.now) }
    {
        let mut octets = self.into_octets(alloc)?;
        octets.extend(more)?;
        Ok(Text::of_octets(octets))
    }
}

/// Whether a text stands before another one by its bytes, or begins it.
pub(crate) fn is_before(left: &[u8], right: &[u8]) -> bool
    ensures { result ≡ is_before left.now right.now }
{
    left < right
}
