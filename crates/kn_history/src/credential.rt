//! Credentials, and texts that are ready to be added.

ghost use Rattle.std.specs.Prelude.{◌≡◌, Some, IsSome, IfOk};
ghost use Rattle.std.specs.Arc.{arc_value};
ghost use Rattle.kn_assert.specs.Reading.{assertion_of};

use kn_assert::Assertion;
use kn_base::{NoMemory, Octets};
use std::alloc::Global;
use std::marker::Model;
use std::sync::Arc;

/// A text with its reading.
#[derive(Drop)]
pub struct Credential {
    pub text: Octets,
    pub assertion: Assertion,
}

/// A text that has a reading, ready to be added. It is seen as the text.
///
/// The credential is shared from here on, so that whoever adds it moves a pointer.
#[derive(Drop)]
pub struct Ready {
    credential: Arc<Credential>,
    /// The same text, for the log.
    logged: Octets,
}

impl Model for Ready {
    ghost use Rattle.std.specs.Prelude.{ℕ, List};
    ghost use Rattle.std.specs.Arc.{arc_value};

    ghost Value = { List ℕ };

    ghost view = { λ r. (arc_value r.credential).text };

    ghost use Rattle.kn_history.specs.ReadyTexts.{IsReadyToAdd};

    ghost invariant = { IsReadyToAdd };
}

impl Ready {
    /// Two copies of the text, of which the log keeps one, with its reading.
    pub fn of(alloc: Global, text: &[u8], a: Assertion) -> Result<Ready, NoMemory>
        requires reading { assertion_of text.now ≡ Some a }
        ensures text { IfOk result (λ ready. ready ≡ text.now) }
    {
        let logged = Octets::from_slice(alloc, text)?;
        let text = Octets::from_slice(alloc, text)?;
        match Arc::new(alloc, Credential { text, assertion: a }) {
            Ok(credential) => Ok(Ready { credential, logged }),
            Err(_) => Err(NoMemory),
        }
    }

    /// The text.
    pub fn text(&self) -> &[u8]
        ensures text { result.now ≡ self.now }
        ensures reading { IsSome (assertion_of self.now) }
    {
        // the length of this copy lies here, and the credential's in memory that another thread may have written
        self.logged.as_slice()
    }

    /// The text with its reading, which may be shared further, and the text for the log.
    #[inline(always)]
    pub fn into_parts(self) -> (Arc<Credential>, Octets)
        ensures text { (arc_value result.0).text ≡ self }
        ensures reading { assertion_of (arc_value result.0).text ≡ Some (arc_value result.0).assertion }
        ensures logged { result.1 ≡ self }
    {
        let Ready { credential, logged } = self;
        (credential, logged)
    }
}
