//! What judges the credentials that are to be added.
ghost use Rattle.std.specs.Prelude.{◌≡◌, Some};
ghost use Rattle.kn_assert.specs.Reading.{assertion_of};
ghost use Rattle.kn_auth.specs.Numbers.{answer_number};

use crate::fault::AuthFault;
use kn_assert::Assertion;

/// What judges the texts that are to be added, of which it is handed the reading too. It takes no memory.
pub trait Authenticator: Sync {
    ghost use Rattle.std.specs.Prelude.{ℕ, List};
    ghost use Rattle.kn_trees.specs.declared.assertion.Assertion.{Assertion};

    /// The number of the fault of a text with this reading, and 0 where it is admitted.
    ghost verdict: { Self → List ℕ → Assertion → ℕ };

    fn admit(&self, text: &[u8], assertion: &Assertion) -> Result<(), AuthFault>
        requires { assertion_of text.now ≡ Some assertion.now }
        ensures { answer_number result ≡ verdict self.now text.now assertion.now };
}
