//! Live credentials, each with its id.

ghost use Rattle.std.specs.Prelude.{◌≡◌, Some, IfOk};
ghost use Rattle.std.specs.Arc.{arc_value};
ghost use Rattle.kn_assert.specs.Reading.{assertion_of};

use kn_base::{NoMemory, Octets};
use kn_history::{Credential, Ready};
use kn_pages::Shareable;
use std::marker::Model;
use std::sync::Arc;

/// A live credential with its id. It is seen as its id and text.
#[derive(Drop)]
pub(crate) struct LiveCredential {
    id: u32,
    credential: Arc<Credential>,
}

impl Model for LiveCredential {
    ghost use Rattle.std.specs.Prelude.{◌≡◌, Some};
    ghost use Rattle.kn_assert.specs.Reading.{assertion_of};
    ghost use Rattle.std.specs.Arc.{arc_value};
    ghost use Rattle.kn_history.specs.History.{NumberedText};

    ghost Value = { NumberedText };

    ghost view = { λ l. record { id = l.id; text = (arc_value l.credential).text } };

    ghost invariant = { λ l. assertion_of (arc_value l.credential).text ≡ Some (arc_value l.credential).assertion };
}

impl LiveCredential {
    /// The credential of a text under an id, and the text for the log.
    #[inline(always)]
    pub(crate) fn of(ready: Ready, id: u32) -> (LiveCredential, Octets)
        ensures id { result.0.id ≡ id }
        ensures text { result.0.text ≡ ready }
        ensures logged { result.1 ≡ ready }
    {
        let (credential, logged) = ready.into_parts();
        (LiveCredential { id, credential }, logged)
    }

    pub(crate) fn id(&self) -> u32
        ensures { result ≡ self.now.id }
    {
        self.id
    }

    pub(crate) fn credential(&self) -> &Credential
        ensures text { result.now.text ≡ self.now.text }
        ensures reading { assertion_of self.now.text ≡ Some result.now.assertion }
    {
        &self.credential
    }

    /// The credential, to be kept beyond the set. `NoMemory` comes only when memory runs out.
    pub(crate) fn share_credential(&self) -> Result<Arc<Credential>, NoMemory>
        ensures text { IfOk result (λ c. (arc_value c).text ≡ self.now.text) }
        ensures reading { IfOk result (λ c. assertion_of self.now.text ≡ Some (arc_value c).assertion) }
    {
        Arc::try_clone(&self.credential).or(Err(NoMemory))
    }
}

impl Shareable for LiveCredential {
    #[inline(always)]
    fn share(&self) -> Result<LiveCredential, NoMemory> {
        Ok(LiveCredential {
            id: self.id,
            credential: self.share_credential()?,
        })
    }
}
