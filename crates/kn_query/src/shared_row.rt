//! Credentials that have rows in a base.
ghost use Rattle.std.specs.Prelude.{◌≡◌, Some};
ghost use Rattle.std.specs.Arc.{arc_value};
ghost use Rattle.kn_assert.specs.Reading.{assertion_of};

use kn_assert::Assertion;
use kn_history::Credential;
use std::marker::Model;
use std::sync::Arc;

/// A credential that has a row in a base, with its id. It is seen as its id and text.
#[derive(Drop)]
pub(crate) struct SharedRow {
    id: u32,
    credential: Arc<Credential>,
}

impl Model for SharedRow {
    ghost use Rattle.std.specs.Prelude.{◌≡◌, Some};
    ghost use Rattle.std.specs.Arc.{arc_value};
    ghost use Rattle.kn_assert.specs.Reading.{assertion_of};
    ghost use Rattle.kn_history.specs.History.{NumberedText};

    ghost Value = { NumberedText };

    ghost view = { λ r. record { id = r.id; text = (arc_value r.credential).text } };

    ghost invariant = { λ r. assertion_of (arc_value r.credential).text ≡ Some (arc_value r.credential).assertion };
}

impl SharedRow {
    pub(crate) fn of(id: u32, credential: Arc<Credential>) -> SharedRow
        requires { assertion_of (arc_value credential).text ≡ Some (arc_value credential).assertion }
        ensures id { result.id ≡ id }
        ensures text { result.text ≡ (arc_value credential).text }
    {
        SharedRow { id, credential }
    }

    pub(crate) fn id(&self) -> u32
        ensures { result ≡ self.now.id }
    {
        self.id
    }

    pub(crate) fn assertion(&self) -> &Assertion
        ensures { assertion_of self.now.text ≡ Some result.now }
    {
        &self.credential.assertion
    }
}
