//! The assertions of a base, lent to an answer.
ghost use Rattle.std.specs.Prelude.{◌<◌, length, map};
ghost use Rattle.kn_rows.specs.Numbering.{IsNumber};

use kn_assert::Assertion;
use kn_base::List;
use kn_proof::Id;
use kn_rows::Part;

/// The assertions of a base, in the order of its rows.
pub trait Assertions {
    ghost use Rattle.std.specs.Prelude.{List};
    ghost use Rattle.kn_meaning.specs.Equations.{Part};

    /// The assertions by their ids.
    ghost parts: { Self → List Part };

    /// The id of the assertion of a row.
    fn id(&self, row: u32) -> Id
        requires { row < length (parts self.now) }
        ensures { IsNumber (map (λ part. part.id) (parts self.now)) result row };

    /// The assertion of a row.
    fn assertion(&self, row: u32) -> &Assertion
        requires { row < length (parts self.now) }
        ensures { IsNumber (map (λ part. part.assertion) (parts self.now)) result.now row };
}

impl<'a> Assertions for List<Part<'a>> {
    ghost parts = { λ parts. parts };

    fn id(&self, row: u32) -> Id {
        let part = &self.as_slice()[row as usize];
        part.id
    }

    fn assertion(&self, row: u32) -> &Assertion {
        let part = &self.as_slice()[row as usize];
        part.assertion
    }
}
