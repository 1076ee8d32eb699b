//! The ids of the assertions of a base, which is all that the rows of a proof need of them.
ghost use Rattle.std.specs.Prelude.{◌<◌, length, map};
ghost use Rattle.kn_rows.specs.Numbering.{IsNumber};

use crate::assertions::Assertions;
use kn_env::Query;
use kn_proof::Id;

/// The ids of the assertions of a base, in the order of its rows.
pub(crate) trait Ids {
    ghost use Rattle.std.specs.Prelude.{List};
    ghost use Rattle.kn_meaning.specs.Equations.{Part};

    /// The assertions of the base, by their ids.
    ghost parts: { Self → List Part };

    /// The id of the assertion of a row.
    fn id(&self, row: u32) -> Id
        requires { row < length (parts self.now) }
        ensures { IsNumber (map (λ part. part.id) (parts self.now)) result row };
}

/// The ids of assertions, of which the base is.
#[derive(Drop)]
pub(crate) struct IdsOf<'c, A: Assertions> {
    pub(crate) assertions: &'c A,
}

impl<'c, A: Assertions> Ids for IdsOf<'c, A> {
    ghost parts = { λ i. A.parts i.assertions.now };

    fn id(&self, row: u32) -> Id {
        self.assertions.id(row)
    }
}

/// The ids of assertions, where the base is of these narrow_parts to those who may have a level in a query. Narrowed
/// assertions keep their ids.
#[derive(Drop)]
pub(crate) struct NarrowedIds<'c, 'q, A: Assertions> {
    pub(crate) query: &'c Query<'q>,
    pub(crate) assertions: &'c A,
}

impl<'c, 'q, A: Assertions> Ids for NarrowedIds<'c, 'q, A> {
    ghost use Rattle.kn_answer.specs.Narrowed.{narrow_parts};

    ghost parts = { λ i. narrow_parts i.query.now (A.parts i.assertions.now) };

    fn id(&self, row: u32) -> Id {
        self.assertions.id(row)
    }
}
