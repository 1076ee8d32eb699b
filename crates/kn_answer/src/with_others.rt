//! The assertions of a base, and further ones.
ghost use Rattle.std.specs.Prelude.{◌≡◌, length};

use crate::assertions::Assertions;
use kn_assert::Assertion;
use kn_base::List;
use kn_proof::Id;
use kn_rows::Part;

/// The assertions of a base, and behind them others, which are lent to one answer alone.
#[derive(Drop)]
pub(crate) struct WithOthers<'c, 'p, A: Assertions> {
    first: &'c A,
    // How many the first ones are.
    count: u32,
    others: &'c List<Part<'p>>,
    ghost counted: { count ≡ length (A.parts first.now) },
}

impl<'c, 'p, A: Assertions> WithOthers<'c, 'p, A> {
    /// So many assertions, and behind them others.
    pub(crate) fn of(first: &'c A, count: u32, others: &'c List<Part<'p>>) -> WithOthers<'c, 'p, A>
        requires { count ≡ length (A.parts first.now) }
        ensures first { result.first.now ≡ first.now }
        ensures others { result.others.now ≡ others.now }
    {
        WithOthers {
            first,
            count,
            others,
        }
    }
}

impl<'c, 'p, A: Assertions> Assertions for WithOthers<'c, 'p, A> {
    ghost use Rattle.std.specs.Prelude.{◌++◌};

    ghost parts = { λ f. A.parts f.first.now ++ f.others.now };

    fn id(&self, row: u32) -> Id {
        if row < self.count {
            self.first.id(row)
        } else {
            self.others.id(row - self.count)
        }
    }

    fn assertion(&self, row: u32) -> &Assertion {
        if row < self.count {
            self.first.assertion(row)
        } else {
            self.others.assertion(row - self.count)
        }
    }
}
