//! The compliance values of conditions in a query, each found when it is asked for.
ghost use Rattle.std.specs.Prelude.{◌≡◌, ◌<◌, length, slice_index, IfOk};
ghost use Rattle.kn_answer.specs.Based.{condition_values};

use crate::assertions::Assertions;
use kn_base::{List, NoMemory, Steps};
use kn_env::Query;
use kn_rows::{Tally, ceiling_of};
use kn_settle::Ceilings;
use std::alloc::Global;
use std::marker::Model;

/// What gives the compliance values of the conditions of a base's assertions in one query.
pub trait ConditionValues {
    ghost use Rattle.std.specs.Prelude.{ℕ, List};

    /// The value of each row's conditions, whether or not its assertion is still there.
    ghost each: { Self → List ℕ };

    /// The value of a row's conditions. `NoMemory` comes only when memory runs out.
    fn value(&self, row: u32) -> Result<u8, NoMemory>
        requires { row < length (each self.now) }
        ensures { IfOk result (λ value. value ≡ slice_index (each self.now) row) };
}

/// The conditions of assertions in a query, evaluated each time that their value is asked for.
#[derive(Drop)]
pub struct Evaluated<'c, 'q, A: Assertions> {
    alloc: Global,
    query: &'c Query<'q>,
    assertions: &'c A,
}

impl<'c, 'q, A: Assertions> Model for Evaluated<'c, 'q, A> {
    ghost use Rattle.std.specs.Prelude.{◌≤◌, ℕ, List, length};
    ghost use Rattle.kn_answer.specs.Based.{condition_values};

    ghost Value = { List ℕ };

    ghost view = { λ e. condition_values e.query.now (A.parts e.assertions.now) };

    ghost invariant = { λ e. 2 ≤ length e.query.now.values };
}

impl<'c, 'q, A: Assertions> Evaluated<'c, 'q, A> {
    /// The conditions of these assertions in a query.
    pub fn of(alloc: Global, query: &'c Query<'q>, assertions: &'c A) -> Evaluated<'c, 'q, A>
        ensures { result ≡ condition_values query.now (A.parts assertions.now) }
    {
        // The contract of `len` says that there are two compliance values at least.
        let _count = query.values().len();
        Evaluated {
            alloc,
            query,
            assertions,
        }
    }
}

impl<'c, 'q, A: Assertions> ConditionValues for Evaluated<'c, 'q, A> {
    ghost each = { λ values. values };

    fn value(&self, row: u32) -> Result<u8, NoMemory> {
        ceiling_of(self.alloc, self.query, self.assertions.assertion(row))
    }
}

/// The ceilings of a base's rows in a query. Those of assertions that were removed are 0.
#[derive(Drop)]
pub(crate) struct Conditions<'c, V: ConditionValues> {
    pub(crate) values: &'c V,
    pub(crate) live: &'c List<bool>,
}

impl<'c, V: ConditionValues> Ceilings<Tally> for Conditions<'c, V> {
    ghost use Rattle.kn_answer.specs.Based.{capped_values};

    ghost each = { λ c. capped_values (V.each c.values.now) c.live.now };

    fn ceiling(&self, row: u32, steps: &mut Steps<Tally>) -> Result<u8, NoMemory> {
        steps.tick();
        if self.live.as_slice()[row as usize] {
            self.values.value(row)
        } else {
            Ok(0)
        }
    }
}
