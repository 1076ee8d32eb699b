//! The values of conditions in one request, each of which is found once.
ghost use Rattle.std.specs.Prelude.{◌≡◌, slice_index, IfOk};

use kn_answer::ConditionValues;
use kn_base::{List, NoMemory};
use std::alloc::Global;
use std::cell::Cell;
use std::marker::{Brand, PhantomData};

/// Which values these are. Each request picks its own.
pub(crate) trait Picked {
    ghost use Rattle.std.specs.Prelude.{ℕ, List};

    ghost values: { List ℕ };
}

impl Picked for Brand {
    ghost use Rattle.std.specs.Prelude.{[]};

    ghost values = { [] };
}

// The value of a row's conditions. It names its row, since nothing is known of what a cell holds but its type.
#[derive(Drop)]
struct Found<P: Picked> {
    row: u32,
    value: u8,
    of: PhantomData<P>,
    ghost is: { value ≡ slice_index P.values row },
}

/// The values of conditions, each remembered once it was asked for. Those that nobody asks for are never found.
#[derive(Drop)]
pub(crate) struct Remembered<V: ConditionValues, P: Picked> {
    values: V,
    // A place for each row.
    found: List<Cell<Option<Found<P>>>>,
    ghost are: { V.each values ≡ P.values },
}

impl<V: ConditionValues + Drop, P: Picked> Remembered<V, P> {
    /// The values of so many rows, none of which was asked for yet.
    pub(crate) fn of(alloc: Global, values: V, rows: u32) -> Result<Remembered<V, P>, NoMemory>
        requires { V.each values ≡ P.values }
        ensures { IfOk result (λ remembered. remembered.values ≡ values) }
    {
        let mut found = List::new(alloc);
        for _row in 0..rows {
            found.add(Cell::new(None))?;
        }
        Ok(Remembered { values, found })
    }
}

impl<V: ConditionValues, P: Picked> ConditionValues for Remembered<V, P> {
    ghost each = { λ r. V.each r.values };

    fn value(&self, row: u32) -> Result<u8, NoMemory> {
        let Some(place) = self.found.get(row) else {
            return self.values.value(row);
        };
        let found = match place.take() {
            Some(found) if found.row == row => found,
            _ => Found {
                row,
                value: self.values.value(row)?,
                of: PhantomData,
            },
        };
        let value = found.value;
        place.set(Some(found));
        Ok(value)
    }
}
