//! What the outside in memory is made of.
ghost use Rattle.std.specs.Prelude.{IfOk};
ghost use Rattle.kn_workers.specs.InMemory.{IsNewLink};

use kn_base::{List, NoMemory, Octets};
use kn_outside::MemLink;
use std::alloc::Global;

/// A list with this item more.
pub(crate) fn with<T: Drop>(mut list: List<T>, item: T) -> Result<List<T>, NoMemory> {
    match list.push(item) {
        Ok(()) => Ok(list),
        Err(_) => Err(NoMemory),
    }
}

/// The list of this number alone.
pub(crate) fn numbers(alloc: Global, number: u32) -> Result<List<u32>, NoMemory> {
    with(List::new(alloc), number)
}

/// A link with this input, of which this call fails; 0 for none.
pub(crate) fn link(alloc: Global, input: &[u8], failing: u32) -> Result<MemLink, NoMemory>
    ensures { IfOk result (λ link. IsNewLink link) }
{
    let input = Octets::from_slice(alloc, input)?;
    let failing = numbers(alloc, failing)?;
    Ok(MemLink::of(alloc, input, List::new(alloc), failing))
}
