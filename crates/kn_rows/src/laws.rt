//! Laws of rows, each of them the contract of a function that does nothing.
ghost use Rattle.std.specs.Prelude.{◌≡◌};

use crate::parts::QUERY_BYTES;

/// The bytes of the texts behind a query, together.
pub fn query_limit()
    ensures { QUERY_BYTES ≡ 16777000 }
{}
