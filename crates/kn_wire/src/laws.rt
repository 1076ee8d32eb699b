//! Laws of requests, each of them the contract of a function that does nothing.

ghost use Rattle.std.specs.Prelude.{◌≡◌};
ghost use Rattle.kn_wire.specs.Laws.{LineIsFirst, SomeReading, OneReading, RequestsGrow, PiecesAreRequests};
ghost use Rattle.kn_wire.specs.Laws.{BatchIsItems, ItemsAreRead, BlockDeparts, DepartingIsRefused};

use crate::feed::CHUNK_BYTES;

/// The first request of a text that begins with a line of at most 8,192 bytes and its newline is that of the line.
pub fn line_is_first()
    ensures { LineIsFirst }
{}

/// A text has one list of requests, and one rest is left of it.
pub fn one_reading()
    ensures some { SomeReading }
    ensures no_other { OneReading }
{}

/// The first requests of a text are the first ones of a longer text too.
pub fn requests_grow()
    ensures { RequestsGrow }
{}

/// The requests of a stream don't depend on how it is cut.
pub fn pieces_are_requests()
    ensures { PiecesAreRequests }
{}

/// The items that are read of a batch's block are those of which it is made; a block of which none are read is refused
/// at the item at which it departs from the form.
pub fn batch_is_items()
    ensures items { BatchIsItems }
    ensures read { ItemsAreRead }
    ensures departs { BlockDeparts }
    ensures refused { DepartingIsRefused }
{}

/// The bytes of a piece that a feed takes at once.
pub fn piece_limit()
    ensures { CHUNK_BYTES ≡ 4096 }
{}
