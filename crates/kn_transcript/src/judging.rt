//! The reply to any request that a transcript judges.
ghost use Rattle.std.specs.Prelude.{◌≡◌, IfOk, false, option_map};
ghost use Rattle.kn_wire.specs.Hex.{IsWellFormed};
ghost use Rattle.kn_wire.specs.Wired.{request_of};
ghost use Rattle.kn_daemon.specs.Shapes.{shape_of};
ghost use Rattle.kn_transcript.specs.Accepted.{is_foreign};
ghost use Rattle.kn_transcript.specs.Judging.{state_of, HasRoom, Judges};

use crate::batching::judge_batch;
use crate::calling::{judge_call, judge_set_hex};
use crate::connection::Connection;
use crate::connection_replies::{judge_bye, judge_secret};
use crate::opening::{judge_open, judge_pin, judge_pin_at};
use crate::querying::judge_query;
use crate::updating::{judge_add, judge_drop};
use kn_base::NoMemory;
use kn_daemon::shape::{Shape, shape_of};
use kn_store::Book;
use kn_wire::Request;
use std::alloc::Global;

/// Judges the reply to a request, and gives what is left behind it; None where no permitted one stands there. An
/// accepted update is made in the book. `NOMEM` is judged apart.
pub(crate) fn judge<'a>(
    alloc: Global,
    book: &mut Book,
    connection: &mut Connection,
    request: Request<'_>,
    left: &'a [u8],
) -> Result<Option<&'a [u8]>, NoMemory>
    requires room { HasRoom (state_of connection.old) }
    requires form { IsWellFormed (request_of request) }
    requires judged { is_foreign (request_of request) ≡ false }
    ensures judged { IfOk result (λ found. Judges book.old (state_of connection.old)
        (shape_of (request_of request.entry)) left.now book.new (state_of connection.new)
        (option_map (λ rest. rest.now) found)) }
{
    match shape_of(request) {
        Shape::Open => judge_open(alloc, book, connection, left),
        Shape::Pin { s } => judge_pin(alloc, book, connection, s, left),
        Shape::PinAt { s, version } => judge_pin_at(alloc, book, connection, s, version, left),
        Shape::Add { block } => judge_add(alloc, book, connection, block, left),
        Shape::Remove { k } => judge_drop(alloc, book, connection, k, left),
        Shape::Batch { block } => judge_batch(alloc, book, connection, block, left),
        Shape::Call { s, call } => judge_call(alloc, connection, s, call, left),
        Shape::SetHex { s, name, digits } => judge_set_hex(
            alloc, connection, s, name, digits, left,
        ),
        Shape::Query { s, values } => judge_query(alloc, connection, s, values, left),
        Shape::Admin { digits } => judge_secret(alloc, connection, digits, left),
        Shape::Bye => judge_bye(alloc, left),
        Shape::Log { .. } | Shape::News { .. } | Shape::Watch { .. } | Shape::Critical { .. } => {
            unreachable!()
        }
    }
}
