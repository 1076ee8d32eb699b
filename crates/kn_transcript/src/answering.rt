//! The reply to one request of a transcript.
ghost use Rattle.std.specs.Prelude.{◌≡◌, ◌<◌, ◌^◌, IfOk, false, length, option_map};
ghost use Rattle.kn_wire.specs.Hex.{IsWellFormed};
ghost use Rattle.kn_wire.specs.Requests.{Faulty};
ghost use Rattle.kn_wire.specs.Wired.{request_of};
ghost use Rattle.kn_daemon.specs.Shapes.{shape_of, shape_in_code};
ghost use Rattle.kn_daemon.specs.Daemon.{may_lack_memory};
ghost use Rattle.kn_session.specs.Calls.{call_of, call_may_lack_memory};
ghost use Rattle.kn_transcript.specs.Accepted.{is_foreign};
ghost use Rattle.kn_transcript.specs.Judging.{state_of, HasRoom, JudgesReply};
ghost use Rattle.kn_transcript.specs.Progress.{begins_with_value, IsMissed, IsRequestJudged, IsMovedOn};

use crate::connection::Connection;
use crate::connection_replies::judge_fault;
use crate::fault::TranscriptFault;
use crate::judging::judge;
use crate::progress::Progress;
use kn_base::NoMemory;
use kn_base::text::behind;
use kn_daemon::shape::{Shape, shape_of};
use kn_reply_reader::begins_with_reply;
use kn_session::Call;
use kn_store::Book;
use kn_wire::{Request, WireFault};
use std::alloc::Global;

/// Judges the reply to the request of this number, and goes on behind it.
pub(crate) fn judge_request(
    alloc: Global,
    progress: &mut Progress<'_>,
    request: Request<'_>,
    number: u32,
) -> Result<(), TranscriptFault>
    requires room { HasRoom (state_of progress.old.connection) }
    requires form { IsWellFormed (request_of request) }
    requires few { progress.old.answers < number }
    ensures judged { IsRequestJudged progress.old (request_of request.entry) number progress.new result }
{
    if is_foreign(&request) {
        return Err(TranscriptFault::Foreign { request: number });
    }
    let left = progress.left;
    let found = judge_reply(
        alloc,
        &mut progress.book,
        &mut progress.connection,
        request,
        left,
    )?;
    move_on(progress, found, number)
}

/// Judges the reply to what is no request, or to a block that is refused, and goes on behind it.
pub(crate) fn judge_refused(
    alloc: Global,
    progress: &mut Progress<'_>,
    fault: WireFault,
    number: u32,
) -> Result<(), TranscriptFault>
    requires few { progress.old.answers < number }
    ensures judged { IsRequestJudged progress.old (Faulty fault) number progress.new result }
{
    let found = judge_fault(alloc, fault, progress.left)?;
    move_on(progress, found, number)
}

/// Goes on behind the reply that was judged, or tells what is amiss where none was found.
fn move_on<'a>(
    progress: &mut Progress<'a>,
    found: Option<&'a [u8]>,
    number: u32,
) -> Result<(), TranscriptFault>
    requires few { progress.old.answers < number }
    ensures moved { IsMovedOn progress.old (option_map (λ rest. rest.now) found.entry) number progress.new result }
{
    match found {
        Some(rest) => {
            if gives_value(progress.left) {
                progress.answers += 1;
            }
            progress.left = rest;
            Ok(())
        }
        None => Err(tell_missed(progress.left, number)),
    }
}

/// Whether the reply at the front of bytes gives a value: no other one begins so.
fn gives_value(left: &[u8]) -> bool
    ensures { result ≡ begins_with_value left.now }
{
    match left.first() {
        Some(byte) => *byte == b'V',
        None => false,
    }
}

/// What is amiss where no permitted reply stands at the front of the bytes that are left.
fn tell_missed(left: &[u8], request: u32) -> TranscriptFault
    ensures { IsMissed left.now request result }
{
    if left.is_empty() {
        TranscriptFault::Missing { request }
    } else if begins_with_reply(left) {
        TranscriptFault::Wrong { request }
    } else {
        TranscriptFault::Text { request }
    }
}

/// Judges the reply to a request, which may also be `NOMEM`.
fn judge_reply<'a>(
    alloc: Global,
    book: &mut Book,
    connection: &mut Connection,
    request: Request<'_>,
    left: &'a [u8],
) -> Result<Option<&'a [u8]>, NoMemory>
    requires room { HasRoom (state_of connection.old) }
    requires form { IsWellFormed (request_of request) }
    requires judged { is_foreign (request_of request) ≡ false }
    ensures judged { IfOk result (λ found. JudgesReply book.old (state_of connection.old)
        (shape_of (request_of request.entry)) left.now book.new (state_of connection.new)
        (option_map (λ rest. rest.now) found)) }
{
    match behind(left, b"NOMEM\n") {
        Some(rest) => {
            if may_lack_memory(&shape_of(request)) {
                Ok(Some(rest))
            } else {
                Ok(None)
            }
        }
        None => judge(alloc, book, connection, request, left),
    }
}

/// Whether a transcript doesn't judge the request.
fn is_foreign(request: &Request<'_>) -> bool
    ensures { result ≡ is_foreign (request_of request.now) }
{
    matches!(
        request,
        Request::Watch { .. }
            | Request::News { .. }
            | Request::Unwatch { .. }
            | Request::Critical { .. }
            | Request::Log { .. }
    )
}

/// Whether `NOMEM` may be the reply to a request of this shape.
fn may_lack_memory(shape: &Shape<'_>) -> bool
    ensures { result ≡ may_lack_memory (shape_in_code shape.now) }
{
    match shape {
        Shape::Call { s: _, call } => call_may_lack_memory(call),
        Shape::Admin { .. } | Shape::Bye => false,
        Shape::SetHex { .. }
        | Shape::Open
        | Shape::Pin { .. }
        | Shape::PinAt { .. }
        | Shape::Add { .. }
        | Shape::Remove { .. }
        | Shape::Batch { .. }
        | Shape::Log { .. }
        | Shape::News { .. }
        | Shape::Query { .. }
        | Shape::Watch { .. }
        | Shape::Critical { .. } => true,
    }
}

/// Whether `NOMEM` may be the reply to a call of a session: one that stores something has it.
fn call_may_lack_memory(call: &Call<'_>) -> bool
    ensures { result ≡ call_may_lack_memory (call_of call.now) }
{
    matches!(
        call,
        Call::Assert { .. } | Call::Set { .. } | Call::Auth { .. }
    )
}
