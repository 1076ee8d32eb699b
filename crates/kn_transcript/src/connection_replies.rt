//! Replies to requests about the connection itself, and to what is no request.
ghost use Rattle.std.specs.Prelude.{◌≡◌, IfOk, List, option_map};
ghost use Rattle.kn_history.specs.declared.update.Update.{Update};
ghost use Rattle.kn_wire.specs.Hex.{bytes_of_hex};
ghost use Rattle.kn_daemon.specs.Shapes.{Controls, ShowSecret, Leave, AtFault};
ghost use Rattle.kn_daemon.specs.Daemon.{State};
ghost use Rattle.kn_transcript.specs.Judging.{state_of, Judges};

use crate::connection::Connection;
use crate::matching::behind_reply;
use kn_base::NoMemory;
use kn_refusals::refusal_of_fault;
use kn_reply::{Refusal, Reply};
use kn_wire::WireFault;
use std::alloc::Global;

/// Judges the reply to ADMIN. It alone tells whether the secret was right, which no empty one is.
pub(crate) fn judge_secret<'a>(
    alloc: Global,
    connection: &mut Connection,
    digits: &[u8],
    left: &'a [u8],
) -> Result<Option<&'a [u8]>, NoMemory>
    ensures judged { (past : List Update) → IfOk result (λ found. Judges past (state_of connection.old)
        (Controls (ShowSecret (bytes_of_hex digits.now))) left.now past (state_of connection.new)
        (option_map (λ rest. rest.now) found)) }
{
    if digits.len() < 2 {
        return behind_reply(alloc, left, &Reply::No(Refusal::Admin));
    }
    match behind_reply(alloc, left, &Reply::Ok)? {
        Some(rest) => {
            connection.is_admin = true;
            Ok(Some(rest))
        }
        None => behind_reply(alloc, left, &Reply::No(Refusal::Admin)),
    }
}

/// Judges the reply to BYE.
pub(crate) fn judge_bye<'a>(alloc: Global, left: &'a [u8]) -> Result<Option<&'a [u8]>, NoMemory>
    ensures judged { (past : List Update) (now : State) → IfOk result (λ found.
        Judges past now (Controls Leave) left.now past now (option_map (λ rest. rest.now) found)) }
{
    behind_reply(alloc, left, &Reply::Ok)
}

/// Judges the reply to a line that is no request, or to a block that is refused.
pub(crate) fn judge_fault<'a>(
    alloc: Global,
    fault: WireFault,
    left: &'a [u8],
) -> Result<Option<&'a [u8]>, NoMemory>
    ensures judged { (past : List Update) (now : State) → IfOk result (λ found.
        Judges past now (AtFault fault) left.now past now (option_map (λ rest. rest.now) found)) }
{
    behind_reply(alloc, left, &Reply::No(refusal_of_fault(fault)))
}
