//! Replies to the calls of a session.
ghost use Rattle.std.specs.Prelude.{◌≡◌, ◌≤◌, List, IfOk, length, option_map, true};
ghost use Rattle.kn_base.specs.declared.limits.TheConstants.{ASSERTION_BYTES};
ghost use Rattle.kn_history.specs.declared.update.Update.{Update};
ghost use Rattle.kn_session.specs.Calls.{Set, call_of, asserted_text};
ghost use Rattle.kn_wire.specs.Hex.{bytes_of_hex};
ghost use Rattle.kn_wire.specs.Requests.{is_hex};
ghost use Rattle.kn_daemon.specs.Shapes.{Calls};
ghost use Rattle.kn_transcript.specs.Judging.{state_of, HasRoom, Judges};

use crate::connection::Connection;
use crate::matching::{behind_refusal, behind_reply};
use kn_base::NoMemory;
use kn_refusals::{refusal_of_call_fault, reply_of_applied};
use kn_session::Call;
use kn_wire::decode_hex;
use std::alloc::Global;

/// Judges the reply to a call of a session.
pub(crate) fn judge_call<'a>(
    alloc: Global,
    connection: &mut Connection,
    s: u32,
    call: Call<'_>,
    left: &'a [u8],
) -> Result<Option<&'a [u8]>, NoMemory>
    requires room { HasRoom (state_of connection.old) }
    requires short { length (asserted_text (call_of call)) ≤ ASSERTION_BYTES }
    ensures judged { (past : List Update) → IfOk result (λ found. Judges past (state_of connection.old)
        (Calls s (call_of call.entry)) left.now past (state_of connection.new) (option_map (λ rest. rest.now) found)) }
{
    match connection.sessions.apply(alloc, s, call) {
        Ok(applied) => behind_reply(alloc, left, &reply_of_applied(applied)),
        Err(fault) => behind_refusal(alloc, left, refusal_of_call_fault(&fault)),
    }
}

/// Judges the reply to the call that sets an attribute to the bytes of digits.
pub(crate) fn judge_set_hex<'a>(
    alloc: Global,
    connection: &mut Connection,
    s: u32,
    name: &[u8],
    digits: &[u8],
    left: &'a [u8],
) -> Result<Option<&'a [u8]>, NoMemory>
    requires room { HasRoom (state_of connection.old) }
    requires digits { is_hex digits.now ≡ true }
    ensures judged { (past : List Update) → IfOk result (λ found. Judges past (state_of connection.old)
        (Calls s (Set name.now (bytes_of_hex digits.now))) left.now past (state_of connection.new)
        (option_map (λ rest. rest.now) found)) }
{
    let bytes = decode_hex(alloc, digits)?;
    let value = bytes.as_slice();
    judge_call(alloc, connection, s, Call::Set { name, value }, left)
}
