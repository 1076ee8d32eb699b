//! The calls of a session.
ghost use Rattle.std.specs.Prelude.{◌≡◌, ◌≤◌, None, length, true};
ghost use Rattle.kn_base.specs.declared.limits.TheConstants.{ASSERTION_BYTES};
ghost use Rattle.kn_outside.specs.Printing.{is_whole};
ghost use Rattle.kn_session.specs.Calls.{Set, call_of, asserted_text};
ghost use Rattle.kn_wire.specs.Hex.{bytes_of_hex};
ghost use Rattle.kn_wire.specs.Requests.{is_hex};
ghost use Rattle.kn_daemon.specs.Shapes.{Calls};
ghost use Rattle.kn_daemon.specs.Daemon.{DaemonConfig};
ghost use Rattle.kn_serve.specs.Handling.{state_of, HasRoom, Tells};

use crate::connection::Connection;
use crate::refusals::{print_applied, print_refusal};
use kn_base::NoMemory;
use kn_outside::{Failed, Link};
use kn_refusals::refusal_of_call_fault;
use kn_reply::{Reply, print};
use kn_session::Call;
use kn_wire::decode_hex;
use std::alloc::Global;

/// Answers a call of a session. It may change what the last answer hangs on, so that is forgotten.
pub(crate) fn call<L: Link>(
    alloc: Global,
    connection: &mut Connection,
    s: u32,
    call: Call<'_>,
    link: &mut L,
) -> Result<(), Failed>
    requires room { HasRoom (state_of connection.old) }
    requires short { length (asserted_text (call_of call)) ≤ ASSERTION_BYTES }
    ensures forgotten { connection.new.last.answer ≡ None }
    ensures exact { (g : DaemonConfig) → Tells g (Calls s (call_of call.entry)) (is_whole result)
        (state_of connection.old) (state_of connection.new) (L.seen link.old) (L.seen link.new) }
{
    connection.last.forget();
    match connection.sessions.apply(alloc, s, call) {
        Ok(applied) => print_applied(applied, link),
        Err(fault) => print_refusal(refusal_of_call_fault(&fault), link),
    }
}

/// Answers the call that sets an attribute to the bytes of digits. The last answer is forgotten.
pub(crate) fn set_hex<L: Link>(
    alloc: Global,
    connection: &mut Connection,
    s: u32,
    name: &[u8],
    digits: &[u8],
    link: &mut L,
) -> Result<(), Failed>
    requires room { HasRoom (state_of connection.old) }
    requires digits { is_hex digits.now ≡ true }
    ensures forgotten { connection.new.last.answer ≡ None }
    ensures exact { (g : DaemonConfig) → Tells g (Calls s (Set name.now (bytes_of_hex digits.now))) (is_whole result)
        (state_of connection.old) (state_of connection.new) (L.seen link.old) (L.seen link.new) }
{
    connection.last.forget();
    match decode_hex(alloc, digits) {
        Ok(bytes) => {
            let value = bytes.as_slice();
            call(alloc, connection, s, Call::Set { name, value }, link)
        }
        Err(NoMemory) => print(&Reply::NoMemory, link),
    }
}
