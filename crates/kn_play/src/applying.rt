//! What a request makes of the sessions. One that is refused changes nothing.
ghost use Rattle.std.specs.Prelude.{◌≡◌, ◌≢◌, List, OnErr, OnOk, true};
ghost use Rattle.std.specs.Arc.{arc_value};
ghost use Rattle.kn_history.specs.declared.update.Update.{Update};
ghost use Rattle.kn_session.specs.Calls.{Set, call_of};
ghost use Rattle.kn_session.specs.declared.fault.SessionFault.TheVariants as F;
ghost use Rattle.kn_wire.specs.Hex.{bytes_of_hex};
ghost use Rattle.kn_wire.specs.Requests.{is_hex};
ghost use Rattle.kn_daemon.specs.Shapes.{Calls, Asks, Looks, ForOpen, ForPin, ForPinAt, ForNews, ToKeep};
ghost use Rattle.kn_daemon.specs.Shapes.{shape_in_code, IsFormed};
ghost use Rattle.kn_play.specs.Playing.{state_of_sessions, after_shape, NumbersGoOn};

use crate::asking::read_query;
use kn_base::NoMemory;
use kn_daemon::shape::Shape;
use kn_session::{Call, SessionFault, Sessions};
use kn_store::{Book, Snapshot};
use kn_wire::decode_hex;
use std::alloc::Global;

/// Applies a request of this shape. ADMIN, ADD, DROP, BATCH and LOG are always refused. QUERY, CRITICAL and BYE change
/// nothing.
pub(crate) fn apply(
    alloc: Global,
    book: &Book,
    sessions: &mut Sessions,
    shape: Shape<'_>,
) -> Result<(), NoMemory>
    requires room { NumbersGoOn sessions.old }
    requires form { IsFormed shape }
    ensures { OnOk result (state_of_sessions sessions.new
        ≡ after_shape book.now sessions.old (shape_in_code shape.entry)) }
{
    match shape {
        Shape::Open => start(book, sessions),
        Shape::Pin { s } => repin(book, sessions, s),
        Shape::PinAt { s, version } => repin_at(book, sessions, s, version),
        Shape::News { s } => move_standing(book, sessions, s),
        Shape::Watch { s, values } => watch(alloc, sessions, s, values),
        Shape::Call { s, call } => apply_call(alloc, sessions, s, call),
        Shape::SetHex { s, name, digits } => set_hex(alloc, sessions, s, name, digits),
        Shape::Add { .. }
        | Shape::Remove { .. }
        | Shape::Batch { .. }
        | Shape::Log { .. }
        | Shape::Query { .. }
        | Shape::Critical { .. }
        | Shape::Admin { .. }
        | Shape::Bye => Ok(()),
    }
}

/// Starts a session at the newest version.
fn start(book: &Book, sessions: &mut Sessions) -> Result<(), NoMemory>
    requires room { NumbersGoOn sessions.old }
    ensures { OnOk result (state_of_sessions sessions.new ≡ after_shape book.now sessions.old (Looks ForOpen)) }
{
    let Ok(pinned) = book.snapshot().clone() else {
        return Err(NoMemory);
    };
    match sessions.start(pinned) {
        Ok(_) => Ok(()),
        Err(fault) => pass_refusal(fault),
    }
}

/// Hands on `NoMemory`, and passes over a refusal.
fn pass_refusal(fault: SessionFault) -> Result<(), NoMemory>
    ensures ok { OnOk result (fault ≢ F.NoMemory) }
    ensures err { OnErr result (fault ≡ F.NoMemory) }
{
    match fault {
        SessionFault::NoMemory => Err(NoMemory),
        _ => Ok(()),
    }
}

/// Pins a session to the newest version.
fn repin(book: &Book, sessions: &mut Sessions, s: u32) -> Result<(), NoMemory>
    ensures { OnOk result (state_of_sessions sessions.new ≡ after_shape book.now sessions.old (Looks (ForPin s))) }
{
    pin_to(book.snapshot(), sessions, s)
}

/// Pins a session to a version that is retained. Another one is refused.
fn repin_at(book: &Book, sessions: &mut Sessions, s: u32, version: u32) -> Result<(), NoMemory>
    ensures { OnOk result (state_of_sessions sessions.new
        ≡ after_shape book.now sessions.old (Looks (ForPinAt s version))) }
{
    match book.retained(version) {
        Some(retained) => pin_to(retained, sessions, s),
        None => Ok(()),
    }
}

/// Pins a session to a version, as if that were the newest one.
fn pin_to(snapshot: &Snapshot, sessions: &mut Sessions, s: u32) -> Result<(), NoMemory>
    ensures { OnOk result (state_of_sessions sessions.new
        ≡ after_shape (arc_value snapshot.now) sessions.old (Looks (ForPin s))) }
{
    let Ok(pinned) = snapshot.clone() else {
        return Err(NoMemory);
    };
    let _pinned = sessions.repin(s, pinned);
    Ok(())
}

/// Moves the standing query of a session, if it has one, to the newest version.
fn move_standing(book: &Book, sessions: &mut Sessions, s: u32) -> Result<(), NoMemory>
    ensures { OnOk result (state_of_sessions sessions.new ≡ after_shape book.now sessions.old (Looks (ForNews s))) }
{
    let Ok(newest) = book.snapshot().clone() else {
        return Err(NoMemory);
    };
    let _moved = sessions.move_standing(s, newest, None);
    Ok(())
}

/// Keeps what a session asks, where that is answered, as its standing query.
fn watch(alloc: Global, sessions: &mut Sessions, s: u32, names: &[u8]) -> Result<(), NoMemory>
    ensures { (history : List Update)
        → OnOk result (state_of_sessions sessions.new ≡ after_shape history sessions.old (Asks ToKeep s names.now)) }
{
    match read_query(alloc, sessions, s, names)? {
        Some(asked) => match sessions.watch(s, asked.values, None) {
            Ok(()) => Ok(()),
            Err(fault) => pass_refusal(fault),
        },
        None => Ok(()),
    }
}

/// Applies a call of a session.
fn apply_call(
    alloc: Global,
    sessions: &mut Sessions,
    s: u32,
    call: Call<'_>,
) -> Result<(), NoMemory>
    requires room { NumbersGoOn sessions.old }
    ensures { (history : List Update)
        → OnOk result (state_of_sessions sessions.new
        ≡ after_shape history sessions.old (Calls s (call_of call.entry))) }
{
    match sessions.apply(alloc, s, call) {
        Ok(_) => Ok(()),
        Err(fault) => {
            if fault.lacks_memory() {
                Err(NoMemory)
            } else {
                Ok(())
            }
        }
    }
}

/// Sets an attribute to the bytes of digits.
fn set_hex(
    alloc: Global,
    sessions: &mut Sessions,
    s: u32,
    name: &[u8],
    digits: &[u8],
) -> Result<(), NoMemory>
    requires room { NumbersGoOn sessions.old }
    requires digits { is_hex digits.now ≡ true }
    ensures { (history : List Update)
        → OnOk result (state_of_sessions sessions.new
        ≡ after_shape history sessions.old (Calls s (Set name.now (bytes_of_hex digits.now)))) }
{
    let bytes = decode_hex(alloc, digits)?;
    let value = bytes.as_slice();
    apply_call(alloc, sessions, s, Call::Set { name, value })
}
