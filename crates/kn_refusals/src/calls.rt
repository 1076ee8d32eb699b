//! Refusals of lines, texts and names, and of the calls of a session.
ghost use Rattle.std.specs.Prelude.{◌≡◌, ◌<◌, ◌^◌};
ghost use Rattle.kn_fields.specs.Numbers.{fault_place};
ghost use Rattle.kn_session.specs.Calls.{place_of_fault};
ghost use Rattle.kn_reply.specs.Replies.{reply_of};
ghost use Rattle.kn_daemon.specs.Daemon.{refusal_of_fault, refusal_at_text, refusal_of_session};
ghost use Rattle.kn_daemon.specs.CallFaults.{refusal_of_call_fault, reply_of_applied};
ghost use Rattle.kn_refusals.specs.Refusals.{refusal_of_values};

use kn_assert::ReadFault;
use kn_env::ValuesFault;
use kn_reply::{LimitWord, Refusal, Reply};
use kn_session::{Applied, CallFault, SessionFault};
use kn_wire::WireFault;

/// The refusal of a line that is no request, or of a block.
pub fn refusal_of_fault(fault: WireFault) -> Refusal
    ensures { result ≡ refusal_of_fault fault }
{
    match fault {
        WireFault::Syntax => Refusal::Syntax,
        WireFault::Command => Refusal::Command,
        WireFault::Long => Refusal::Long,
        WireFault::Block { .. } => Refusal::Block,
    }
}

/// The refusal of a text with this fault; None when out of memory.
pub fn refusal_of_text(fault: &ReadFault) -> Option<Refusal>
    requires { fault_place fault.now < 2 ^ 32 }
    ensures { result ≡ refusal_at_text Refusal.Read fault.now }
{
    let place = fault.place() as u32;
    match fault.number() {
        Some(fault) => Some(Refusal::Read { fault, place }),
        None => None,
    }
}

/// The refusal of names that are no compliance values; None when out of memory.
pub fn refusal_of_values(fault: ValuesFault) -> Option<Refusal>
    ensures { result ≡ refusal_of_values fault }
{
    match fault {
        ValuesFault::Count { .. } => Some(Refusal::Values),
        ValuesFault::BadName { .. } => Some(Refusal::Values),
        ValuesFault::Twice { .. } => Some(Refusal::Values),
        ValuesFault::NoMemory => None,
    }
}

/// The refusal that a fault of a session's call is; None when out of memory.
pub fn refusal_of_call_fault(fault: &CallFault) -> Option<Refusal>
    requires { place_of_fault fault.now < 2 ^ 32 }
    ensures { result ≡ refusal_of_call_fault fault.now }
{
    match fault {
        CallFault::Text { fault } => refusal_of_text(fault),
        CallFault::Session { fault } => refusal_of_session(*fault),
    }
}

/// The refusal that a fault of the sessions is; None when out of memory.
pub fn refusal_of_session(fault: SessionFault) -> Option<Refusal>
    ensures { result ≡ refusal_of_session fault }
{
    match fault {
        SessionFault::Unknown { .. } => Some(Refusal::Session),
        SessionFault::Sessions { count } => Some(limit(LimitWord::Sessions, count)),
        SessionFault::Privates { count } => Some(limit(LimitWord::Private, count)),
        SessionFault::PrivateBytes { bytes } => Some(limit(LimitWord::PrivateBytes, bytes)),
        SessionFault::NoSuch { .. } => Some(Refusal::Unknown),
        SessionFault::Requesters { count } => Some(limit(LimitWord::Requesters, count)),
        SessionFault::Principal => Some(Refusal::Principal),
        SessionFault::ByPolicy => Some(Refusal::Policy),
        SessionFault::Name => Some(Refusal::Name),
        SessionFault::Value => Some(Refusal::Value),
        SessionFault::Attributes { count } => Some(limit(LimitWord::Attributes, count)),
        SessionFault::Absent => Some(Refusal::Unknown),
        SessionFault::NoMemory => None,
    }
}

/// What an accepted call of a session is replied.
pub fn reply_of_applied(applied: Applied) -> Reply<'static>
    ensures { reply_of result ≡ reply_of_applied applied }
{
    match applied {
        Applied::Done => Reply::Ok,
        Applied::Added { k } => Reply::Private { k },
    }
}

fn limit(word: LimitWord, count: u32) -> Refusal
    ensures { result ≡ Refusal.Limit word count }
{
    Refusal::Limit { word, count }
}
