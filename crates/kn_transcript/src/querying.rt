//! Replies to QUERY. They are checked by their rows, and nothing is settled.
ghost use Rattle.std.specs.Prelude.{◌≡◌, ◌↔◌, List, IfOk, IsTrue, option_map};
ghost use Rattle.kn_env.specs.Environment.{AreRequesters};
ghost use Rattle.kn_env.specs.Values.{values_of};
ghost use Rattle.kn_history.specs.declared.update.Update.{Update};
ghost use Rattle.kn_session.specs.Views.{session_of_view, AreReadPrivates, ArePrivates};
ghost use Rattle.kn_daemon.specs.Shapes.{Asks, WithProof};
ghost use Rattle.kn_transcript.specs.Judging.{state_of, Judges};
ghost use Rattle.kn_transcript.specs.ValueReplies.{JudgesValue, ProvesAnswer};

use crate::connection::Connection;
use crate::matching::behind_reply;
use kn_base::NoMemory;
use kn_env::{Values, ValuesFault};
use kn_proof::ReadReply;
use kn_reply::{Refusal, Reply};
use kn_reply_reader::read_value;
use kn_session::View;
use kn_verify::laws::answers_are_accepted;
use kn_verify::{Refused, verify};
use std::alloc::Global;

/// Judges the reply to QUERY.
pub(crate) fn judge_query<'a>(
    alloc: Global,
    connection: &Connection,
    s: u32,
    names: &[u8],
    left: &'a [u8],
) -> Result<Option<&'a [u8]>, NoMemory>
    ensures judged { (past : List Update) → IfOk result (λ found. Judges past (state_of connection.now)
        (Asks WithProof s names.now) left.now past (state_of connection.now) (option_map (λ rest. rest.now) found)) }
{
    let view = match connection.sessions.view(s) {
        Ok(view) => view,
        Err(_) => return behind_reply(alloc, left, &Reply::No(Refusal::Session)),
    };
    match read_names(alloc, names)? {
        Some(values) => judge_value(alloc, &view, &values, left),
        None => behind_reply(alloc, left, &Reply::No(Refusal::Values)),
    }
}

/// The compliance values that a text names; None where it names no such list.
fn read_names(alloc: Global, names: &[u8]) -> Result<Option<Values>, NoMemory>
    ensures { IfOk result (λ found. values_of names.now ≡ found) }
{
    match Values::of(alloc, names) {
        Ok(values) => Ok(Some(values)),
        Err(ValuesFault::NoMemory) => Err(NoMemory),
        Err(ValuesFault::Count { .. } | ValuesFault::BadName { .. } | ValuesFault::Twice { .. }) =>
            { Ok(None) }
    }
}

/// Judges a VALUE reply to what a session asks where these are the compliance values.
fn judge_value<'a>(
    alloc: Global,
    view: &View<'_>,
    values: &Values,
    left: &'a [u8],
) -> Result<Option<&'a [u8]>, NoMemory>
    requires privates { ArePrivates (session_of_view view.now).privates }
    requires readings { AreReadPrivates view.now.private.now }
    requires requesters { AreRequesters view.now.requesters.now }
    ensures judged { IfOk result (λ found.
        JudgesValue (session_of_view view.now) values.now left.now (option_map (λ rest. rest.now) found)) }
{
    let Some(value) = read_value(alloc, left)? else {
        return Ok(None);
    };
    if is_proved(alloc, view, values, &value.reply)? {
        Ok(Some(value.rest))
    } else {
        Ok(None)
    }
}

/// Whether the rows of a reply prove its value of what a session asks where these are the compliance values.
fn is_proved(
    alloc: Global,
    view: &View<'_>,
    values: &Values,
    reply: &ReadReply,
) -> Result<bool, NoMemory>
    requires privates { ArePrivates (session_of_view view.now).privates }
    requires readings { AreReadPrivates view.now.private.now }
    requires requesters { AreRequesters view.now.requesters.now }
    ensures { IfOk result (λ proved. IsTrue proved ↔ ProvesAnswer (session_of_view view.now) values.now reply.now) }
{
    answers_are_accepted();
    match verify(alloc, view, values, reply) {
        Ok(()) => Ok(true),
        Err(Refused::NoMemory) => Err(NoMemory),
        Err(Refused::Other | Refused::Rejected(_)) => Ok(false),
    }
}
