//! Asking with a session.
ghost use Rattle.std.specs.Prelude.{◌≡◌, ◌<◌, [], None, Some, length, slice_index_or, IfOk, IfErr, IfSome};
ghost use Rattle.kn_env.specs.Environment.{AreRequesters};
ghost use Rattle.kn_env.specs.Values.{values_of};
ghost use Rattle.kn_outside.specs.Printing.{Prints, is_whole};
ghost use Rattle.kn_reply.specs.Replies.{Value, reply_text};
ghost use Rattle.kn_session.specs.Views.{session_of_view, AreReadPrivates, ArePrivates};
ghost use Rattle.kn_daemon.specs.Shapes.{Asks, WithProof, WithCritical};
ghost use Rattle.kn_daemon.specs.Daemon.{DaemonConfig, session_of};
ghost use Rattle.kn_serve.specs.Handling.{state_of, RefusesQuestions, Tells};
ghost use Rattle.kn_serve.specs.KeptBases.{StaysOf};
ghost use Rattle.kn_serve.specs.LastQuestions.{AreAllOfOneWithLast, IsAnswerTo, IsRightAgain, LastStays};

use crate::connection::Connection;
use crate::last_question::LastAnswer;
use crate::refusals::{print_refusal, refusal_of_critical};
use kn_answer::Answer;
use kn_base::NoMemory;
use kn_env::Values;
use kn_outside::{Failed, Link};
use kn_query::{KeptBases, answer_query, find_critical};
use kn_refusals::refusal_of_values;
use kn_reply::{Refusal, Reply, print};
use kn_session::View;
use std::alloc::Global;

/// What a session asks with, and the compliance values of a text, which need not be read where they are at hand. The
/// refusal is that of each question with these; it is None when out of memory.
pub(crate) fn read_question<'a>(
    alloc: Global,
    connection: &'a Connection,
    at_hand: Option<Values>,
    s: u32,
    names: &[u8],
) -> Result<(View<'a>, Values), Option<Refusal>>
    requires at_hand { IfSome at_hand (λ values. values_of names.now ≡ Some values) }
    ensures session { IfOk result (λ asked. session_of (state_of connection.now) s ≡ Some (session_of_view asked.0)) }
    ensures privates { IfOk result (λ asked. ArePrivates (session_of_view asked.0).privates) }
    ensures readings { IfOk result (λ asked. AreReadPrivates asked.0.private.now) }
    ensures requesters { IfOk result (λ asked. AreRequesters asked.0.requesters.now) }
    ensures named { IfOk result (λ asked. values_of names.now ≡ Some asked.1) }
    ensures refused { IfErr result (RefusesQuestions (state_of connection.now) s names.now) }
{
    let view = match connection.sessions.view(s) {
        Ok(view) => view,
        Err(_) => return Err(Some(Refusal::Session)),
    };
    if let Some(values) = at_hand {
        return Ok((view, values));
    }
    match Values::of(alloc, names) {
        Ok(values) => Ok((view, values)),
        Err(fault) => Err(refusal_of_values(fault)),
    }
}

/// Answers QUERY. Its compliance values and its answer are kept for the next one.
pub(crate) fn query<L: Link>(
    alloc: Global,
    connection: &mut Connection,
    kept: &mut KeptBases,
    s: u32,
    names: &[u8],
    link: &mut L,
) -> Result<(), Failed>
    requires one_history { AreAllOfOneWithLast (state_of connection.old) kept.old connection.old.last }
    ensures stays { StaysOf (state_of connection.old) kept.old kept.new }
    ensures last { LastStays (state_of connection.old) connection.old.last
        (state_of connection.new) connection.new.last }
    ensures exact { (g : DaemonConfig) → Tells g (Asks WithProof s names.now) (is_whole result)
        (state_of connection.old) (state_of connection.new) (L.seen link.old) (L.seen link.new) }
{
    if let Some((values, answer, version)) = last_answer(connection, s, names) {
        return tell_answer(answer, values, version, link);
    }
    let at_hand = connection.last.take(names);
    let (view, values) = match read_question(alloc, connection, at_hand, s, names) {
        Ok(asked) => asked,
        Err(refusal) => return print_refusal(refusal, link),
    };
    let answer = match answer_query(alloc, &view, &values, kept) {
        Ok(answer) => answer,
        Err(NoMemory) => return print(&Reply::NoMemory, link),
    };
    let version = view.snapshot.number();
    let written = tell_answer(&answer, &values, version, link);
    let last = LastAnswer { s, version, answer };
    connection.last.keep(alloc, names, values, last);
    written
}

/// The answer of the last question with its compliance values and the number of its version, where it is the answer to
/// this one.
fn last_answer<'a>(
    connection: &'a Connection,
    s: u32,
    names: &[u8],
) -> Option<(&'a Values, &'a Answer, u32)>
    requires last { IsRightAgain (state_of connection.now) connection.now.last }
    ensures { IfSome result (λ last.
        IsAnswerTo (state_of connection.now) s names.now last.0.now last.1.now last.2) }
{
    let Ok(view) = connection.sessions.view(s) else {
        return None;
    };
    let version = view.snapshot.number();
    let (values, answer) = connection.last.answer_to(s, version, names)?;
    Some((values, answer, version))
}

/// Tells an answer with its rows, over the version of this number.
fn tell_answer<L: Link>(
    answer: &Answer,
    values: &Values,
    version: u32,
    link: &mut L,
) -> Result<(), Failed>
    requires value { answer.now.value < length values.now }
    ensures prints { Prints (is_whole result)
        (reply_text (Value answer.now.value (slice_index_or values.now answer.now.value []) version answer.now.rows))
        (L.seen link.old) (L.seen link.new) }
{
    let index = answer.value;
    let name = values.name(index);
    let rows = &answer.rows;
    print(
        &Reply::Value {
            index,
            name,
            version,
            rows,
        },
        link,
    )
}

/// Answers CRITICAL.
pub(crate) fn critical<L: Link>(
    alloc: Global,
    connection: &Connection,
    s: u32,
    names: &[u8],
    link: &mut L,
) -> Result<(), Failed>
    ensures exact { (g : DaemonConfig) → Tells g (Asks WithCritical s names.now) (is_whole result)
        (state_of connection.now) (state_of connection.now) (L.seen link.old) (L.seen link.new) }
{
    let (view, values) = match read_question(alloc, connection, None, s, names) {
        Ok(asked) => asked,
        Err(refusal) => return print_refusal(refusal, link),
    };
    match find_critical(alloc, &view, &values) {
        Ok(critical) => {
            let index = critical.value;
            let ids = &critical.ids;
            print(&Reply::Critical { index, ids }, link)
        }
        Err(fault) => print_refusal(refusal_of_critical(fault), link),
    }
}
