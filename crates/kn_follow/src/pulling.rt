//! Pulling the updates of a daemon over a link.
ghost use Rattle.std.specs.Prelude.{◌≡◌, ◌≢◌, ◌<◌, ◌≤◌, List, [], length, IfOk, IfErr, OnOk};
ghost use Rattle.kn_history.specs.declared.update.Update.{Update};
ghost use Rattle.kn_follow.specs.Following.{IsApplied};
ghost use Rattle.kn_follow.specs.Answers.{admin_line, log_line, ok_line};
ghost use Rattle.kn_follow.specs.Pulling.{IsPulled, IsPullFault, IsCause};
ghost use Rattle.kn_follow.specs.Exchanges.{IsFollowed, IsRound, IsStopped, IsUnfollowed, Passes};
ghost use Rattle.kn_follow.specs.declared.reply.TheConstants.{REPLY_BYTES};
ghost use Rattle.kn_follow.specs.declared.request.Request.{Request};
ghost use Rattle.kn_follow.specs.declared.request.Request.TheVariants as Q;

use crate::answer::refusal_code;
use crate::asking::ask;
use crate::fault::FollowFault;
use crate::pull_fault::PullFault;
use crate::replica::Replica;
use crate::reply::REPLY_BYTES;
use crate::request::{Request, admin_line, log_line};
use kn_base::Octets;
use kn_outside::Link;
use std::alloc::Global;

/// Takes what a daemon has behind the updates of a replica, and tells how many updates the replica then holds
/// (keynoted's own line protocol).
///
/// It writes ADMIN with the digits of the secret, of 1 to 128 bytes, then LOG with the number of updates held, again
/// and again until a reply has none, then BYE, and reads each answer before it writes the next request. An answer has
/// at most 300,000 bytes, and no more of them are kept. Replies that were applied before a fault stand.
pub fn pull<L: Link>(
    alloc: Global,
    link: &mut L,
    secret: &[u8],
    replica: &mut Replica,
) -> Result<u32, PullFault>
    requires some { 0 < length secret.now }
    requires short { length secret.now ≤ 128 }
    ensures pulled { IfOk result (λ number. IsPulled secret.now replica.old replica.new
        (L.seen link.old) (L.seen link.new) number) }
    ensures fault { IfErr result (λ fault. IsPullFault secret.now replica.old replica.new
        (L.seen link.old) (L.seen link.new) fault) }
{
    let mut held = Octets::new(alloc);
    pull_behind(alloc, link, &mut held, secret, replica)
}

/// Pulls where nothing is held yet of what came.
fn pull_behind<L: Link>(
    alloc: Global,
    link: &mut L,
    held: &mut Octets,
    secret: &[u8],
    replica: &mut Replica,
) -> Result<u32, PullFault>
    requires { held.old ≡ [] }
    ensures pulled { IfOk result (λ number. IsPulled secret.now replica.old replica.new
        (L.seen link.old) (L.seen link.new) number) }
    ensures fault { IfErr result (λ fault. IsPullFault secret.now replica.old replica.new
        (L.seen link.old) (L.seen link.new) fault) }
{
    show_secret(alloc, link, held, secret)?;
    follow(alloc, link, held, replica)?;
    ask_plain(alloc, link, held, Request::Bye, b"BYE\n")?;
    Ok(replica.length())
}

/// Shows the secret.
fn show_secret<L: Link>(
    alloc: Global,
    link: &mut L,
    held: &mut Octets,
    secret: &[u8],
) -> Result<(), PullFault>
    ensures passes { OnOk result (Passes Q.Admin (admin_line secret.now) ok_line held.old held.new
        (L.seen link.old) (L.seen link.new)) }
    ensures fault { IfErr result (λ fault. (holds : List Update) → IsStopped Q.Admin (admin_line secret.now) held.old
        (L.seen link.old) (L.seen link.new) holds holds fault) }
{
    let line = admin_line(alloc, secret)?;
    ask_plain(alloc, link, held, Request::Admin, line.as_slice())
}

/// Asks what is answered by `OK`.
fn ask_plain<L: Link>(
    alloc: Global,
    link: &mut L,
    held: &mut Octets,
    request: Request,
    line: &[u8],
) -> Result<(), PullFault>
    requires { request ≢ Q.Log }
    ensures passes { OnOk result (Passes request line.now ok_line held.old held.new
        (L.seen link.old) (L.seen link.new)) }
    ensures fault { IfErr result (λ fault. (holds : List Update) → IsStopped request line.now held.old
        (L.seen link.old) (L.seen link.new) holds holds fault) }
{
    let count = ask(alloc, link, held, request, line)?;
    let (answer, rest) = held.as_slice().split_at(count);
    judge_plain(answer)?;
    *held = Octets::from_slice(alloc, rest)?;
    Ok(())
}

/// Whether a line grants what was asked.
fn judge_plain(answer: &[u8]) -> Result<(), PullFault>
    ensures granted { OnOk result (answer.now ≡ ok_line) }
    ensures fault { IfErr result (λ fault. (request : Request) (holds : List Update) → request ≢ Q.Log
        → IsCause request holds answer.now fault holds) }
{
    if answer == b"OK\n".as_slice() {
        return Ok(());
    }
    match refusal_code(answer) {
        Some(code) => Err(PullFault::Denied { code }),
        None => Err(PullFault::Follow(FollowFault::Line { at: 0 })),
    }
}

/// Asks for updates until there are none.
fn follow<L: Link>(
    alloc: Global,
    link: &mut L,
    held: &mut Octets,
    replica: &mut Replica,
) -> Result<(), PullFault>
    ensures followed { OnOk result (IsFollowed replica.old replica.new held.old held.new
        (L.seen link.old) (L.seen link.new)) }
    ensures fault { IfErr result (λ fault. IsUnfollowed replica.old replica.new held.old
        (L.seen link.old) (L.seen link.new) fault) }
{
    let mut number = replica.length();
    'rounds: loop {
        if ask_log(alloc, link, held, number, replica)? == 0 {
            return Ok(());
        }
        number = replica.length();
    }
}

/// Asks for the updates behind those of the replica, and applies the reply.
fn ask_log<L: Link>(
    alloc: Global,
    link: &mut L,
    held: &mut Octets,
    number: u32,
    replica: &mut Replica,
) -> Result<u32, PullFault>
    requires { number ≡ length replica.old }
    ensures round { IfOk result (λ count. IsRound replica.old replica.new held.old held.new
        (L.seen link.old) (L.seen link.new) count) }
    ensures fault { IfErr result (λ fault. IsStopped Q.Log (log_line (length replica.old)) held.old
        (L.seen link.old) (L.seen link.new) replica.old replica.new fault) }
{
    let line = log_line(alloc, number)?;
    let count = ask(alloc, link, held, Request::Log, line.as_slice())?;
    let (answer, rest) = held.as_slice().split_at(count);
    let rest = Octets::from_slice(alloc, rest)?;
    let applied = take_answer(replica, answer)?;
    *held = rest;
    Ok(applied)
}

/// Applies an answer to LOG, if it is a reply.
fn take_answer(replica: &mut Replica, answer: &[u8]) -> Result<u32, PullFault>
    requires short { length answer.now ≤ REPLY_BYTES }
    ensures applied { IfOk result (λ count. IsApplied replica.old answer.now count replica.new) }
    ensures fault { IfErr result (λ fault. IsCause Q.Log replica.old answer.now fault replica.new) }
{
    if answer == b"NOMEM\n".as_slice() {
        return Err(PullFault::Unserved);
    }
    if let Some(code) = refusal_code(answer) {
        return Err(PullFault::Denied { code });
    }
    match replica.apply(answer) {
        Ok(count) => Ok(count),
        Err(FollowFault::NoMemory) => Err(PullFault::NoMemory),
        Err(fault) => Err(PullFault::Follow(fault)),
    }
}
