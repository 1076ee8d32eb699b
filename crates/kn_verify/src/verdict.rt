//! Whether a reply proves the value of a query.
ghost use Rattle.std.specs.Prelude.{◌≡◌, ◌+◌, ◌^◌, ◌<◌, ◌↔◌, [], IsTrue, All, length, slice_index, IfErr, IfOk, OnOk};
ghost use Rattle.kn_env.specs.Environment.{AreRequesters};
ghost use Rattle.kn_proof.specs.declared.reply.ReadReply.{ReadReply};
ghost use Rattle.kn_proof.specs.Reading.{IsHeadOf};
ghost use Rattle.kn_system.specs.Least.{least_levels};
ghost use Rattle.kn_system.specs.Proofs.{IsProof};
ghost use Rattle.kn_session.specs.Views.{session_of_view, AreReadPrivates, ArePrivates};
ghost use Rattle.kn_daemon.specs.Daemon.{equations_of};
ghost use Rattle.kn_verify.specs.Verdicts.{IsReplyTo, IsProved, IsRefusal, IsStepsRefusal};

use kn_answer::laws::located_proofs;
use kn_answer::{Built, locate};
use kn_base::{NoMemory, Steps};
use kn_check::{Reject, check};
use kn_env::Values;
use kn_proof::{Proof, ReadReply, ReplyHead};
use kn_query::build_query;
use kn_rows::Tally;
use kn_session::View;
use kn_store::Version;
use kn_system::laws::least_levels_are_least;
use std::alloc::Global;

/// Why a reply isn't accepted.
#[derive(Clone, Copy, PartialEq, Eq)]
pub enum Refused {
    /// It is the reply to another query: its version isn't the one that the session is pinned to, or its name isn't
    /// that of its value among the query's.
    Other,
    /// Its rows are no proof of its value: the first item that fails.
    Rejected(Reject),
    /// Out of memory.
    NoMemory,
}

impl From<NoMemory> for Refused {
    ghost use Rattle.std.specs.Prelude.{◌≡◌};
    ghost use Rattle.kn_verify.specs.declared.verdict.Refused.TheVariants.{NoMemory};

    ghost from_gives = { λ _ e. e ≡ NoMemory };

    fn from(_none: kn_base::NoMemory) -> Refused {
        Refused::NoMemory
    }
}

/// Whether a reply proves its value of what a session asks where these are the compliance values.
///
/// `NoMemory` comes only when memory runs out, and never for the reply to another query, which needs none.
pub fn verify(
    alloc: Global,
    view: &View<'_>,
    values: &Values,
    reply: &ReadReply,
) -> Result<(), Refused>
    requires privates { ArePrivates (session_of_view view.now).privates }
    requires readings { AreReadPrivates view.now.private.now }
    requires requesters { AreRequesters view.now.requesters.now }
    ensures ok { OnOk result (IsProved (equations_of (session_of_view view.now) values.now)
        (length (session_of_view view.now).pinned) values.now reply.now) }
    ensures refused { IfErr result (IsRefusal (equations_of (session_of_view view.now) values.now)
        (length (session_of_view view.now).pinned) values.now reply.now) }
{
    if !is_reply_to(&reply.head(), view, values) {
        return Err(Refused::Other);
    }
    located_proofs();
    least_levels_are_least();
    let built = build_query(alloc, view, values)?;
    let proof = locate(alloc, &built, reply)?;
    follow(alloc, &built, &proof, reply.value)
}

/// Whether the reply with this head is one to what a session asks where these are the compliance values: it tells the
/// version to which the session is pinned, and one of the values by its name. Takes no memory.
pub fn is_reply_to(head: &ReplyHead<'_>, view: &View<'_>, values: &Values) -> bool
    ensures { (reply : ReadReply) → IsHeadOf reply head.now.value head.now.name.now head.now.version
        → (IsTrue result ↔ IsReplyTo (length (session_of_view view.now).pinned) values.now reply) }
{
    let version: &Version = view.snapshot;
    tells(head, version.number(), values)
}

/// Whether a head tells this version, and one of these values by its name.
fn tells(head: &ReplyHead<'_>, version: u32, values: &Values) -> bool
    ensures { IsTrue result ↔ IsReplyTo version values.now (record {
      value = head.now.value;
      name = head.now.name.now;
      version = head.now.version;
      rows = [];
    }) }
{
    head.version == version && head.value < values.len() && head.name == values.name(head.value)
}

/// Whether the rows prove the value in the system of a query.
fn follow(alloc: Global, built: &Built, proof: &Proof, value: u8) -> Result<(), Refused>
    ensures ok { OnOk result (IsProof built.now.system proof.now.rows value) }
    ensures least { OnOk result (value ≡ slice_index (least_levels built.now.system) 0) }
    ensures refused { IfErr result (λ refused. IsStepsRefusal built.now.system proof.now.rows value refused) }
{
    let system = built.system();
    let Ok(mut levels) = vec![in alloc; 0; system.principals() as usize] else {
        return Err(Refused::NoMemory);
    };
    let mut steps = Steps::start(Tally);
    match check(system, proof, value, &mut levels, &mut steps) {
        Ok(()) => Ok(()),
        Err(reject) => Err(Refused::Rejected(reject)),
    }
}
