//! Files of replies to LOG.
ghost use Rattle.std.specs.Prelude.{◌≡◌, ◌<◌, ◌≤◌, ℕ, List, take, length, IfOk, IfErr};
ghost use Rattle.kn_follow.specs.Files.{IsLogFile, IsLogFault, AppliesFirst, AppliesFront, IsFrontFault};
ghost use Rattle.kn_follow.specs.Files.{StartsWith, IsFrontReadFault};
ghost use Rattle.kn_follow.specs.Forms.{HasForm};
ghost use Rattle.kn_follow.specs.InCode.{reply_of};
ghost use Rattle.kn_follow.specs.declared.reply.TheConstants.{REPLY_BYTES};

use crate::fault::FollowFault;
use crate::reading::read_reply;
use crate::replica::{Replica, line_fault};
use crate::reply::{REPLY_BYTES, ReadStop, Reply};
use kn_base::Octets;
use std::alloc::Global;

/// The replica that the replies of a file make, which is these one after the other.
///
/// `Line` comes where no whole reply of at most 300,000 bytes stands behind those that were applied, `Gap` and
/// `Refused` where one does and isn't applied; `at` counts from where that reply begins, and is 300,000 where it keeps
/// the form past this. When out of memory, nothing is said of the file. No more is kept than the replica, what is read
/// of one reply, and the bytes that weren't applied, which a shorter copy takes the place of when a quarter of them
/// was.
#[tactic(auto, using(crate::proofs::Fronts::follow_begun, crate::proofs::Fronts::follow_ended, crate::proofs::Fronts::follow_unbegun))]
pub fn follow(alloc: Global, log: Octets) -> Result<Replica, FollowFault>
    ensures followed { IfOk result (λ replica. IsLogFile log replica) }
    ensures refused { IfErr result (λ fault. IsLogFault log fault) }
{
    let mut replica = Replica::start(alloc)?;
    let mut left = log;
    'parts: while !left.is_empty() {
        left = take_part(alloc, &mut replica, left)?;
    }
    Ok(replica)
}

/// Applies replies at the front of these bytes, which are a quarter of them or more, and gives a copy of the others. So
/// the memory of those that were applied is free for what comes of them.
fn take_part(alloc: Global, replica: &mut Replica, held: Octets) -> Result<Octets, FollowFault>
    requires some { 1 ≤ length held }
    ensures shorter { IfOk result (λ left. length left < length held) }
    ensures applied { IfOk result (λ left. (text : List ℕ) → AppliesFirst text held replica.old
        → AppliesFirst text left replica.new) }
    ensures fault { IfErr result (λ fault. (text : List ℕ) → AppliesFirst text held replica.old
        → IsLogFault text fault) }
{
    let rest = take_replies(alloc, replica, held.as_slice())?;
    let left = Octets::from_slice(alloc, rest)?;
    Ok(left)
}

/// Applies replies at the front of these bytes until at most three quarters of them are left, and gives these.
fn take_replies<'a>(
    alloc: Global,
    replica: &mut Replica,
    bytes: &'a [u8],
) -> Result<&'a [u8], FollowFault>
    requires some { 1 ≤ length bytes.now }
    ensures shorter { IfOk result (λ rest. length rest.now < length bytes.now) }
    ensures applied { IfOk result (λ rest. (text : List ℕ) → AppliesFirst text bytes.now replica.old
        → AppliesFirst text rest.now replica.new) }
    ensures fault { IfErr result (λ fault. (text : List ℕ) → AppliesFirst text bytes.now replica.old
        → IsLogFault text fault) }
{
    let most = bytes.len() / 4 * 3;
    let mut rest = bytes;
    'replies: while rest.len() > most {
        rest = take_front(alloc, replica, rest)?;
    }
    Ok(rest)
}

/// Applies the reply at the front of these bytes, and gives those behind it.
fn take_front<'a>(
    alloc: Global,
    replica: &mut Replica,
    bytes: &'a [u8],
) -> Result<&'a [u8], FollowFault>
    requires some { 1 ≤ length bytes.now }
    ensures shorter { IfOk result (λ rest. length rest.now < length bytes.now) }
    ensures applied { IfOk result (λ rest. AppliesFront replica.old bytes.now rest.now replica.new) }
    ensures fault { IfErr result (λ fault. IsFrontFault replica.old bytes.now fault) }
{
    let (reply, rest) = read_front(alloc, bytes)?;
    replica.take_reply(&reply)?;
    Ok(rest)
}

/// The reply at the front of these bytes, and those behind it.
fn read_front<'a>(alloc: Global, bytes: &'a [u8]) -> Result<(Reply<'a>, &'a [u8]), FollowFault>
    requires some { 1 ≤ length bytes.now }
    ensures form { IfOk result (λ x. StartsWith bytes.now (reply_of x.0) x.1.now) }
    ensures fault { IfErr result (λ fault. IsFrontReadFault bytes.now fault) }
{
    let window = first_bytes(bytes);
    match read_reply(alloc, window) {
        Ok((reply, behind)) => {
            let (_, rest) = bytes.split_at(window.len() - behind.len());
            Ok((reply, rest))
        }
        Err(ReadStop::Departs(left)) => Err(line_fault(window, left)),
        Err(ReadStop::NoMemory) => Err(FollowFault::NoMemory),
    }
}

/// As many of the first bytes as a reply may have, or all of them where they are fewer.
fn first_bytes(bytes: &[u8]) -> &[u8]
    ensures first { result.now ≡ take REPLY_BYTES bytes.now }
    ensures short { length result.now ≤ REPLY_BYTES }
    ensures within { length result.now ≤ length bytes.now }
{
    let (first, _) = bytes.split_at(REPLY_BYTES.min(bytes.len()));
    first
}
