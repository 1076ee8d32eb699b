//! Reading a VALUE reply at the front of bytes.
ghost use Rattle.std.specs.Prelude.{◌≡◌, ℕ, List, Some, IfOk, IfSome, IsSomeAnd};
ghost use Rattle.kn_proof.specs.declared.reply.ReadReply.{ReadReply};
ghost use Rattle.kn_proof.specs.Reading.{IsReplyText};
ghost use Rattle.kn_reply_reader.specs.ValueReplies.{IsValueAt};

use crate::ending::cut_behind_end;
use kn_base::NoMemory;
use kn_proof::{ProofFault, ReadReply, read_reply};
use std::alloc::Global;

/// A `VALUE` reply that stands at the front of bytes.
#[derive(Drop)]
pub struct ValueReply<'a> {
    /// Its parts, as kn_proof reads them.
    pub reply: ReadReply,
    /// The bytes behind its last line, END.
    pub rest: &'a [u8],
}

/// The `VALUE` reply whose text stands at the front of bytes; None where none does. Its form is that of
/// `kn_proof::read_reply`. `NoMemory` comes only when memory runs out.
pub fn read_value(alloc: Global, left: &[u8]) -> Result<Option<ValueReply<'_>>, NoMemory>
    ensures stands { IfOk result (λ found. IfSome found (λ value. IsValueAt left.now value.reply value.rest.now)) }
    // Where the text of a reply stands there, it is this one.
    ensures only { (reply : ReadReply) (rest : List ℕ) → IsValueAt left.now reply rest
        → IfOk result (λ found. IsSomeAnd found (λ value. (value.reply ≡ reply) × (value.rest.now ≡ rest))) }
{
    let Some((text, rest)) = cut_behind_end(left) else {
        return Ok(None);
    };
    match read_whole(alloc, text)? {
        Some(reply) => Ok(Some(ValueReply { reply, rest })),
        None => Ok(None),
    }
}

/// The VALUE reply whose text this is; None where it is that of none.
fn read_whole(alloc: Global, text: &[u8]) -> Result<Option<ReadReply>, NoMemory>
    ensures read { IfOk result (λ found. IfSome found (IsReplyText text.now)) }
    ensures only { (reply : ReadReply) → IsReplyText text.now reply → IfOk result (λ found. found ≡ Some reply) }
{
    match read_reply(alloc, text) {
        Ok(reply) => Ok(Some(reply)),
        Err(ProofFault::NoMemory) => Err(NoMemory),
        Err(ProofFault::Line { .. } | ProofFault::Number { .. } | ProofFault::Count { .. }) => {
            Ok(None)
        }
    }
}
