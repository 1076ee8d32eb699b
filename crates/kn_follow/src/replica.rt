//! Replicas of a history.
ghost use Rattle.std.specs.Prelude.{◌≡◌, ◌<◌, ◌≤◌, ◌-◌, true, [], ◌∷◌, ◌++◌, length, IfOk, IfErr, OnOk, OnErr};
ghost use Rattle.std.specs.Arc.{arc_value};
ghost use Rattle.std.specs.List.{AllByRecursion};
ghost use Rattle.kn_history.specs.History.{is_valid_history};
ghost use Rattle.kn_follow.specs.Following.{IsApplied, IsFollowFault, IsReadFault, TakesReply, IsReplyFault};
ghost use Rattle.kn_follow.specs.Following.{Takes, IsTakingFault, may_be_taken, update_behind, IsUpdateFault};
ghost use Rattle.kn_follow.specs.Forms.{IsLogText, DepartsAt, HasForm, IsTellable};
ghost use Rattle.kn_follow.specs.InCode.{reply_of, update_of, updates_of};
ghost use Rattle.kn_follow.specs.declared.fault.FollowFault.TheVariants as F;

use crate::fault::FollowFault;
use crate::items::{ItemFault, make_items};
use crate::reading::read_reply;
use crate::reply::{REPLY_BYTES, ReadStop, Received, Reply};
use kn_base::{List, NoMemory};
use kn_history::BatchFault;
use kn_store::{Book, Snapshot};
use std::alloc::Global;
use std::marker::Model;

/// A replica of a history, seen as the updates that it holds.
#[derive(Drop)]
pub struct Replica {
    alloc: Global,
    book: Book,
}

impl Model for Replica {
    ghost use Rattle.std.specs.Prelude.{List};
    ghost use Rattle.kn_history.specs.declared.update.Update.{Update};

    ghost Value = { List Update };

    ghost view = { λ r. r.book };
}

impl Replica {
    /// A replica that holds no update.
    pub fn start(alloc: Global) -> Result<Replica, NoMemory>
        ensures { IfOk result (λ replica. replica ≡ []) }
    {
        let book = Book::empty(alloc)?;
        Ok(Replica { alloc, book })
    }

    /// How many updates it holds. Takes no memory.
    pub fn length(&self) -> u32
        ensures length { result ≡ length self.now }
        ensures valid { is_valid_history self.now ≡ true }
    {
        self.book.length()
    }

    /// The version of its updates. Takes no memory.
    pub fn snapshot(&self) -> &Snapshot
        ensures version { arc_value result.now ≡ self.now }
        ensures valid { is_valid_history self.now ≡ true }
    {
        self.book.snapshot()
    }

    /// Takes the updates of a reply to LOG behind those that it holds, and tells how many they are.
    ///
    /// `Line` comes where the text isn't of the form, `Gap` where it is to a client that holds another number of
    /// updates, and both leave the replica as before; `Refused` comes at the first update that may not follow those
    /// before it, which then stand. When out of memory, some first updates of the reply stand.
    #[tactic(auto, using(crate::proofs::Takings::follow_fault, crate::proofs::Takings::read_fault))]
    pub fn apply(&mut self, reply: &[u8]) -> Result<u32, FollowFault>
        requires short { length reply.now ≤ REPLY_BYTES }
        ensures applied { IfOk result (λ count. IsApplied self.old reply.now count self.new) }
        ensures fault { IfErr result (λ fault. IsFollowFault self.old reply.now fault self.new) }
    {
        let read = read_whole(self.alloc, reply)?;
        self.take_reply(&read)
    }

    /// Takes the updates of a reply.
    #[tactic(auto, using(crate::proofs::Takings::reply_fault))]
    pub(crate) fn take_reply(&mut self, reply: &Reply<'_>) -> Result<u32, FollowFault>
        requires form { HasForm (reply_of reply.now) }
        ensures taken { IfOk result (λ count. TakesReply self.old (reply_of reply.now) count self.new) }
        ensures fault { IfErr result (λ fault. IsReplyFault self.old (reply_of reply.now) fault self.new) }
    {
        let have = self.length();
        if reply.from != have {
            return Err(FollowFault::Gap {
                from: reply.from,
                have,
            });
        }
        self.take_updates(&reply.updates)?;
        Ok(reply.updates.len())
    }

    /// Takes updates in their order, up to the first that may not follow.
    fn take_updates(&mut self, updates: &List<Received<'_>>) -> Result<(), FollowFault>
        requires each { AllByRecursion IsTellable (updates_of updates.now) }
        ensures taken { OnOk result (Takes self.old (updates_of updates.now) self.new) }
        ensures fault { IfErr result (λ fault. IsTakingFault self.old (updates_of updates.now) fault self.new) }
    {
        for update in updates.as_slice() {
            self.take_update(update)?;
        }
        Ok(())
    }

    /// Takes an update, if it may follow.
    #[tactic(auto, using(crate::proofs::Takings::unreadable_text, crate::proofs::Takings::refused_change))]
    fn take_update(&mut self, update: &Received<'_>) -> Result<(), FollowFault>
        requires tellable { IsTellable (update_of update.now) }
        ensures may { OnOk result (may_be_taken self.old (update_of update.now) ≡ true) }
        ensures taken { OnOk result (self.new ≡ self.old ++ update_behind self.old (update_of update.now) ∷ []) }
        ensures fault { IfErr result (λ fault. IsUpdateFault self.old (update_of update.now) fault) }
        ensures kept { OnErr result (self.new ≡ self.old) }
    {
        let place = self.snapshot().number() + 1;
        let items = match make_items(self.alloc, &update.items) {
            Ok(items) => items,
            Err(ItemFault::Unreadable) => return Err(FollowFault::Refused { place }),
            Err(ItemFault::NoMemory) => return Err(FollowFault::NoMemory),
        };
        match self.book.prepare_batch(update.caller, items) {
            Ok(prepared) => {
                self.book.commit(prepared);
                Ok(())
            }
            Err(BatchFault::Item { .. }) => Err(FollowFault::Refused { place }),
            Err(BatchFault::NoMemory) => Err(FollowFault::NoMemory),
        }
    }
}

/// The reply that a text is.
#[tactic(auto, using(crate::proofs::Replies::whole_form, crate::proofs::Replies::behind_form, crate::proofs::Replies::stops_form, crate::proofs::Replies::read_within, crate::proofs::Replies::stop_within))]
fn read_whole<'a>(alloc: Global, text: &'a [u8]) -> Result<Reply<'a>, FollowFault>
    requires short { length text.now ≤ REPLY_BYTES }
    ensures form { IfOk result (λ reply. IsLogText text.now (reply_of reply)) }
    ensures fault { IfErr result (λ fault. IsReadFault text.now fault) }
{
    match read_reply(alloc, text) {
        Ok((reply, rest)) => {
            if rest.is_empty() {
                Ok(reply)
            } else {
                Err(line_fault(text, rest))
            }
        }
        Err(ReadStop::Departs(rest)) => Err(line_fault(text, rest)),
        Err(ReadStop::NoMemory) => Err(FollowFault::NoMemory),
    }
}

/// The fault of a text of which this is left where it departs from the form.
pub(crate) fn line_fault(text: &[u8], rest: &[u8]) -> FollowFault
    requires short { length text.now ≤ REPLY_BYTES }
    requires rest { length rest.now ≤ length text.now }
    ensures { result ≡ F.Line (length text.now - length rest.now) }
{
    FollowFault::Line {
        at: (text.len() - rest.len()) as u32,
    }
}
