//! Replies to LOG, as they are read.

use kn_base::{List, NoMemory};
use kn_wire::BatchItem;

/// The greatest number in a reply: its numbers have at most nine digits.
pub(crate) const NINE_DIGITS: u32 = 999_999_999;

/// The most bytes of a reply.
pub const REPLY_BYTES: usize = 300_000;

/// An update as a reply tells it.
#[derive(Drop)]
pub(crate) struct Received<'a> {
    pub caller: u32,
    pub items: List<BatchItem<'a>>,
}

/// A reply to a client that holds the first `from` updates, where there are `place` of them.
#[derive(Drop)]
pub(crate) struct Reply<'a> {
    pub from: u32,
    pub place: u32,
    pub updates: List<Received<'a>>,
}

/// Why nothing is read of a text.
#[derive(Clone, Copy, Drop)]
pub(crate) enum ReadStop<'a> {
    /// These are the bytes from the first one on that can't stand there, or none where the text breaks off.
    Departs(&'a [u8]),
    NoMemory,
}

impl<'a> From<NoMemory> for ReadStop<'a> {
    ghost use Rattle.std.specs.Prelude.{◌≡◌};
    ghost use Rattle.kn_follow.specs.declared.reply.ReadStop.TheVariants as R;

    ghost from_gives = { λ _ stop. stop ≡ R.NoMemory };

    fn from(_none: NoMemory) -> ReadStop<'a> {
        ReadStop::NoMemory
    }
}
