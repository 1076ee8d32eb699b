//! The parts of a reply with a value.
use crate::named::NamedRow;
use kn_base::{List, Octets};

/// The most rows of a reply that fits into a file.
pub const FILE_ROWS: u32 = 1_398_099;

/// What line 1 of a reply tells of it, beside the number of its rows.
#[derive(Clone, Copy)]
pub struct ReplyHead<'a> {
    /// The place of the compliance value among those of the query, counted from the lowest, 0.
    pub value: u8,
    /// The name of the compliance value.
    pub name: &'a [u8],
    /// The version of the credentials that were used.
    pub version: u32,
}

/// A `VALUE` reply by its parts: a compliance value, and the rows that prove it.
#[derive(Drop)]
pub struct ReadReply {
    /// The place of the compliance value among those of the query, counted from the lowest, 0.
    pub value: u8,
    /// The name of the compliance value.
    pub name: Octets,
    /// The version of the credentials that were used.
    pub version: u32,
    /// The rows of the proof in their order: each stands on those before it.
    pub rows: List<NamedRow>,
}

impl ReadReply {
    ghost use Rattle.kn_proof.specs.Reading.{IsHeadOf};

    /// What line 1 of the reply has beside the number of its rows.
    pub fn head(&self) -> ReplyHead<'_>
        ensures { IsHeadOf self.now result.value result.name.now result.version }
    {
        ReplyHead {
            value: self.value,
            name: self.name.as_slice(),
            version: self.version,
        }
    }
}
