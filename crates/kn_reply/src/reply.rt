//! What a reply tells.

use crate::refusal::Refusal;
use kn_base::List;
use kn_proof::{Id, NamedRow};
use kn_store::Snapshot;

/// A reply of the line protocol (keynoted's own), as it is printed.
///
/// `s` is the number of a session, `version` the length of the history that it stands on, `k` the number of an
/// assertion behind its letter.
#[derive(Clone, Copy)]
pub enum Reply<'a> {
    /// The request was done, and there is nothing else to report.
    Ok,
    /// A session was opened, pinned to this version.
    Started {
        s: u32,
        version: u32,
    },
    /// A session was pinned to this version, or a removal made it.
    Number {
        version: u32,
    },
    /// A private assertion was added.
    Private {
        k: u32,
    },
    /// A shared credential was added.
    Added {
        k: u32,
        version: u32,
    },
    /// The compliance value of this index, counted from the lowest, 0, and its name, with the rows that prove it.
    Value {
        index: u8,
        name: &'a [u8],
        version: u32,
        rows: &'a List<NamedRow>,
    },
    /// An update of the items of a batch was made, `added` of them additions. `first` is the number of additions before
    /// the update plus 1, also where it has none; where it has any, that is the id of its first.
    Batched {
        first: u32,
        added: u32,
        version: u32,
    },
    /// A retained version was pinned; `newest` is the newest one.
    PinnedAt {
        version: u32,
        newest: u32,
    },
    /// The updates behind the first `n` of those that made this version, as many as a reply tells.
    Log {
        n: u32,
        snapshot: &'a Snapshot,
    },
    /// The compliance value of a standing query, by its index, counted from the lowest, 0, and its name, over this
    /// version. No rows prove it.
    News {
        index: u8,
        name: &'a [u8],
        version: u32,
    },
    /// The compliance value of a query by its index, and the assertions without each of which it would be lower, in the
    /// order of the query's assertions.
    Critical {
        index: u8,
        ids: &'a List<Id>,
    },
    /// The request is refused, and changed nothing.
    No(Refusal),
    /// Out of memory for the request, which changed nothing.
    NoMemory,
}
