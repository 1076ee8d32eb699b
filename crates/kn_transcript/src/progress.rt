//! What a transcript has come to.

use crate::connection::Connection;
use kn_store::Book;

/// What the first requests of a transcript and their replies have come to.
#[derive(Drop)]
pub(crate) struct Progress<'a> {
    /// The shared credentials, with the updates that replies accept.
    pub book: Book,
    pub connection: Connection,
    /// The bytes of the replies that are left.
    pub left: &'a [u8],
    /// How many replies gave a value.
    pub answers: u32,
}
