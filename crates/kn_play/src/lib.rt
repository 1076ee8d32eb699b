//! Playing a script of the line protocol offline: the query that it means over a book of the shared credentials.
//!
//! The script is played on a daemon of one thread without a secret, so ADMIN, ADD, DROP, BATCH and LOG are always
//! refused. A session is pinned to the newest version, unless it asks for another one that the book retains.
#![tactic(auto)]

mod answering;
mod applying;
mod asking;
mod last_query;
pub mod laws;
mod playing;
mod query;
mod script;

pub use answering::{is_block, is_bye};
pub use last_query::LastQuery;
pub use query::find_query;
pub use script::push_chunk;
