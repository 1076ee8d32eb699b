//! Proofs of compliance values: their rows over numbered principals, and over names as `VALUE` replies tell them; the
//! text of such a reply, and the reader of it: its parts, or its first fault.
#![tactic(auto)]

mod fault;
mod header;
pub mod laws;
mod named;
mod quoted;
mod reader;
mod reply;
mod row;
mod row_line;
mod text;

pub use fault::ProofFault;
pub use named::{Id, NamedRow};
pub use reader::{read_reply, scan_reply};
pub use reply::{FILE_ROWS, ReadReply, ReplyHead};
pub use row::{Proof, Row};
