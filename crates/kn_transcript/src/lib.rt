//! Transcripts: what a client sent on a whole connection and what it got, judged from the policy alone.
//!
//! `verify` takes a script and its replies, request by request. The definitions of an accepted transcript and of each
//! fault of one stand in `specs/`, with their laws. Beside them are judges of single replies. Whether the text of any
//! reply stands at the front of bytes is kn_reply_reader's. A reply to QUERY is checked by its rows, and no query is
//! settled.
#![tactic(auto)]

mod answering;
mod batching;
mod calling;
mod connection;
mod connection_replies;
mod fault;
mod items;
mod judging;
pub mod laws;
mod matching;
mod opening;
mod progress;
mod querying;
mod script;
mod updating;
mod verdicts;
mod verifying;

pub use fault::{AUTH_FAULTS, TranscriptFault};
pub use verifying::{Verified, verify};
