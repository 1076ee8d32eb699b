//! Verifying a reply offline: whether its rows prove its value of the query that a session asks.
#![tactic(auto)]

pub mod laws;
mod verdict;

pub use verdict::{Refused, is_reply_to, verify};
