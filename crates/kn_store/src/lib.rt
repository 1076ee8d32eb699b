//! The shared credentials: the book that keeps a history of updates, and its versions, which share pages.
#![tactic(auto)]

mod book;
mod earlier;
mod live_credential;
mod live_set;
mod log;
mod version;

pub use book::{Book, Done, Prepared};
pub use version::{Snapshot, Version};
