//! Followers: replicas of a history that grow by the replies to LOG (keynoted's own).
//!
//! The form of a reply, and the byte at which a text departs from it, are defined in `specs/` apart from the reader
//! here.
#![tactic(auto)]

mod answer;
mod asking;
mod fault;
mod files;
mod items;
pub mod laws;
mod numbers;
mod pull_fault;
mod pulling;
mod reading;
mod replica;
mod reply;
mod request;

pub use fault::FollowFault;
pub use files::follow;
pub use pull_fault::PullFault;
pub use pulling::pull;
pub use replica::Replica;
pub use reply::REPLY_BYTES;
