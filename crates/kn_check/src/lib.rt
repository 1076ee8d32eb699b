//! Checking a proof of a level: whether its rows stand, in order, and prove the level that is claimed.
#![tactic(auto)]

mod reject;
mod rows;

pub use reject::Reject;
pub use rows::check;
