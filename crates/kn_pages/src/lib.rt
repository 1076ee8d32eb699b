//! Lists in pages, which the lists that are made of them share.
#![tactic(auto)]

mod pages;
mod sharing;

pub use pages::{Pages, Shareable};
pub use sharing::{share_into, share_items};
