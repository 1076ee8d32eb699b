//! Histories of updates to the shared credentials: what an update is, what refuses one, and the laws of both.
#![tactic(auto)]

mod credential;
mod fault;
mod item;
pub mod laws;
mod update;

pub use credential::{Credential, Ready};
pub use fault::{BatchFault, StoreFault};
pub use item::{Item, count_additions};
pub use update::{Change, Numbered, Update};
