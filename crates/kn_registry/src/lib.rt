//! The shared book: one history of updates, which passes read and add to at their turns.
//!
//! A snapshot is shared. It is read after the turn was given back, so no question holds anybody up.
#![tactic(auto)]

mod answer;
mod registry;

pub use answer::{Batched, PinFault};
pub use registry::{Pass, Registry, SharedBook};
