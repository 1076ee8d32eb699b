//! A ticket turn over one value that only grows, and the passes of those who take it.
//!
//! The value is a list of entries. Whoever has the turn takes the value out, may add an entry to it, and brings it
//! home. A pass carries in proofs what its holder has seen of the one list, and what it added itself.
#![tactic(auto)]

mod logged;
mod parking;
mod pass;
mod steps;
mod turn;
mod view;

pub use logged::Logged;
pub use pass::Pass;
pub use turn::Turn;
