//! The critical assertions of a query: those without which its compliance value would be lower.
#![tactic(auto)]

mod fault;
mod question;
mod remembered;
mod runs;
mod search;

pub use fault::CriticalFault;
pub use search::{Critical, find_critical};
