//! Settling: the least levels of a system, with a proof, and those of one query over a base, on demand.
#![tactic(auto)]

mod ceilings;
mod counters;
mod levels;
mod query_system;
mod reaching;
mod requesters;
mod scratch;
mod settling;

pub use ceilings::Ceilings;
pub use scratch::Scratch;
pub use settling::{Settled, SettledPolicy, settle, settle_on_demand};
