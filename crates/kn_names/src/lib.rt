//! Names by numbers: a table of names that takes few bytes beside the names themselves.
#![tactic(auto)]

mod arena;
mod names;

pub use names::Names;
