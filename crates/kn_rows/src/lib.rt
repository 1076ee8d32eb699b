//! Assertions as rows of a system over numbered principals. For one query alone rows may be narrowed: a principal
//! without a number has the lowest level in them.
#![tactic(auto)]

pub mod laws;
mod narrowed_rows;
mod node_count;
mod numbered;
mod parts;

pub use node_count::count_nodes;
pub use numbered::{Numbered, ceiling_of, numbered_query};
pub use parts::{Part, QUERY_BYTES, Tally};
