//! The equations of a query over numbered principals, and the laws of their least levels.
#![tactic(auto)]

mod formula;
mod last_uses;
pub mod laws;
mod node_table;
mod nodes;
mod rows;
mod stored_node;
mod system;

pub use nodes::{Node, NodeSort, Up};
pub use rows::Piece;
pub use system::System;
