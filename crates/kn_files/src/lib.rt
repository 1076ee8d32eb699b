//! Policy files (keynote(5)): the texts of their assertions.
#![tactic(auto)]

pub mod laws;
mod split;
mod within;

pub use split::split_file;
