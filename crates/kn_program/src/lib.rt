//! The Conditions field (RFC 2704, section 4): the program that its tokens spell, or its first fault.
#![tactic(auto)]

mod clauses;
mod expression;
mod fault;
pub mod laws;
mod operators;
mod reader;
mod signs;
mod tree;

pub use fault::ProgramFault;
pub use reader::conditions;
