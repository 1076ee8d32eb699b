//! The Licensees field (RFC 2704, section 4): the formula that its tokens spell, or its first fault.
#![tactic(auto)]

mod fault;
mod grammar;
pub mod laws;
mod normal_formula;
mod reader;
mod threshold;
mod written;

pub use fault::FormulaFault;
pub use reader::licensees;
