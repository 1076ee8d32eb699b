//! Conditions programs (RFC 2704, section 4, the Conditions field): their compliance value in a query.
#![tactic(auto)]

mod evaluation;
mod numbers;
mod outcome;
mod programs;
mod texts;

pub use programs::{conditions_value, field_value};
