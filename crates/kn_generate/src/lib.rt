//! A generator of credentials and of a query over them, the same for the same numbers: the yardstick of speed.
#![tactic(auto)]

mod draws;
pub mod laws;
mod query;
mod text;
mod texts;

pub use query::{Measured, build_generated, measure, measure_built, value_name};
pub use texts::generate_texts;
