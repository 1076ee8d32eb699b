//! The environment in which names have values.
#![tactic(auto)]

mod attributes;
mod constant;
mod environment;
mod values;

pub use attributes::{Absent, Attributes, EnvFault, is_attribute_name};
pub use constant::Constant;
pub use environment::{Env, Query, constant_value};
pub use values::{Values, ValuesFault};
