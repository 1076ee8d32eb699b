//! The query of a session: what its view asks becomes the assertions of a query, which is built into a system and
//! answered, or searched for those that are critical. Bases of the shared credentials are kept from one query to the
//! next. Each statement is over the session's equations of the sequential specification.
#![tactic(auto)]

mod changed_rows;
mod critical;
mod following;
mod kept_bases;
mod level;
mod parts;
mod query;
mod shared_base;
mod shared_row;
mod shared_rows;
mod steady;

pub use critical::find_critical;
pub use kept_bases::KeptBases;
pub use level::{KnownLevel, find_level};
pub use query::{answer_query, build_query};
