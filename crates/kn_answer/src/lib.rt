//! Answers to queries: assertions and a query become a system over numbered principals, which is settled, and its proof
//! is given by names. And back: a proof that a reply has by names is found again in a system.
#![tactic(auto)]

mod answers;
mod assertions;
mod base;
mod built;
mod conditions;
mod ids;
pub mod laws;
mod narrowed_base;
mod types;
mod unaffected;
mod with_others;

pub use answers::answer;
pub use assertions::Assertions;
pub use base::Base;
pub use built::{Built, build, locate};
pub use conditions::{ConditionValues, Evaluated};
pub use types::Answer;
